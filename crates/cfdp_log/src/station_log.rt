//! The log of a station: a line for what its user asks for and hears, and what is known of that.
pub mod json;
pub mod line;
pub mod noted;
pub mod overview;
pub mod register;
pub mod stopped;
pub mod style;
pub mod telling;
pub mod totals;

use crate::station_log::line::LINE_ROOM;
use crate::station_log::noted::NotedTopics;
use crate::station_log::overview::{
    Clock, Figures, Form, Waiting, shown_alone, shown_open, write_counters, write_list,
};
use crate::station_log::register::{Hour, Register, copied, is_one_of, told_id};
use crate::station_log::style::{Log, Style, unix_time};
use crate::station_log::telling::{
    Why, tell_change, tell_end, tell_file, tell_indication, tell_note, tell_refusal, tell_rekey,
};
use crate::station_log::totals::Totals;
use cfdp_console::Open;
use cfdp_directives::Indication;
use cfdp_exchange::{Exchange, Note};
use cfdp_header::TransactionId;
use cfdp_report::Exit;
use cfdp_service::{PutNames, Reply, SpoolOutcome};
use cfdp_station::{PutError, Station};
use cfdp_store::{Inbox, Outbox};
use std::alloc::AllocError;
use std::io::Write;
use std::marker::Model;
use std::{fmt, fs};

/// What a log is of, and where it looks.
#[derive(Clone, Copy)]
pub struct LogSetup<'a> {
    /// Whose log it is, and how it is written.
    pub log: Log<'a>,
    /// The folder of the files that are sent, if there is one: their lengths are looked up there.
    pub outbox: Option<&'a str>,
    /// What was counted of the link.
    pub exchange: &'a Exchange,
}

/// The log of a station, and what is known of its transactions. What calls write may lie in the
/// buffer of the writer until [`looks_at`](Self::looks_at) or [`ends`](Self::ends): so the lines of
/// a turn leave it by few calls of the system. Once the writer has failed, nothing more is written.
#[derive(Drop)]
pub struct StationLog<'a, V: Write + Drop> {
    setup: LogSetup<'a>,
    out: V,
    // A line while it is made up.
    line: Vec<u8>,
    has_failed: bool,
    register: Register,
    totals: Totals,
    noted: NotedTopics,
    // The last put that was refused.
    refused: Option<RefusedPut>,
}

impl<'a, V: Write + Drop> Model for StationLog<'a, V> {
    ghost use Rattle.cfdp_log.specs.Log.Written.{JournalState};

    ghost Value = { JournalState };

    ghost view = { λ j. record {
      own = j.setup.log.own;
      style = j.setup.log.style;
      written = V.contents j.out;
      has_failed = j.has_failed;
      totals = j.totals;
    } };
}

/// A put that was refused.
#[derive(Drop)]
struct RefusedPut {
    names: PutNames,
    error: PutError,
}

impl<'a, V: Write + Drop> StationLog<'a, V> {
    ghost use Rattle.std.specs.Io.KnownBytes.{Keeps};
    ghost use Rattle.std.specs.Prelude.{◌≡◌, ◌||◌, IfOk, Some, false};
    ghost use Rattle.cfdp_report.specs.Exit.{run_exit};
    ghost use Rattle.cfdp_log.specs.Log.Lines.{Answers, Completes, Notes, Tells};
    ghost use Rattle.cfdp_log.specs.Log.Lines.{refusal_answer};
    ghost use Rattle.cfdp_log.specs.Log.Totals.{with_failures};
    ghost use Rattle.cfdp_log.specs.Log.Written.{AnswersPut, CountsPut, CountsTold, Logs};
    ghost use Rattle.cfdp_log.specs.Log.Written.{begins};

    /// Returns a log before anything was given to it. The log goes to this writer.
    ///
    /// # Errors
    ///
    /// `AllocError` if there is no memory for a line.
    pub fn new(setup: LogSetup<'a>, out: V) -> Result<Self, AllocError>
        ensures { IfOk result (λ journal. journal
            ≡ begins setup.entry.log.own setup.entry.log.style (V.contents out)
            Totals.NONE) }
    {
        let alloc = setup.log.rt.alloc();
        let room = match setup.log.style {
            Style::Text => LINE_ROOM,
            Style::Plain | Style::Json { .. } => 0,
        };
        Ok(StationLog {
            setup,
            out,
            line: Vec::with_capacity(alloc, room)?,
            has_failed: false,
            register: Register::new(alloc),
            totals: Totals::NONE,
            noted: NotedTopics::new(alloc),
            refused: None,
        })
    }

    /// Hears how a put of these names was answered; of a file that was put before if `is_again`.
    /// A line reports one that was refused, with how many puts were made.
    pub fn put_answered(&mut self, names: &PutNames, reply: Reply, is_again: bool)
        ensures { AnswersPut reply is_again self.old self.new }
    {
        match reply {
            Reply::Put(Ok(id)) => self.put_accepted(names, id, is_again),
            Reply::Put(Err(error)) => self.put_refused(names, error, is_again),
            Reply::Change(_) => {}
        }
    }

    fn put_accepted(&mut self, names: &PutNames, id: TransactionId, is_again: bool)
        ensures counts { CountsPut (Ok id) is_again self.old.totals self.new.totals }
        ensures logs { Logs Notes self.old self.new }
    {
        self.totals.counts_put(Ok(id), is_again);
        self.refused = None;
        let size = length_of(self.setup, names);
        let time = unix_time(self.setup.log.rt);
        self.register.begins(id, names, size, time);
    }

    fn put_refused(&mut self, names: &PutNames, error: PutError, is_again: bool)
        ensures counts { CountsPut (Err error) is_again self.old.totals self.new.totals }
        ensures logs { Logs (Answers self.new.totals.made (Some (refusal_answer error))) self.old
            self.new }
    {
        self.totals.counts_put(Err(error), is_again);
        self.refused = refused_put(self.setup.log, names, error);
        if self.has_failed {
            return;
        }
        let (log, made) = (self.setup.log, self.totals.made);
        let told = tell_refusal(&mut self.out, &mut self.line, log, made, names, error);
        self.has_failed = told.is_err();
    }

    /// Hears how the change of a transaction was answered that was asked for last. If it was
    /// refused a line says so, except in the plain style.
    pub fn change_answered(&mut self, reply: Reply)
        ensures logs { Logs Notes self.old self.new }
        ensures totals { self.new.totals ≡ self.old.totals }
    {
        if self.has_failed {
            return;
        }
        if let Reply::Change(Err(error)) = reply {
            let told = tell_change(&mut self.out, &mut self.line, self.setup.log, error);
            self.has_failed = told.is_err();
        }
    }

    /// Reports that the station changed its keys, in a line, except in the plain style.
    pub fn rekeyed(&mut self)
        ensures logs { Logs Notes self.old self.new }
        ensures totals { self.new.totals ≡ self.old.totals }
    {
        if self.has_failed {
            return;
        }
        let told = tell_rekey(&mut self.out, &mut self.line, self.setup.log);
        self.has_failed = told.is_err();
    }

    /// Hears what the station indicates. A line says it.
    pub fn hears(&mut self, indication: &Indication)
        ensures counts { CountsTold self.old.own indication.now self.old.totals self.new.totals }
        ensures logs { Logs (Tells indication.now) self.old self.new }
    {
        let (log, id) = (self.setup.log, told_id(indication));
        let is_over = self.register.is_over(id);
        let now = Hour {
            told: self.setup.exchange.told.get(),
            unix: unix_time(log.rt),
        };
        self.register.hears(indication, now);
        let size = self.register.size(id);
        self.totals.hears(log.own, indication, is_over, size);
        if self.has_failed {
            return;
        }
        let names = self.register.names(id);
        let told = tell_indication(&mut self.out, &mut self.line, log, indication, names);
        self.has_failed = told.is_err();
    }

    /// Counts a note of this second since the start. A line reports it, except in the plain style.
    pub fn notes(&mut self, note: &Note, second: u64)
        ensures logs { Logs Notes self.old self.new }
        ensures totals { self.new.totals ≡ self.old.totals }
    {
        self.noted.counts(note, second);
        if self.has_failed {
            return;
        }
        let names = self.register.names_of(note.id);
        let told = tell_note(&mut self.out, &mut self.line, self.setup.log, note, names);
        self.has_failed = told.is_err();
    }

    /// Hears what became of a file that lay in a spool. A line says it, and why, if that is
    /// known, but in the plain style.
    pub fn ends_file(&mut self, name: &[u8], outcome: SpoolOutcome)
        ensures logs { Logs Notes self.old self.new }
        ensures totals { self.new.totals ≡ self.old.totals }
    {
        if self.has_failed {
            return;
        }
        let why = self.why(name, outcome);
        let told = tell_file(
            &mut self.out,
            &mut self.line,
            self.setup.log,
            name,
            outcome,
            why,
        );
        self.has_failed = told.is_err();
    }

    /// Hears that the station is at its end. The last lines report its counters, except in the
    /// plain
    /// style, and how many of the files that it must send were sent.
    pub fn ends<O: Outbox, I: Inbox>(&mut self, station: &Station<O, I>)
        ensures logs { Logs (Completes self.old.totals.complete self.old.totals.asked) self.old
            self.new }
        ensures totals { self.new.totals ≡ self.old.totals }
    {
        self.tells_end(station);
        self.write_out();
    }

    fn tells_end<O: Outbox, I: Inbox>(&mut self, station: &Station<O, I>)
        ensures logs { Logs (Completes self.old.totals.complete self.old.totals.asked) self.old
            self.new }
        ensures totals { self.new.totals ≡ self.old.totals }
    {
        if self.has_failed {
            return;
        }
        let figures = Figures {
            totals: &self.totals,
            exchange: self.setup.exchange,
            noted: &self.noted,
        };
        let told = tell_end(
            &mut self.out,
            &mut self.line,
            self.setup.log,
            figures,
            station,
        );
        self.has_failed = told.is_err();
    }

    /// Writes out what was given. Drops what is known of transactions that are over and closed,
    /// once that is much. Who calls it between turns has a log that is at hand, and whose memory
    /// follows what is open.
    pub fn looks_at<O: Outbox, I: Inbox>(&mut self, station: &Station<O, I>)
        ensures logs { Logs Notes self.old self.new }
        ensures totals { self.new.totals ≡ self.old.totals }
    {
        self.write_out();
        self.register.lets_go(station);
    }

    /// Has what was given leave the buffer of the writer.
    fn write_out(&mut self)
        ensures own { self.new.own ≡ self.old.own }
        ensures style { self.new.style ≡ self.old.style }
        ensures totals { self.new.totals ≡ self.old.totals }
        ensures kept { Keeps self.old.written self.new.written }
        ensures before { self.new.has_failed ≡ false → self.old.has_failed ≡ false }
    {
        if !self.has_failed {
            self.has_failed = self.out.flush().is_err();
        }
    }

    /// Returns `true` if the writer has failed.
    pub fn has_failed(&self) -> bool
        ensures { result ≡ self.now.has_failed }
    {
        self.has_failed
    }

    /// Returns what was done, in numbers.
    pub fn totals(&self) -> Totals
        ensures { result ≡ self.now.totals }
    {
        self.totals
    }

    /// Returns how the run ended, by whether memory ran out in it and whether a store failed.
    pub fn exit(&self, is_short: bool, has_store_failed: bool) -> Exit
        ensures { result ≡ with_failures self.now.totals.failed (run_exit
            (is_short || self.now.totals.is_short) has_store_failed self.now.totals.complete
            self.now.totals.asked) }
    {
        self.totals.exit(is_short, has_store_failed)
    }

    /// Writes the transactions that are open, in order of their ids, in lines or as an object.
    ///
    /// # Errors
    ///
    /// That of the writer, and an error if there is no memory.
    pub fn list<O: Outbox, I: Inbox, W: fmt::Write>(
        &self,
        out: &mut W,
        form: Form,
        station: &Station<O, I>,
        waiting: Waiting,
    ) -> fmt::Result {
        let alloc = self.setup.log.rt.alloc();
        write_list(alloc, out, form, &self.register, station, waiting)
    }

    /// Writes the counters, in lines or as an object.
    ///
    /// # Errors
    ///
    /// That of the writer.
    pub fn counters<O: Outbox, I: Inbox, W: fmt::Write>(
        &self,
        out: &mut W,
        form: Form,
        station: &Station<O, I>,
    ) -> fmt::Result {
        let figures = Figures {
            totals: &self.totals,
            exchange: self.setup.exchange,
            noted: &self.noted,
        };
        write_counters(out, form, figures, station)
    }

    /// Returns the transactions that are open, in order of their ids, as the console shows them.
    ///
    /// # Errors
    ///
    /// `AllocError` if there is no memory for them.
    pub fn shown<O: Outbox, I: Inbox>(
        &self,
        station: &Station<O, I>,
        clock: Clock,
    ) -> Result<Vec<Open>, AllocError> {
        let log = self.setup.log;
        shown_open(log.rt.alloc(), &self.register, station, clock, log.own)
    }

    /// Returns the transaction of this id, which is a word as `1:7`, as the console shows it;
    /// the vector is empty if none is open.
    ///
    /// # Errors
    ///
    /// `AllocError` if there is no memory for it.
    pub fn shown_alone<O: Outbox, I: Inbox>(
        &self,
        station: &Station<O, I>,
        clock: Clock,
        word: &[u8],
    ) -> Result<Vec<Open>, AllocError> {
        let log = self.setup.log;
        shown_alone(
            log.rt.alloc(),
            &self.register,
            station,
            clock,
            log.own,
            word,
        )
    }

    /// Returns the id of the entity whose log it is.
    pub fn own(&self) -> u64
        ensures { result ≡ self.now.own }
    {
        self.setup.log.own
    }

    /// Returns the names of the file of a transaction, if they are known.
    pub fn names(&self, id: TransactionId) -> Option<&PutNames> {
        self.register.names(id)
    }

    /// Returns how many octets the file of a transaction has, if that is known.
    pub fn size(&self, id: TransactionId) -> Option<u64> {
        self.register.size(id)
    }

    /// Returns the notes since the start.
    pub fn noted(&self) -> &NotedTopics {
        &self.noted
    }

    /// Borrows the writer.
    pub fn writer(&self) -> &V {
        &self.out
    }

    /// Borrows the writer to write to it what is no line of the log.
    pub fn writer_mut(&mut self) -> &mut V {
        &mut self.out
    }

    /// Returns the writer.
    pub fn into_writer(self) -> V
        ensures { V.contents result ≡ self.entry.written }
    {
        self.out
    }

    /// Why a file wasn't sent, if that is known.
    fn why(&self, name: &[u8], outcome: SpoolOutcome) -> Option<Why> {
        match (outcome, &self.refused) {
            (SpoolOutcome::Sent, _) => None,
            (_, Some(refused)) if is_one_of(name, &refused.names) => {
                Some(Why::Refused(refused.error))
            }
            _ => match self.register.condition_of(self.setup.log.own, name) {
                Some(condition) => Some(Why::Ended(condition)),
                None => None,
            },
        }
    }
}

/// How many octets a file has that is sent, if that can be had.
fn length_of(setup: LogSetup<'_>, names: &PutNames) -> Option<u64> {
    let (folder, rt) = (setup.outbox?, setup.log.rt);
    let name = str::from_utf8(names.source.as_slice()).ok()?;
    let path = format!(in rt.alloc(); "{folder}/{name}").ok()?;
    Some(fs::metadata(rt, path.as_str()).ok()?.len())
}

/// A put that was refused; `None` if there is no memory.
fn refused_put(log: Log<'_>, names: &PutNames, error: PutError) -> Option<RefusedPut> {
    let (source, destination) = (names.source.as_slice(), names.destination.as_slice());
    let names = copied(log.rt.alloc(), source, destination).ok()?;
    Some(RefusedPut { names, error })
}
