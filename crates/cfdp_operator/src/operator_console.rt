//! Where the operator of a station stands: the lines of commands, the console, and the log.
ghost use Rattle.std.specs.Prelude.{◌≡◌, [], IfOk, IfSome, IsTrue, is_some};
ghost use Rattle.cfdp_control.specs.Asking.{wanted};
ghost use Rattle.cfdp_operator.specs.Commanded.{Asks, AsksFor, Commands, HearsLine, Obeys, named};
ghost use Rattle.cfdp_operator.specs.Commanded.{octets_of, wanted_by};

use crate::refusals::{FileLimits, Refusing, put_fault, sendable_names};
use crate::said::Said;
use crate::teller::Teller;
use crate::unit::unit_word;
use cfdp_command_line::TimeUnit;
use cfdp_console::{Ask, ConsoleView, Look, WebAnswer};
use cfdp_control::{
    Asked, CommandHelp, LineFault, LineSources, Speaker, parse_command, printed_names, split_form,
};
use cfdp_directives::Indication;
use cfdp_exchange::{Exchange, NoteTopic};
use cfdp_files::{SecretError, read_keys};
use cfdp_header::TransactionId;
use cfdp_log::{
    Board, Clock, Form, KeptLog, LossyLog, Moment, SeenPdus, StationLog, Stopped, Waiting,
};
use cfdp_report::{Exit, Fault};
use cfdp_service::{Console, OperatorCommand, PutNames, Reply, SpoolOutcome};
use cfdp_station::{Phase, Request, Station};
use cfdp_store::{Inbox, NameRule, Outbox};
use cfdp_watch::Progress;
use ghost_list::GhostList;
use host_journal::HostJournal;
use std::alloc::AllocError;
use std::fmt;
use std::io::Write;
use std::marker::Model;

/// The most lines that are answered before one turn.
const MOST_LINES: u32 = 64;

/// Milliseconds of a second.
const SECOND: u64 = 1_000;

/// What an operator has before the first command.
#[derive(Drop)]
pub struct OperatorPost<'a> {
    pub sources: LineSources<'a>,
    pub journal: StationLog<'a, KeptLog<LossyLog<'a>>>,
    /// What the console shows, if there is one, and the PDUs that it doesn't know yet.
    pub board: Option<Board<'a>>,
    pub pdus: &'a SeenPdus,
    /// How questions are answered.
    pub form: Form,
    /// The path of the file of keys, if frames are authenticated.
    pub keys: Option<&'a str>,
    /// The path of the folder that files are sent from, if there is one.
    pub outbox: Option<&'a str>,
    /// Which names files may have.
    pub names: NameRule,
    /// What limits the files that are received.
    pub limits: FileLimits,
    /// After how many units of time without a PDU a transaction is given up, and the unit.
    pub inactivity: u64,
    pub unit: TimeUnit,
    /// The journal by which transfers go on, if there is one.
    pub transfers: Option<&'a HostJournal<'a>>,
    /// Who reports to the operator what is wrong.
    pub teller: Teller<'a>,
}

/// Where the operator of a station stands: lines of commands come from standard input and from a
/// control address, others from the console, and what the station does goes to its log and, if
/// there is a console, to its board.
#[derive(Drop)]
pub struct OperatorConsole<'a> {
    rt: &'a HostRuntime,
    post: OperatorPost<'a>,
    exchange: &'a Exchange,
    progress: &'a Progress<'a>,
    // Who asked for the change of a transaction that is being made, and whether it suspends that.
    asker: Option<(Speaker, bool)>,
    // The files that are refused since they are beyond the limits.
    refusing: Refusing,
    // Whether a file waits for which no number was reserved.
    wants_number: bool,
    // All that was said, in its order. Only clauses see it.
    heard: GhostList<Said>,
}

impl<'a> Model for OperatorConsole<'a> {
    ghost use Rattle.cfdp_operator.specs.Commanded.{ConsoleState};

    ghost Value = { ConsoleState };

    ghost use Rattle.std.specs.Prelude.{is_some};

    ghost view = { λ c. record {
      heard = c.heard;
      names = c.post.names;
      has_journal = is_some c.post.transfers;
    } };
}

impl<'a> OperatorConsole<'a> {
    /// Returns the console before the first command.
    pub fn new(
        rt: &'a HostRuntime,
        post: OperatorPost<'a>,
        exchange: &'a Exchange,
        progress: &'a Progress<'a>,
    ) -> Self
        ensures heard { result.heard ≡ [] }
        ensures names { result.names ≡ post.entry.names }
        ensures journal { result.has_journal ≡ is_some post.entry.transfers }
    {
        OperatorConsole {
            rt,
            post,
            exchange,
            progress,
            asker: None,
            refusing: Refusing::NONE,
            wants_number: false,
            heard: GhostList::new(),
        }
    }

    /// Returns how the run ended, by whether memory ran out for a turn and whether a store failed.
    pub fn exit(&self, is_short: bool, has_store_failed: bool) -> Exit {
        if self.post.journal.has_failed() {
            Exit::Device(Fault::Unwritable)
        } else {
            self.post.journal.exit(is_short, has_store_failed)
        }
    }

    /// Returns the writer of its log.
    pub fn into_writer(self) -> KeptLog<LossyLog<'a>> {
        let post = self.post;
        let OperatorPost { journal, .. } = post;
        journal.into_writer()
    }

    /// Takes the next line, and by whom it was sent; what is no line counts as not said.
    fn next_line(&mut self) -> Option<(Speaker, Result<Said, LineFault>)>
        ensures { HearsLine self.old result self.new }
    {
        let (speaker, line) = self.post.sources.next_line()?;
        match line {
            Ok(text) => {
                let said = Said::Line(text);
                self.heard.put(&said);
                Some((speaker, Ok(said)))
            }
            Err(fault) => Some((speaker, Err(fault))),
        }
    }

    /// Answers the lines that came, up to the first that is a command, which it gives.
    fn line_command<O: Outbox, I: Inbox>(
        &mut self,
        station: &Station<O, I>,
        waiting: usize,
    ) -> Option<OperatorCommand>
        ensures { Obeys self.old result self.new }
    {
        for _line in 0..MOST_LINES {
            let (speaker, line) = self.next_line()?;
            if let Some(command) = self.takes(speaker, &line, station, waiting) {
                return Some(command);
            }
        }
        None
    }

    /// Answers a line, and gives the command that it is, if it is one.
    fn takes<O: Outbox, I: Inbox>(
        &mut self,
        speaker: Speaker,
        line: &Result<Said, LineFault>,
        station: &Station<O, I>,
        waiting: usize,
    ) -> Option<OperatorCommand>
        ensures same { self.new ≡ self.old }
        ensures asked { IfSome result (λ command. AsksFor self.old.names line.now command) }
    {
        match line {
            Ok(said) => self.obeys(speaker, said, station, waiting),
            Err(fault) => {
                self.refuses(speaker, fault);
                None
            }
        }
    }

    /// Answers what was said, and gives the command that it is, if it is one that changes what the
    /// station does.
    fn obeys<O: Outbox, I: Inbox>(
        &mut self,
        speaker: Speaker,
        said: &Said,
        station: &Station<O, I>,
        waiting: usize,
    ) -> Option<OperatorCommand>
        ensures same { self.new ≡ self.old }
        ensures asked { IfSome result (λ command.
            Asks self.old.names (octets_of said.now) command) }
    {
        let (is_json, line) = split_form(said.octets());
        let form = self.form(is_json);
        match parse_command(self.rt.alloc(), line) {
            Ok(asked) => self.does(speaker, asked, form, station, waiting),
            Err(error) => {
                self.refuses(speaker, &error);
                None
            }
        }
    }

    /// Does what is asked, and gives the command that it is, if it is one.
    fn does<O: Outbox, I: Inbox>(
        &mut self,
        speaker: Speaker,
        asked: Asked,
        form: Form,
        station: &Station<O, I>,
        waiting: usize,
    ) -> Option<OperatorCommand>
        ensures same { self.new ≡ self.old }
        ensures given { IfSome result (λ given. wanted_by given
            ≡ named self.old.names (wanted asked)) }
    {
        match asked {
            Asked::Command(command) => self.commanded(speaker, command),
            Asked::Rekey => {
                self.rekeys(speaker);
                None
            }
            asked => {
                self.answers(speaker, &asked, form, station, waiting);
                None
            }
        }
    }

    /// How a line is answered.
    fn form(&self, is_json: bool) -> Form {
        if is_json { Form::Json } else { self.post.form }
    }

    /// Accepts a command, unless it is a put of a file that can't be sent.
    fn commanded(&mut self, speaker: Speaker, command: OperatorCommand) -> Option<OperatorCommand>
        ensures same { self.new ≡ self.old }
        ensures given { IfSome result (λ given. wanted_by given
            ≡ named self.old.names (wanted_by command)) }
    {
        let Ok(command) = self.named(command) else {
            self.refuses(speaker, &"out of memory");
            return None;
        };
        if let OperatorCommand::Put { names, .. } = &command
            && let Some(fault) = put_fault(self.rt, self.post.outbox, self.post.names, names)
        {
            self.refuses(speaker, &fault);
            return None;
        }
        self.accepts(speaker, &command);
        Some(command)
    }

    /// Returns a command with the names that its words stand for: if files may have any names, the
    /// words are names as they are printed, otherwise the names themselves.
    fn named(&self, command: OperatorCommand) -> Result<OperatorCommand, AllocError>
        ensures { IfOk result (λ given. wanted_by given
            ≡ named self.now.names (wanted_by command)) }
    {
        match (command, self.post.names) {
            (OperatorCommand::Put { names, is_first }, NameRule::Any) => Ok(OperatorCommand::Put {
                names: printed_names(self.rt.alloc(), &names)?,
                is_first,
            }),
            (command, _) => Ok(command),
        }
    }

    /// Takes what the console is asked next, and by whom, after the board has noted what happened.
    fn next_ask<O: Outbox, I: Inbox>(&mut self, station: &Station<O, I>) -> Option<(Speaker, Ask)>
        ensures { self.new ≡ self.old }
    {
        let now = self.post.sources.now();
        let pdus = self.post.pdus.take();
        let board = self.post.board.as_mut()?;
        board.notes_frames(now);
        board.notes_pdus(pdus.as_slice(), station);
        self.post.sources.next_ask()
    }

    /// Does what the console is asked next, and gives the command that it is, if it is one.
    fn serves_console<O: Outbox, I: Inbox>(
        &mut self,
        station: &Station<O, I>,
        waiting: usize,
    ) -> Option<OperatorCommand>
        ensures { Obeys self.old result self.new }
    {
        let (speaker, ask) = self.next_ask(station)?;
        match ask {
            Ask::Command(line) => {
                let said = Said::Pressed(line);
                self.heard.put(&said);
                self.obeys(speaker, &said, station, waiting)
            }
            Ask::Look(look) => {
                let answer = self.shows(&look, station, waiting);
                self.post.sources.shows(speaker, answer);
                None
            }
        }
    }

    /// What the console shows to one who looks.
    fn shows<O: Outbox, I: Inbox>(
        &self,
        look: &Look,
        station: &Station<O, I>,
        waiting: usize,
    ) -> Result<WebAnswer, AllocError> {
        let alloc = self.rt.alloc();
        let (Some(board), Some(log)) = (&self.post.board, self.post.journal.writer().lines()) else {
            return Err(AllocError);
        };
        let journal = &self.post.journal;
        let status = board.status(station, self.moment(waiting), journal.noted())?;
        let clock = Clock {
            now: self.exchange.told.get(),
            inactivity: self.post.inactivity,
        };
        let open = match look {
            Look::Transactions(_) => journal.shown(station, clock)?,
            Look::Transaction(id) | Look::Details(id) => {
                journal.shown_alone(station, clock, id.as_slice())?
            }
            _ => Vec::new(alloc),
        };
        let details = match look {
            Look::Details(id) => board.details(station, id.as_slice())?,
            _ => None,
        };
        let files = match (look, self.post.outbox) {
            (Look::Files, Some(folder)) => sendable_names(self.rt, folder, self.post.names)?,
            _ => Vec::new(alloc),
        };
        let shown = ConsoleView {
            status: &status,
            open: open.as_slice(),
            files: files.as_slice(),
            details: details.as_ref(),
            ledger: board.ledger(),
            log,
            samples: board.samples(),
            token: self.post.sources.door().and_then(|door| door.told_token()),
        };
        WebAnswer::shows(alloc, look, shown)
    }

    /// How the station is now.
    fn moment(&self, waiting: usize) -> Moment {
        Moment {
            now: self.post.sources.now(),
            told: self.exchange.told.get(),
            is_frozen: self.exchange.is_frozen.get(),
            waiting: self.waiting(waiting).files,
            totals: self.post.journal.totals(),
        }
    }

    /// What waits, if so many files are known to wait for their put. How many lie in a spool
    /// isn't known: there is one, if one is wanted and no number can be reserved for it.
    fn waiting(&self, files: usize) -> Waiting {
        let stopped = match Stopped::at(self.exchange) {
            Some(Stopped::Puts(_)) if !self.wants_number => None,
            stopped => stopped,
        };
        let files = match stopped {
            Some(Stopped::Puts(_)) => files.max(1),
            _ => files,
        };
        Waiting {
            files,
            stopped,
            now: self.exchange.told.get(),
            inactivity: self.post.inactivity,
        }
    }

    /// Answers a command: the change of a transaction once it is made, any other at once.
    fn accepts(&mut self, speaker: Speaker, command: &OperatorCommand)
        ensures { self.new ≡ self.old }
    {
        match command {
            OperatorCommand::Change(_, request) => {
                self.asker = Some((speaker, matches!(request, Request::Suspend)));
            }
            OperatorCommand::Put { .. } | OperatorCommand::Stop | OperatorCommand::StopNow =>
                self.is_done(speaker, ""),
        }
    }

    /// Answers a question, or does what is asked of the link.
    fn answers<O: Outbox, I: Inbox>(
        &mut self,
        speaker: Speaker,
        asked: &Asked,
        form: Form,
        station: &Station<O, I>,
        waiting: usize,
    )
        ensures { self.new ≡ self.old }
    {
        match asked {
            Asked::Freeze => self.exchange.is_frozen.set(true),
            Asked::Thaw => self.exchange.is_frozen.set(false),
            Asked::List | Asked::Counters | Asked::Rekey | Asked::Help | Asked::Command(_) => {}
        }
        let mut text = String::new(self.rt.alloc());
        match self.tells(&mut text, asked, form, station, waiting) {
            Ok(()) => self.is_done(speaker, text.as_str()),
            Err(fmt::Error) => self.refuses(speaker, &"out of memory"),
        }
    }

    /// Reads the file of keys again, and has the wire change to its keys in the next turn. If they
    /// can't be read, the keys stay as they are.
    fn rekeys(&mut self, speaker: Speaker)
        ensures { self.new ≡ self.old }
    {
        let Some(path) = self.post.keys else {
            self.refuses(speaker, &"this station has no --keys");
            return;
        };
        match read_keys(self.rt, path) {
            Ok(keys) => {
                self.exchange.new_keys.set(Some(keys));
                self.is_told();
                self.post.journal.rekeyed();
                self.is_done(speaker, "");
            }
            Err(error) => self.refuses_keys(speaker, path, &error),
        }
    }

    /// Answers why the keys at this path can't be read.
    fn refuses_keys(&mut self, speaker: Speaker, path: &str, error: &SecretError)
        ensures { self.new ≡ self.old }
    {
        match format!(in self.rt.alloc(); "{path}: {error}") {
            Ok(why) => self.refuses(speaker, &why),
            Err(AllocError) => self.refuses(speaker, &"out of memory"),
        }
    }

    /// Writes what is asked for.
    fn tells<O: Outbox, I: Inbox>(
        &self,
        out: &mut String,
        asked: &Asked,
        form: Form,
        station: &Station<O, I>,
        waiting: usize,
    ) -> fmt::Result {
        match asked {
            Asked::List => {
                let waiting = self.waiting(waiting);
                self.post.journal.list(out, form, station, waiting)
            }
            Asked::Counters => self.post.journal.counters(out, form, station),
            Asked::Help => fmt::Write::write_fmt(out, format_args!("{CommandHelp}")),
            Asked::Freeze | Asked::Thaw | Asked::Rekey | Asked::Command(_) => Ok(()),
        }
    }

    /// Answers that it is done, after these lines.
    fn is_done(&mut self, speaker: Speaker, lines: &str)
        ensures { self.new ≡ self.old }
    {
        if let Some(text) = self.post.sources.done(speaker, lines) {
            self.says(text.as_str());
        }
    }

    /// Answers that a transaction is suspended, and after how long the peer gives it up.
    fn is_suspended(&mut self, speaker: Speaker)
        ensures { self.new ≡ self.old }
    {
        let (inactivity, unit) = (self.post.inactivity, unit_word(self.post.unit));
        let text = format!(in self.rt.alloc();
            "the peer gives the transaction up after {inactivity} {unit}, as inactivity_time says, \
             unless it is resumed before\n"
        );
        match text {
            Ok(text) => self.is_done(speaker, text.as_str()),
            Err(AllocError) => self.is_done(speaker, ""),
        }
    }

    /// Gives the log and the counters the notes since the last time.
    fn takes_notes(&mut self)
        ensures { self.new ≡ self.old }
    {
        let second = self.post.sources.now() / SECOND;
        let notes = self.exchange.notes.take();
        for note in notes.iter() {
            self.post.journal.notes(note, second);
        }
    }

    /// Says which file was refused, and why, if an indication ends one that was.
    fn tells_refusal(&mut self, indication: &Indication)
        ensures { self.new ≡ self.old }
    {
        let Some(id) = self.refusing.ends(self.post.journal.own(), indication) else {
            return;
        };
        let (limits, teller) = (self.post.limits, self.post.teller);
        let size = self.post.journal.size(id);
        let names = self.post.journal.names(id);
        let is_short = self.refusing.is_short(id);
        let text = limits.refusal_text(self.rt.alloc(), id, names, size, is_short);
        teller.refuses(NoteTopic::Limits, id, text);
    }

    /// Something is given to the log, which is written out when commands are looked for next: so
    /// the turn until then doesn't wait.
    fn is_told(&self) {
        self.exchange.is_stirred.set(true);
    }

    /// Notes on the board that a put was accepted.
    fn notes_put(&mut self, id: TransactionId, names: &PutNames)
        ensures { self.new ≡ self.old }
    {
        let size = self.post.journal.size(id);
        if let Some(board) = &mut self.post.board {
            board.put_accepted(id, names, size);
        }
    }

    /// Has the line on a terminal say how far a file is that is being sent, if one is.
    fn shows_sending<O: Outbox, I: Inbox>(&self, station: &Station<O, I>) {
        if !self.progress.is_shown() {
            return;
        }
        match self.sending_id(station) {
            Some(id) => self.shows_file(id, station.progress(id).unwrap_or(0)),
            None => self.progress.sends_nothing(),
        }
    }

    /// Has the line on a terminal say that so many octets of the file of this transaction were
    /// sent, if its size and its name are known.
    fn shows_file(&self, id: TransactionId, octets: u64) {
        let journal = &self.post.journal;
        if let Some(size) = journal.size(id)
            && let Some(names) = journal.names(id)
        {
            self.progress.sends(id, names.source.as_slice(), size);
            self.progress.comes_to(octets);
        }
    }

    /// The first transaction whose file isn't sent to its end, of all that this station sends; the
    /// first of all if they are.
    fn sending_id<O: Outbox, I: Inbox>(&self, station: &Station<O, I>) -> Option<TransactionId> {
        let mut first = None;
        for (id, phase) in station.transactions() {
            if phase == Phase::Sending {
                if self.is_partly_sent(station, id) {
                    return Some(id);
                }
                first = first.or(Some(id));
            }
        }
        first
    }

    /// Whether some of the file of this transaction wasn't sent yet.
    fn is_partly_sent<O: Outbox, I: Inbox>(
        &self,
        station: &Station<O, I>,
        id: TransactionId,
    ) -> bool {
        match (station.progress(id), self.post.journal.size(id)) {
            (Some(octets), Some(size)) => octets < size,
            _ => false,
        }
    }

    /// Whether the journal can't be written any more by which transfers go on.
    fn is_stuck(&self) -> bool
        ensures { IsTrue result → IsTrue self.now.has_journal }
    {
        match self.post.transfers {
            Some(journal) => journal.is_stuck(),
            None => false,
        }
    }

    /// Gives the log what happened, and has the station know for what it may wait, until the next
    /// command is looked for.
    fn rests<O: Outbox, I: Inbox>(&mut self, station: &Station<O, I>)
        ensures { self.new ≡ self.old }
    {
        self.takes_notes();
        self.shows_sending(station);
        self.post.journal.looks_at(station);
        let mut watched = self.post.sources.watched();
        self.post.journal.writer().inner().watches(&mut watched);
        self.exchange.watched.set(watched);
        self.wants_number = false;
    }

    /// Answers why nothing was done.
    fn refuses<D: fmt::Display>(&mut self, speaker: Speaker, why: &D)
        ensures { self.new ≡ self.old }
    {
        if let Some(text) = self.post.sources.refused(speaker, why) {
            self.says(text.as_str());
        }
    }

    /// Answers a line of standard input on standard output, which nobody waits for: an answer waits
    /// and is lost as lines of the log are.
    fn says(&mut self, text: &str)
        ensures { self.new ≡ self.old }
    {
        self.progress.yields();
        let out = self.post.journal.writer_mut();
        let _ = out.says(text.as_bytes());
        let _ = out.flush();
    }
}

impl Console for OperatorConsole<'_> {
    ghost steps = { λ old call new. Commands old call new };

    fn next<O: Outbox, I: Inbox>(
        &mut self,
        station: &Station<O, I>,
        waiting: usize,
    ) -> Option<OperatorCommand> {
        if let Some(command) = self.line_command(station, waiting) {
            return Some(command);
        }
        if let Some(command) = self.serves_console(station, waiting) {
            return Some(command);
        }
        if self.is_stuck() {
            return Some(OperatorCommand::StopNow);
        }
        self.rests(station);
        None
    }

    fn may_put(&mut self) -> bool {
        let left = self.exchange.numbers_left.get();
        self.wants_number = left == 0;
        self.exchange.wants_numbers.set(self.wants_number);
        !self.wants_number
    }

    fn put_answered(&mut self, names: &PutNames, reply: Reply, is_again: bool) {
        match reply {
            Reply::Put(Ok(_)) => {
                let left = self.exchange.numbers_left.get();
                self.exchange.numbers_left.set(left.saturating_sub(1));
            }
            Reply::Put(Err(_)) | Reply::Change(_) => self.progress.yields(),
        }
        self.is_told();
        self.post.journal.put_answered(names, reply, is_again);
        if let Reply::Put(Ok(id)) = reply {
            self.notes_put(id, names);
        }
    }

    fn change_answered(&mut self, reply: Reply) {
        self.is_told();
        match (self.asker.take(), reply) {
            (Some((speaker, _)), Reply::Change(Err(error))) => self.refuses(speaker, &error),
            (Some((speaker, true)), Reply::Change(Ok(()))) => self.is_suspended(speaker),
            (Some((speaker, _)), _) => self.is_done(speaker, ""),
            // Nobody asked for it: the clerk cancelled a file that is beyond the limits, or that
            // takes memory which is short.
            (None, Reply::Change(Ok(()))) => self.refusing.begins(),
            (None, _) => {}
        }
        self.post.journal.change_answered(reply);
    }

    fn gives_up(&mut self, id: TransactionId) {
        self.refusing.gives_up(id);
    }

    fn hears(&mut self, indication: &Indication) {
        self.is_told();
        if let Some(board) = &mut self.post.board {
            board.hears(indication);
        }
        self.tells_refusal(indication);
        self.post.journal.hears(indication);
    }

    fn ends_file(&mut self, name: &[u8], outcome: SpoolOutcome) {
        self.progress.yields();
        self.is_told();
        self.post.journal.ends_file(name, outcome);
    }

    fn ends<O: Outbox, I: Inbox>(&mut self, station: &Station<O, I>) {
        // The line that says how far it is stands before the last lines.
        self.progress.ends();
        self.takes_notes();
        self.post.journal.ends(station);
    }

    fn has_failed(&self) -> bool {
        self.post.journal.has_failed()
    }
}
