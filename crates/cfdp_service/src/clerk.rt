//! A user that sends files in their order, so many at a time.
ghost use Rattle.std.specs.Prelude.{◌≡◌, ◌⊎◌, ◌++◌, ◌∷◌, ℕ, List, [], None, Some, Contains};
ghost use Rattle.std.specs.Prelude.{IfOk, IfSome, IsTrue, not};
ghost use Rattle.cfdp_service.specs.Clerk.{ClerkState, ClerkSteps, Completes, KeepsFiles};
ghost use Rattle.cfdp_service.specs.Clerk.{Leaves, LeavesOpen, OpensNone};
ghost use Rattle.cfdp_service.specs.Clerk.{WishesAsked, WishesFile, asked_file};
ghost use Rattle.cfdp_service.specs.Limits.{has_too_many, is_too_long, limits_files};

use crate::console::{Console, OperatorCommand, SpoolOutcome};
use crate::giving_up::{GapCount, refuse_silent};
use crate::spool::Spool;
use crate::tries::Tries;
use crate::user::{Intent, User};
use crate::wish::{PutNames, Reply, Wish};
use cfdp_directives::{Condition, Delivery, FileStatus, Indication, Phase};
use cfdp_header::TransactionId;
use cfdp_station::{EntityDrop, PutError, Request, Station};
use cfdp_store::{Inbox, Outbox};
use std::alloc::{AllocError, Global};
use std::collections::VecDeque;
use std::marker::Model;

/// How many records of a station are left free: for what the peer sends, and since what is over
/// here may not be so at the peer yet, which has as many.
const LEFT_FREE: usize = 1024;

/// The most commands that are taken before one turn.
const MOST_COMMANDS: u32 = 64;

/// How many turns a station that must stop takes after its puts are over and nothing waits, so
/// that its last acknowledgements leave.
const LAST_TURNS: u8 = 3;

/// What limits a clerk.
#[derive(Clone, Copy)]
pub struct ClerkLimits {
    /// The most puts that are open at a time.
    pub at_once: usize,
    /// How often a file of the spool is sent once more after a fault that may pass.
    pub retries: u32,
    /// The most octets of a file that is received; 0 for any number.
    pub most_size: u64,
    /// The most files that are received at a time; 0 for any number.
    pub most_open: usize,
    /// The most gaps in what is held of a file that is received, by which the station drops file
    /// data; 0 for any number.
    pub most_gaps: u64,
}

impl ClerkLimits {
    /// Returns `true` if they limit what the peer sends.
    fn limit_files(&self) -> bool
        ensures { result ≡ limits_files self.now }
    {
        self.most_size > 0 || self.most_open > 0
    }

    /// Returns `true` if a file with octets up to this offset is longer than they allow.
    fn is_too_long(&self, end: u64) -> bool
        ensures { result ≡ is_too_long self.now end }
    {
        self.most_size > 0 && end > self.most_size
    }

    /// Returns `true` if they allow no further file beside so many that are received.
    fn has_too_many(&self, beside: usize) -> bool
        ensures { result ≡ has_too_many self.now beside }
    {
        self.most_open > 0 && beside >= self.most_open
    }
}

/// A file of the spool whose put is open.
#[derive(Drop)]
pub struct OpenFile {
    /// The put's transaction.
    pub id: TransactionId,
    /// The name of the file.
    pub name: Vec<u8>,
}

/// The put that was wished last.
#[derive(Drop)]
struct AskedPut {
    names: PutNames,
    // `true` if its file lies in the spool, and `true` if it was put before.
    is_file: bool,
    is_again: bool,
}

/// What a clerk was asked about the end.
#[derive(Clone, Copy, PartialEq, Eq)]
enum Stage {
    /// Nothing: it goes on.
    Serving,
    /// To take no more files, and to end once its puts are over. For so many turns now they are.
    Stopping(u8),
    /// To end at once.
    Halted,
}

/// A user that sends files: those that were asked for before it began, those that are commanded at
/// its console, and those that lie in its spool, in this order, and no more at a time than its
/// limits say. A file may leave the spool as sent only if the station indicated that its put is
/// complete. Before each turn it cancels each file that comes and is beyond the limits, with or
/// without Metadata: one that is longer by its Metadata or by what came of it, and all but the
/// first of those that come, in order of opening. If nothing limits their number, it cancels those
/// of more than 3,072 that were silent the longest. If memory is short, or files that come have
/// more than 2^22 gaps together, it cancels the one with the most gaps, unless that has few.
#[derive(Drop)]
pub struct Clerk<S: Spool, C: Console> {
    alloc: Global,
    own: u64,
    limits: ClerkLimits,
    spool: S,
    console: C,
    waiting: VecDeque<PutNames>,
    asked: Option<AskedPut>,
    files: Vec<OpenFile>,
    // the open puts of other files
    puts: Vec<TransactionId>,
    // files that come and must be cancelled, and whether it has looked for more before this turn
    refused: Vec<TransactionId>,
    has_looked: bool,
    // the file that must be cancelled for its memory, which takes no memory to note
    given_up: Option<TransactionId>,
    // whether the last turn lacked memory, and how many PDUs were dropped because of that before
    is_short: bool,
    dropped: u64,
    tries: Tries,
    stage: Stage,
    // `true` if nothing waits in the station for its link
    is_drained: bool,
}

impl<S: Spool, C: Console> Model for Clerk<S, C> {
    ghost use Rattle.cfdp_service.specs.Clerk.{ClerkState, asked_file};

    ghost Value = { ClerkState S };

    ghost view = { λ c. record {
      own = c.own;
      asked = asked_file c.asked;
      files = c.files.items;
      spool = c.spool;
    } };
}

impl<S: Spool, C: Console> Clerk<S, C> {
    /// Returns a clerk of the entity `own`, which wishes nothing yet.
    pub fn new(alloc: Global, own: u64, limits: ClerkLimits, spool: S, console: C) -> Self
        ensures { result ≡ record { own = own; asked = None; files = []; spool = spool } }
    {
        Clerk {
            alloc,
            own,
            limits,
            spool,
            console,
            waiting: VecDeque::new(alloc),
            asked: None,
            files: Vec::new(alloc),
            puts: Vec::new(alloc),
            refused: Vec::new(alloc),
            has_looked: false,
            given_up: None,
            is_short: false,
            dropped: 0,
            tries: Tries::new(alloc),
            stage: Stage::Serving,
            is_drained: false,
        }
    }

    /// Borrows its console.
    pub fn console(&self) -> &C {
        &self.console
    }

    /// Returns its console.
    pub fn into_console(self) -> C {
        self.console
    }

    /// Asks for a file to be sent: after all others that wait, or before them.
    ///
    /// # Errors
    ///
    /// `AllocError` if there is no memory for it.
    pub fn add(&mut self, names: PutNames, is_first: bool) -> Result<(), AllocError>
        ensures { self.new ≡ self.old }
    {
        if is_first {
            self.waiting.push_front(names)?;
        } else {
            self.waiting.push_back(names)?;
        }
        Ok(())
    }

    /// Takes back a put that an earlier run made, and that goes on as this transaction. If the file
    /// lies in the spool, and keeps its name at the peer, it leaves the spool as if this run had
    /// put it.
    pub fn takes_back(&mut self, id: TransactionId, names: PutNames)
        ensures own { self.new.own ≡ self.old.own }
        ensures asked { self.new.asked ≡ self.old.asked }
        ensures sent { KeepsFiles S.sent self.old self.new }
        ensures failed { KeepsFiles S.failed self.old self.new }
        ensures files { (file : OpenFile) → Contains self.new.files file →
            Contains self.old.files file
            ⊎ ((names.source.items ≡ file.name.items)
            × (names.destination.items ≡ file.name.items) × (file.id ≡ id)) }
    {
        self.console.put_answered(&names, Reply::Put(Ok(id)), false);
        let is_file = names.are_alike() && self.spool.takes_back(names.source.as_slice());
        self.opened(names, is_file, id);
    }

    /// Returns how many puts are open.
    fn open_count(&self) -> usize {
        self.files.len().saturating_add(self.puts.len())
    }

    /// Takes commands until one changes a transaction, at most 64: that is its wish.
    fn commanded<O: Outbox, I: Inbox>(&mut self, station: &Station<O, I>) -> Option<Wish>
        ensures same { self.new ≡ self.old }
    {
        for _command in 0..MOST_COMMANDS {
            let waiting = self.waiting.len();
            match self.console.next(station, waiting) {
                Some(OperatorCommand::Put { names, is_first }) => {
                    let _ = self.add(names, is_first);
                }
                Some(OperatorCommand::Change(id, request)) => return Some(Wish::Change(
                    id, request,
                )),
                Some(OperatorCommand::Stop) => self.stage = self.stage.stopped(),
                Some(OperatorCommand::StopNow) => self.stage = Stage::Halted,
                None => return None,
            }
        }
        None
    }
}

/// Returns what is wished next, and the file of the spool that it is about.
impl<S: Spool, C: Console> Clerk<S, C> {
    /// The next put, if one may be made.
    fn next_put(&mut self, records_left: usize) -> Option<Wish>
        requires { self.old.asked ≡ None }
        ensures files { self.new.files ≡ self.old.files }
        ensures own { self.new.own ≡ self.old.own }
        ensures sent { KeepsFiles S.sent self.old self.new }
        ensures failed { KeepsFiles S.failed self.old self.new }
        ensures asked { WishesAsked self.new.asked result }
    {
        if self.stage == Stage::Halted
            || self.open_count() >= self.limits.at_once
            || records_left < LEFT_FREE
            || !self.has_next()
            || !self.console.may_put()
        {
            return None;
        }
        match self.waiting.pop_front() {
            Some(names) => self.wishes_put(names),
            None => self.next_file(),
        }
    }

    /// Returns `true` if a file waits that may be put.
    fn has_next(&mut self) -> bool
        ensures own { self.new.own ≡ self.old.own }
        ensures asked { self.new.asked ≡ self.old.asked }
        ensures files { self.new.files ≡ self.old.files }
        ensures sent { KeepsFiles S.sent self.old self.new }
        ensures failed { KeepsFiles S.failed self.old self.new }
    {
        !self.waiting.is_empty() || self.stage == Stage::Serving && self.spool.has_next()
    }

    /// Returns the put of the next file of the spool, if there is one, and if no end was asked for.
    fn next_file(&mut self) -> Option<Wish>
        requires { self.old.asked ≡ None }
        ensures files { self.new.files ≡ self.old.files }
        ensures own { self.new.own ≡ self.old.own }
        ensures sent { KeepsFiles S.sent self.old self.new }
        ensures failed { KeepsFiles S.failed self.old self.new }
        ensures asked { WishesAsked self.new.asked result }
    {
        if self.stage != Stage::Serving {
            return None;
        }
        let name = self.spool.next()?;
        let is_again = self.tries.count(name.as_slice()) > 0;
        match file_names(self.alloc, name.as_slice()) {
            Ok((names, wished)) => {
                self.asked = Some(AskedPut {
                    names,
                    is_file: true,
                    is_again,
                });
                Some(Wish::Put(wished))
            }
            Err(AllocError) => {
                self.spool.put_back(name.as_slice());
                None
            }
        }
    }

    /// Returns a put of these names. If there is no memory for it, it waits once more.
    fn wishes_put(&mut self, names: PutNames) -> Option<Wish>
        requires { self.old.asked ≡ None }
        ensures files { self.new.files ≡ self.old.files }
        ensures own { self.new.own ≡ self.old.own }
        ensures sent { KeepsFiles S.sent self.old self.new }
        ensures failed { KeepsFiles S.failed self.old self.new }
        ensures asked { self.new.asked ≡ None }
    {
        match names.copy(self.alloc) {
            Ok(wished) => {
                self.asked = Some(AskedPut {
                    names,
                    is_file: false,
                    is_again: false,
                });
                Some(Wish::Put(wished))
            }
            Err(AllocError) => {
                let _ = self.waiting.push_front(names);
                None
            }
        }
    }
}

/// Returns the names of a file that keeps its name at the peer: the same name, twice.
fn file_names(alloc: Global, name: &[u8]) -> Result<(PutNames, PutNames), AllocError>
    ensures { IfOk result (λ both. (both.1.source.items ≡ both.0.source.items)
        × (both.1.destination.items ≡ both.0.source.items)) }
{
    let names = PutNames::alike(alloc, name)?;
    let wished = names.copy(alloc)?;
    Ok((names, wished))
}

/// Notes what became of a put.
impl<S: Spool, C: Console> Clerk<S, C> {
    /// Notes that a put was accepted as this transaction.
    fn opened(&mut self, names: PutNames, is_file: bool, id: TransactionId)
        ensures own { self.new.own ≡ self.old.own }
        ensures asked { self.new.asked ≡ self.old.asked }
        ensures sent { KeepsFiles S.sent self.old self.new }
        ensures failed { KeepsFiles S.failed self.old self.new }
        ensures files { (file : OpenFile) → Contains self.new.files file →
            Contains self.old.files file
            ⊎ (IsTrue is_file × (names.source.items ≡ file.name.items) × (file.id ≡ id)) }
    {
        let PutNames { source, .. } = names;
        if is_file {
            // Without memory it isn't known any more that it is open: it stays in the spool.
            let _ = self.files.push(OpenFile { id, name: source });
        } else {
            let _ = self.puts.push(id);
        }
    }

    /// Notes that a put was refused by this cause.
    fn refused(&mut self, put: &AskedPut, by: PutError)
        ensures own { self.new.own ≡ self.old.own }
        ensures asked { self.new.asked ≡ self.old.asked }
        ensures sent { KeepsFiles S.sent self.old self.new }
        ensures failed { KeepsFiles S.failed self.old self.new
            ⊎ (IsTrue put.now.is_file
            × Leaves S.failed put.now.names.source.items self.old self.new) }
        ensures files { self.new.files ≡ self.old.files }
    {
        if put.is_file {
            self.gives_up(put.names.source.as_slice(), may_pass_refusal(by));
        }
    }

    /// Notes that a file of the spool wasn't sent: it is given once more if the cause may pass and
    /// it wasn't tried too often, otherwise it leaves the spool as failed.
    fn gives_up(&mut self, name: &[u8], may_pass: bool)
        ensures own { self.new.own ≡ self.old.own }
        ensures asked { self.new.asked ≡ self.old.asked }
        ensures sent { KeepsFiles S.sent self.old self.new }
        ensures failed { KeepsFiles S.failed self.old self.new
            ⊎ Leaves S.failed name.now self.old self.new }
        ensures files { self.new.files ≡ self.old.files }
    {
        if may_pass && self.tries.count(name) < self.limits.retries {
            self.tries.counts(self.alloc, name);
            self.spool.put_back(name);
            self.console.ends_file(name, SpoolOutcome::PutBack);
        } else {
            self.tries.forget(name);
            self.spool.failed(name);
            self.console.ends_file(name, SpoolOutcome::Failed);
        }
    }

    /// Notes that the put of a file is complete: it leaves the spool.
    fn completes(&mut self, name: &[u8])
        ensures own { self.new.own ≡ self.old.own }
        ensures asked { self.new.asked ≡ self.old.asked }
        ensures sent { Leaves S.sent name.now self.old self.new }
        ensures failed { KeepsFiles S.failed self.old self.new }
        ensures files { self.new.files ≡ self.old.files }
    {
        self.tries.forget(name);
        self.spool.sent(name);
        self.console.ends_file(name, SpoolOutcome::Sent);
    }

    /// Returns the open file of this transaction, which isn't open from now on.
    fn take_file(&mut self, id: TransactionId) -> Option<OpenFile>
        ensures own { self.new.own ≡ self.old.own }
        ensures asked { self.new.asked ≡ self.old.asked }
        ensures spool { self.new.spool ≡ self.old.spool }
        ensures none { OpensNone S.sent self.old self.new }
        ensures found { IfSome result (λ file. Contains self.old.files file × (file.id ≡ id)) }
    {
        let place = self.files.iter().position(|file| file.id == id)?;
        let file = self.files.remove(place);
        if file.id == id { Some(file) } else { None }
    }

    /// Notes that a transaction is over: if its file was delivered, and if a fault may pass.
    fn over(&mut self, id: TransactionId, is_complete: bool, may_pass: bool)
        ensures own { self.new.own ≡ self.old.own }
        ensures asked { self.new.asked ≡ self.old.asked }
        ensures none { OpensNone S.sent self.old self.new }
        ensures sent { KeepsFiles S.sent self.old self.new
            ⊎ (IsTrue is_complete × LeavesOpen S.sent id self.old self.new) }
        ensures failed { KeepsFiles S.failed self.old self.new
            ⊎ (IsTrue (not is_complete) × LeavesOpen S.failed id self.old self.new) }
    {
        forget_id(&mut self.puts, id);
        if let Some(file) = self.take_file(id) {
            self.leaves(&file, is_complete, may_pass);
        }
    }

    /// Notes that the put of a file is over.
    fn leaves(&mut self, file: &OpenFile, is_complete: bool, may_pass: bool)
        ensures own { self.new.own ≡ self.old.own }
        ensures asked { self.new.asked ≡ self.old.asked }
        ensures files { self.new.files ≡ self.old.files }
        ensures sent { KeepsFiles S.sent self.old self.new
            ⊎ (IsTrue is_complete × Leaves S.sent file.now.name.items self.old self.new) }
        ensures failed { KeepsFiles S.failed self.old self.new
            ⊎ (IsTrue (not is_complete)
            × Leaves S.failed file.now.name.items self.old self.new) }
    {
        if is_complete {
            self.completes(file.name.as_slice());
        } else {
            self.gives_up(file.name.as_slice(), may_pass);
        }
    }

    /// Notes that Metadata of a file came: if it is too long, it must be cancelled.
    fn comes(&mut self, id: TransactionId, size: u64)
        ensures { self.new ≡ self.old }
    {
        if id.source != self.own && self.limits.is_too_long(size) {
            let _ = self.refused.push(id);
        }
    }

    /// Refuses, once before each turn, the files that are received and beyond the limits, and those
    /// that must be given up.
    fn looks<O: Outbox, I: Inbox>(&mut self, station: &Station<O, I>)
        ensures { self.new ≡ self.old }
    {
        if self.has_looked {
            return;
        }
        self.has_looked = true;
        if self.limits.limit_files() {
            refuse_beyond(&self.limits, station, &mut self.refused);
        }
        if self.limits.most_open == 0 {
            refuse_silent(self.alloc, station, &mut self.refused);
        }
        self.looks_at_memory(station);
    }

    /// Gives up the file that takes the most memory, if memory is short.
    fn looks_at_memory<O: Outbox, I: Inbox>(&mut self, station: &Station<O, I>)
        ensures { self.new ≡ self.old }
    {
        let gaps = GapCount::of(station);
        let dropped = station.drops(EntityDrop::NoMemory);
        let is_short = self.is_short
            || gaps.lacks_memory(self.dropped, dropped, self.limits.most_gaps);
        self.is_short = false;
        self.dropped = dropped;
        self.given_up = gaps.given_up(is_short);
        if let Some(id) = self.given_up {
            self.console.gives_up(id);
        }
    }

    /// Takes the next file that must be cancelled.
    fn next_refused(&mut self) -> Option<TransactionId>
        ensures { self.new ≡ self.old }
    {
        match self.given_up.take() {
            Some(id) => Some(id),
            None => self.refused.pop(),
        }
    }
}

/// Adds to those that must be cancelled the files that are received and beyond the limits.
fn refuse_beyond<O: Outbox, I: Inbox>(
    limits: &ClerkLimits,
    station: &Station<O, I>,
    refused: &mut Vec<TransactionId>,
) {
    let mut received = 0usize;
    for (id, phase) in station.transactions() {
        if phase != Phase::Receiving || refused.contains(&id) {
            continue;
        }
        let end = station.progress(id).unwrap_or(0);
        if limits.is_too_long(end) || limits.has_too_many(received) {
            let _ = refused.push(id);
        } else {
            received = received.saturating_add(1);
        }
    }
}

/// Takes a transaction from a list, if it stands there.
fn forget_id(ids: &mut Vec<TransactionId>, id: TransactionId) {
    if let Some(place) = ids.iter().position(|other| *other == id) {
        let _ = ids.remove(place);
    }
}

/// Returns `true` if a put that was refused by this cause may be accepted later.
fn may_pass_refusal(by: PutError) -> bool {
    match by {
        PutError::TableFull | PutError::SourceFault | PutError::NoMemory => true,
        PutError::NoSuchFile | PutError::Name | PutError::TooLarge | PutError::NumbersSpent =>
            false,
    }
}

/// The conditions of transactions that may end otherwise if they are tried once more: a limit was
/// reached, the peer was silent, its disk was full, or the file changed or was damaged on its way.
/// An octet that was damaged in a PDU may also give the file another length or checksum type.
const MAY_PASS: [Condition; 9] = [
    Condition::POSITIVE_ACK_LIMIT,
    Condition::KEEP_ALIVE_LIMIT,
    Condition::FILESTORE_REJECTION,
    Condition::FILE_CHECKSUM_FAILURE,
    Condition::FILE_SIZE_ERROR,
    Condition::NAK_LIMIT,
    Condition::INACTIVITY,
    Condition::CHECK_LIMIT,
    Condition::UNSUPPORTED_CHECKSUM_TYPE,
];

/// Returns `true` if this indicates to the entity `own` that this transaction, which it sends, is
/// complete.
fn is_completion(own: u64, id: TransactionId, indication: &Indication) -> bool
    ensures complete { IsTrue result → Completes own id indication.now }
    ensures all { Completes own id indication.now → IsTrue result }
{
    match indication {
        Indication::Finished {
            id: finished,
            condition,
            delivery: Delivery::Complete,
            status: FileStatus::Retained,
        } => *finished == id && id.source == own && condition.code() == 0,
        _ => false,
    }
}

impl Stage {
    /// Returns the stage after the station was asked to stop.
    fn stopped(self) -> Stage {
        match self {
            Stage::Serving => Stage::Stopping(0),
            Stage::Stopping(_) | Stage::Halted => self,
        }
    }
}

impl<S: Spool, C: Console> User for Clerk<S, C> {
    ghost steps = { λ old call new. ClerkSteps S.sent S.failed old call new };

    fn asks<O: Outbox, I: Inbox>(&mut self, station: &Station<O, I>) -> Option<Wish> {
        self.looks(station);
        self.asked = None;
        self.is_drained = station.next_lane().is_none();
        if let Some(id) = self.next_refused() {
            return Some(Wish::Change(id, Request::Cancel));
        }
        match self.commanded(station) {
            Some(wish) => Some(wish),
            None => self.next_put(station.records_left()),
        }
    }

    fn answered(&mut self, reply: Reply) {
        match (self.asked.take(), reply) {
            (Some(put), Reply::Put(answer)) => {
                self.console.put_answered(&put.names, reply, put.is_again);
                match answer {
                    Ok(id) => {
                        let AskedPut { names, is_file, .. } = put;
                        self.opened(names, is_file, id);
                    }
                    Err(by) => self.refused(&put, by),
                }
            }
            (_, _) => self.console.change_answered(reply),
        }
    }

    fn hears(&mut self, indication: &Indication) {
        self.asked = None;
        self.console.hears(indication);
        match indication {
            Indication::Finished { id, condition, .. } => {
                let is_complete = is_completion(self.own, *id, indication);
                self.over(*id, is_complete, MAY_PASS.contains(condition));
            }
            Indication::Abandoned(id, condition) => {
                self.over(*id, false, MAY_PASS.contains(condition));
            }
            Indication::MetadataRecv { id, size, .. } => self.comes(*id, *size),
            _ => {}
        }
    }

    fn intends(&mut self) -> Intent {
        self.asked = None;
        self.has_looked = false;
        if self.stage == Stage::Halted || self.console.has_failed() {
            return Intent::Halt;
        }
        if self.open_count() > 0 || !self.waiting.is_empty() {
            return Intent::GoOn;
        }
        match self.stage {
            Stage::Stopping(turns) if self.is_drained => {
                if turns >= LAST_TURNS {
                    return Intent::Halt;
                }
                self.stage = Stage::Stopping(turns + 1);
                Intent::GoOn
            }
            Stage::Stopping(_) => Intent::GoOn,
            Stage::Serving | Stage::Halted => Intent::End,
        }
    }

    fn runs_short(&mut self) {
        self.is_short = true;
    }

    fn ends<O: Outbox, I: Inbox>(&mut self, station: &Station<O, I>) {
        self.asked = None;
        self.console.ends(station);
    }
}
