// Records, and the desk that their steps work on.
ghost use Rattle.std.specs.Prelude.{◌≡◌, ◌+◌, ◌≤◌, ◌<◌, ◌++◌, ◌∷◌, ◌*◌, drop, max, true, None};
ghost use Rattle.std.specs.Prelude.{Some, Option, [], length, slice_get, IfErr, IfOk, IfSome};
ghost use Rattle.std.specs.Prelude.{MatchOption, OnOk, OnErr, is_ok, is_some, false, take};
ghost use Rattle.std.specs.Prelude.{IsSome, IsTrue};
ghost use Rattle.std.specs.Prelude as lists;
ghost use Rattle.std.specs.FinMap as map;
ghost use Rattle.std.specs.Option.{option_map};
ghost use Rattle.std.specs.List.{IsDistinct};
ghost use Rattle.std.specs.Map.{keys_of};
ghost use Rattle.indexmap.specs.IndexMap.{keys, get, spare as spare_entries};
ghost use Rattle.cfdp_header.specs.Files.{FileMap};
ghost use Rattle.cfdp_header.specs.Ids.{same_id};
ghost use Rattle.cfdp_directives.specs.Pdu.Addressing.{FitsAddressing};
ghost use Rattle.cfdp_directives.specs.Pdu.Content.{view};
ghost use Rattle.cfdp_timers.specs.Due.{AreDue, IsLeast, due_count};
ghost use Rattle.cfdp_timers.specs.ButInactivity.{OnlyInactivity, IsLeastOther};
ghost use Rattle.cfdp_store.specs.Chains.{Raises};
ghost use Rattle.cfdp_store.specs.Stores.{Counts, failures_after};
ghost use Rattle.cfdp_sender.specs.State.{IsSendable};
ghost use Rattle.cfdp_directives.specs.Pdu.Sums.{SumsFit};
ghost use Rattle.cfdp_sender.specs.Back as sender_back;
ghost use Rattle.cfdp_sender.specs.Does.{HasFile, HasFileWhile};
ghost use Rattle.cfdp_sender.specs.Inputs.{front_sums};
ghost use Rattle.cfdp_store.specs.Files.{octets_in};
ghost use Rattle.cfdp_entity.specs.Entity.{EntityState};
ghost use Rattle.cfdp_entity.specs.Restoring.{AddsReceiver, AreHeldBelow, ReceiverCause, all_kept};
ghost use Rattle.cfdp_entity.specs.Restoring.{record_kept, sender_restored, was_shown};
ghost use Rattle.cfdp_receiver.specs.Back as receiver_back;
ghost use Rattle.cfdp_entity.specs.Exchanging.{table_told_by};
ghost use Rattle.cfdp_entity.specs.Adding.{AddsSource, RefusesToAdd, with_source};
ghost use Rattle.cfdp_entity.specs.Refusing as refusing;
ghost use Rattle.cfdp_entity.specs.Found.{found_at, is_data};
ghost use Rattle.cfdp_entity.specs.Forgetting as forgetting;
ghost use Rattle.cfdp_entity.specs.Forgetting.{left_at, over_in, without_file};
ghost use Rattle.cfdp_entity.specs.Looking.{IsSent, IsUnsent, Looks, LooksAnew, sends_at};
ghost use Rattle.cfdp_entity.specs.Opening.{closing, AsksInOrder, CountsBoth};
ghost use Rattle.cfdp_entity.specs.RemovingSources.{RefusesToRemove, RemovesSource};
ghost use Rattle.cfdp_entity.specs.RemovingSources.{without_source};
ghost use Rattle.cfdp_entity.specs.Roomy.{Becomes, LacksMemory, MayAdd, SendsFrom, Steps};
ghost use Rattle.cfdp_entity.specs.Roomy.{roomy_lent};
ghost use Rattle.cfdp_entity.specs.Sound.{longest_pdu};
ghost use Rattle.cfdp_entity.specs.Spelled.{EntryIsSpelled};
ghost use Rattle.cfdp_entity.specs.Storing.{AsksToHear, AsksToRequest, AsksToExpire, AsksByTimer};
ghost use Rattle.cfdp_entity.specs.Storing.{AsksToFire, AsksToTick, AsksToOpen};
ghost use Rattle.cfdp_entity.specs.Walking.{phases_of};
ghost use Rattle.cfdp_entity.specs.Table as tables;
ghost use Rattle.cfdp_entity.specs.Table.{next_told, without_told, heard_at, expired_at, called_at};
ghost use Rattle.cfdp_entity.specs.Table.{data_at, len_at, put_in, opened_by, next_due};
ghost use Rattle.cfdp_entity.specs.Table.{first_table, all_expired, at_time, Ticks, phase_in};
ghost use Rattle.cfdp_entity.specs.Table.{progress_in, standing, ShowsIf};

use crate::desk::Desk;
use crate::due::{FoundDue, RecordDue};
use crate::error::{AddError, ForgetError, RemoveError, RequestError};
use crate::opening::{MOST_TOLD, Opened};
use crate::ready::Ready;
use crate::record::{Gave, Record};
use crate::request::Request;
use crate::restoring::RestoreError;
use crate::transactions::Transactions;
use cfdp_directives::{Addressing, ChecksumKind, Checksums, Indication, Pdu, Phase, Policy};
use cfdp_extents::Extents;
use cfdp_header::TransactionId;
use cfdp_receiver::CommittedReceiver;
use cfdp_sender::{CommittedSender, Transfer, sums_of_front};
use cfdp_store::{
    Inbox, MemoryInbox, MemoryOutbox, Outbox, ResumingInbox, SeekingOutbox, StoreError, Stored,
};
use cfdp_timers::{Effects, Kind};
use ghost_list::Counted;
use indexmap::IndexMap;
use indexmap::map::Iter;
use std::alloc::{AllocError, Global};
use std::marker::Model;
use std::mem;

/// The most records of a table, closed ones included.
pub const MOST_RECORDS: usize = 4096;

/// Records in order of opening, and the desk that their steps work on.
#[derive(Drop)]
pub struct Table<O: Outbox, I: Inbox> {
    alloc: Global,
    records: IndexMap<TransactionId, Record>,
    ready: Ready,
    // How many indications were discarded: those that are left stand on the desk.
    gone: Counted<Indication>,
    desk: Desk<O, I>,
}

impl<O: Outbox, I: Inbox> Model for Table<O, I> {
    ghost use Rattle.cfdp_entity.specs.Coded.{state_codes};
    ghost use Rattle.cfdp_entity.specs.Desk.{on_desk};
    ghost use Rattle.cfdp_entity.specs.Roomy.{Roomy};
    ghost use Rattle.cfdp_entity.specs.Whole.{IsWhole, roomy_of};

    ghost Value = { Roomy };

    ghost coded = { Prim.hlevel (state_codes) };

    ghost view = { λ t. roomy_of t.gone (on_desk O.Outbox I.Inbox t.desk) t.records.entries };

    ghost invariant = { λ t. IsWhole (on_desk O.Outbox I.Inbox t.desk) t.records.entries t.ready };
}

impl<O: Outbox, I: Inbox> Table<O, I> {
    /// Returns a table without records.
    pub fn new(alloc: Global, outbox: O, inbox: I, policy: Policy) -> Result<Self, AllocError>
        ensures { IfOk result (λ t. t ≡ record t {
          state = standing (O.stands outbox)
              (first_table (O.files outbox) (I.published inbox) policy);
          inbox_failures = I.failures inbox;
          outbox_failures = O.failures outbox;
        }) }
    {
        let ready = Ready::new(alloc)?;
        let desk = Desk {
            outbox,
            inbox,
            effects: Effects::new(alloc),
            policy,
        };
        Ok(Table {
            alloc,
            records: IndexMap::new(alloc),
            ready,
            gone: Counted::new(),
            desk,
        })
    }

    /// Returns how many records there are.
    pub fn len(&self) -> usize
        ensures len { result ≡ length self.now.state.records }
        ensures few { result ≤ 4096 }
        ensures distinct { IsDistinct same_id (keys_of self.now.state.records) }
    {
        self.records.len()
    }

    /// Returns what was indicated, except for what was discarded.
    pub fn told(&self) -> &[Indication]
        ensures { result.now ≡ drop self.now.state.gone self.now.state.told }
    {
        self.desk.effects.told.as_slice()
    }

    /// Returns how many indications were discarded.
    pub fn gone(&self) -> u64
        ensures { result ≡ self.now.state.gone }
    {
        self.gone.count()
    }

    /// Discards the first so many of the indications that are left.
    pub fn forget_told(&mut self, count: usize)
        ensures { Becomes (without_told count self.old.state) self.old self.new }
    {
        let told = &mut self.desk.effects.told;
        let count = count.min(told.len());
        if self.gone.count().checked_add(count as u64).is_none() {
            return;
        }
        self.gone.put_all(&told[..count]);
        told.rotate_left(count);
        told.truncate(told.len() - count);
    }

    /// Takes the first of the indications that are left.
    pub fn take_told(&mut self) -> Option<Indication>
        ensures told { result ≡ next_told self.old.state }
        ensures state { Becomes (without_told 1 self.old.state) self.old self.new }
    {
        let told = &mut self.desk.effects.told;
        if told.is_empty() || self.gone.count() == u64::MAX {
            return None;
        }
        let next = told.remove(0);
        self.gone.put(&next);
        Some(next)
    }

    /// Exchanges what was indicated in both tables, with how many indications were discarded.
    pub fn exchange_told(&mut self, other: &mut Self)
        ensures own { self.new ≡ table_told_by other.old self.old }
        ensures other { other.new ≡ table_told_by self.old other.old }
    {
        mem::swap(&mut self.gone, &mut other.gone);
        mem::swap(&mut self.desk.effects.told, &mut other.desk.effects.told);
    }

    /// Returns the index of a transaction's record.
    pub fn place_of(&self, id: TransactionId) -> Option<usize>
        ensures { result ≡ tables.place_of id self.now.state.records }
    {
        self.records.get_index_of(&id)
    }

    /// Returns the first record from an index on that has something due, otherwise the first of
    /// all.
    pub fn next_due(&self, from: usize) -> Option<usize>
        ensures next { result ≡ next_due from self.now.state.records }
        ensures within { IfSome result (λ place. place < 4096) }
    {
        self.ready.next(from)
    }

    /// Returns what the record at an index has due.
    pub fn due_at(&self, place: usize) -> FoundDue
        ensures due { result.due ≡ found_at place self.now.state }
        ensures data { is_data result.due ≡ data_at place self.now.state }
        ensures len { result.len ≡ len_at place self.now.state }
        ensures short { result.len ≤ longest_pdu }
        ensures spelled { (sources : FileMap) → EntryIsSpelled sources
            (slice_get self.now.state.records place) }
    {
        match self.records.get_index(place) {
            Some((_, held)) => held.due(),
            None => FoundDue {
                due: RecordDue::Sends(None),
                len: 0,
            },
        }
    }

    /// Returns how far the transaction has come whose record is at an index.
    pub fn phase_at(&self, place: usize) -> Option<Phase>
        ensures { result ≡ phase_in (slice_get self.now.state.records place) }
    {
        match self.records.get_index(place) {
            Some((_, held)) => Some(held.phase()),
            None => None,
        }
    }

    /// Returns the offset up to which octets of the file were sent, or came, of the transaction
    /// whose record is at an index.
    pub fn progress_at(&self, place: usize) -> Option<u64>
        ensures { result ≡ progress_in (slice_get self.now.state.records place) }
    {
        match self.records.get_index(place) {
            Some((_, held)) => Some(held.progress()),
            None => None,
        }
    }

    /// Returns the transactions in order of opening, each with how far it has come.
    pub fn transactions(&self) -> Transactions<'_>
        ensures { result ≡ phases_of self.now.state }
    {
        Transactions::over(self.records.iter())
    }

    /// Returns why a request of the record at an index is refused, if it is.
    pub fn refusal_at(&self, place: usize, request: Request) -> Option<RequestError>
        ensures { result ≡ refusing.refusal_of request (slice_get self.now.state.records place) }
    {
        match self.records.get_index(place) {
            Some((_, held)) => held.refusal(request),
            None => Some(RequestError::Unknown),
        }
    }

    /// Returns why the record at an index can't be discarded, if it can't.
    pub fn forget_refusal_at(&self, place: usize) -> Option<ForgetError>
        ensures { result ≡ forgetting.refusal_of (slice_get self.now.state.records place) }
    {
        match self.records.get_index(place) {
            Some((_, held)) => held.forget_refusal(),
            None => Some(ForgetError::Unknown),
        }
    }

    /// Returns the transaction of the record at an index, if that may be discarded.
    pub fn over_at(&self, place: usize) -> Option<TransactionId>
        ensures { result ≡ over_in (slice_get self.now.state.records place) }
    {
        match self.records.get_index(place) {
            Some((id, held)) => unless_refused(held.forget_refusal(), *id),
            None => None,
        }
    }

    /// Discards the record at an index: those after it move up, and no timer of its transaction
    /// is armed.
    pub fn forget(&mut self, place: usize, id: TransactionId)
        requires at { slice_get (keys_of self.old.state.records) place ≡ Some id }
        ensures { Becomes (left_at place id self.old.state) self.old self.new }
    {
        let _ = self.records.shift_remove_index(place);
        self.ready.remove(place);
        self.desk.effects.timers.let_go(id);
    }

    /// Returns the number of octets of a file of the outbox.
    pub fn source_len(&mut self, name: &[u8]) -> Result<Option<u64>, StoreError>
        ensures answer { IfOk result (λ len. len ≡ option_map length
            (map.get self.old.state.sources name.now)) }
        ensures counted { self.new ≡ record self.old {
          outbox_failures
              = failures_after self.old.outbox_failures (is_ok result);
        } }
    {
        self.desk.outbox.len(name)
    }

    /// Makes room for so many indications.
    pub fn reserve(&mut self, more: usize) -> Result<(), AllocError>
        ensures stays { Becomes self.old.state self.old self.new }
        ensures room { OnOk result (more ≤ self.new.spare) }
        ensures some { OnErr result (1 ≤ more) }
    {
        if more == 0 {
            return Ok(());
        }
        self.desk.effects.told.reserve(more)
    }

    /// Lets the record at an index hear a PDU, with its large file flag.
    pub fn hear(&mut self, place: usize, large: bool, pdu: &Pdu<'_>) -> Result<Stored, AllocError>
        requires room { 3 ≤ self.old.spare }
        ensures heard { IfOk result (λ stored. Steps
            (heard_at stored place large (view pdu.now) self.old.state) (Counts stored)
            (AsksToHear Raises stored place large (view pdu.now) self.old.state)
            self.old self.new) }
        ensures err { OnErr result (LacksMemory place (view pdu.now) self.old self.new) }
    {
        match self.records.get_index_mut(place) {
            Some(held) => {
                let answer = self.desk.hear(held, large, pdu);
                self.ready.set(place, held.is_due());
                answer
            }
            None => Ok(Stored::Done),
        }
    }

    /// Fires a timer of the record at an index.
    pub fn expire(&mut self, place: usize, kind: Kind)
        requires room { 3 ≤ self.old.spare }
        ensures expired { Steps (expired_at place kind self.old.state) (Counts Stored.Done)
            (AsksToExpire Raises kind place self.old.state) self.old self.new }
        ensures room { self.old.spare ≤ self.new.spare + 3 }
    {
        match self.records.get_index_mut(place) {
            Some(held) => {
                self.desk.expire(held, kind);
                self.ready.set(place, held.is_due());
            }
            None => {}
        }
    }

    /// Does a request of the user of the record at an index.
    pub fn request(&mut self, place: usize, request: Request)
        requires room { 3 ≤ self.old.spare }
        ensures { Steps (called_at place request self.old.state) (Counts Stored.Done)
            (AsksToRequest Raises request place self.old.state) self.old self.new }
    {
        match self.records.get_index_mut(place) {
            Some(held) => {
                self.desk.request(held, request);
                self.ready.set(place, held.is_due());
            }
            None => {}
        }
    }

    /// Takes the PDU that the record at an index has due.
    pub fn send(&mut self, place: usize, due: &RecordDue, out: &mut [u8]) -> Gave
        requires room { 3 ≤ self.old.spare }
        requires due { due.now ≡ found_at place self.old.state }
        requires fits { len_at place self.old.state ≤ length out.old }
        ensures sends { SendsFrom place result (roomy_lent self.new self.old) self.new out.old
            out.new }
        ensures shows { ShowsIf (data_at place self.old.state) self.old.state self.new.state }
    {
        match self.records.get_index_mut(place) {
            Some(held) => {
                let gave = self.desk.send(held, due, out);
                self.ready.set(place, held.is_due());
                gave
            }
            None => Gave::Octets(0),
        }
    }

    /// Opens a record by a put.
    pub fn put(&mut self, transfer: Transfer) -> Result<(), AllocError>
        requires may_add { MayAdd transfer.addressing.id self.old.state }
        requires sendable { IsSendable transfer }
        requires file { HasFile self.old.state.sources transfer.source transfer.size }
        ensures put { OnOk result (Becomes (put_in transfer self.old.state) self.old self.new) }
        ensures err { OnErr result (Becomes self.old.state self.old self.new) }
    {
        let id = transfer.addressing.id;
        self.desk.effects.told.reserve(MOST_TOLD)?;
        self.records.reserve(1)?;
        let held = self.desk.put(self.alloc, transfer)?;
        self.ready.push(held.is_due());
        push_record(&mut self.records, id, held);
        Ok(())
    }

    /// Opens a record by a PDU of no record. If the inbox begins its transaction, the record hears
    /// the PDU, with its large file flag. If the PDU is an EOF with an error, the record is closed.
    pub fn open(
        &mut self,
        addressing: Addressing,
        large: bool,
        pdu: &Pdu<'_>,
    ) -> Result<Opened, AllocError>
        requires may_add { MayAdd addressing.id self.old.state }
        requires addressing { FitsAddressing addressing }
        ensures opened { IfOk result (λ o. Steps (opened_by o.begun o.stored addressing large
            (view pdu.now) self.old.state) (CountsBoth o.begun o.stored) (AsksToOpen Raises o.begun
            o.stored addressing large (view pdu.now) self.old.state) self.old self.new) }
        ensures asks { IfOk result (λ o. AsksInOrder (closing (view pdu.now)) o.begun o.stored) }
        ensures err { OnErr result (Becomes self.old.state self.old self.new) }
    {
        self.desk.effects.told.reserve(MOST_TOLD)?;
        self.records.reserve(1)?;
        let (held, opened) = self.desk.open(self.alloc, addressing, large, pdu)?;
        self.ready.push(held.is_due());
        push_record(&mut self.records, addressing.id, held);
        Ok(opened)
    }

    /// Returns the earliest deadline of the armed timers except those of kind Inactivity.
    pub fn next_deadline(&self) -> Option<u64>
        ensures { MatchOption result (OnlyInactivity self.now.state.armed)
            (λ deadline. IsLeastOther self.now.state.armed deadline) }
    {
        self.desk.effects.timers.next_but_inactivity()
    }

    /// Returns the earliest deadline of the armed timers.
    pub fn next_timeout(&self) -> Option<u64>
        ensures { MatchOption result (self.now.state.armed ≡ map.empty)
            (λ deadline. IsLeast self.now.state.armed deadline) }
    {
        self.desk.effects.timers.next()
    }

    /// Returns the deadline of a timer, if it is armed.
    pub fn deadline_of(&self, id: TransactionId, kind: Kind) -> Option<u64>
        ensures { result ≡ map.get self.now.state.armed (id, kind) }
    {
        self.desk.effects.timers.deadline_of(id, kind)
    }

    /// Notes the time: the timers that are due fire, one after another.
    pub fn tick(&mut self, now: u64) -> Result<(), AllocError>
        ensures ticked { OnOk result (Ticks now self.old.state self.new.state) }
        ensures raises { OnOk result (AsksToTick Raises now self.old.state
            self.old.inbox_failures self.new.inbox_failures) }
        ensures err { OnErr result (Becomes self.old.state self.old self.new) }
        ensures lacks { OnErr result
            (1 ≤ due_count self.old.state.armed (max self.old.state.now now)) }
        ensures grows { self.old.inbox_failures ≤ self.new.inbox_failures }
        ensures outbox { self.new.outbox_failures ≡ self.old.outbox_failures }
    {
        let due = self.due_count(now);
        self.reserve(3 * due)?;
        let fired = self.fire(now)?;
        self.expire_all(&fired);
        Ok(())
    }

    fn due_count(&self, now: u64) -> usize
        ensures count { result ≡ due_count self.now.state.armed (max self.now.state.now now) }
        ensures few { result < 4611686018427387904 }
    {
        self.desk.effects.timers.due_count(now)
    }

    fn fire(&mut self, now: u64) -> Result<Vec<(TransactionId, Kind)>, AllocError>
        ensures fired { IfOk result (λ fired. AreDue self.old.state.armed
            (max self.old.state.now now) fired.items) }
        ensures count { IfOk result (λ fired. length fired.items ≡ due_count self.old.state.armed
            (max self.old.state.now now)) }
        ensures state { OnOk result (Becomes (at_time now self.old.state) self.old self.new) }
        ensures spare { self.new.spare ≡ self.old.spare }
        ensures err { OnErr result (Becomes self.old.state self.old self.new) }
        ensures lacks { OnErr result
            (1 ≤ due_count self.old.state.armed (max self.old.state.now now)) }
    {
        self.desk.effects.timers.fire(now)
    }

    fn expire_all(&mut self, fired: &[(TransactionId, Kind)])
        requires room { 3 * length fired.now ≤ self.old.spare }
        ensures { Steps (all_expired fired.now self.old.state) (Counts Stored.Done)
            (AsksToFire Raises fired.now self.old.state) self.old self.new }
    {
        for (id, kind) in fired {
            self.expire_one(*id, *kind);
        }
    }

    fn expire_one(&mut self, id: TransactionId, kind: Kind)
        requires room { 3 ≤ self.old.spare }
        ensures expired { Steps (tables.expired (id, kind) self.old.state) (Counts Stored.Done)
            (AsksByTimer Raises (id, kind) self.old.state) self.old self.new }
        ensures room { self.old.spare ≤ self.new.spare + 3 }
    {
        if let Some(place) = self.place_of(id) {
            self.expire(place, kind);
        }
    }
}

// Returns a transaction, if its record may be discarded.
fn unless_refused(refusal: Option<ForgetError>, id: TransactionId) -> Option<TransactionId>
    ensures { result ≡ forgetting.unless_refused refusal id }
{
    match refusal {
        None => Some(id),
        Some(_) => None,
    }
}

// Adds a record after all others.
fn push_record(records: &mut IndexMap<TransactionId, Record>, id: TransactionId, opened: Record)
    requires absent { get same_id records.old id ≡ None }
    requires room { 1 ≤ spare_entries records.old }
    ensures added { records.new.entries ≡ records.old.entries ++ (id, opened) ∷ [] }
    ensures unique { IsDistinct same_id (keys records.new) }
{
    let _ = records.insert(id, opened);
}

impl<O: Outbox, I: Inbox> Table<O, I> {
    /// Borrows the outbox.
    pub fn outbox(&self) -> &O
        ensures files { O.files result.now ≡ self.now.state.sources }
        ensures stands { O.stands result.now ≡ self.now.state.stands }
        ensures failures { O.failures result.now ≡ self.now.outbox_failures }
    {
        &self.desk.outbox
    }

    /// Borrows the inbox.
    pub fn inbox(&self) -> &I
        ensures published { I.published result.now ≡ self.now.state.files }
        ensures failures { I.failures result.now ≡ self.now.inbox_failures }
    {
        &self.desk.inbox
    }
}

impl<I: Inbox> Table<MemoryOutbox, I> {
    /// Adds a file to the outbox.
    pub fn add_source(&mut self, name: &[u8], octets: &[u8]) -> Result<(), AddError>
        ensures added { OnOk result (AddsSource name.now octets.now self.old.state
            self.new.state) }
        ensures refused { IfErr result (RefusesToAdd name.now self.old.state.sources) }
        ensures stays { Becomes self.new.state self.old self.new }
        ensures err { OnErr result (self.new.state ≡ self.old.state) }
    {
        match self.desk.outbox.len(name) {
            Ok(None) => {}
            Ok(Some(_)) => return Err(AddError::Taken),
            Err(_) => return Err(AddError::NoMemory),
        }
        match self.keep_source(name, octets) {
            Ok(()) => Ok(()),
            Err(_) => Err(AddError::NoMemory),
        }
    }

    fn keep_source(&mut self, name: &[u8], octets: &[u8]) -> Result<(), AllocError>
        requires free { map.get self.old.state.sources name.now ≡ None }
        ensures added { OnOk result (Becomes (with_source name.now octets.now self.old.state)
            self.old self.new) }
        ensures err { OnErr result (Becomes self.old.state self.old self.new) }
    {
        let name = Vec::from_slice(self.alloc, name)?;
        let octets = Vec::from_slice(self.alloc, octets)?;
        self.desk.outbox.add(name, octets)
    }
}

impl<O: Outbox, I: Inbox> Table<O, I> {
    // Returns `true` if the record at an index is sending the file of this name.
    fn sends_at(&self, place: usize, name: &[u8]) -> bool
        ensures { result ≡ sends_at name.now place self.now.state }
    {
        match self.records.get_index(place) {
            Some((_, held)) => held.sends_file(name),
            None => false,
        }
    }

    // Returns `true` if a record is sending it.
    fn is_sending(&self, name: &[u8]) -> bool
        ensures sent { result ≡ true → IsSent name.now self.now.state }
        ensures unsent { result ≡ false → IsUnsent name.now self.now.state }
    {
        for place in 0..self.len() {
            if self.sends_at(place, name) {
                return true;
            }
        }
        false
    }
}

impl<I: Inbox> Table<MemoryOutbox, I> {
    /// Removes a file that no record is sending from the outbox.
    pub fn remove_source(&mut self, name: &[u8]) -> Result<(), RemoveError>
        ensures removed { OnOk result (RemovesSource name.now self.old.state self.new.state) }
        ensures refused { IfErr result (RefusesToRemove name.now self.old.state) }
        ensures stays { Becomes self.new.state self.old self.new }
        ensures err { OnErr result (self.new.state ≡ self.old.state) }
    {
        match self.desk.outbox.len(name) {
            Ok(Some(_)) => {}
            _ => return Err(RemoveError::NoSuchFile),
        }
        if self.is_sending(name) {
            return Err(RemoveError::InUse);
        }
        self.drop_source(name);
        Ok(())
    }

    // Removes a file that no record is sending.
    fn drop_source(&mut self, name: &[u8])
        requires { IsUnsent name.now self.old.state }
        ensures { Becomes (without_source name.now self.old.state) self.old self.new }
    {
        let _ = self.desk.outbox.remove(name);
    }
}

impl<O: SeekingOutbox, I: Inbox> Table<O, I> {
    /// Looks for the file of a name, unless a record is sending it. Returns `true` if there is one.
    pub fn look_for(&mut self, name: &[u8]) -> Result<bool, StoreError>
        ensures has { IfOk result (λ has. has ≡ is_some (map.get self.new.state.sources name.now)) }
        ensures looks { OnOk result (Looks name.now self.old.state self.new.state) }
        ensures err { OnErr result (self.new.state ≡ self.old.state) }
        ensures counted { self.new ≡ record self.old {
          state = self.new.state;
          outbox_failures = failures_after self.old.outbox_failures (is_ok result);
        } }
    {
        if self.is_sending(name) {
            return Ok(self.source_len(name)?.is_some());
        }
        self.look_anew(name)
    }

    // Looks for a file that no record is sending.
    fn look_anew(&mut self, name: &[u8]) -> Result<bool, StoreError>
        requires { IsUnsent name.now self.old.state }
        ensures has { IfOk result (λ has. has ≡ is_some (map.get self.new.state.sources name.now)) }
        ensures looks { LooksAnew name.now self.old.state self.new.state }
        ensures err { OnErr result (self.new.state ≡ self.old.state) }
        ensures counted { self.new ≡ record self.old {
          state = self.new.state;
          outbox_failures = failures_after self.old.outbox_failures (is_ok result);
        } }
    {
        self.desk.outbox.look_for(name)
    }
}

impl<O: Outbox, I: Inbox> Table<O, I> {
    /// Returns the records in order of opening, each with its transaction.
    pub fn records(&self) -> Iter<'_, TransactionId, Record>
        ensures { lists.map record_kept result ≡ all_kept self.now.state }
    {
        self.records.iter()
    }

    /// Reads the first octets of a file of the outbox, and returns what a sender keeps of them for
    /// the checksum of this type. They are read into `buffer`, piece by piece.
    pub fn sums_of_front(
        &mut self,
        kind: ChecksumKind,
        name: &[u8],
        end: u64,
        buffer: &mut [u8],
    ) -> Result<Checksums, StoreError>
        requires there { 0 < end → IsSome (map.get self.old.state.sources name.now) }
        requires within { end ≤ length (octets_in self.old.state.sources name.now) }
        requires room { 1 ≤ length buffer.old }
        ensures sums { IfOk result (λ sums. IsTrue self.new.state.stands
            → sums ≡ front_sums kind (take end (octets_in self.new.state.sources name.now))) }
        ensures fits { IfOk result SumsFit }
        ensures shows { ShowsIf true self.old.state self.new.state }
        ensures counted { self.new ≡ record (roomy_lent self.new self.old) {
          outbox_failures
              = failures_after self.old.outbox_failures (is_ok result);
        } }
    {
        sums_of_front(&mut self.desk.outbox, kind, name, end, buffer)
    }

    /// Restores a sender, after all other records.
    pub fn restore_sender(
        &mut self,
        kept: CommittedSender,
        sent: u64,
        sums: Checksums,
    ) -> Result<(), AllocError>
        requires may_add { MayAdd kept.transfer.addressing.id self.old.state }
        requires committed { sender_back.IsCommitted kept }
        requires file { HasFileWhile kept.phase self.old.state.sources kept.transfer.source
            kept.transfer.size }
        requires within { sent ≤ kept.transfer.size }
        requires fits { SumsFit sums }
        ensures restored { OnOk result (Becomes (sender_restored sent sums kept self.old.state)
            self.old self.new) }
        ensures err { OnErr result (Becomes self.old.state self.old self.new) }
    {
        let id = kept.transfer.addressing.id;
        self.records.reserve(1)?;
        let held = self.desk.restore_sender(self.alloc, kept, sent, sums)?;
        self.ready.push(held.is_due());
        push_record(&mut self.records, id, held);
        Ok(())
    }
}

impl<O: Outbox, I: ResumingInbox> Table<O, I> {
    /// Restores a receiver, after all other records, with what it held. That is read from the part
    /// of its file in the inbox, in pieces as long as `buffer`.
    pub fn restore_receiver(
        &mut self,
        kept: CommittedReceiver,
        held: Extents,
        buffer: &mut [u8],
    ) -> Result<(), RestoreError>
        requires may_add { MayAdd kept.addressing.id self.old.state }
        requires committed { receiver_back.IsCommitted kept }
        requires within { AreHeldBelow held kept }
        requires room { 1 ≤ length buffer.old }
        ensures restored { OnOk result (AddsReceiver kept held self.old.state self.new.state) }
        ensures refused { IfErr result (λ by. (e : EntityState) → ReceiverCause by kept held e) }
        ensures err { OnErr result (self.new.state ≡ self.old.state) }
        ensures inbox { self.new.inbox_failures
            ≡ failures_after self.old.inbox_failures (was_shown result) }
        ensures outbox { self.new.outbox_failures ≡ self.old.outbox_failures }
    {
        let id = kept.addressing.id;
        match self.records.reserve(1) {
            Ok(()) => {}
            Err(_) => return Err(RestoreError::NoMemory),
        }
        let opened = self.desk.restore_receiver(self.alloc, kept, held, buffer)?;
        self.ready.push(opened.is_due());
        push_record(&mut self.records, id, opened);
        Ok(())
    }
}

impl<O: Outbox> Table<O, MemoryInbox> {
    /// Removes a published file from the inbox, if there is one of that name.
    pub fn remove_file(&mut self, name: &[u8]) -> Option<Vec<u8>>
        ensures octets { option_map (λ octets. octets.items) result
            ≡ map.get self.old.state.files name.now }
        ensures gone { Becomes (without_file name.now self.old.state) self.old self.new }
    {
        self.desk.inbox.remove(name)
    }
}
