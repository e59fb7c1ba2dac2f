// What an entity sends: what a poll gives, and who has the turn.
ghost use Rattle.std.specs.Prelude.{◌≡◌, ◌≤◌, ◌<◌, [], true, length, IfOk, OnErr, OnOk};
ghost use Rattle.cfdp_entity.specs.declared.polled.EntityPolled.TheVariants as answers;
ghost use Rattle.cfdp_entity.specs.Entity.{counted_lent, entity_lent};
ghost use Rattle.cfdp_entity.specs.Found.{found_at};
ghost use Rattle.cfdp_entity.specs.Gives.{CountsOutbox};
ghost use Rattle.cfdp_entity.specs.Polling.{Polls, SendsAt, Shows, TakesTurn, room_in};
ghost use Rattle.cfdp_entity.specs.Polling.{stored_by_poll, turn_room};
ghost use Rattle.cfdp_entity.specs.Sound.{longest_pdu};
ghost use Rattle.cfdp_entity.specs.Spelled.{Answers, FirstIsSpelled, SpellsMoved};
ghost use Rattle.cfdp_entity.specs.Strays.{first_stray_len};
ghost use Rattle.cfdp_entity.specs.Table.{ShowsIf, data_at, len_at};

use crate::due::RecordDue;
use crate::entity::Entity;
use crate::record::Gave;
use crate::sent::SentPdu;
use cfdp_store::{Inbox, Outbox};
use std::alloc::AllocError;

/// The octets for which there is room, by the type of the PDU (CCSDS 727.0-B-5, 5.1.1).
#[derive(Clone, Copy, Debug, PartialEq, Eq)]
pub struct Rooms {
    /// For a directive.
    pub directives: usize,
    /// For file data.
    pub file_data: usize,
}

impl Rooms {
    // Returns the room for file data if `file_data` is set, otherwise for a directive.
    fn of(self, file_data: bool) -> usize
        ensures { result ≡ room_in self file_data }
    {
        if file_data {
            self.file_data
        } else {
            self.directives
        }
    }
}

/// What a poll did.
#[derive(Clone, Copy, Debug, PartialEq, Eq)]
pub enum EntityPolled {
    /// A PDU was written.
    Moved {
        /// Its octets.
        len: usize,
        /// `true` if it is file data; all others are directives.
        file_data: bool,
    },
    /// Nothing is due.
    Nothing,
    /// The PDU that is due is longer than the room that was given for its type. Nothing changed.
    Full,
    /// The outbox failed to give the file data that are due: the transaction was cancelled for it,
    /// and no PDU was written.
    SourceFailed,
}

impl<O: Outbox, I: Inbox> Entity<O, I> {
    /// Takes the PDU that is due next: stray acknowledgements come first, then the records in order
    /// of opening, round robin from after the one served last. It is written over the first octets
    /// of `out`, if it has at most as many octets as there is room for its type. No PDU is
    /// longer than 4,134 octets.
    ///
    /// Whose turn it is doesn't depend on the rooms: `Full` is reported if file data don't fit,
    /// even if another record has a directive due that would.
    ///
    /// # Errors
    ///
    /// `AllocError` if a record has the turn and its PDU fits, but there is no memory for what
    /// is indicated. All is then as it was.
    pub fn poll(&mut self, rooms: Rooms, out: &mut [u8]) -> Result<EntityPolled, AllocError>
        requires directives { rooms.directives ≤ length out.old }
        requires file_data { rooms.file_data ≤ length out.old }
        // What was read of a file is what the outbox has now.
        ensures polled { let lent = counted_lent self.new self.old in IfOk result (λ answer. Polls
            (turn_room rooms lent.state) answer lent self.new out.old out.new) }
        ensures shows { IfOk result (λ answer. Shows answer self.old.state self.new.state) }
        // Its octets are those of what it says.
        ensures spells { IfOk result (λ answer. SpellsMoved answer
            (entity_lent self.new.state self.old.state)) }
        ensures roomy { IfOk result (λ answer. answer ≡ answers.Full
            → turn_room rooms self.old.state < longest_pdu) }
        ensures counts { IfOk result (λ answer. CountsOutbox (stored_by_poll answer)
            self.old.outbox_failures self.new.outbox_failures) }
        ensures err { OnErr result ((self.new ≡ self.old) × (out.new ≡ out.old)) }
        ensures lacks { OnErr result (TakesTurn (turn_room rooms self.old.state) self.old.state) }
        ensures inbox { self.new.inbox_failures ≡ self.old.inbox_failures }
    {
        if self.strays.is_empty() {
            self.poll_record(rooms, out)
        } else {
            Ok(self.poll_stray(rooms.directives, out))
        }
    }

    // Returns the first stray acknowledgement, if there is one.
    fn poll_stray(&mut self, room: usize, out: &mut [u8]) -> EntityPolled
        requires fits { room ≤ length out.old }
        requires some { 1 ≤ length self.old.state.strays }
        ensures answers { Answers room result self.old self.new out.old out.new }
        ensures shows { Shows result self.old.state self.new.state }
        ensures table { self.new.state.table ≡ self.old.state.table }
    {
        let len = self.stray_len();
        if len > room {
            return EntityPolled::Full;
        }
        match self.strays.pop_front() {
            Some(stray) => {
                self.sent.count(SentPdu::OtherDirective);
                EntityPolled::Moved {
                    len: stray.write(out),
                    file_data: false,
                }
            }
            None => EntityPolled::Nothing,
        }
    }

    fn stray_len(&self) -> usize
        ensures len { result ≡ first_stray_len self.now.state.strays }
        ensures short { result ≤ longest_pdu }
        ensures spelled { FirstIsSpelled self.now.state.strays }
    {
        match self.strays.front() {
            Some(stray) => stray.len(),
            None => 0,
        }
    }

    // Returns the record that is next, if no stray acknowledgement waits.
    fn poll_record(&mut self, rooms: Rooms, out: &mut [u8]) -> Result<EntityPolled, AllocError>
        requires directives { rooms.directives ≤ length out.old }
        requires file_data { rooms.file_data ≤ length out.old }
        requires no_stray { self.old.state.strays ≡ [] }
        ensures answers { let lent = counted_lent self.new self.old in IfOk result (λ answer.
            Answers (turn_room rooms lent.state) answer lent self.new out.old out.new) }
        ensures shows { IfOk result (λ answer. Shows answer self.old.state self.new.state) }
        ensures err { OnErr result ((self.new ≡ self.old) × (out.new ≡ out.old)) }
        ensures lacks { OnErr result (TakesTurn (turn_room rooms self.old.state) self.old.state) }
    {
        let Some(place) = self.table.next_due(self.cursor) else {
            return Ok(EntityPolled::Nothing);
        };
        let found = self.table.due_at(place);
        let file_data = found.due.is_file_data();
        if found.len > rooms.of(file_data) {
            return Ok(EntityPolled::Full);
        }
        match self.send_at(place, &found.due, out)? {
            Gave::Octets(len) => Ok(EntityPolled::Moved { len, file_data }),
            Gave::Failed => Ok(EntityPolled::SourceFailed),
        }
    }

    // Takes the PDU that the record at an index has due.
    #[tactic(auto, using(crate::proofs::Found::counts_found))]
    fn send_at(&mut self, place: usize, due: &RecordDue, out: &mut [u8]) -> Result<Gave, AllocError>
        requires due { due.now ≡ found_at place self.old.state.table }
        requires fits { len_at place self.old.state.table ≤ length out.old }
        requires within { place < 4096 }
        ensures sends { IfOk result (λ gave. SendsAt place gave (counted_lent self.new self.old)
            self.new out.old out.new) }
        ensures shows { OnOk result (ShowsIf (data_at place self.old.state.table)
            self.old.state.table self.new.state.table) }
        ensures err { OnErr result ((self.new ≡ self.old) × (out.new ≡ out.old)) }
    {
        self.table.reserve(3)?;
        let gave = self.table.send(place, due, out);
        self.cursor = place + 1;
        self.sent.count_given(gave, due.counts_as());
        Ok(gave)
    }
}
