// Sending the PDU that is due.
ghost use Rattle.std.specs.Prelude.{◌≡◌, ◌+◌, ◌≤◌, ◌++◌, [], length, take, drop, vec_len};
ghost use Rattle.std.specs.Prelude.{vec_capacity, true, IfOk, IfSome, OnErr, OnOk, IsSome, Some};
ghost use Rattle.std.specs.Prelude.{is_ok, false};
ghost use Rattle.std.specs.FinMap as map;
ghost use Rattle.cfdp_header.specs.Crc.{crc_len};
ghost use Rattle.cfdp_directives.specs.Pdu.Addressing.{written_len, data_front_len};
ghost use Rattle.cfdp_directives.specs.Pdu.Codes as codes;
ghost use Rattle.cfdp_directives.specs.Pdu.Content.{FileData};
ghost use Rattle.cfdp_store.specs.Files.{octets_in};
ghost use Rattle.cfdp_store.specs.Rereading.{Rereads, RereadsIf};
ghost use Rattle.cfdp_store.specs.Stores.{failures_after};
ghost use Rattle.cfdp_store.specs.declared.stored.Stored.TheVariants as answers;
ghost use Rattle.cfdp_timers.specs.Effects.{HasRoom};
ghost use Rattle.cfdp_sender.specs.Due.{sender_due, sender_says, carries, carries_by};
ghost use Rattle.cfdp_sender.specs.declared.due.SenderDue.TheVariants as dues;
ghost use Rattle.cfdp_sender.specs.declared.phase.SenderPhase.TheVariants as phases;
ghost use Rattle.cfdp_sender.specs.Reading.{Reads, ReadsOnce};
ghost use Rattle.cfdp_sender.specs.Steps as steps;
ghost use Rattle.cfdp_sender.specs.Does.{HasFile, HasOwnFile, Leaves, Writes, Takes, was_given};

use crate::due::SenderDue;
use crate::phase::SenderPhase;
use crate::sender::Sender;
use crate::taken::Taken;
use cfdp_directives::{Condition, Handler, Indication, Policy, indicate, indicate_fault};
use cfdp_store::{Outbox, StoreError};
use cfdp_timers::{Effects, Kind};

impl Sender {
    /// Sends the PDU that is due: writes it into the first octets of `out`, whose others stay. It
    /// has the large file flag if the file has 2^32 octets or more. File data are read from the
    /// outbox; if that fails, it is fault 4, the transaction is cancelled, and what `out` then
    /// holds is left open. If EOF is sent for the first time, that is indicated. Takes no memory,
    /// except what the outbox takes for itself.
    ///
    /// The octets of the file are those that the outbox has once they are read: if it shows
    /// others than before, the files stand no more.
    ///
    /// The effects must have room for a step of the transaction. If the file is being sent, the
    /// outbox must have it under the source name, with all its octets. `out` must have room for the
    /// PDU, as `due` says.
    pub fn take_pdu<O: Outbox>(
        &mut self,
        effects: &mut Effects,
        outbox: &mut O,
        policy: &Policy,
        out: &mut [u8],
    ) -> Taken
        requires room { HasRoom self.old.addressing.id effects.old }
        requires file { HasOwnFile (O.files outbox.old) self.old }
        requires fits { let file = octets_in (O.files outbox.old) self.old.source in
            IfSome (sender_due self.old)
            (λ d. written_len self.old.addressing (codes.is_large self.old.size)
            (sender_says file self.old d) ≤ length out.old) }
        ensures takes { Takes policy.now.times (octets_in (O.files outbox.new) self.old.source)
            (sender_due self.old) result self.old self.new effects.old effects.new out.old out.new }
        ensures rereads { RereadsIf (carries_by (sender_due self.old)) (O.stands outbox.old)
            (O.stands outbox.new) (O.files outbox.old) (O.files outbox.new) }
        ensures failures { O.failures outbox.new
            ≡ failures_after (O.failures outbox.old) (was_given result) }
        ensures calls { Reads O.steps self.old (sender_due self.old) (was_given result)
            outbox.old outbox.new }
    {
        match self.next_due() {
            Some(due) => self.take_due(&due, effects, outbox, policy, out),
            None => Taken::Nothing,
        }
    }

    /// Sends the PDU that is due, which [`next_due`](Self::next_due) found: what
    /// [`take_pdu`](Self::take_pdu) does, without finding it again.
    pub fn take_due<O: Outbox>(
        &mut self,
        due: &SenderDue,
        effects: &mut Effects,
        outbox: &mut O,
        policy: &Policy,
        out: &mut [u8],
    ) -> Taken
        requires due { sender_due self.old ≡ Some due.now }
        requires room { HasRoom self.old.addressing.id effects.old }
        requires file { HasOwnFile (O.files outbox.old) self.old }
        requires fits { let file = octets_in (O.files outbox.old) self.old.source in
            written_len self.old.addressing (codes.is_large self.old.size)
            (sender_says file self.old due.now) ≤ length out.old }
        ensures takes { Takes policy.now.times (octets_in (O.files outbox.new) self.old.source)
            (sender_due self.old) result self.old self.new effects.old effects.new out.old out.new }
        ensures rereads { RereadsIf (carries_by (sender_due self.old)) (O.stands outbox.old)
            (O.stands outbox.new) (O.files outbox.old) (O.files outbox.new) }
        ensures failures { O.failures outbox.new
            ≡ failures_after (O.failures outbox.old) (was_given result) }
        ensures calls { Reads O.steps self.old (sender_due self.old) (was_given result)
            outbox.old outbox.new }
    {
        // For the prover: the invariant.
        let _size = self.size;
        let len = match self.write_due(outbox, due, out) {
            Ok(len) => len,
            Err(_) => {
                self.lose_source(&mut effects.told);
                self.set_timers(None, &mut effects.timers, &policy.times);
                return Taken::SourceFailed;
            }
        };
        let (_, carried) = self.extent(due);
        let end = len - self.crc_len();
        let anew = self.note_sent(due, &out[end - carried..end], &mut effects.told);
        self.set_timers(anew, &mut effects.timers, &policy.times);
        Taken::Moved(len)
    }

    // Returns the number of octets of the CRC of each PDU.
    fn crc_len(&self) -> usize
        ensures { result ≡ crc_len self.now.addressing.crc }
    {
        self.addressing.crc_len()
    }

    // Writes the PDU that is due.
    fn write_due<O: Outbox>(
        &self,
        outbox: &mut O,
        due: &SenderDue,
        out: &mut [u8],
    ) -> Result<usize, StoreError>
        requires due { sender_due self.now ≡ Some due.now }
        requires file { HasOwnFile (O.files outbox.old) self.now }
        requires fits { let file = octets_in (O.files outbox.old) self.now.source in
            written_len self.now.addressing (codes.is_large self.now.size)
            (sender_says file self.now due.now) ≤ length out.old }
        ensures written { let file = octets_in (O.files outbox.new) self.now.source in
            IfOk result (λ len. Writes (codes.is_large self.now.size) self.now.addressing
            (sender_says file self.now due.now) len out.old out.new) }
        ensures refused { OnErr result (carries due.now ≡ true) }
        ensures room { IfOk result (λ len. len ≤ length out.old) }
        ensures rereads { RereadsIf (carries due.now) (O.stands outbox.old) (O.stands outbox.new)
            (O.files outbox.old) (O.files outbox.new) }
        ensures failures { O.failures outbox.new
            ≡ failures_after (O.failures outbox.old) (is_ok result) }
        ensures calls { Reads O.steps self.now (Some due.now) (is_ok result)
            outbox.old outbox.new }
    {
        let (start, carried) = self.extent(due);
        match due {
            SenderDue::AskedData(_, _) | SenderDue::NewData(_, _) => {
                self.write_data(outbox, start, carried, out)
            }
            SenderDue::AckOfFinished(_)
            | SenderDue::Prompt(_)
            | SenderDue::Metadata
            | SenderDue::Eof => {
                let large = self.is_large();
                Ok(self.addressing.write_pdu(large, &self.says(due), out))
            }
        }
    }

    // Writes a PDU with octets of the file, which the outbox writes into their place, and its
    // CRC.
    fn write_data<O: Outbox>(
        &self,
        outbox: &mut O,
        start: u64,
        count: usize,
        out: &mut [u8],
    ) -> Result<usize, StoreError>
        requires sending { self.now.phase ≡ phases.Sending }
        requires file { HasFile (O.files outbox.old) self.now.source self.now.size }
        requires within { start + count ≤ self.now.size }
        requires short { count ≤ 4096 }
        requires room { data_front_len self.now.addressing (codes.is_large self.now.size) + count
            + crc_len self.now.addressing.crc ≤ length out.old }
        ensures written { let file = octets_in (O.files outbox.new) self.now.source in
            IfOk result (λ len. Writes (codes.is_large self.now.size) self.now.addressing
            (FileData start (take count (drop start file))) len out.old out.new) }
        ensures room { IfOk result (λ len. len ≤ length out.old) }
        ensures rereads { Rereads (O.stands outbox.old) (O.stands outbox.new) (O.files outbox.old)
            (O.files outbox.new) }
        ensures failures { O.failures outbox.new
            ≡ failures_after (O.failures outbox.old) (is_ok result) }
        ensures calls { ReadsOnce O.steps self.now.source start count (is_ok result)
            outbox.old outbox.new }
    {
        let large = self.is_large();
        let at = self.addressing.write_data_front(large, start, count, out);
        read_to(outbox, self.names.source(), start, out, at, count)?;
        Ok(self.addressing.write_crc(at + count, out))
    }

    // Ends the transaction, since the outbox failed to give the data that are due.
    fn lose_source(&mut self, told: &mut Vec<Indication>)
        requires room { vec_len told.old + 2 ≤ vec_capacity told.old }
        ensures { Leaves (steps.sender_reads answers.Refused self.old self.old) self.new told.old
            told.new }
    {
        let condition = Condition::FILESTORE_REJECTION;
        indicate_fault(told, Handler::Cancel, self.addressing.id, condition);
        self.enter_cancelling(condition);
    }

    // Notes that the PDU that was due was written. Returns the timer that this arms again.
    fn note_sent(
        &mut self,
        due: &SenderDue,
        octets: &[u8],
        told: &mut Vec<Indication>,
    ) -> Option<Kind>
        requires due { sender_due self.old ≡ Some due.now }
        requires short { length octets.now ≤ 4096 }
        requires room { vec_len told.old + 1 ≤ vec_capacity told.old }
        ensures sent { Leaves (steps.pdu_sent answers.Done octets.now self.old due.now) self.new
            told.old told.new }
        ensures anew { result ≡ (steps.pdu_sent answers.Done octets.now self.old due.now).anew }
    {
        match due {
            SenderDue::AckOfFinished(_) => self.ack_due = None,
            SenderDue::Prompt(_) => self.prompt_due = None,
            SenderDue::Metadata => self.metadata_due = false,
            SenderDue::AskedData(_, _) => {
                self.asked.take_front(u64::from(self.segment));
            }
            SenderDue::NewData(_, end) => {
                self.sums.add(Some(self.checksum_kind), self.sent, octets);
                self.sent = *end;
            }
            SenderDue::Eof => {
                self.note_eof(told);
                return Some(Kind::EofAck);
            }
        }
        None
    }

    // Notes that EOF was written.
    fn note_eof(&mut self, told: &mut Vec<Indication>)
        requires room { vec_len told.old + 1 ≤ vec_capacity told.old }
        ensures { Leaves (steps.pdu_sent answers.Done [] self.old dues.Eof) self.new told.old
            told.new }
    {
        if self.phase == SenderPhase::Sending && !self.eof_taken {
            indicate(told, Indication::EofSent(self.addressing.id));
        }
        self.eof_due = false;
        self.eof_taken = true;
    }
}

// Reads octets of a file into `out`, from the offset `at` on.
fn read_to<O: Outbox>(
    outbox: &mut O,
    name: &[u8],
    start: u64,
    out: &mut [u8],
    at: usize,
    count: usize,
) -> Result<(), StoreError>
    requires there { IsSome (map.get (O.files outbox.old) name.now) }
    requires within { start + count ≤ length (octets_in (O.files outbox.old) name.now) }
    requires room { at + count ≤ length out.old }
    ensures front { OnOk result (take (at + count) out.new ≡ take at out.old
        ++ take count (drop start (octets_in (O.files outbox.new) name.now))) }
    ensures behind { drop (at + count) out.new ≡ drop (at + count) out.old }
    ensures rereads { Rereads (O.stands outbox.old) (O.stands outbox.new) (O.files outbox.old)
        (O.files outbox.new) }
    ensures failures { O.failures outbox.new
        ≡ failures_after (O.failures outbox.old) (is_ok result) }
    ensures calls { ReadsOnce O.steps name.now start count (is_ok result) outbox.old outbox.new }
{
    outbox.read(name, start, &mut out[at..at + count])
}
