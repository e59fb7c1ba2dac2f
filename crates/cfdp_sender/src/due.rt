// What a sender sends next, and what that PDU says.
ghost use Rattle.std.specs.Prelude.{◌≡◌, ◌+◌, ◌<◌, ◌≤◌, ℕ, List, [], length, take, drop, true};
ghost use Rattle.std.specs.Prelude.{Some, is_some, IfSome};
ghost use Rattle.std.specs.Option.{option_map};
ghost use Rattle.cfdp_directives.specs.Pdu.Codes as codes;
ghost use Rattle.cfdp_directives.specs.Pdu.Content.{FileData, view};
ghost use Rattle.cfdp_directives.specs.Pdu.Addressing.{header_of, written_len};
ghost use Rattle.cfdp_directives.specs.Pdu.Written.{CanWrite};
ghost use Rattle.cfdp_sender.specs.Due as dues;
ghost use Rattle.cfdp_sender.specs.Due.{sender_due, sender_says, pdu_says, carried, carries};
ghost use Rattle.cfdp_sender.specs.Due.{carries_by, extent_of};

use crate::phase::SenderPhase;
use crate::sender::Sender;
use cfdp_directives::{Acknowledged, Condition, Pdu, Tlvs, TransactionStatus, is_large};

/// A PDU that a sender sends next.
#[derive(Clone, Copy, Debug, PartialEq, Eq)]
pub enum SenderDue {
    /// An ACK of the last Finished that was received, with its condition.
    AckOfFinished(Condition),
    /// A Prompt, for a Keep Alive if true, otherwise for a NAK.
    Prompt(bool),
    Metadata,
    /// File data that were asked for, from an offset up to another, which is excluded.
    AskedData(u64, u64),
    /// New file data, from an offset up to another, which is excluded.
    NewData(u64, u64),
    Eof,
}

impl SenderDue {
    /// Returns `true` if it is file data; all others are directives.
    pub fn is_file_data(&self) -> bool
        ensures { result ≡ carries self.now }
    {
        match self {
            SenderDue::AskedData(_, _) | SenderDue::NewData(_, _) => true,
            SenderDue::AckOfFinished(_)
            | SenderDue::Prompt(_)
            | SenderDue::Metadata
            | SenderDue::Eof => false,
        }
    }
}

impl Sender {
    /// Returns the number of octets of the PDU that is due, its header and its CRC too: of what
    /// `take_pdu` would write now. Returns `None` if none is due, for example if the transaction is
    /// suspended. Of the file, its size alone counts. What is due can be written, and has at most
    /// 4,134 octets.
    pub fn due(&self) -> Option<usize>
        ensures some { is_some result ≡ is_some (sender_due self.now) }
        ensures short { IfSome result (λ len. len ≤ 4134) }
        ensures can_write { (file : List ℕ) → IfSome (sender_due self.now)
            (λ d. let v = sender_says file self.now d in
            CanWrite (header_of self.now.addressing (codes.is_large self.now.size) v) v) }
        ensures len { (file : List ℕ) → length file ≡ self.now.size → result
            ≡ option_map (λ d. written_len self.now.addressing (codes.is_large self.now.size)
            (sender_says file self.now d)) (sender_due self.now) }
    {
        let due = self.next_due()?;
        Some(self.len_of(&due))
    }

    /// Returns the number of octets of the PDU that is due, which [`next_due`](Self::next_due)
    /// found: what [`due`](Self::due) would answer, without finding it again.
    pub fn len_of(&self, due: &SenderDue) -> usize
        requires { sender_due self.now ≡ Some due.now }
        ensures short { result ≤ 4134 }
        ensures can_write { (file : List ℕ) → let v = sender_says file self.now due.now in
            CanWrite (header_of self.now.addressing (codes.is_large self.now.size) v) v }
        ensures len { (file : List ℕ) → length file ≡ self.now.size → result
            ≡ written_len self.now.addressing (codes.is_large self.now.size)
            (sender_says file self.now due.now) }
    {
        // For the prover: the invariant.
        let _size = self.size;
        let (_, carried) = self.extent(due);
        let large = self.is_large();
        self.addressing.written_len(large, &self.says(due)) + carried
    }

    /// Returns `true` if a PDU is due, that is if [`due`](Self::due) answers a length, which costs
    /// more.
    pub fn is_due(&self) -> bool
        ensures { result ≡ is_some (sender_due self.now) }
    {
        self.next_due().is_some()
    }

    /// Returns `true` if the PDU that is due is file data; all others are directives.
    pub fn has_data_due(&self) -> bool
        ensures { result ≡ carries_by (sender_due self.now) }
    {
        match self.next_due() {
            Some(due) => due.is_file_data(),
            None => false,
        }
    }

    // Returns `true` if its file is large: all that it sends has the large file flag then.
    pub(crate) fn is_large(&self) -> bool
        ensures { result ≡ codes.is_large self.now.size }
    {
        is_large(self.size)
    }

    // Returns the offset at which the octets of the file begin that a PDU carries, and how many
    // they are.
    pub(crate) fn extent(&self, due: &SenderDue) -> (u64, usize)
        requires { sender_due self.now ≡ Some due.now }
        ensures begins { result.0 ≡ (extent_of due.now).0 }
        ensures count { result.1 ≡ (extent_of due.now).1 }
        ensures within { result.0 + result.1 ≤ self.now.size }
        ensures short { result.1 ≤ 4096 }
        ensures some { 0 < result.1 → carries due.now ≡ true }
        ensures part { (file : List ℕ) →
            carried file due.now ≡ take result.1 (drop result.0 file) }
        ensures says { (octets : List ℕ) → carries due.now ≡ true →
            pdu_says octets self.now due.now ≡ FileData result.0 octets }
    {
        // For the prover: the invariant.
        let _size = self.size;
        match due {
            SenderDue::AskedData(start, end) | SenderDue::NewData(start, end) => {
                (*start, (*end - *start) as usize)
            }
            SenderDue::AckOfFinished(_)
            | SenderDue::Prompt(_)
            | SenderDue::Metadata
            | SenderDue::Eof => (0, 0),
        }
    }

    /// Returns what is due: the PDU that [`take_pdu`](Self::take_pdu) would write now.
    pub fn next_due(&self) -> Option<SenderDue>
        ensures { result ≡ sender_due self.now }
    {
        if self.suspended {
            return None;
        }
        if let Some(condition) = self.ack_due {
            return Some(SenderDue::AckOfFinished(condition));
        }
        match self.phase {
            SenderPhase::Sending => self.next_of_file(),
            SenderPhase::Cancelling => {
                if self.eof_due {
                    Some(SenderDue::Eof)
                } else {
                    None
                }
            }
            SenderPhase::Closed => None,
        }
    }

    // Returns what is due while the file is sent.
    fn next_of_file(&self) -> Option<SenderDue>
        ensures { result ≡ dues.prompt_first self.now.prompt_due self.now }
    {
        if let Some(keep_alive) = self.prompt_due {
            return Some(SenderDue::Prompt(keep_alive));
        }
        if self.metadata_due {
            return Some(SenderDue::Metadata);
        }
        if let Some((start, end)) = self.asked.front(u64::from(self.segment)) {
            return Some(SenderDue::AskedData(start, end));
        }
        if self.sent < self.size {
            let end = self.size.min(self.sent + u64::from(self.segment));
            return Some(SenderDue::NewData(self.sent, end));
        }
        if self.eof_due || !self.eof_taken {
            return Some(SenderDue::Eof);
        }
        None
    }

    // Returns the PDU that is due, except for the octets of the file that it carries.
    pub(crate) fn says(&self, due: &SenderDue) -> Pdu<'_>
        requires { sender_due self.now ≡ Some due.now }
        ensures { view result ≡ pdu_says [] self.now due.now }
    {
        match due {
            SenderDue::AckOfFinished(condition) => Pdu::Ack {
                of: Acknowledged::Finished,
                condition: *condition,
                status: TransactionStatus::Terminated,
            },
            SenderDue::Prompt(keep_alive) => Pdu::Prompt {
                keep_alive: *keep_alive,
            },
            SenderDue::Metadata => Pdu::Metadata {
                checksum_kind: self.checksum_kind,
                size: self.size,
                source: self.names.source(),
                destination: self.names.destination(),
                options: Tlvs::none(),
            },
            SenderDue::AskedData(start, _) | SenderDue::NewData(start, _) => Pdu::FileData {
                offset: *start,
                bytes: &[],
            },
            SenderDue::Eof => self.eof(),
        }
    }

    // Returns the EOF that is due.
    fn eof(&self) -> Pdu<'_>
        ensures { view result ≡ dues.eof_says self.now.phase self.now }
    {
        let checksum = self.sums.value(self.checksum_kind);
        match self.phase {
            SenderPhase::Sending => Pdu::Eof {
                condition: Condition::NO_ERROR,
                checksum,
                size: self.size,
                tlvs: Tlvs::none(),
            },
            SenderPhase::Cancelling | SenderPhase::Closed => Pdu::Eof {
                condition: self.condition,
                checksum,
                size: self.sent,
                tlvs: Tlvs::fault_location_of(self.addressing.id.source, self.addressing.id_width),
            },
        }
    }
}
