// What an entity counts of the PDUs that it sends.
ghost use Rattle.std.specs.Prelude.{◌≡◌};
ghost use Rattle.cfd_bits.specs.Counting.{raised};
ghost use Rattle.cfdp_entity.specs.Gives.{stored_by_gave};
ghost use Rattle.cfdp_entity.specs.Sent.{counted_pdu, none_sent, of_receiver, of_sender, sent_by};

use crate::record::Gave;
use cfdp_receiver::Due;
use cfdp_sender::SenderDue;

/// A PDU that is sent, as it is counted.
#[derive(Clone, Copy, Debug, PartialEq, Eq)]
pub enum SentPdu {
    /// File data that were not sent before.
    FileData,
    /// File data that were sent before: a NAK asked for them.
    FileDataAgain,
    /// A NAK.
    Nak,
    /// Any other directive.
    OtherDirective,
}

impl SentPdu {
    /// Returns what a sender's PDU counts as.
    pub(crate) fn of_sender(due: SenderDue) -> Self
        ensures { result ≡ of_sender due }
    {
        match due {
            SenderDue::NewData(_, _) => SentPdu::FileData,
            SenderDue::AskedData(_, _) => SentPdu::FileDataAgain,
            SenderDue::AckOfFinished(_)
            | SenderDue::Prompt(_)
            | SenderDue::Metadata
            | SenderDue::Eof => SentPdu::OtherDirective,
        }
    }

    /// Returns what a receiver's PDU counts as.
    pub(crate) fn of_receiver(due: Due) -> Self
        ensures { result ≡ of_receiver due }
    {
        match due {
            Due::Nak(_) => SentPdu::Nak,
            Due::AckOfEof(_) | Due::KeepAlive | Due::Finished(_) => SentPdu::OtherDirective,
        }
    }
}

/// How many PDUs were sent. Each one is counted once, by what it was when it was sent; each count
/// stays at the greatest `u64`.
#[derive(Clone, Copy, Debug, PartialEq, Eq)]
pub struct SentPdus {
    /// File data that were not sent before.
    pub file_data: u64,
    /// File data that were sent before, and again since a NAK asked for them (CCSDS 727.0-B-5,
    /// 4.6.4).
    pub file_data_again: u64,
    /// NAKs.
    pub naks: u64,
    /// All other directives, those that are sent again too.
    pub other_directives: u64,
}

impl SentPdus {
    /// Returns counts that are all 0.
    pub(crate) fn none() -> Self
        ensures { result ≡ none_sent }
    {
        SentPdus {
            file_data: 0,
            file_data_again: 0,
            naks: 0,
            other_directives: 0,
        }
    }

    /// Counts one more.
    pub(crate) fn count(&mut self, pdu: SentPdu)
        ensures { self.new ≡ counted_pdu pdu self.old }
    {
        match pdu {
            SentPdu::FileData => self.file_data = one_more(self.file_data),
            SentPdu::FileDataAgain => self.file_data_again = one_more(self.file_data_again),
            SentPdu::Nak => self.naks = one_more(self.naks),
            SentPdu::OtherDirective => self.other_directives = one_more(self.other_directives),
        }
    }

    /// Counts what a record had due, if it was given.
    pub(crate) fn count_given(&mut self, gave: Gave, due: Option<SentPdu>)
        ensures { self.new ≡ sent_by (stored_by_gave gave) due self.old }
    {
        match (gave, due) {
            (Gave::Octets(_), Some(pdu)) => self.count(pdu),
            (Gave::Octets(_), None) | (Gave::Failed, _) => {}
        }
    }
}

/// Returns one more, except at the greatest value.
fn one_more(count: u64) -> u64
    ensures { result ≡ raised count }
{
    count.saturating_add(1)
}
