// Acknowledgements of transactions that have no record.
ghost use Rattle.std.specs.Prelude.{◌≡◌, ◌≤◌, length};
ghost use Rattle.cfdp_directives.specs.Pdu.Addressing.{addressing_of, FitsAddressing};
ghost use Rattle.cfdp_directives.specs.Pdu.Content.{view};
ghost use Rattle.cfdp_entity.specs.Gives.{Writes};
ghost use Rattle.cfdp_entity.specs.Sound.{longest_pdu};
ghost use Rattle.cfdp_entity.specs.Spelled.{StrayIsSpelled};
ghost use Rattle.cfdp_entity.specs.Strays.{over_ack, unknown_ack, stray_says, stray_octets};
ghost use Rattle.cfdp_entity.specs.Strays.{stray_len};

use cfdp_directives::{Acknowledged, Addressing, Condition, Pdu, TransactionStatus};
use cfdp_header::Header;
use std::marker::Model;

/// The ACK of a Finished, or of an EOF, if its transaction has no record here.
#[derive(Drop)]
pub struct Stray {
    addressing: Addressing,
    // The large file flag of what is acknowledged.
    large: bool,
    of: Acknowledged,
    condition: Condition,
    status: TransactionStatus,
}

impl Model for Stray {
    ghost use Rattle.cfdp_directives.specs.Pdu.Addressing.{FitsAddressing};
    ghost use Rattle.cfdp_entity.specs.Strays.{StrayAck};

    ghost Value = { StrayAck };

    ghost view = { λ s. record {
      addressing = s.addressing;
      large = s.large;
      of = s.of;
      condition = s.condition;
      status = s.status;
    } };

    ghost invariant = { λ s. FitsAddressing s.addressing };
}

impl Stray {
    /// Returns the answer to a Finished with this header and condition. It has the Finished's large
    /// file flag.
    pub(crate) fn of(header: &Header, condition: Condition) -> Self
        requires { FitsAddressing (addressing_of header.now) }
        ensures { result ≡ unknown_ack header.now condition }
    {
        let status = TransactionStatus::Unrecognized;
        Stray::answer(header, Acknowledged::Finished, condition, status)
    }

    /// Returns the answer to a Finished or an EOF with this header and condition, if its
    /// transaction is over.
    pub(crate) fn over(header: &Header, of: Acknowledged, condition: Condition) -> Self
        requires { FitsAddressing (addressing_of header.now) }
        ensures { result ≡ over_ack header.now of condition }
    {
        Stray::answer(header, of, condition, TransactionStatus::Terminated)
    }

    fn answer(
        header: &Header,
        of: Acknowledged,
        condition: Condition,
        status: TransactionStatus,
    ) -> Self
        requires { FitsAddressing (addressing_of header.now) }
        ensures { result ≡ record {
          addressing = addressing_of header.now;
          large = header.now.large;
          of = of;
          condition = condition;
          status = status;
        } }
    {
        Stray {
            addressing: Addressing::of(header),
            large: header.large,
            of,
            condition,
            status,
        }
    }

    fn pdu(&self) -> Pdu<'_>
        ensures { view result ≡ stray_says self.now }
    {
        Pdu::Ack {
            of: self.of,
            condition: self.condition,
            status: self.status,
        }
    }

    /// Returns the number of its octets.
    pub(crate) fn len(&self) -> usize
        ensures len { result ≡ stray_len self.now }
        ensures short { result ≤ longest_pdu }
        ensures spelled { StrayIsSpelled self.now }
    {
        // For the prover: the invariant of the condition.
        let _any_condition_fits = self.condition.code();
        self.addressing.written_len(self.large, &self.pdu())
    }

    /// Writes it over the first octets of `out`, and returns how many they are.
    pub(crate) fn write(&self, out: &mut [u8]) -> usize
        requires room { stray_len self.now ≤ length out.old }
        ensures len { result ≡ stray_len self.now }
        ensures writes { Writes (stray_octets self.now) result out.old out.new }
    {
        self.addressing.write_pdu(self.large, &self.pdu(), out)
    }
}
