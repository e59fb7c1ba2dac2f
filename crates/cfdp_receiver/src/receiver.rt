ghost use Rattle.std.specs.Prelude.{◌≡◌, true, false};
ghost use Rattle.std.specs.FinSet as set;
ghost use Rattle.cfdp_directives.specs.Pdu.Addressing.{FitsAddressing};
ghost use Rattle.cfdp_extents.specs.Terms.{end_of};
ghost use Rattle.cfdp_timers.specs.Waits.{is_anew, wait_by};
ghost use Rattle.cfdp_receiver.specs.State as states;
ghost use Rattle.cfdp_receiver.specs.State.{opened_receiver};
ghost use Rattle.cfdp_receiver.specs.Steps as steps;
ghost use Rattle.cfdp_receiver.specs.Does.{timers_set};

use crate::state::{Ending, FileInfo, ReceiverPhase};
use cfdp_directives::{
    Addressing, ChecksumKind, Checksums, Condition, Indication, Outcome, Phase, Policy,
};
use cfdp_extents::Extents;
use cfdp_header::TransactionId;
use cfdp_store::{Inbox, Stored};
use cfdp_timers::{Kind, Timers, Wait, Waits, is_anew};
use std::alloc::{AllocError, Global};
use std::marker::Model;

/// The receiving side of one transaction (CCSDS 727.0-B-5, 4.6.1.2 and 4.6.4).
///
/// ```text
///    Metadata, file data                 file complete, a fault, or cancel:
///    or EOF arrives                      Finished indicated and due
///         |        +-----------+  ----------------------------------->  +-----------+
///         +------> | Receiving |                                        | Finishing |
///         |        +-----------+                                        +-----------+
///         |              | EOF with an error: Finished indicated              | ACK of Finished,
///         |              | or limit reached, handler Abandon                  | or Abandoned
///         |              v                                                    v
///         |        +--------+ <-----------------------------------------------+
///         +------> | Closed |      (in every state an EOF is acknowledged)
///   EOF with an    +--------+
///   error arrives
/// ```
///
/// It keeps which octets of the file are held, and what their checksum needs, but no octets: those
/// are staged in the inbox that each call borrows. The caller must lend the same inbox and the same
/// effects each time, must make room for three more indications before a call, and must send what
/// is due.
#[derive(Debug, Drop)]
pub struct Receiver {
    pub(crate) alloc: Global,
    pub(crate) addressing: Addressing,
    // `true` if a PDU with the large file flag was heard.
    pub(crate) large: bool,
    pub(crate) phase: ReceiverPhase,
    pub(crate) suspended: bool,
    pub(crate) metadata: Option<FileInfo>,
    pub(crate) ending: Option<Ending>,
    pub(crate) held: Extents,
    // Of the octets held: for all checksum types, until Metadata says which one it is.
    pub(crate) sums: Checksums,
    // The condition of the EOF heard last, while its ACK is due.
    pub(crate) ack_due: Option<Condition>,
    // The offset from which a NAK is due.
    pub(crate) nak_cursor: Option<u64>,
    pub(crate) keep_alive_due: bool,
    pub(crate) finished_due: bool,
    pub(crate) finished_taken: bool,
    pub(crate) outcome: Option<Outcome>,
    pub(crate) nak_count: u8,
    pub(crate) finished_count: u8,
}

impl Model for Receiver {
    ghost use Rattle.std.specs.Coded.{codes, coded_ℕ};
    ghost use Rattle.std.specs.Ordering.{nat_cmp};
    ghost use Rattle.std.specs.FinSet as set;
    ghost use Rattle.cfdp_receiver.specs.State.{ReceiverState, IsReceiver};

    ghost Value = { ReceiverState };

    ghost coded = { Prim.hlevel (codes, set.code {R = nat_cmp} coded_ℕ) };

    ghost view = { λ r. record {
      addressing = r.addressing;
      large = r.large;
      phase = r.phase;
      suspended = r.suspended;
      metadata = r.metadata;
      ending = r.ending;
      held = r.held;
      sums = r.sums;
      ack_due = r.ack_due;
      nak_cursor = r.nak_cursor;
      keep_alive_due = r.keep_alive_due;
      finished_due = r.finished_due;
      finished_taken = r.finished_taken;
      outcome = r.outcome;
      nak_count = r.nak_count;
      finished_count = r.finished_count;
    } };

    ghost invariant = { λ r.
        IsReceiver r.addressing r.large r.phase r.suspended r.ending r.held r.nak_cursor };
}

impl Receiver {
    /// Returns a receiver that has heard nothing yet.
    #[tactic(auto, using(crate::proofs::Held::none_held))]
    pub(crate) fn new(alloc: Global, addressing: Addressing) -> Receiver
        requires { FitsAddressing addressing }
        ensures { result ≡ opened_receiver addressing }
    {
        Receiver {
            alloc,
            addressing,
            large: false,
            phase: ReceiverPhase::Receiving,
            suspended: false,
            metadata: None,
            ending: None,
            held: Extents::new(alloc),
            sums: Checksums::new(),
            ack_due: None,
            nak_cursor: None,
            keep_alive_due: false,
            finished_due: false,
            finished_taken: false,
            outcome: None,
            nak_count: 0,
            finished_count: 0,
        }
    }

    /// Returns the transaction.
    pub fn id(&self) -> TransactionId
        ensures { result ≡ self.now.addressing.id }
    {
        self.addressing.id
    }

    /// Returns how far the transaction has come: Receiving, Finishing or Closed.
    pub fn phase(&self) -> Phase
        ensures { result ≡ states.public_phase self.now.phase }
    {
        match self.phase {
            ReceiverPhase::Receiving => Phase::Receiving,
            ReceiverPhase::Finishing => Phase::Finishing,
            ReceiverPhase::Closed => Phase::Closed,
        }
    }

    /// Returns the offset up to which octets of the file came, even if some are missing: what a
    /// Keep Alive says (CCSDS 727.0-B-5, 5.2.8).
    pub fn progress(&self) -> u64
        ensures { result ≡ end_of self.now.held }
    {
        self.held_end()
    }

    /// Returns `true` if the transaction is suspended. It is then in Receiving.
    pub fn is_suspended(&self) -> bool
        ensures value { result ≡ self.now.suspended }
        ensures receiving { result ≡ true → self.now.phase ≡ ReceiverPhase.Receiving }
    {
        self.suspended
    }

    /// Returns the checksum type of the file, if Metadata said it.
    pub(crate) fn checksum_kind(&self) -> Option<ChecksumKind>
        ensures { result ≡ states.kind_told self.now.metadata }
    {
        match &self.metadata {
            Some(info) => Some(info.checksum_kind),
            None => None,
        }
    }

    /// Returns `true` if the receiver waits for a timer.
    pub(crate) fn waits(&self, kind: Kind) -> bool
        ensures { result ≡ steps.waits kind self.now }
    {
        !self.suspended
            && match (self.phase, kind) {
                (ReceiverPhase::Receiving, Kind::Inactivity) => true,
                (ReceiverPhase::Receiving, Kind::Nak) => {
                    self.ending.is_some() && self.nak_cursor.is_none()
                }
                (ReceiverPhase::Finishing, Kind::FinishedAck) => {
                    self.finished_taken && !self.finished_due
                }
                _ => false,
            }
    }

    /// Arms and clears the receiver's timers by what it waits for.
    pub(crate) fn set_timers(&self, timers: &mut Timers, policy: &Policy, anew: Option<Kind>)
        requires { set.contains timers.old.roomy self.now.addressing.id ≡ true }
        ensures { timers.new ≡ timers_set policy.now.times anew self.now timers.old }
    {
        let times = policy.times;
        let waits = Waits {
            eof_ack: self.wait(Kind::EofAck, anew, times.eof),
            nak: self.wait(Kind::Nak, anew, times.nak),
            finished_ack: self.wait(Kind::FinishedAck, anew, times.finished),
            inactivity: self.wait(Kind::Inactivity, anew, times.inactivity),
        };
        timers.set(self.addressing.id, &waits);
    }

    fn wait(&self, kind: Kind, anew: Option<Kind>, duration: u32) -> Wait
        ensures { result ≡ wait_by (steps.waits kind self.now) (is_anew anew kind) duration }
    {
        Wait::of(self.waits(kind), is_anew(anew, kind), duration)
    }
}
