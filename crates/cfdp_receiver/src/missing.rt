// What a receiver misses.
ghost use Rattle.std.specs.Prelude.{◌≡◌, ◌==◌, ◌&&◌, ◌≤◌, not, is_none};
ghost use Rattle.cfdp_extents.specs.Terms.{end_of};
ghost use Rattle.cfdp_directives.specs.Pdu.Codes.{size_limit};
ghost use Rattle.cfdp_receiver.specs.Missing as missing;
ghost use Rattle.cfdp_receiver.specs.Missing.{missing_pairs, is_empty, tidied};

use crate::receiver::Receiver;
use crate::state::ReceiverPhase;

impl Receiver {
    /// Returns the offset up to which something can be missing.
    pub(crate) fn scope_limit(&self) -> u64
        ensures value { result ≡ missing.scope_limit self.now }
        ensures fits { self.now.phase ≡ ReceiverPhase.Receiving
            → result ≤ size_limit self.now.large }
    {
        match self.ending {
            Some(ending) => ending.size,
            None => self.held_end(),
        }
    }

    /// Returns the offset up to which the file is held.
    #[tactic(auto, using(crate::proofs::Held::end_below))]
    pub(crate) fn held_end(&self) -> u64
        ensures value { result ≡ end_of self.now.held }
        ensures fits { result ≤ size_limit self.now.large }
    {
        self.held.end()
    }

    /// Returns `true` if a NAK from an offset on asks for Metadata.
    pub(crate) fn asks_for_metadata(&self, from: u64) -> bool
        ensures { result ≡ (is_none self.now.metadata && (from == 0)) }
    {
        self.metadata.is_none() && from == 0
    }

    /// Returns `true` if something is missing from an offset on.
    pub(crate) fn is_missing(&self, from: u64) -> bool
        ensures { result ≡ not (is_empty (missing_pairs from self.now)) }
    {
        let mut gaps = self.held.missing_in(from, self.scope_limit());
        self.asks_for_metadata(from) || gaps.next().is_some()
    }

    /// Drops a NAK that is due if nothing is missing from its cursor on.
    pub(crate) fn tidy(&mut self)
        ensures { self.new ≡ tidied self.old }
    {
        if let Some(cursor) = self.nak_cursor
            && !self.is_missing(cursor)
        {
            self.nak_cursor = None;
        }
    }
}
