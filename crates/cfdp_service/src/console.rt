//! A console, at which an operator stands.
ghost use Rattle.cfdp_service.specs.Calls.{ConsoleCall, Gives, Heard, Replied, Tells};

use crate::wish::{PutNames, Reply};
use cfdp_directives::Indication;
use cfdp_header::TransactionId;
use cfdp_station::{Request, Station};
use cfdp_store::{Inbox, Outbox};

/// What an operator says to a station that runs, as far as it changes what the station does.
#[derive(Drop)]
pub enum OperatorCommand {
    /// To send a file: before all others that wait if `is_first`, otherwise after them.
    Put { names: PutNames, is_first: bool },
    /// To change a transaction.
    Change(TransactionId, Request),
    /// To take no more files, and to end once those that it has are over.
    Stop,
    /// To end at once.
    StopNow,
}

/// What became of a file that lay in a spool.
#[derive(Clone, Copy, PartialEq, Eq)]
pub enum SpoolOutcome {
    /// It lies at the peer.
    Sent,
    /// It couldn't be sent.
    Failed,
    /// It must be sent once more.
    PutBack,
}

/// A console, at which an operator stands: it brings commands, and the station's events are
/// reported there.
pub trait Console: Drop {
    /// What a call may do, as with [`User`](crate::User).
    ghost steps: { Self → ConsoleCall → Self → Type 0 } = { λ _ _ _. Unit {0} };

    /// Returns the next command that came; `None` if none has. It borrows the station, and is given
    /// how many files wait for their put, so that it answers questions of the operator by itself.
    fn next<O: Outbox, I: Inbox>(
        &mut self,
        station: &Station<O, I>,
        waiting: usize,
    ) -> Option<OperatorCommand>
        ensures { steps self.old (Gives result) self.new };

    /// Returns `true` if one put more may be made: the number of its transaction is reserved.
    fn may_put(&mut self) -> bool;

    /// Hears that a put of these names was answered so. `is_again` if the file was put before.
    fn put_answered(&mut self, names: &PutNames, reply: Reply, is_again: bool)
        ensures { steps self.old (Replied reply) self.new };

    /// Hears how the change of a transaction was answered that was commanded last.
    fn change_answered(&mut self, reply: Reply)
        ensures { steps self.old (Replied reply) self.new };

    /// Hears that the file of this transaction is given up, since memory is short and no other file
    /// that is received takes more.
    fn gives_up(&mut self, id: TransactionId);

    /// Hears what the station indicates.
    fn hears(&mut self, indication: &Indication)
        ensures { steps self.old (Heard indication.now) self.new };

    /// Hears what became of a file that lay in the spool.
    fn ends_file(&mut self, name: &[u8], outcome: SpoolOutcome)
        ensures { steps self.old Tells self.new };

    /// Hears that the station has ended, which it borrows for the last time.
    fn ends<O: Outbox, I: Inbox>(&mut self, station: &Station<O, I>);

    /// Returns `true` if what it hears can't be written any more: the station must end.
    fn has_failed(&self) -> bool;
}
