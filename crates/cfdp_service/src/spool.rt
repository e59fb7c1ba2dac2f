//! A place in which files wait to be sent.
ghost use Rattle.std.specs.Prelude.{◌≡◌, ◌++◌, ◌∷◌, [], ℕ, List};

use ghost_list::GhostList;

/// A place in which files wait, each under the name that it must have at the peer. A
/// file that was given must stay there until its sending is over.
pub trait Spool: Drop {
    /// Returns the names of the files that have left it as sent, in that order.
    ghost sent: { Self → List (List ℕ) };

    /// Returns the names of the files that have left it as failed, in that order.
    ghost failed: { Self → List (List ℕ) };

    /// Returns `true` if a file waits: `next` gives its name then.
    fn has_next(&mut self) -> bool
        ensures sent { sent self.new ≡ sent self.old }
        ensures failed { failed self.new ≡ failed self.old };

    /// Returns the name of the next file to send; `None` if none waits. Each file that lies
    /// there is given once, and once more if it was put back.
    fn next(&mut self) -> Option<Vec<u8>>
        ensures sent { sent self.new ≡ sent self.old }
        ensures failed { failed self.new ≡ failed self.old };

    /// Takes the file of this name as given, if it lies there: an earlier run began to send it.
    /// Returns `true` if it does.
    fn takes_back(&mut self, name: &[u8]) -> bool
        ensures sent { sent self.new ≡ sent self.old }
        ensures failed { failed self.new ≡ failed self.old };

    /// Removes the file of this name as sent: it must have been given, and lies at the peer.
    fn sent(&mut self, name: &[u8])
        ensures sent { sent self.new ≡ sent self.old ++ (name.now ∷ []) }
        ensures failed { failed self.new ≡ failed self.old };

    /// Removes the file of this name as failed: it must have been given, and couldn't be sent.
    fn failed(&mut self, name: &[u8])
        ensures sent { sent self.new ≡ sent self.old }
        ensures failed { failed self.new ≡ failed self.old ++ (name.now ∷ []) };

    /// Puts the file of this name back, to give it once more: it must have been given, and its
    /// sending failed for a cause that may pass.
    fn put_back(&mut self, name: &[u8])
        ensures sent { sent self.new ≡ sent self.old }
        ensures failed { failed self.new ≡ failed self.old };
}

/// A spool in which no file ever waits.
#[derive(Drop)]
pub struct NoSpool {
    sent: GhostList<GhostList<u8>>,
    failed: GhostList<GhostList<u8>>,
}

impl NoSpool {
    /// Returns a spool that nothing has left.
    pub fn new() -> NoSpool
        ensures sent { result.sent ≡ [] }
        ensures failed { result.failed ≡ [] }
    {
        NoSpool {
            sent: GhostList::new(),
            failed: GhostList::new(),
        }
    }
}

impl Spool for NoSpool {
    ghost sent = { λ s. s.sent };

    ghost failed = { λ s. s.failed };

    fn has_next(&mut self) -> bool {
        false
    }

    fn next(&mut self) -> Option<Vec<u8>> {
        None
    }

    fn takes_back(&mut self, _name: &[u8]) -> bool {
        false
    }

    fn sent(&mut self, name: &[u8]) {
        self.sent.put(&GhostList::of(name));
    }

    fn failed(&mut self, name: &[u8]) {
        self.failed.put(&GhostList::of(name));
    }

    fn put_back(&mut self, _name: &[u8]) {}
}
