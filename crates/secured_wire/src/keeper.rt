//! What keeps the numbers of a secured wire, and brings its keys.
ghost use Rattle.secured_wire.specs.Keeping.{Brings, Keeps, KeeperCall, LosesNone, Refuses};

use frame_security::{FrameRefusal, LinkKeys};

/// What keeps the sequence numbers of a secured wire over restarts, and brings its keys.
pub trait Keeper: Drop {
    /// What is true of a call with its arguments and its answer. Here a keeper may say what is true
    /// of this keeper alone.
    ghost calls: { KeeperCall → Type 0 } = { λ _. Unit {0} };

    /// Notes, so that it outlasts a restart, that the frame with this sequence number is accepted:
    /// an opener that is made later must begin with this number or a greater one. Returns `false`
    /// if that can't be noted: the frame is lost then.
    fn keeps(&mut self, number: u64) -> bool
        ensures { calls (Keeps number result) };

    /// Returns keys to change to, if there are new ones; each time at most once. It is asked once a
    /// turn, so it must not wait.
    fn new_keys(&mut self) -> Option<LinkKeys>
        ensures { calls (Brings result) };

    /// Notes that octets that arrived were refused for this cause.
    fn refuses(&mut self, cause: FrameRefusal)
        ensures { calls (Refuses cause) };
}

/// A keeper that notes nothing and brings no keys. Use it only if no key outlasts a restart: after
/// one, frames that were accepted before would be accepted again.
///
/// # Examples
///
/// ```text
/// let wire = SecuredWire::new(alloc, udp, NoKeeper, sealer, opener, 2048)?;
/// ```
#[derive(Clone, Copy, Debug)]
pub struct NoKeeper;

impl Keeper for NoKeeper {
    ghost calls = { LosesNone };

    fn keeps(&mut self, _number: u64) -> bool {
        true
    }

    fn new_keys(&mut self) -> Option<LinkKeys> {
        None
    }

    fn refuses(&mut self, _cause: FrameRefusal) {}
}
