//! The keys of the lines that were read so far.
ghost use Rattle.std.specs.Prelude.{◌≡◌, Some, None, IfOk, OnOk};
ghost use Rattle.key_file.specs.Apart.{Adds, AreApart, Differ, DiffersFrom, IsDraft, IsSpi};

use crate::fault::{KeyFileError, KeyLineFault};
use frame_security::{LinkKeys, NamedKey};

/// What a key is for.
#[derive(Clone, Copy, Debug, PartialEq, Eq)]
pub enum Direction {
    /// Frames that leave.
    Send,
    /// Frames that come.
    Receive,
}

/// The keys so far.
#[derive(Clone, Copy)]
pub struct Draft {
    send: Option<NamedKey>,
    receive: Option<NamedKey>,
    former: Option<NamedKey>,
}

impl Draft {
    /// No keys.
    pub const EMPTY: Draft = Draft {
        send: None,
        receive: None,
        former: None,
    };

    /// Adds a key.
    ///
    /// # Errors
    ///
    /// `SpiAgain` or `KeyAgain` if another key has its SPI or is the same; `SecondSend` or
    /// `ThirdReceive` if there are enough of its direction.
    pub fn add(&mut self, direction: Direction, key: NamedKey) -> Result<(), KeyLineFault>
        ensures adds { OnOk result (Adds direction key self.old self.new) }
        ensures apart { IsDraft self.old → IsSpi key.spi → OnOk result (IsDraft self.new) }
    {
        check_differs(self.send, key)?;
        check_differs(self.receive, key)?;
        check_differs(self.former, key)?;
        match direction {
            Direction::Send => put(&mut self.send, key, KeyLineFault::SecondSend),
            Direction::Receive if self.receive.is_none() => {
                put(&mut self.receive, key, KeyLineFault::ThirdReceive)
            }
            Direction::Receive => put(&mut self.former, key, KeyLineFault::ThirdReceive),
        }
    }

    /// Returns the keys if there is one for each direction.
    ///
    /// # Errors
    ///
    /// `NoSend` or `NoReceive` if there is none.
    pub fn keys(self) -> Result<LinkKeys, KeyFileError>
        ensures keys { IfOk result (λ k. (self.send ≡ Some k.send)
            × (self.receive ≡ Some k.receive) × (k.former ≡ self.former)) }
        ensures apart { IsDraft self → IfOk result AreApart }
    {
        Ok(LinkKeys {
            send: self.send.ok_or(KeyFileError::NoSend)?,
            receive: self.receive.ok_or(KeyFileError::NoReceive)?,
            former: self.former,
        })
    }
}

/// Looks whether a key has another SPI than this one, and is another.
///
/// # Errors
///
/// `SpiAgain` or `KeyAgain` if it doesn't.
fn check_differs(other: Option<NamedKey>, key: NamedKey) -> Result<(), KeyLineFault>
    ensures { OnOk result (DiffersFrom key other) }
{
    let Some(other) = other else {
        return Ok(());
    };
    let (theirs, own) = (other.key, key.key);
    if other.spi == key.spi {
        Err(KeyLineFault::SpiAgain(key.spi))
    } else if theirs == own {
        Err(KeyLineFault::KeyAgain)
    } else {
        Ok(())
    }
}

/// Puts a key in a place that has none.
///
/// # Errors
///
/// This fault if one is there.
fn put(place: &mut Option<NamedKey>, key: NamedKey, fault: KeyLineFault) -> Result<(), KeyLineFault>
    ensures { OnOk result ((place.old ≡ None) × (place.new ≡ Some key)) }
{
    if place.is_some() {
        return Err(fault);
    }
    *place = Some(key);
    Ok(())
}
