//! The receiving end: secured frames to bare ones.
ghost use Rattle.std.specs.Prelude.{◌≡◌, ℕ, ◌+◌, ◌≤◌, ◌∷◌, ◌++◌, [], length, take, drop, Some, None};
ghost use Rattle.std.specs.Prelude.{IfOk};
ghost use Rattle.std.specs.Result.{result_err};
ghost use Rattle.std.specs.Option.{option_copied};
ghost use Rattle.aos_frame.specs.LinkFields.{bare_in, control_in};
ghost use Rattle.frame_security.specs.Frames.{frame_in, overhead, number_in};
ghost use Rattle.frame_security.specs.Keys.{association, opener_with};
ghost use Rattle.frame_security.specs.Opening.{after, counted, key_of, refusal};
ghost use Rattle.frame_security.specs.Opening as opening;

use crate::config::{SECURITY_HEADER_LEN, SPI_LEN, Security};
use crate::keys::{LinkKeys, NamedKey};
use crate::sealing::mac_of;
use aos_frame::{FieldsFault, HEADER_LEN};
use cfd_bits::{read_eight, read_uint};
use hmac::{Key, are_same};
use std::marker::Model;
use std::mem;
use thiserror::Error;
use valid_config::Valid;

/// Why octets that were received are refused: the first of these causes that holds, in this order.
/// The last three are the verification failures of CCSDS 355.0-B-2.
#[derive(Clone, Copy, Debug, PartialEq, Eq, Error)]
pub enum FrameRefusal {
    /// There are fewer octets than a header, the fields of the link, and the security header and
    /// trailer have.
    #[error("the octets are fewer than those of a secured frame")]
    Short,
    /// The frame error control field differs from the check of the frame.
    #[error("the frame was damaged on the way")]
    Damaged,
    /// Neither key has the frame's SPI (invalid SPI).
    #[error("no key has the frame's security parameter index")]
    UnknownSpi,
    /// The MAC isn't right under the key of the SPI (MAC verification failure).
    #[error("the frame's MAC is wrong")]
    NotAuthentic,
    /// The sequence number isn't greater than the number of the frame that was accepted last
    /// (anti-replay sequence number failure).
    #[error("the frame's sequence number isn't greater than the last one")]
    Replayed,
}

/// How many frames were refused for each cause. If a count has reached 2^64 - 1, it stays there.
///
/// # Examples
///
/// ```text
/// let replayed = opener.refused().replayed;
/// ```
#[derive(Clone, Copy, Debug, PartialEq, Eq)]
pub struct Refused {
    /// How many were [`FrameRefusal::Short`].
    pub short: u64,
    /// How many were [`FrameRefusal::Damaged`].
    pub damaged: u64,
    /// How many were [`FrameRefusal::UnknownSpi`].
    pub unknown_spi: u64,
    /// How many were [`FrameRefusal::NotAuthentic`].
    pub not_authentic: u64,
    /// How many were [`FrameRefusal::Replayed`].
    pub replayed: u64,
}

impl Refused {
    /// No frame was refused.
    pub const NONE: Refused = Refused {
        short: 0,
        damaged: 0,
        unknown_spi: 0,
        not_authentic: 0,
        replayed: 0,
    };

    /// Counts one more refusal for this cause.
    fn count(&mut self, cause: FrameRefusal)
        ensures { self.new ≡ counted cause self.old }
    {
        match cause {
            FrameRefusal::Short => self.short = self.short.saturating_add(1),
            FrameRefusal::Damaged => self.damaged = self.damaged.saturating_add(1),
            FrameRefusal::UnknownSpi => self.unknown_spi = self.unknown_spi.saturating_add(1),
            FrameRefusal::NotAuthentic => self.not_authentic = self.not_authentic.saturating_add(1),
            FrameRefusal::Replayed => self.replayed = self.replayed.saturating_add(1),
        }
    }
}

/// A security association: a key, and the SPI by which a frame names it.
#[derive(Drop)]
struct Association {
    spi: u16,
    key: Key,
}

impl Association {
    /// Returns the association of a key with its SPI.
    fn of(named: &NamedKey) -> Association
        ensures { result ≡ association named.now }
    {
        Association {
            spi: named.spi,
            key: Key::new(&named.key),
        }
    }
}

/// An accepted frame, borrowed from the octets that were received: the bare frame is its header
/// with its M_PDU after it. The operational control field is **not authenticated**: nothing may be
/// decided by it that an attacker must not decide.
#[derive(Clone, Copy, Debug)]
pub struct AcceptedFrame<'a> {
    /// The header: 6 octets.
    pub header: &'a [u8],
    /// The M_PDU.
    pub mpdu: &'a [u8],
    /// The operational control field as it was received, if the link has one.
    pub control: Option<u32>,
}

/// The receiving end, which verifies frames.
///
/// It has one key, or two while the peer changes from the former to the latest one. One last
/// sequence number holds for both keys: so no frame of the former key is accepted after a later one
/// of the latest key. It has no `Debug`, so that its keys are never printed.
///
/// # Examples
///
/// ```text
/// let mut opener = Opener::new(security, 1, &key, last);
/// if let Ok(opened) = opener.open(&octets) {} // the peer sealed this frame after the one before
/// ```
#[derive(Drop)]
pub struct Opener {
    security: Valid<Security>,
    latest: Association,
    former: Option<Association>,
    last: u64,
    refused: Refused,
}

impl Model for Opener {
    ghost use Rattle.frame_security.specs.Opening.{OpenerState};
    ghost use Rattle.frame_security.specs.Frames.{IsSecurity};

    ghost Value = { OpenerState };

    ghost view = { λ o. record {
      security = o.security;
      latest = o.latest;
      former = o.former;
      last = o.last;
      refused = o.refused;
    } };

    ghost invariant = { λ o. IsSecurity o.security };
}

impl Opener {
    /// Returns an opener that accepts frames with this SPI under this key, if their sequence
    /// numbers are greater than `last`.
    ///
    /// `last` must be at least each number that an earlier opener accepted, and is 0 if there was
    /// none. The key must not be one that this end sends with.
    pub fn new(security: Valid<Security>, spi: u16, key: &[u8], last: u64) -> Opener
        ensures { result ≡ opening.begun security spi key.now last }
    {
        let _ = security.get();
        Opener {
            security,
            latest: Association {
                spi,
                key: Key::new(key),
            },
            former: None,
            last,
            refused: Refused::NONE,
        }
    }

    /// Accepts frames with this SPI under this key, too, from now on. The latest key becomes the
    /// former one, and a key that was the former one is released.
    pub fn add_key(&mut self, spi: u16, key: &[u8])
        ensures { self.new ≡ opening.with_key spi key.now self.old }
    {
        let latest = Association {
            spi,
            key: Key::new(key),
        };
        let former = mem::replace(&mut self.latest, latest);
        self.former = Some(former);
    }

    /// Releases the former key: no frame under it is accepted from now on.
    pub fn drop_former_key(&mut self)
        ensures { self.new ≡ record self.old { former = None } }
    {
        self.former = None;
    }

    /// Replaces all its keys by these: the latest and the former one of the peer. The last sequence
    /// number and the counts stay.
    pub fn change_keys(&mut self, keys: &LinkKeys)
        ensures { self.new ≡ opener_with keys.now self.old }
    {
        self.latest = Association::of(&keys.receive);
        self.former = match &keys.former {
            Some(former) => Some(Association::of(former)),
            None => None,
        };
    }

    /// Returns the sequence number of the frame that was accepted last.
    pub fn last(&self) -> u64
        ensures { result ≡ self.now.last }
    {
        self.last
    }

    /// Returns how many frames were refused for each cause.
    pub fn refused(&self) -> Refused
        ensures { result ≡ self.now.refused }
    {
        self.refused
    }

    /// Returns how many octets a frame of the link has besides its bare frame: 26 to 112.
    pub fn overhead(&self) -> usize
        ensures are { result ≡ overhead self.now.security }
        ensures most { result ≤ 112 }
    {
        self.security.get().overhead()
    }

    /// Verifies a frame that was received, whatever its octets are, and returns the bare frame.
    ///
    /// # Errors
    ///
    /// The first of these that holds, in this order. It is counted, and nothing else changed.
    ///
    /// - `Short` if there are fewer octets than the shortest frame of the link has;
    /// - `Damaged` if the link has error control, and the check differs;
    /// - `UnknownSpi` if neither key has the frame's SPI;
    /// - `NotAuthentic` if the MAC isn't right under the key of the SPI;
    /// - `Replayed` if the sequence number isn't greater than the last one.
    pub fn open<'a>(&mut self, frame: &'a [u8]) -> Result<AcceptedFrame<'a>, FrameRefusal>
        ensures frame { IfOk result (λ x. x.header.now ++ x.mpdu.now
            ≡ frame_in self.old.security (bare_in self.old.security.fields frame.now)) }
        ensures header { IfOk result (λ x. length x.header.now ≡ 6) }
        ensures control { IfOk result (λ x. x.control
            ≡ control_in self.old.security.fields frame.now) }
        ensures refused { result_err result ≡ refusal self.old frame.now }
        ensures after { self.new ≡ after self.old frame.now }
    {
        let looked = self.look(frame);
        match looked {
            Ok(found) => {
                self.last = found.number;
                Ok(found.opened)
            }
            Err(cause) => {
                self.refused.count(cause);
                Err(cause)
            }
        }
    }

    /// Returns what a frame that was received has, with its sequence number, or why it is refused.
    fn look<'a>(&self, frame: &'a [u8]) -> Result<Found<'a>, FrameRefusal>
        ensures frame { IfOk result (λ x. x.opened.header.now ++ x.opened.mpdu.now
            ≡ frame_in self.now.security (bare_in self.now.security.fields frame.now)) }
        ensures header { IfOk result (λ x. length x.opened.header.now ≡ 6) }
        ensures control { IfOk result (λ x. x.opened.control
            ≡ control_in self.now.security.fields frame.now) }
        ensures number { IfOk result (λ x. x.number
            ≡ number_in (bare_in self.now.security.fields frame.now)) }
        ensures refused { result_err result ≡ refusal self.now frame.now }
    {
        let security = self.security.get();
        let opened = match aos_frame::open(security.fields, frame) {
            Ok(opened) => opened,
            Err(fault) => return Err(FrameRefusal::of(fault)),
        };
        let (number, mpdu) = self.look_behind(opened.header, opened.mpdu)?;
        Ok(Found {
            number,
            opened: AcceptedFrame {
                header: opened.header,
                mpdu,
                control: opened.control,
            },
        })
    }

    /// Returns the sequence number and the M_PDU of a secured frame, whose header and the octets
    /// after it are given apart, or why it is refused.
    fn look_behind<'a>(
        &self,
        header: &[u8],
        behind: &'a [u8],
    ) -> Result<(u64, &'a [u8]), FrameRefusal>
        requires { length header.now ≡ 6 }
        ensures mpdu { IfOk result (λ x. header.now ++ x.1.now
            ≡ frame_in self.now.security (header.now ++ behind.now)) }
        ensures number { IfOk result (λ x. x.0 ≡ number_in (header.now ++ behind.now)) }
        ensures refused { result_err result
            ≡ opening.bare_fault self.now (header.now ++ behind.now) }
    {
        let security = self.security.get();
        let mac_len = usize::from(security.mac_len);
        if behind.len() < SECURITY_HEADER_LEN + mac_len {
            return Err(FrameRefusal::Short);
        }
        let (text, mac) = behind.split_at(behind.len() - mac_len);
        let spi = read_uint(text, SPI_LEN) as u16;
        let Some(key) = self.key_of(spi) else {
            return Err(FrameRefusal::UnknownSpi);
        };
        let whole = mac_of(key, security.fields.insert_zone, header, text);
        if !are_same(&whole[..mac_len], mac) {
            return Err(FrameRefusal::NotAuthentic);
        }
        let (_spi, behind_spi) = text.split_at(SPI_LEN);
        let number = read_eight(behind_spi);
        if number <= self.last {
            return Err(FrameRefusal::Replayed);
        }
        let (_security_header, mpdu) = text.split_at(SECURITY_HEADER_LEN);
        Ok((number, mpdu))
    }

    /// Returns the key of an SPI, if it has one.
    fn key_of(&self, spi: u16) -> Option<&Key>
        ensures { option_copied result ≡ key_of self.now spi }
    {
        if self.latest.spi == spi {
            return Some(&self.latest.key);
        }
        match &self.former {
            Some(former) if former.spi == spi => Some(&former.key),
            _ => None,
        }
    }
}

/// An accepted frame, and its sequence number.
#[derive(Clone, Copy)]
struct Found<'a> {
    number: u64,
    opened: AcceptedFrame<'a>,
}

impl FrameRefusal {
    /// Returns the refusal of a frame whose fields are wrong.
    fn of(fault: FieldsFault) -> FrameRefusal
        ensures { result ≡ opening.fault_refusal fault }
    {
        match fault {
            FieldsFault::Short => FrameRefusal::Short,
            FieldsFault::Damaged => FrameRefusal::Damaged,
        }
    }
}
