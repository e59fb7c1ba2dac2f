//! The sending end: bare frames to secured ones.
ghost use Rattle.std.specs.Prelude.{◌≡◌, ℕ, ◌+◌, ◌-◌, ◌<◌, ◌≤◌, ◌^◌, ◌↔◌, ◌++◌, length, take, drop};
ghost use Rattle.std.specs.Prelude.{replicate, OnErr, OnOk, IsErr};
ghost use Rattle.aos_frame.specs.LinkFields.{bare_in};
ghost use Rattle.hmac.specs.Hmac.{hmac};
ghost use Rattle.frame_security.specs.Frames.{overhead, masked, secured};
ghost use Rattle.frame_security.specs.Keys.{sealer_with};
ghost use Rattle.frame_security.specs.Sealing.{secured_frame};

use crate::config::{SECURITY_HEADER_LEN, SPI_LEN, Security};
use crate::keys::LinkKeys;
use aos_frame::HEADER_LEN;
use cfd_bits::{put_bytes, put_eight, put_uint};
use hmac::Key;
use std::marker::Model;
use thiserror::Error;
use valid_config::Valid;

/// The longest insert zone, as the authentication bit mask leaves it.
const ZEROS: [u8; 64] = [0; 64];

/// All sequence numbers were used, and no further frame can be sealed.
#[derive(Clone, Copy, Debug, PartialEq, Eq, Error)]
#[error("all sequence numbers were used")]
pub struct NumbersSpent;

/// The sending end, which applies security to frames: each gets the next sequence number.
///
/// It has no `Debug`, so that its key is never printed.
///
/// # Examples
///
/// ```text
/// let mut sealer = Sealer::new(security, 1, &key, next);
/// sealer.seal(&bare, control, &mut frame)?;
/// ```
#[derive(Drop)]
pub struct Sealer {
    security: Valid<Security>,
    spi: u16,
    key: Key,
    next: u64,
}

impl Model for Sealer {
    ghost use Rattle.frame_security.specs.Sealing.{SealerState};
    ghost use Rattle.frame_security.specs.Frames.{IsSecurity};

    ghost Value = { SealerState };

    ghost view = { λ s. record { security = s.security; spi = s.spi; key = s.key; next = s.next } };

    ghost invariant = { λ s. IsSecurity s.security };
}

impl Sealer {
    /// Returns a sealer with this key, which the peer knows by the SPI, and the next sequence
    /// number.
    ///
    /// `next` must be at least 1, and greater than each number that was ever used under a key that
    /// the peer has had, also by an earlier sealer. The SPI should be 1 to 65,534: the standard
    /// reserves 0 and 65,535. The key should have 32 octets, drawn at random, and must not be one
    /// that this end receives with.
    pub fn new(security: Valid<Security>, spi: u16, key: &[u8], next: u64) -> Sealer
        ensures { result ≡ record { security = security; spi = spi; key = key.now; next = next } }
    {
        let _ = security.get();
        Sealer {
            security,
            spi,
            key: Key::new(key),
            next,
        }
    }

    /// Seals under another key from now on. The sequence numbers go on: they must not begin again,
    /// since the opener has one last number for all keys.
    pub fn change_key(&mut self, spi: u16, key: &[u8])
        ensures { self.new ≡ record self.old { spi = spi; key = key.now } }
    {
        self.spi = spi;
        self.key = Key::new(key);
    }

    /// Seals under the sending key of these from now on. The sequence numbers go on.
    pub fn change_keys(&mut self, keys: &LinkKeys)
        ensures { self.new ≡ sealer_with keys.now self.old }
    {
        self.change_key(keys.send.spi, &keys.send.key);
    }

    /// Returns the sequence number of the next frame.
    pub fn next(&self) -> u64
        ensures { result ≡ self.now.next }
    {
        self.next
    }

    /// Returns how many octets a frame of the link has besides its bare frame: 26 to 112.
    pub fn overhead(&self) -> usize
        ensures are { result ≡ overhead self.now.security }
        ensures most { result ≤ 112 }
    {
        self.security.get().overhead()
    }

    /// Seals a bare frame under the next sequence number into `out`, which must have room for
    /// exactly the frame and its overhead. The frame gets this operational control field if the
    /// link has one; the control field is not authenticated. The insert zone gets zeros.
    ///
    /// # Errors
    ///
    /// `NumbersSpent` if no sequence number is left, which is after 2^64 - 2: nothing changed.
    pub fn seal(&mut self, bare: &[u8], control: u32, out: &mut [u8]) -> Result<(), NumbersSpent>
        requires header { 6 ≤ length bare.now }
        requires room { length out.old ≡ length bare.now + overhead self.old.security }
        ensures ok { OnOk result ((out.new ≡ secured_frame self.old bare.now control)
            × (self.new ≡ record self.old { next = self.old.next + 1 })) }
        ensures err { OnErr result ((out.new ≡ out.old) × (self.new ≡ self.old)) }
        ensures left { OnOk result (self.old.next < 2 ^ 64 - 1) }
        ensures spent { IsErr result ↔ (self.old.next ≡ 2 ^ 64 - 1) }
    {
        if self.next == u64::MAX {
            return Err(NumbersSpent);
        }
        self.put_secured(bare, out);
        aos_frame::seal(Valid::known(self.security.get().fields), control, out);
        self.next += 1;
        Ok(())
    }

    /// Writes the secured frame between the fields of the link.
    fn put_secured(&self, bare: &[u8], out: &mut [u8])
        requires header { 6 ≤ length bare.now }
        requires room { length out.old ≡ length bare.now + overhead self.now.security }
        ensures secured { bare_in self.now.security.fields out.new ≡ secured self.now.security
            self.now.key self.now.spi self.now.next bare.now }
        ensures len { length out.new ≡ length out.old }
    {
        let security = self.security.get();
        let body_len = bare.len() - HEADER_LEN
            + SECURITY_HEADER_LEN
            + usize::from(security.mac_len);
        let (header, behind) = out.split_at_mut(HEADER_LEN);
        let (_insert, behind) = behind.split_at_mut(usize::from(security.fields.insert_zone));
        let (body, _fields) = behind.split_at_mut(body_len);
        self.write(bare, header, body);
    }

    /// Writes the secured frame in two parts, its header and its body.
    fn write(&self, bare: &[u8], header: &mut [u8], body: &mut [u8])
        requires bare { 6 ≤ length bare.now }
        requires header { length header.old ≡ 6 }
        requires body { length body.old ≡ length bare.now - 6 + 10 + self.now.security.mac_len }
        ensures { header.new ++ body.new ≡ secured self.now.security self.now.key self.now.spi
            self.now.next bare.now }
    {
        let security = self.security.get();
        let (bare_header, mpdu) = bare.split_at(HEADER_LEN);
        header.copy_from_slice(bare_header);
        let at = put_uint(body, 0, SPI_LEN, u64::from(self.spi));
        let at = put_eight(body, at, self.next);
        let at = put_bytes(body, at, mpdu);
        let mac = mac_of(
            &self.key,
            security.fields.insert_zone,
            bare_header,
            &body[..at],
        );
        put_bytes(body, at, &mac[..usize::from(security.mac_len)]);
    }
}

/// Returns the whole MAC of a header and the octets after it, with zeros in place of the insert
/// zone between them.
pub(crate) fn mac_of(key: &Key, insert_zone: u8, header: &[u8], behind: &[u8]) -> [u8; 32]
    requires zone { insert_zone ≤ 64 }
    requires header { length header.now ≡ 6 }
    ensures { result ≡ hmac key.now (masked insert_zone (header.now ++ behind.now)) }
{
    let mut mac = key.begin();
    mac.update(header);
    mac.update(&ZEROS[..usize::from(insert_zone)]);
    mac.update(behind);
    mac.finish()
}
