//! The wire.
ghost use Rattle.std.specs.Prelude.{◌≡◌, ◌+◌, ◌-◌, ◌^◌, ◌<◌, ◌≤◌, ◌++◌, Ok, Err, Some, length};
ghost use Rattle.std.specs.Prelude.{take, IfOk, IfSome, OnErr, OnOk};
ghost use Rattle.frame_security.specs.Frames.{overhead};
ghost use Rattle.frame_security.specs.Sealing.{secured_frame};
ghost use Rattle.cfdp_port.specs.Calls.{brought};
ghost use Rattle.secured_wire.specs.Secured.{AsksBehind, Opens, Secures};

use crate::keeper::Keeper;
use aos_frame::HEADER_LEN;
use cfd_bits::put_bytes;
use cfdp_port::{PeerWire, Wire, WireFault};
use frame_security::{Opener, Refused, Sealer};
use std::alloc::{AllocError, Global};
use std::marker::Model;

/// A wire that secures each frame that is sent over the wire below it. Of what arrives there it
/// answers only frames that the peer sealed, each at most once, in the order in which the peer sent
/// them. Its keeper notes each number before the frame is answered. It has no `Debug`, so that no
/// key is printed.
///
/// # Examples
///
/// ```text
/// let wire = SecuredWire::new(alloc, udp, keeper, sealer, opener, 2048)?;
/// ```
#[derive(Drop)]
pub struct SecuredWire<W: Wire, K: Keeper> {
    wire: W,
    keeper: K,
    sealer: Sealer,
    opener: Opener,
    most: usize,
    sent: Vec<u8>,
    came: Vec<u8>,
}

impl<W: Wire, K: Keeper> Model for SecuredWire<W, K> {
    ghost use Rattle.std.specs.Prelude.{◌+◌, ◌≤◌};
    ghost use Rattle.std.specs.Vec.{vec_len};
    ghost use Rattle.frame_security.specs.Frames.{overhead};
    ghost use Rattle.secured_wire.specs.Secured.{SecuredState};

    ghost Value = { SecuredState W };

    ghost view = { λ s. record {
      wire = s.wire;
      sealer = s.sealer;
      opener = s.opener;
      most = s.most;
    } };

    ghost invariant = { λ s. s.most + overhead s.sealer.security ≤ vec_len s.sent };
}

impl<W: Wire, K: Keeper> SecuredWire<W, K> {
    /// Returns a secured wire over this one, for bare frames of up to `frame_len` octets, which
    /// must be at most 65,536. A longer frame is lost when it is sent. The sealer and the opener
    /// must not have a key in common, and must begin with the numbers that the keeper noted.
    ///
    /// # Errors
    ///
    /// `AllocError` if there is no memory for the two buffers.
    pub fn new(
        alloc: Global,
        wire: W,
        keeper: K,
        sealer: Sealer,
        opener: Opener,
        frame_len: usize,
    ) -> Result<Self, AllocError>
        requires { frame_len ≤ 65536 }
        ensures { IfOk result (λ s. s ≡ record {
          wire = wire;
          sealer = sealer;
          opener = opener;
          most = frame_len;
        }) }
    {
        let sent = vec![in alloc; 0u8; frame_len + sealer.overhead()]?;
        let came = vec![in alloc; 0u8; frame_len + opener.overhead()]?;
        Ok(SecuredWire {
            wire,
            keeper,
            sealer,
            opener,
            most: frame_len,
            sent,
            came,
        })
    }

    /// Returns the sequence number of the frame that is sent next.
    pub fn next(&self) -> u64
        ensures { result ≡ self.now.sealer.next }
    {
        self.sealer.next()
    }

    /// Returns the sequence number of the frame that was accepted last, 0 if none was.
    pub fn last(&self) -> u64
        ensures { result ≡ self.now.opener.last }
    {
        self.opener.last()
    }

    /// Returns how many frames were refused for each cause.
    pub fn refused(&self) -> Refused
        ensures { result ≡ self.now.opener.refused }
    {
        self.opener.refused()
    }

    /// Does what [`Wire::receive`] says. An accepted frame is answered if the keeper notes its
    /// number and the buffer has room for it.
    ///
    /// # Errors
    ///
    /// `WireFault` if the wire below couldn't be asked, if what arrived is refused, if the keeper
    /// can't note the frame, or if the buffer has no room for it.
    pub fn receive_frame(&mut self, buffer: &mut [u8]) -> Result<Option<usize>, WireFault>
        ensures asked { AsksBehind W.steps K.calls (length buffer.old) (brought result buffer.new)
            self.old self.new }
        ensures within { IfOk result (λ came. IfSome came (λ len. len ≤ length buffer.new)) }
    {
        match self.wire.receive(&mut self.came) {
            Ok(Some(len)) => open_into(
                &mut self.opener,
                &mut self.keeper,
                &self.came[..len],
                buffer,
            ),
            Ok(None) => Ok(None),
            Err(fault) => Err(fault),
        }
    }
}

impl<W: Wire, K: Keeper> Wire for SecuredWire<W, K> {
    ghost steps = { λ old call new. Secures W.steps K.calls old call new };

    fn send(&mut self, frame: &[u8]) -> Result<(), WireFault> {
        if frame.len() < HEADER_LEN || self.most < frame.len() {
            return Err(WireFault);
        }
        let len = seal_into(&mut self.sealer, frame, &mut self.sent)?;
        self.wire.send(&self.sent[..len])
    }

    fn receive(&mut self, buffer: &mut [u8]) -> Result<Option<usize>, WireFault> {
        self.receive_frame(buffer)
    }
}

/// Seals a frame at the front of a buffer that has room for it, and returns its length. The frame
/// is lost if no sequence number is left.
fn seal_into(sealer: &mut Sealer, frame: &[u8], out: &mut [u8]) -> Result<usize, WireFault>
    requires header { 6 ≤ length frame.now }
    requires room { length frame.now + overhead sealer.old.security ≤ length out.old }
    ensures secured { IfOk result (λ len. take len out.new
        ≡ secured_frame sealer.old frame.now 0) }
    ensures within { IfOk result (λ len. len ≤ length out.new) }
    ensures ok { OnOk result ((sealer.old.next < 2 ^ 64 - 1)
        × (sealer.new ≡ record sealer.old { next = sealer.old.next + 1 })) }
    ensures err { OnErr result ((sealer.old.next ≡ 2 ^ 64 - 1) × (sealer.new ≡ sealer.old)) }
{
    let len = frame.len() + sealer.overhead();
    let Ok(()) = sealer.seal(frame, 0, &mut out[..len]) else {
        return Err(WireFault);
    };
    Ok(len)
}

/// Verifies octets that arrived, and writes the bare frame to the front of the buffer. They are
/// lost if they are refused, if the keeper can't note their number, or if the buffer has no room
/// for the frame.
fn open_into<K: Keeper>(
    opener: &mut Opener,
    keeper: &mut K,
    octets: &[u8],
    buffer: &mut [u8],
) -> Result<Option<usize>, WireFault>
    ensures opens { Opens K.calls (length buffer.old) (Ok (Some octets.now))
        (brought result buffer.new) opener.old opener.new }
    ensures within { IfOk result (λ came. IfSome came (λ len. len ≤ length buffer.new)) }
{
    let opened = match opener.open(octets) {
        Ok(opened) => opened,
        Err(cause) => {
            keeper.refuses(cause);
            return Err(WireFault);
        }
    };
    if !keeper.keeps(opener.last()) {
        return Err(WireFault);
    }
    put_frame(opened.header, opened.mpdu, buffer)
}

/// Writes a frame, which is given in two parts, to the front of the buffer. The frame is lost if
/// the buffer has no room for it.
fn put_frame(header: &[u8], mpdu: &[u8], buffer: &mut [u8]) -> Result<Option<usize>, WireFault>
    ensures put { length (header.now ++ mpdu.now) ≤ length buffer.old
        → brought result buffer.new ≡ Ok (Some (header.now ++ mpdu.now)) }
    ensures lost { length buffer.old < length (header.now ++ mpdu.now)
        → brought result buffer.new ≡ Err (record {}) }
    ensures within { IfOk result (λ came. IfSome came (λ len. len ≤ length buffer.new)) }
{
    if buffer.len() < header.len() {
        return Err(WireFault);
    }
    if buffer.len() - header.len() < mpdu.len() {
        return Err(WireFault);
    }
    let at = put_bytes(buffer, 0, header);
    Ok(Some(put_bytes(buffer, at, mpdu)))
}

impl<W: PeerWire, K: Keeper> PeerWire for SecuredWire<W, K> {
    /// Asks the keeper for new keys first, and changes to these.
    fn now(&mut self) -> u64 {
        if let Some(keys) = self.keeper.new_keys() {
            self.sealer.change_keys(&keys);
            self.opener.change_keys(&keys);
        }
        self.wire.now()
    }

    fn is_ready(&mut self) -> bool {
        self.wire.is_ready()
    }

    fn is_silent(&mut self, is_open: bool) -> bool {
        self.wire.is_silent(is_open)
    }
}
