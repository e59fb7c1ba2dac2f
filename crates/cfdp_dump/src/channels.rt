//! All virtual channels whose frames were seen.
ghost use Rattle.std.specs.Prelude.{◌≡◌, ◌≤◌, ◌<◌, [], length, take, slice_index_or, true, false};
ghost use Rattle.std.specs.Prelude.{All, IfOk, IfSome, MatchOption, None, OnErr};
ghost use Rattle.cfdp_dump.specs.Carrying.{FrameCarries, IsUnfollowed, LacksMemory};
ghost use Rattle.cfdp_dump.specs.Carrying.{carried_text, fresh, is_of};

use crate::channel::{Carried, Channel};
use aos_frame::FrameHeader;
use std::alloc::{AllocError, Global};
use std::marker::Model;

/// How many channels are followed at most. Each takes the memory of the longest packet.
pub const MOST_CHANNELS: usize = 64;

/// The virtual channels whose frames were seen, and what was read of them.
#[derive(Debug, Drop)]
pub struct Channels {
    alloc: Global,
    channels: Vec<Channel>,
}

impl Model for Channels {
    ghost use Rattle.std.specs.Prelude.{List};
    ghost use Rattle.cfdp_dump.specs.declared.channel.Channel.{Channel};

    ghost Value = { List Channel };

    ghost view = { λ c. c.channels.items };
}

impl Channels {
    /// Returns the channels before the first frame.
    pub fn new(alloc: Global) -> Channels
        ensures { result ≡ [] }
    {
        Channels {
            alloc,
            channels: Vec::new(alloc),
        }
    }

    /// Takes a frame, by its header and its M_PDU, which must have 18 to 2,042 octets, and returns
    /// what it carries. `None` if its channel is none of the first [`MOST_CHANNELS`] whose frames
    /// were seen.
    ///
    /// # Errors
    ///
    /// `AllocError` if there is no memory for it: what is held of a begun packet of its channel may
    /// be lost then.
    pub fn take(&mut self, header: FrameHeader, mpdu: &[u8]) -> Result<Option<Carried>, AllocError>
        requires least { 18 ≤ length mpdu.now }
        requires most { length mpdu.now ≤ 2042 }
        ensures ok { IfOk result (λ answer. MatchOption answer
            (IsUnfollowed self.old header self.new)
            (λ carried. FrameCarries self.old header mpdu.now (carried_text carried) self.new)) }
        ensures err { OnErr result (LacksMemory self.old header self.new) }
    {
        match place_of(&self.channels, header) {
            Some(place) => {
                let carried = self.channels[place].take(self.alloc, header, mpdu)?;
                Ok(Some(carried))
            }
            None => self.take_first(header, mpdu),
        }
    }

    /// Takes the first frame of a channel.
    ///
    /// # Errors
    ///
    /// `AllocError` if there is no memory for it.
    fn take_first(
        &mut self,
        header: FrameHeader,
        mpdu: &[u8],
    ) -> Result<Option<Carried>, AllocError>
        requires least { 18 ≤ length mpdu.now }
        requires most { length mpdu.now ≤ 2042 }
        requires none { All (λ channel. is_of header channel ≡ false) self.old }
        ensures ok { IfOk result (λ answer. MatchOption answer
            (IsUnfollowed self.old header self.new)
            (λ carried. FrameCarries self.old header mpdu.now (carried_text carried) self.new)) }
        ensures err { OnErr result (LacksMemory self.old header self.new) }
    {
        if self.channels.len() >= MOST_CHANNELS {
            return Ok(None);
        }
        let mut channel = Channel::of(self.alloc, header)?;
        let carried = channel.take(self.alloc, header, mpdu)?;
        self.channels.push(channel)?;
        Ok(Some(carried))
    }
}

/// Returns the index of the first channel that a frame is of, if there is one.
fn place_of(channels: &[Channel], header: FrameHeader) -> Option<usize>
    ensures none { result ≡ None → All (λ channel. is_of header channel ≡ false) channels.now }
    ensures before { IfSome result (λ place. All (λ channel. is_of header channel ≡ false)
        (take place channels.now)) }
    ensures there { IfSome result (λ place. (place < length channels.now)
        × (is_of header (slice_index_or channels.now place (fresh header)) ≡ true)) }
{
    channels.iter().position(|channel| channel.is_of(header))
}
