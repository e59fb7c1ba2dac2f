//! What a capture has of a packet.

/// An interface on which packets were captured.
#[derive(Clone, Copy, Debug, PartialEq, Eq)]
pub struct Interface {
    /// The link type: which headers stand before a packet.
    pub link_type: u16,
    /// The most octets of a packet that were captured; 0 if there was no such limit.
    pub snap_len: u32,
}

/// A packet that was captured.
#[derive(Clone, Copy, Debug)]
pub struct CapturedPacket<'a> {
    /// The link type of its interface.
    pub link_type: u16,
    /// How many octets it had on the wire.
    pub original: u32,
    /// The octets that were captured.
    pub octets: &'a [u8],
}
