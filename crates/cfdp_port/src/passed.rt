use aos_frame::Lane;
use cfdp_station::Polled;

/// What passed at a station that takes turns over a wire.
#[derive(Clone, Copy)]
pub enum Passed<'a> {
    /// It accepted a put, or did what was asked of a transaction.
    Asked,
    /// It was given the time.
    Ticked(u64),
    /// It was polled, and answered so.
    Polled(Polled),
    /// The frame left it, in this lane. If it isn't sent, it is lost.
    Left {
        lane: Lane,
        frame: &'a [u8],
        is_sent: bool,
    },
    /// The frame came over its wire, and it took it.
    Took(&'a [u8]),
}
