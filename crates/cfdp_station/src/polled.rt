ghost use Rattle.std.specs.Prelude.{◌↔◌, IsTrue};
ghost use Rattle.cfdp_station.specs.Transmitting.{IsMore};

/// What a poll did.
#[derive(Clone, Copy, Debug, PartialEq, Eq)]
pub enum Polled {
    /// A PDU was put after the others that go down its lane.
    Moved,
    /// Nothing is due.
    Nothing,
    /// The PDU that is due is longer than the room that is left in its lane. Nothing changed; if
    /// frames of the lane are taken off, there is more room.
    Full,
    /// The outbox failed to give the file data that are due: the transaction was cancelled for it,
    /// and no PDU moved.
    SourceFailed,
}

impl Polled {
    /// Returns `true` if more may be due after a poll that answered so.
    pub fn is_more(self) -> bool
        ensures { IsTrue result ↔ IsMore self }
    {
        match self {
            Polled::Moved | Polled::SourceFailed => true,
            Polled::Nothing | Polled::Full => false,
        }
    }
}
