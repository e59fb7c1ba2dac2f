ghost use Rattle.std.specs.Prelude.{◌≡◌};
ghost use Rattle.station_pair.specs.Stations as sides;

/// One of the two stations of a world.
#[derive(Clone, Copy, Debug, PartialEq, Eq)]
pub enum Side {
    One,
    Two,
}

impl Side {
    /// Returns the other station.
    pub fn other(self) -> Side
        ensures { result ≡ sides.other self }
    {
        match self {
            Side::One => Side::Two,
            Side::Two => Side::One,
        }
    }

    /// Returns the station's number, 1 or 2: in a script it is its entity id.
    pub fn entity(self) -> u64
        ensures { result ≡ sides.entity_of self }
    {
        match self {
            Side::One => 1,
            Side::Two => 2,
        }
    }
}
