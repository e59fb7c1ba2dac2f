ghost use Rattle.std.specs.Prelude.{◌≡◌, [], List};
ghost use Rattle.std.specs.FinMap as map;
ghost use Rattle.std.specs.FinSet as set;

use crate::Timers;
use cfdp_directives::Indication;
use std::alloc::Global;

/// What the steps of a machine write to: which timers are armed, and what was indicated to the
/// user, in order.
#[derive(Debug, Drop)]
pub struct Effects {
    /// The timers of all transactions.
    pub timers: Timers,
    /// What was indicated, the latest last. A step takes no memory: there must be room for three
    /// more before it.
    pub told: Vec<Indication>,
}

impl Effects {
    /// Returns no timers at time 0, and nothing indicated.
    pub fn new(alloc: Global) -> Effects
        ensures time { result.timers.time ≡ 0 }
        ensures roomy { result.timers.roomy ≡ set.empty }
        ensures armed { result.timers.armed ≡ map.empty }
        ensures told { result.told.items ≡ [] }
    {
        Effects {
            timers: Timers::new(alloc),
            told: Vec::new(alloc),
        }
    }
}
