//! What holds of a file's way over wires that lose frames, or bring them in order.
ghost use Rattle.std.specs.FinMap.{get};
ghost use Rattle.std.specs.Prelude.{◌≡◌, ℕ, List, Ok, IsTrue};
ghost use Rattle.cfdp_directives.specs.User.Completions.{IsToldComplete};
ghost use Rattle.cfdp_header.specs.Files.{FileMap};
ghost use Rattle.cfdp_header.specs.declared.value.TransactionId.{TransactionId};
ghost use Rattle.cfdp_station.specs.Station.{StationState};
ghost use Rattle.cfdp_station.specs.New.{IsFirstAt};
ghost use Rattle.station_pair.specs.Stations.{IsWorldConfig};
ghost use Rattle.link_sim.specs.declared.event.AcceptedPut.{AcceptedPut};
ghost use Rattle.station_pair.specs.declared.world_config.WorldConfig.{WorldConfig};
ghost use Rattle.ports_in_order.specs.InOrder.{AreOfWorld, PassInOrder, Passage};
ghost use Rattle.cfdp_port.specs.Asking.{Puts};
ghost use Rattle.cfdp_port.specs.Pair.{PairState, Turns};
ghost use Rattle.cfdp_port.specs.Port.{AtStation, PortState};

use cfdp_port::Wire;

/// Over wires that lose frames, or bring those of each lane in the order in which they were sent,
/// two stations that take turns are those of a world in which the same frames left, and the same
/// ones came, if the files that they send stood still to the end: all that was read of them is what
/// they had from the start. So all that is promised of a world holds of them, whatever was lost.
/// `Turns` are those of two ports, from the put of the first one on.
pub fn turns_are_of_a_world<W: Wire>()
    ensures { (c : WorldConfig) (outboxes inboxes : FileMap × FileMap)
        (source destination : List ℕ) (id : TransactionId) (count : ℕ)
        (first : PairState W) (one : PortState W) (last : PairState W) (passed : Passage)
        → IsWorldConfig c → IsFirstAt c.one outboxes.0 inboxes.0 first.one.station
        → IsFirstAt c.two outboxes.1 inboxes.1 first.two.station
        → AtStation (Puts source destination (Ok id)) first.one one
        → (turns : Turns W.steps id count (record first { one = one }) last)
        → PassInOrder W.steps id count (record first { one = one }) last turns passed
        → IsTrue last.one.station.entity.state.table.stands
        → IsTrue last.two.station.entity.state.table.stands
        → AreOfWorld c outboxes inboxes
        (record { id = id; source = source; destination = destination }) passed
        last.one.station last.two.station }
{
    link_sim::worlds_keep_the_promises();
    cfdp_entity::an_entity_goes_on();
}

/// A sender that indicates its put complete over such wires can rely on it: the other station has
/// published, under the name that the put asked for, the very file that lies in the sender's
/// outbox.
pub fn told_complete_is_published()
    ensures { (c : WorldConfig) (outboxes inboxes : FileMap × FileMap) (put : AcceptedPut)
        (passed : Passage) (one two : StationState)
        → AreOfWorld c outboxes inboxes put passed one two → (id : TransactionId)
        → IsToldComplete one.entity.state.config.entity one.entity.state.table.told id
        → get two.entity.state.table.files put.destination
        ≡ get one.entity.state.table.sources put.source }
{}
