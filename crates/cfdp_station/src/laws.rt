//! Laws of what a station hears, each the contract of a function without code of its own.
ghost use Rattle.std.specs.Prelude.{◌≡◌, ◌++◌, ℕ, List, Option, IfSome, Contains};
ghost use Rattle.aos_frame.specs.Frame.{IsLink, lane_channel};
ghost use Rattle.aos_frame.specs.declared.config.Lane.{Lane};
ghost use Rattle.aos_frame.specs.declared.config.LinkConfig.{LinkConfig};
ghost use Rattle.mpdu.specs.Packets.{busy};
ghost use Rattle.link_stack.specs.AnyOrder.{AreLeft, CountsTell, Delivery, IsFrameOf, IsStray};
ghost use Rattle.link_stack.specs.Frames.{pdus_in};
ghost use Rattle.cfdp_header.specs.Files.{FileMap};
ghost use Rattle.cfdp_header.specs.declared.value.TransactionId.{TransactionId};
ghost use Rattle.cfdp_directives.specs.User.Put.{Put};
ghost use Rattle.cfdp_entity.specs.Sound.{FindsById, IsSound};
ghost use Rattle.cfdp_station.specs.AnyOrder.{HearsNone, HearsSent, IsTruthOf};
ghost use Rattle.cfdp_station.specs.Station.{StationState};
ghost use Rattle.cfdp_station.specs.Taking.{TakesFrame};

use cfdp_entity::{an_entity_goes_on, an_entity_keeps_the_truth};
use link_stack::a_frame_gives_what_was_sent;

/// A station hears PDUs that were sent, and no others, in whatever order and however often the
/// frames come; and what it knows stays true.
///
/// Each lane of the end that receives is as the last frame of a stream that came left it; if the
/// counts say that the next frame follows that one, it must follow it.
pub fn a_station_hears_what_was_sent()
    ensures frame { (link : LinkConfig) (old new : StationState) (last : Lane → Option Delivery)
        (d : Delivery) → IsLink link → AreLeft link old.up last →
        IsFrameOf (lane_channel d.lane link) d → IfSome (last d.lane) (λ b. CountsTell b d) →
        TakesFrame d.octets old new → HearsSent link old new last d }
    ensures stray { (link : LinkConfig) (old new : StationState) (last : Lane → Option Delivery)
        (octets : List ℕ) → AreLeft link old.up last →
        ((lane : Lane) → IsStray (lane_channel lane link) octets) →
        TakesFrame octets old new → HearsNone link old new last }
    // If all that was put into the stream says the truth of puts, the entity keeps the truth of
    // what it has heard, and of no more.
    ensures truth { (put_of : TransactionId → Option Put) (heard : List (List ℕ))
        (first : FileMap) (link : LinkConfig) (old new : StationState)
        (last : Lane → Option Delivery) (d : Delivery) (h : HearsSent link old new last d) →
        FindsById put_of →
        ((pdu : List ℕ) → Contains (pdus_in (busy d.packets)) pdu →
        IsTruthOf old.entity.state.config.peer put_of pdu) →
        IsSound put_of heard first old.entity.state →
        IsSound put_of (heard ++ h.pdus) first new.entity.state }
{
    a_frame_gives_what_was_sent();
    an_entity_keeps_the_truth();
    an_entity_goes_on();
}
