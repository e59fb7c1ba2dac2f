// What a station does to several of its parts at once.
ghost use Rattle.std.specs.Prelude.{◌≡◌, ◌+◌, ◌%◌, ◌<◌, ◌≤◌, length, take, IfOk, OnErr};
ghost use Rattle.aos_frame.specs.Frame.{other_lane};
ghost use Rattle.link_stack.specs.Downward.{IsBounded, KeepsLanes, SendsPdu, lane_down};
ghost use Rattle.link_stack.specs.Downward as downward;
ghost use Rattle.cfdp_entity.specs.Entity.{EntityState, counted_lent, entity_lent};
ghost use Rattle.cfdp_entity.specs.Gives.{CountsOutbox};
ghost use Rattle.cfdp_entity.specs.Polling.{TakesTurn, turn, turn_room};
ghost use Rattle.cfdp_entity.specs.Sound.{SpellsTurn, longest_pdu};
ghost use Rattle.cfdp_station.specs.declared.polled.Polled.TheVariants as answers;
ghost use Rattle.cfdp_station.specs.Link as link;
ghost use Rattle.cfdp_station.specs.Polling.{Moves, Shows, next_room, stored_by_poll};
ghost use Rattle.cfdp_station.specs.Taking.{HearsPdu, HearsAll};

use crate::polled::Polled;
use cfdp_entity::{Entity, EntityPolled, Rooms};
use cfdp_store::{Inbox, Outbox};
use link_stack::{Down, Lane};
use octet_strings::OctetStrings;
use std::alloc::AllocError;

/// Returns the lane of a PDU: file data go on their own, directives on the other.
fn lane_for(file_data: bool) -> Lane
    ensures { result ≡ link.lane_for file_data }
{
    if file_data {
        Lane::Data
    } else {
        Lane::Directives
    }
}

/// Returns the room for a PDU of each type: its lane's.
fn rooms_of(down: &Down) -> Rooms
    ensures directives { result.directives ≡ downward.room down.now.directives }
    ensures file_data { result.file_data ≡ downward.room down.now.file_data }
    ensures turn { (e : EntityState) → turn_room result e ≡ next_room e down.now }
    ensures bounded { IsBounded down.now }
{
    Rooms {
        directives: down.room(Lane::Directives),
        file_data: down.room(Lane::Data),
    }
}

/// Sends the PDU in the first octets of a buffer down a lane, which must have room for it.
fn send_front(down: &mut Down, lane: Lane, buffer: &[u8], len: usize)
    requires some { 1 ≤ len }
    requires within { len ≤ length buffer.now }
    requires room { len ≤ downward.room (lane_down lane down.old) }
    ensures sent { SendsPdu (take len buffer.now) down.old.packet_count
        (lane_down lane down.old) (lane_down lane down.new) }
    ensures other { lane_down (other_lane lane) down.new ≡ lane_down (other_lane lane) down.old }
    ensures packet_count { down.new.packet_count ≡ (down.old.packet_count + 1) % 16384 }
    ensures fixed { KeepsLanes down.old down.new }
    ensures bounded { IsBounded down.new }
{
    let _ = down.send(&buffer[..len], lane);
}

/// Moves the PDU whose turn it is from the entity down the link, written once, into `buffer`.
pub(crate) fn move_one<O: Outbox, I: Inbox>(
    entity: &mut Entity<O, I>,
    down: &mut Down,
    buffer: &mut [u8],
) -> Result<Polled, AllocError>
    requires directives { down.old.directives.capacity ≤ length buffer.old }
    requires file_data { down.old.file_data.capacity ≤ length buffer.old }
    ensures moves { IfOk result (λ answer. Moves answer (counted_lent entity.new entity.old)
        entity.new down.old down.new) }
    ensures shows { IfOk result (λ answer. Shows answer entity.old.state entity.new.state) }
    ensures spells { let lent = entity_lent entity.new.state entity.old.state in IfOk result
        (λ answer. answer ≡ answers.Moved → SpellsTurn (turn lent) lent) }
    ensures roomy { IfOk result (λ answer. answer ≡ answers.Full
        → next_room entity.old.state down.old < longest_pdu) }
    ensures err { OnErr result ((entity.new ≡ entity.old) × (down.new ≡ down.old)) }
    ensures counts { IfOk result (λ answer. CountsOutbox (stored_by_poll answer)
        entity.old.outbox_failures entity.new.outbox_failures) }
    ensures lacks { OnErr result
        (TakesTurn (next_room entity.old.state down.old) entity.old.state) }
    ensures inbox { entity.new.inbox_failures ≡ entity.old.inbox_failures }
    ensures bounded { IsBounded down.new }
    ensures fixed { KeepsLanes down.old down.new }
{
    let polled = entity.poll(rooms_of(down), buffer)?;
    match polled {
        EntityPolled::Moved { len, file_data } => {
            send_front(down, lane_for(file_data), buffer, len);
            Ok(Polled::Moved)
        }
        EntityPolled::Nothing => Ok(Polled::Nothing),
        EntityPolled::Full => Ok(Polled::Full),
        EntityPolled::SourceFailed => Ok(Polled::SourceFailed),
    }
}

/// Lets the entity hear a PDU, which it may drop.
fn hear_one<O: Outbox, I: Inbox>(entity: &mut Entity<O, I>, pdu: &[u8])
    ensures { HearsPdu pdu.now entity.old entity.new }
{
    let _ = entity.receive(pdu);
}

/// Lets the entity hear these PDUs, in order. If it drops one, it counts that, and hears the next.
pub(crate) fn hear_all<O: Outbox, I: Inbox>(entity: &mut Entity<O, I>, pdus: &OctetStrings)
    ensures { HearsAll pdus.now entity.old entity.new }
{
    for place in 0..pdus.len() {
        hear_one(entity, pdus.get(place));
    }
}
