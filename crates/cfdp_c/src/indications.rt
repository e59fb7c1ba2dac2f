//! What a station indicates to its user.
ghost use Rattle.std.specs.Prelude.{◌≡◌, ◌≢◌, drop, false, length, nat_le};
ghost use Rattle.std.specs.Prelude.{slice_get};
ghost use Rattle.std.specs.Bool.{OnTrue, OnFalse};
ghost use Rattle.cfdp_c.specs.Codes as codes;
ghost use Rattle.cfdp_c.specs.Handles.{Becomes};
ghost use Rattle.cfdp_c.specs.Held.{has_folders, state_of};
ghost use Rattle.cfdp_c.specs.Told.{Tells, LetsOneGo, told_of, names_of, of_kind, over};

use crate::calls::CfdpId;
use crate::codes::{CLOSED, NO_ROOM, NOTHING, OK};
use crate::handle::CfdpStation;
use crate::held::{AnyStation, Held};
use crate::room::put_both;
use cfdp_directives::Indication;
use cfdp_header::TransactionId;
use std::alloc::Global;

/// An [`Indication`] as a plain struct. A field that its kind hasn't is 0.
#[repr(C)]
#[derive(Clone, Copy)]
pub struct CfdpIndication {
    /// The transaction that it is of.
    pub id: CfdpId,
    /// Octets of the file (kind 3), or up to which offset it was received (kind 10).
    pub size: u64,
    /// Octets of the name at the sender (kind 3).
    pub source_len: usize,
    /// Octets of the name at the receiver (kind 3).
    pub destination_len: usize,
    /// 1 Transaction, 2 EofSent, 3 MetadataRecv, 4 EofRecv, 5 Finished, 6 Suspended, 7 Resumed,
    /// 8 Fault, 9 Abandoned, 10 Progress.
    pub kind: u8,
    /// The condition code (kinds 5, 6, 8 and 9).
    pub condition: u8,
    /// 0 complete, 1 incomplete (kind 5).
    pub delivery: u8,
    /// 0 discarded, 1 rejected, 2 retained, 3 not reported (kind 5).
    pub status: u8,
}

impl CfdpIndication {
    fn of_kind(kind: u8, id: TransactionId) -> CfdpIndication
        ensures { result ≡ of_kind kind id }
    {
        CfdpIndication {
            id: CfdpId {
                source: id.source,
                number: id.number,
            },
            size: 0,
            source_len: 0,
            destination_len: 0,
            kind,
            condition: 0,
            delivery: 0,
            status: 0,
        }
    }

    fn of_condition(kind: u8, id: TransactionId, condition: u8) -> CfdpIndication
        ensures { result ≡ record (of_kind kind id) { condition = condition } }
    {
        CfdpIndication {
            condition,
            ..CfdpIndication::of_kind(kind, id)
        }
    }

    pub(crate) fn of(told: &Indication) -> CfdpIndication
        ensures { result ≡ told_of told.now }
    {
        match told {
            Indication::Transaction(id) => CfdpIndication::of_kind(1, *id),
            Indication::EofSent(id) => CfdpIndication::of_kind(2, *id),
            Indication::MetadataRecv {
                id,
                source,
                destination,
                size,
            } => CfdpIndication {
                size: *size,
                source_len: source.as_slice().len(),
                destination_len: destination.as_slice().len(),
                ..CfdpIndication::of_kind(3, *id)
            },
            Indication::EofRecv(id) => CfdpIndication::of_kind(4, *id),
            Indication::Finished {
                id,
                condition,
                delivery,
                status,
            } => CfdpIndication {
                condition: condition.code(),
                delivery: delivery.code(),
                status: status.code(),
                ..CfdpIndication::of_kind(5, *id)
            },
            Indication::Suspended(id, condition) => {
                CfdpIndication::of_condition(6, *id, condition.code())
            }
            Indication::Resumed(id) => CfdpIndication::of_kind(7, *id),
            Indication::Fault(id, condition) => {
                CfdpIndication::of_condition(8, *id, condition.code())
            }
            Indication::Abandoned(id, condition) => {
                CfdpIndication::of_condition(9, *id, condition.code())
            }
            Indication::Progress(id, octets) => CfdpIndication {
                size: *octets,
                ..CfdpIndication::of_kind(10, *id)
            },
        }
    }
}

/// Copies the names of an indication into borrowed room, if it has as many octets.
fn copy_names(told: &Indication, room: &mut [u8]) -> bool
    ensures fits { result ≡ nat_le (length (names_of told.now)) (length room.old) }
    ensures copied { OnTrue result (room.new ≡ over (names_of told.now) room.old) }
    ensures kept { OnFalse result (room.new ≡ room.old) }
{
    match told {
        Indication::MetadataRecv {
            source,
            destination,
            ..
        } => put_both(source.as_slice(), destination.as_slice(), room),
        _ => true,
    }
}

impl Held {
    fn indications(&self) -> &[Indication]
        ensures { result.now ≡ drop (state_of self.now.station).entity.state.table.gone
            (state_of self.now.station).entity.state.table.told }
    {
        match &self.station {
            AnyStation::Memory(station) => station.indications(),
            AnyStation::Folders(station) => station.indications(),
        }
    }

    fn let_one_go(&mut self)
        ensures goes { LetsOneGo (state_of self.old.station) (state_of self.new.station) }
        ensures place { has_folders self.new.station ≡ has_folders self.old.station }
    {
        match &mut self.station {
            AnyStation::Memory(station) => station.forget_indications(1),
            AnyStation::Folders(station) => station.forget_indications(1),
        }
    }

    fn next_indication(&mut self, out: &mut CfdpIndication, names: &mut [u8]) -> u32
        ensures tells { Tells (slice_get (state_of self.old.station).entity.state.table.told
            (state_of self.old.station).entity.state.table.gone) result out.old out.new
            names.old names.new }
        ensures moves { result ≡ codes.ok
            → LetsOneGo (state_of self.old.station) (state_of self.new.station) }
        ensures rests { result ≢ codes.ok → self.new ≡ self.old }
        ensures kept { result ≢ codes.ok → (out.new ≡ out.old) × (names.new ≡ names.old) }
        ensures place { has_folders self.new.station ≡ has_folders self.old.station }
    {
        self.notes_news();
        let Some(told) = self.indications().first() else {
            return NOTHING;
        };
        if !copy_names(told, names) {
            return NO_ROOM;
        }
        *out = CfdpIndication::of(told);
        self.let_one_go();
        OK
    }
}

/// Writes the next indication, and copies its names, the name at the sender first, into borrowed
/// room of 510 octets or less; the station drops it then. Returns 0, `CLOSED`, `NOTHING` if none is
/// left, or `NO_ROOM` if the names don't fit: then it stays the next.
#[unsafe(no_mangle)]
pub extern "C" fn cfdp_next_indication(
    alloc: Global,
    station: &mut CfdpStation,
    out: &mut CfdpIndication,
    names: &mut [u8],
) -> u32
    ensures open { station.new.is_open ≡ station.old.is_open }
    ensures closed { station.old.is_open ≡ false → result ≡ codes.closed }
    ensures kept { result ≢ codes.ok → (out.new ≡ out.old) × (names.new ≡ names.old) }
    ensures tells { Becomes station.old station.new (λ x y.
        Tells (slice_get (state_of x.station).entity.state.table.told
        (state_of x.station).entity.state.table.gone)
        result out.old out.new names.old names.new) }
    ensures moves { Becomes station.old station.new (λ x y.
        (result ≡ codes.ok → LetsOneGo (state_of x.station) (state_of y.station))
        × (result ≢ codes.ok → y ≡ x)) }
{
    let Some(mut held) = station.lift(alloc) else {
        return CLOSED;
    };
    let answer = held.next_indication(out, names);
    *station = CfdpStation::holding(held);
    answer
}
