// Octets that are copied into borrowed room.
ghost use Rattle.std.specs.Prelude.{◌≡◌, ◌++◌, ◌≤◌, length, nat_le};
ghost use Rattle.std.specs.Bool.{OnTrue, OnFalse};
ghost use Rattle.cfdp_c.specs.Told.{over};

/// Copies octets over the front of a room, which must have as many.
fn copy_front(octets: &[u8], room: &mut [u8])
    requires { length octets.now ≤ length room.old }
    ensures { room.new ≡ over octets.now room.old }
{
    room[..octets.len()].copy_from_slice(octets);
}

/// Copies octets over the front of a room, if it has as many.
pub(crate) fn put(octets: &[u8], room: &mut [u8]) -> bool
    ensures fits { result ≡ nat_le (length octets.now) (length room.old) }
    ensures copied { OnTrue result (room.new ≡ over octets.now room.old) }
    ensures kept { OnFalse result (room.new ≡ room.old) }
{
    if room.len() < octets.len() {
        return false;
    }
    copy_front(octets, room);
    true
}

/// Copies both over the front of a room, one after the other, if it has as many.
pub(crate) fn put_both(first: &[u8], second: &[u8], room: &mut [u8]) -> bool
    ensures fits { result ≡ nat_le (length (first.now ++ second.now)) (length room.old) }
    ensures copied { OnTrue result (room.new ≡ over (first.now ++ second.now) room.old) }
    ensures kept { OnFalse result (room.new ≡ room.old) }
{
    if room.len() < first.len() || room.len() - first.len() < second.len() {
        return false;
    }
    let (front, rest) = room.split_at_mut(first.len());
    front.copy_from_slice(first);
    copy_front(second, rest);
    true
}
