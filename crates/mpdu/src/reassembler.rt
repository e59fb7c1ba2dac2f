//! Packets out of zones.
ghost use Rattle.std.specs.Prelude.{◌≡◌, ◌≢◌, ℕ, ◌+◌, ◌-◌, ◌<◌, ◌≤◌, ◌==◌, ◌&&◌, ◌++◌, List, Bool};
ghost use Rattle.std.specs.Prelude.{[], ◌∷◌, false, true, not, length, take, drop, IfOk, OnOk};
ghost use Rattle.std.specs.Prelude.{OnErr, vec_capacity};
ghost use Rattle.mpdu.specs.Stream.{keep, is_idle, header_ok, header_len};
ghost use Rattle.mpdu.specs.Reading.{scan, step, reading, to_read, goes_on, turns_bad};
ghost use Rattle.mpdu.specs.Reading.{pointer_after, held_at, is_some, resync, bad_count};
ghost use Rattle.mpdu.specs.Joining.{IsBegun, Heads, IsSplit};
ghost use Rattle.mpdu.specs.Feeding.{IsNext, IsTaken, IsFrontTaken};

use crate::header::{has_good_version, has_idle_apid, packet_len};
use crate::{NO_START, ONLY_IDLE};
use octet_strings::OctetStrings;
use space_packet::header::HEADER_LEN;
use std::alloc::{AllocError, Global};
use std::marker::Model;

/// Octets of the longest packet.
const MAX_PACKET: usize = 65_542;

/// What was out of order in a zone: a packet that was cut off, or invalid headers.
#[derive(Clone, Copy, Debug, PartialEq, Eq)]
pub struct Notes {
    /// Whether a begun packet was discarded, or the first header pointer lies outside the zone.
    ///
    /// False at the pointer [`ONLY_IDLE`](crate::ONLY_IDLE), and if the begun packet is one of the
    /// bad ones.
    pub resync: bool,
    /// How many packet headers had another version than `000`: 0 to 2.
    pub bad: u8,
}

/// How the begun packet stands at a zone.
#[derive(Clone, Copy)]
struct Joined {
    goes_on: bool,
    bad: bool,
    // true if it ends in the zone
    whole: bool,
    // where in the zone the packets after it are read
    from: usize,
}

/// How far the whole packets reach, and whether a bad header ended them.
#[derive(Clone, Copy)]
struct Front {
    end: usize,
    bad: bool,
}

/// Appends a packet that isn't idle.
fn emit(packet: &[u8], out: &mut OctetStrings) -> Result<(), AllocError>
    requires { 6 ≤ length packet.now }
    ensures ok { OnOk result (out.new ≡ out.old ++ keep (not (is_idle packet.now)) packet.now []) }
    ensures err { OnErr result (out.new ≡ out.old) }
    ensures hands { OnErr result (is_idle packet.now ≡ false) }
{
    if has_idle_apid(packet) {
        return Ok(());
    }
    out.push(packet)
}

/// Takes the whole packets off the front, and returns where the begun one starts.
fn cut(bytes: &[u8], out: &mut OctetStrings) -> Result<Front, AllocError>
    ensures end { IfOk result (λ c. c.end ≤ length bytes.now) }
    ensures held { IfOk result (λ c. drop c.end bytes.now
        ≡ (scan (length bytes.now) bytes.now).begun) }
    ensures bad { IfOk result (λ c. c.bad ≡ (scan (length bytes.now) bytes.now).bad) }
    ensures ok { OnOk result (out.new ≡ out.old ++ (scan (length bytes.now) bytes.now).out) }
    ensures err { OnErr result ((n : ℕ)
        × (out.new ≡ out.old ++ take n (scan (length bytes.now) bytes.now).out)) }
    ensures hands { OnErr result (1 ≤ length (scan (length bytes.now) bytes.now).out) }
{
    let mut rest = bytes;
    while rest.len() >= HEADER_LEN {
        if !has_good_version(rest) {
            return Ok(Front {
                end: bytes.len(),
                bad: true,
            });
        }
        let len = packet_len(rest);
        if rest.len() < len {
            return Ok(Front {
                end: bytes.len() - rest.len(),
                bad: false,
            });
        }
        let (packet, behind) = rest.split_at(len);
        emit(packet, out)?;
        rest = behind;
    }
    Ok(Front {
        end: bytes.len() - rest.len(),
        bad: false,
    })
}

/// Appends octets. There must be room for them.
fn append(held: &mut Vec<u8>, octets: &[u8])
    requires { length held.old.items + length octets.now ≤ vec_capacity held.old }
    ensures items { held.new.items ≡ held.old.items ++ octets.now }
    ensures capacity { vec_capacity held.old ≤ vec_capacity held.new }
{
    if !octets.is_empty() {
        let _ = held.extend_from_slice(octets);
    }
}

/// Returns `true` if the packet whose header these octets begin with goes on in a zone of `zone`
/// octets, if `held` octets of it are held.
fn fits(header: &[u8], held: usize, pointer: usize, zone: usize) -> bool
    requires { 6 ≤ length header.now }
    ensures { result ≡ (header_ok header.now
        && (pointer == pointer_after zone (header_len header.now - held))) }
{
    let wants = packet_len(header).saturating_sub(held);
    has_good_version(header) && pointer == if wants < zone { wants } else { 2047 }
}

/// Appends what a zone has of the begun packet if that goes on there; otherwise discards it.
fn join(held: &mut Vec<u8>, pointer: usize, zone: &[u8]) -> Joined
    requires zone { 6 ≤ length zone.now }
    requires begun { IsBegun held.old.items }
    requires room { 65542 ≤ vec_capacity held.old }
    ensures goes_on { result.goes_on
        ≡ goes_on (length zone.now) held.old.items pointer zone.now }
    ensures bad { result.bad ≡ turns_bad held.old.items zone.now }
    ensures within { result.from ≤ length zone.now }
    ensures read { held.new.items ++ drop result.from zone.now
        ≡ to_read (length zone.now) held.old.items pointer zone.now }
    ensures heads { Heads held.new.items (drop result.from zone.now) }
    ensures whole { result.whole ≡ true → (6 ≤ length held.new.items)
        × (header_len held.new.items ≡ length held.new.items) }
    ensures other { result.whole ≡ false → 6 ≤ length held.new.items → header_len held.new.items
        ≢ length held.new.items }
    ensures capacity { vec_capacity held.old ≤ vec_capacity held.new }
{
    let start = pointer.min(zone.len());
    if held.is_empty() {
        return Joined {
            goes_on: false,
            bad: false,
            whole: false,
            from: start,
        };
    }
    let before = held.len();
    let header = HEADER_LEN.saturating_sub(before);
    append(held, &zone[..header]);
    if !fits(held, before, pointer, zone.len()) {
        let bad = !has_good_version(held);
        held.clear();
        return Joined {
            goes_on: false,
            bad,
            whole: false,
            from: start,
        };
    }
    let wants = packet_len(held) - before;
    let end = wants.min(zone.len());
    append(held, &zone[header..end]);
    Joined {
        goes_on: true,
        bad: false,
        whole: wants <= zone.len(),
        from: end,
    }
}

/// Hands out the packet that is held, if it is whole.
fn finish(held: &mut Vec<u8>, whole: bool, out: &mut OctetStrings) -> Result<(), AllocError>
    requires whole { whole ≡ true → (6 ≤ length held.old.items)
        × (header_len held.old.items ≡ length held.old.items) }
    requires other { whole ≡ false → 6 ≤ length held.old.items → header_len held.old.items
        ≢ length held.old.items }
    ensures ok { (rest : List ℕ) → Heads held.old.items rest →
        OnOk result (IsSplit (held.old.items ++ rest) rest held.new.items out.old out.new) }
    ensures err { OnErr result (out.new ≡ out.old) }
    ensures hands { OnErr result ((whole ≡ true) × (is_idle held.old.items ≡ false)) }
    ensures capacity { vec_capacity held.old ≤ vec_capacity held.new }
{
    if whole {
        emit(held, out)?;
        held.clear();
    }
    Ok(())
}

/// Returns `true` if the begun packet takes all of a zone of `zone` octets, and more.
fn goes_past(held: &[u8], pointer: usize, zone: usize) -> bool
    ensures long { result ≡ true → 6 ≤ length held.now }
    ensures version { result ≡ true → header_ok held.now ≡ true }
    ensures none { result ≡ true → pointer ≡ 2047 }
    ensures more { result ≡ true → length held.now + zone < header_len held.now }
    ensures not_past { result ≡ false → pointer ≡ 2047 → 6 ≤ length held.now → header_ok held.now
        ≡ true → header_len held.now ≤ length held.now + zone }
{
    pointer == 2047
        && held.len() >= HEADER_LEN
        && has_good_version(held)
        && zone < packet_len(held).saturating_sub(held.len())
}

/// Takes the whole packets off what is read of a zone after what is held, and returns whether a bad
/// header ended them.
fn read_behind(
    held: &mut Vec<u8>,
    pointer: usize,
    zone: &[u8],
    out: &mut OctetStrings,
) -> Result<(Joined, bool), AllocError>
    requires zone { 6 ≤ length zone.now }
    requires begun { IsBegun held.old.items }
    requires room { 65542 ≤ vec_capacity held.old }
    ensures goes_on { IfOk result (λ r. r.0.goes_on
        ≡ goes_on (length zone.now) held.old.items pointer zone.now) }
    ensures turns_bad { IfOk result (λ r. r.0.bad ≡ turns_bad held.old.items zone.now) }
    ensures held { OnOk result (held.new.items
        ≡ (step (length zone.now) held.old.items pointer zone.now).begun) }
    ensures bad { IfOk result (λ r. r.1
        ≡ (step (length zone.now) held.old.items pointer zone.now).bad) }
    ensures ok { OnOk result (out.new ≡ out.old
        ++ (step (length zone.now) held.old.items pointer zone.now).out) }
    ensures err { OnErr result ((n : ℕ)
        × (out.new ≡ out.old
        ++ take n (step (length zone.now) held.old.items pointer zone.now).out)) }
    ensures hands { OnErr result
        (1 ≤ length (step (length zone.now) held.old.items pointer zone.now).out) }
    ensures begun { OnOk result (IsBegun held.new.items) }
    ensures capacity { vec_capacity held.old ≤ vec_capacity held.new }
{
    // Most zones of a long packet are such, and there is no more to read in them.
    if goes_past(held, pointer, zone.len()) {
        append(held, zone);
        let joined = Joined {
            goes_on: true,
            bad: false,
            whole: false,
            from: zone.len(),
        };
        return Ok((joined, false));
    }
    let joined = join(held, pointer, zone);
    finish(held, joined.whole, out)?;
    let rest = &zone[joined.from..];
    let front = cut(rest, out)?;
    append(held, &rest[front.end..]);
    Ok((joined, front.bad))
}

/// Puts packets together again from the zones of one virtual channel, in the order sent.
///
/// Its value is what it holds of the begun packet, which the last zone's end cut. That lies in one
/// buffer, made with it, in which the longest packet has room. So only a packet that is handed out
/// takes memory.
#[derive(Debug, Drop)]
pub struct Reassembler {
    begun: Vec<u8>,
}

impl Model for Reassembler {
    ghost use Rattle.std.specs.Prelude.{ℕ, ◌≤◌, List, vec_capacity};
    ghost use Rattle.mpdu.specs.Joining.{IsBegun};

    ghost Value = { List ℕ };

    ghost view = { λ s. s.begun.items };

    ghost invariant = { λ s. IsBegun s.begun.items × (65542 ≤ vec_capacity s.begun) };
}

impl Reassembler {
    /// Returns a reassembler that has seen no zone yet.
    ///
    /// `AllocError` comes only if its buffer was refused.
    pub fn new(alloc: Global) -> Result<Self, AllocError>
        ensures { IfOk result (λ r. r ≡ []) }
    {
        Ok(Reassembler {
            begun: Vec::with_capacity(alloc, MAX_PACKET)?,
        })
    }

    /// Discards the packet that is only begun, if there is one. It takes no memory.
    pub fn let_go(&mut self)
        ensures { self.new ≡ [] }
    {
        self.begun.clear();
    }

    /// Reads one zone; if memory runs out, nothing is held then.
    fn read_zone(
        &mut self,
        pointer: u16,
        zone: &[u8],
        follows: bool,
        out: &mut OctetStrings,
    ) -> Result<Notes, AllocError>
        requires { 6 ≤ length zone.now }
        ensures held { OnOk result (self.new ≡ (reading self.old follows pointer zone.now).begun) }
        ensures ok { OnOk result (out.new ≡ out.old
            ++ (reading self.old follows pointer zone.now).out) }
        ensures resync { IfOk result (λ n. n.resync
            ≡ resync (length zone.now) self.old follows pointer zone.now) }
        ensures bad { IfOk result (λ n. n.bad
            ≡ bad_count (length zone.now) (held_at follows self.old) pointer zone.now) }
        ensures err { OnErr result ((n : ℕ)
            × (out.new ≡ out.old ++ take n (reading self.old follows pointer zone.now).out)) }
        ensures hands { OnErr result
            (1 ≤ length (reading self.old follows pointer zone.now).out) }
        ensures err_held { OnErr result (self.new ≡ []) }
    {
        let had = !self.begun.is_empty();
        if !follows {
            self.begun.clear();
        }
        let usable = usize::from(pointer) < zone.len() || pointer == NO_START;
        match read_behind(&mut self.begun, usize::from(pointer), zone, out) {
            Ok((joined, bad)) => Ok(Notes {
                resync: pointer != ONLY_IDLE
                    && (!usable || (had && !joined.goes_on && !joined.bad)),
                bad: u8::from(usable && joined.bad) + u8::from(bad),
            }),
            Err(error) => {
                self.begun.clear();
                Err(error)
            }
        }
    }

    /// Reads one zone, appends the packets that it completes, and returns what was out of order.
    ///
    /// The zone must have 16 to 2,040 octets, and `pointer` must be its first header pointer.
    /// `follows` must be false if a frame since the last one fed was lost: the begun packet is
    /// discarded then. A begun packet goes on from the zone's start if the pointer fits its length;
    /// otherwise it is discarded, and reading starts at the pointer. Idle packets are passed over.
    /// After a header with another version than `000` the rest of the zone is discarded, except if
    /// it is the begun packet's: then reading goes on at the pointer.
    ///
    /// `AllocError` comes only if a growth was refused at a zone that completes a packet. Then a
    /// front of the packets that would have come was appended, the begun packet and the rest of the
    /// zone are discarded, and the next zone is read from its pointer.
    pub fn feed(
        &mut self,
        pointer: u16,
        zone: &[u8],
        follows: bool,
        out: &mut OctetStrings,
    ) -> Result<Notes, AllocError>
        requires least { 16 ≤ length zone.now }
        requires most { length zone.now ≤ 2040 }

        // If it is as the zones of a stream so far left it, it is then as this one leaves it too,
        // and the survivors that this one completes were appended.
        ensures stream { (ps : List (List ℕ)) (marks : List Bool) →
            IsNext ps marks (held_at follows self.old) pointer zone.now →
            OnOk result (IsTaken ps marks (length zone.now) self.new out.old out.new) }

        // Of a stream no packet is bad, and none is discarded except by a lost zone.
        ensures in_order { (ps : List (List ℕ)) (marks : List Bool) →
            IsNext ps marks (held_at follows self.old) pointer zone.now →
            IfOk result (λ n. (n.resync ≡ (not follows && is_some self.old)) × (n.bad ≡ 0)) }

        // If memory runs out, a front of them was appended, and nothing is held.
        ensures cut_short { (ps : List (List ℕ)) (marks : List Bool) →
            IsNext ps marks (held_at follows self.old) pointer zone.now →
            OnErr result (IsFrontTaken ps marks (length zone.now) out.old out.new) }
        ensures err { OnErr result (self.new ≡ []) }

        // What any zone gives, whatever it is.
        ensures begun { OnOk result (self.new ≡ (reading self.old follows pointer zone.now).begun) }
        ensures appended { OnOk result (out.new ≡ out.old
            ++ (reading self.old follows pointer zone.now).out) }
        ensures front { OnErr result ((n : ℕ)
            × (out.new ≡ out.old ++ take n (reading self.old follows pointer zone.now).out)) }
        // Only a packet that is handed out takes memory.
        ensures hands { OnErr result
            (1 ≤ length (reading self.old follows pointer zone.now).out) }
        ensures resync { IfOk result (λ n. n.resync
            ≡ resync (length zone.now) self.old follows pointer zone.now) }
        ensures bad { IfOk result (λ n. n.bad
            ≡ bad_count (length zone.now) (held_at follows self.old) pointer zone.now) }
    {
        self.read_zone(pointer, zone, follows, out)
    }
}
