//! Numbers in either order of octets.
ghost use Rattle.std.specs.Prelude.{◌≡◌, ◌+◌, ◌<◌, ◌≤◌, length};
ghost use Rattle.captures.specs.Numbers as numbers;

/// The order of the octets of a number.
#[derive(Clone, Copy, Debug, PartialEq, Eq)]
pub enum ByteOrder {
    /// The most significant one first.
    BigEndian,
    /// The least significant one first.
    LittleEndian,
}

/// Returns the number in the four octets from octet `at` on, which must be there.
#[tactic(auto, unfolding(crate::specs::Numbers::number))]
pub(crate) fn number(order: ByteOrder, text: &[u8], at: usize) -> u32
    requires there { at + 4 ≤ length text.now }
    ensures { result ≡ numbers.number order text.now at }
{
    let four = [text[at], text[at + 1], text[at + 2], text[at + 3]];
    match order {
        ByteOrder::BigEndian => u32::from_be_bytes(four),
        ByteOrder::LittleEndian => u32::from_le_bytes(four),
    }
}

/// Returns the number in the two octets from octet `at` on, which must be there.
#[tactic(auto, unfolding(crate::specs::Numbers::short))]
pub(crate) fn short(order: ByteOrder, text: &[u8], at: usize) -> u16
    requires there { at + 2 ≤ length text.now }
    ensures { result ≡ numbers.short order text.now at }
{
    let two = [text[at], text[at + 1]];
    match order {
        ByteOrder::BigEndian => u16::from_be_bytes(two),
        ByteOrder::LittleEndian => u16::from_le_bytes(two),
    }
}
