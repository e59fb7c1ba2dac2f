//! Laws of packets and their spellings, each the contract of a function that does nothing.
ghost use Rattle.std.specs.Prelude.{◌≡◌, ℕ, ◌<◌, ◌++◌, List, slice_index};
ghost use Rattle.space_packet.specs.Packet.{Parts, SpellsPacket, IsWritable, packet_octets};

/// What is written spells the packet, so `decode` answers it.
pub fn written_packet_is_read()
    ensures { (p : Parts) → IsWritable p → SpellsPacket p (packet_octets p) }
{}

/// No spelling of a packet begins another, and octets spell at most one packet.
pub fn no_packet_begins_another()
    ensures { (p q : Parts) (a b x y : List ℕ) → SpellsPacket p a → SpellsPacket q b → a ++ x ≡ b
        ++ y → (p ≡ q) × (a ≡ b) × (x ≡ y) }
{}

/// A packet has no spelling but the written one, since no bit of it is spare.
pub fn a_packet_has_one_spelling()
    ensures { (p : Parts) (text : List ℕ) → ((i : ℕ) → slice_index text i < 256) →
        SpellsPacket p text → IsWritable p × (text ≡ packet_octets p) }
{}
