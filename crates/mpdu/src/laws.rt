//! Laws of streams over zones, each the contract of a function that does nothing.
ghost use Rattle.std.specs.Prelude.{◌≡◌, ℕ, ◌+◌, ◌*◌, ◌<◌, ◌≤◌, ◌↔◌, ◌⊎◌, ◌++◌, List, [], ◌∷◌};
ghost use Rattle.std.specs.Prelude.{Bool, true, false, length, drop, slice_index_or, Contains};
ghost use Rattle.mpdu.specs.Stream.{IsPacket, ArePackets, stream, zone, arrived, survivors, begun};
ghost use Rattle.mpdu.specs.Stream.{first_header_pointer};
ghost use Rattle.mpdu.specs.MpduHeader.{pointer_of, pointer_octets};
ghost use Rattle.mpdu.specs.Packets.{packets_of, begins_with_packet, busy};
ghost use Rattle.mpdu.specs.Parts.{IsPartOf, AreAmong, CompletesMore};
ghost use Rattle.mpdu.specs.Places.{IsInSpan, IsFirstStart, HasNoStart, starts};

/// A packet arrives exactly if each zone that carries a part of it does.
///
/// It is the octets from a up to b of a stream that is cut into zones of z octets.
pub fn a_packet_arrives_with_its_span()
    ensures { (z a b : ℕ) (marks : List Bool) → 0 < z → a < b →
        (arrived z 0 marks a b ≡ true) ↔
        ((f : ℕ) → IsInSpan z a b f → slice_index_or marks f false ≡ true) }
{}

/// A first header pointer is the offset in its zone at which the first packet starts.
///
/// If no packet starts in the zone, it is 2047.
pub fn a_pointer_is_the_first_start()
    ensures { (z start : ℕ) (ps : List (List ℕ)) →
        IsFirstStart z start (starts 0 ps) (first_header_pointer z start 0 ps)
        ⊎ ((first_header_pointer z start 0 ps ≡ 2047) × HasNoStart z start (starts 0 ps)) }
{}

/// A first header pointer is read as it was written, and its zone stands after it.
pub fn a_written_pointer_is_read()
    ensures { (at : ℕ) (zone : List ℕ) → at < 2048 →
        (pointer_of (pointer_octets at ++ zone) ≡ at)
        × (drop 2 (pointer_octets at ++ zone) ≡ zone) }
{}

/// Octets are the packets that they spell, end to end, and a rest that begins no packet.
pub fn octets_are_their_packets()
    ensures whole { (text : List ℕ) → ArePackets (packets_of text) }
    ensures joined { (text : List ℕ) →
        (rest : List ℕ) × (text ≡ stream (packets_of text) ++ rest)
        × (begins_with_packet rest ≡ false) }
{}

/// Packets that were laid end to end are read as the same packets.
///
/// This holds whatever stands after them, if no packet begins there.
pub fn packets_are_read_again()
    ensures before { (ps : List (List ℕ)) (rest : List ℕ) → ArePackets ps → begins_with_packet rest
        ≡ false →
        packets_of (stream ps ++ rest) ≡ ps }
    ensures alone { (ps : List (List ℕ)) → ArePackets ps → packets_of (stream ps) ≡ ps }
{}

/// If fewer zones come, only a part of the packets comes that would otherwise come.
///
/// Of a stream's packets those survive, in order, all of whose zones were delivered. If fewer zones
/// were, a part of these packets survives, and one more zone completes no packet that it would not
/// otherwise complete.
pub fn fewer_zones_give_a_part()
    ensures sent { (z : ℕ) (marks : List Bool) (ps : List (List ℕ)) →
        IsPartOf (survivors z marks 0 ps) (busy ps) }
    ensures part { (z : ℕ) (few marks : List Bool) (ps : List (List ℕ)) → AreAmong few marks →
        IsPartOf (survivors z few 0 ps) (survivors z marks 0 ps) }
    ensures next { (z : ℕ) (few marks : List Bool) (ps added : List (List ℕ)) → ArePackets ps →
        AreAmong few marks →
        survivors z (few ++ true ∷ []) 0 ps ≡ survivors z few 0 ps ++ added →
        CompletesMore z marks ps added }
{}

/// What is in a part of a list is in the whole list.
pub fn a_part_has_no_more()
    ensures { (whole part : List (List ℕ)) (x : List ℕ) → IsPartOf part whole → Contains part x →
        Contains whole x }
{}

/// A lost zone completes no packet, and nothing is kept of the packet that it cuts.
pub fn a_struck_zone_completes_nothing()
    ensures survivors { (z : ℕ) (marks : List Bool) (ps : List (List ℕ)) → 0 < z → ArePackets ps →
        survivors z (marks ++ false ∷ []) 0 ps ≡ survivors z marks 0 ps }
    ensures begun { (z : ℕ) (marks : List Bool) (ps : List (List ℕ)) → 0 < z →
        begun z (marks ++ false ∷ []) 0 ps ≡ [] }
{}

/// A packet that is sent later changes no zone that was full before.
///
/// It doesn't change either which packets the zones so far give, and what they leave of a begun
/// one.
pub fn a_later_packet_changes_nothing()
    ensures zone { (z start : ℕ) (ps : List (List ℕ)) (q : List ℕ) → start + z
        ≤ length (stream ps) →
        zone z start (stream (ps ++ q ∷ [])) ≡ zone z start (stream ps) }
    ensures pointer { (z start : ℕ) (ps : List (List ℕ)) (q : List ℕ) → start + z
        ≤ length (stream ps) →
        first_header_pointer z start 0 (ps ++ q ∷ []) ≡ first_header_pointer z start 0 ps }
    ensures survivors { (z : ℕ) (marks : List Bool) (ps : List (List ℕ)) (q : List ℕ) → IsPacket q →
        length marks * z ≤ length (stream ps) →
        survivors z marks 0 (ps ++ q ∷ []) ≡ survivors z marks 0 ps }
    ensures begun { (z : ℕ) (marks : List Bool) (ps : List (List ℕ)) (q : List ℕ) → IsPacket q →
        length marks * z ≤ length (stream ps) →
        begun z marks 0 (ps ++ q ∷ []) ≡ begun z marks 0 ps }
{}
