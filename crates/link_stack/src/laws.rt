//! Laws of a link's stream, each the contract of a function that does nothing.
ghost use Rattle.std.specs.Prelude.{◌≡◌, ℕ, ◌+◌, ◌*◌, ◌%◌, ◌<◌, ◌≤◌, ◌⊎◌, ◌++◌, List, Bool, []};
ghost use Rattle.std.specs.Prelude.{◌∷◌, true, false, IsTrue, Option, Some, None, IfSome, length};
ghost use Rattle.std.specs.Prelude.{drop, map};
ghost use Rattle.aos_frame.specs.Counts.{counts_of, follows, frame_counts, with_cycle};
ghost use Rattle.aos_frame.specs.Frame.{IsChannel, IsLink, lane_channel};
ghost use Rattle.aos_frame.specs.declared.config.ChannelConfig.{ChannelConfig};
ghost use Rattle.aos_frame.specs.declared.config.Lane.{Lane};
ghost use Rattle.aos_frame.specs.declared.config.LinkConfig.{LinkConfig};
ghost use Rattle.space_packet.specs.Packet.{SpellsPacket};
ghost use Rattle.mpdu.specs.Stream.{IsPacket, stream, survivors, is_idle};
ghost use Rattle.link_stack.specs.Frames.{packet_drop, carrying, packet_of, frame_of};
ghost use Rattle.link_stack.specs.Downward.{DownState, first_down, both_counted_from};
ghost use Rattle.link_stack.specs.Upward.{LinkReceiverState, UpState, IsUpOf, LaneTakes, first_up};
ghost use Rattle.link_stack.specs.AnyOrder.{Arrival, AreArrivals, AreCounted, AreLeft, ComesOf};
ghost use Rattle.link_stack.specs.AnyOrder.{CountsTell, CountsTellAll, Delivery, GivesNone};
ghost use Rattle.link_stack.specs.AnyOrder.{GivesSent, IsFrameOf, IsLeft, IsLeftBy, IsStray};
ghost use Rattle.link_stack.specs.AnyOrder.{Receives, ReceivesAll, TakesAny, TakesStray, grown};
ghost use Rattle.link_stack.specs.AnyOrder.{no_last, octets_in};
ghost use Rattle.link_stack.specs.EndToEnd.{AreComing, AreInWindow, AreNear, Coming, DoesAll};
ghost use Rattle.link_stack.specs.EndToEnd.{DownCall, WerePut, coming_octets, places_of};
ghost use Rattle.link_stack.specs.Lives.{AreApart, AreComingOf, ComingOf, IsLife, Life, WerePutIn};
ghost use Rattle.link_stack.specs.Lives.{life_at, numbers_of, octets_coming};

/// A frame that is struck changes nothing at the receiving end, completes no packet, and is one
/// more missed. The frames struck in a row must be fewer than the counts that are compared.
pub fn a_struck_frame_is_missed()
    ensures end { (all : Bool) (up : LinkReceiverState) (ps : List (List ℕ)) (marks : List Bool)
        (missed : ℕ) → 0
        < up.link.zone → missed + 1 < counts_of all →
        IsUpOf all up ps marks missed → IsUpOf all up ps (marks ++ false ∷ []) (missed + 1) }
    ensures packets { (all : Bool) (up : LinkReceiverState) (ps : List (List ℕ)) (marks : List Bool)
        (missed : ℕ) → 0 < up.link.zone →
        IsUpOf all up ps marks missed → survivors up.link.zone (marks ++ false ∷ []) 0 ps
        ≡ survivors up.link.zone marks 0 ps }
{}

/// If a packet is sent later, it changes no frame that is made already, and nothing of what the
/// frames before it leave.
pub fn a_later_packet_changes_nothing()
    ensures frames { (link : ChannelConfig) (ps : List (List ℕ)) (q : List ℕ) (n : ℕ) →
        n * link.zone + link.zone ≤ length (stream ps) → frame_of link (ps ++ q ∷ []) n
        ≡ frame_of link ps n }
    ensures end { (all : Bool) (up : LinkReceiverState) (ps : List (List ℕ)) (q : List ℕ)
        (marks : List Bool) (missed : ℕ) → IsPacket q →
        ((is_idle q ≡ true) ⊎ (packet_drop up.link q ≡ None)) →
        length marks * up.link.zone ≤ length (stream ps) → IsUpOf all up ps marks missed →
        IsUpOf all up (ps ++ q ∷ []) marks missed }
    ensures packets { (link : ChannelConfig) (ps : List (List ℕ)) (q : List ℕ) (marks : List Bool) →
        IsPacket q →
        length marks * link.zone ≤ length (stream ps) → survivors link.zone marks 0 (ps ++ q ∷ [])
        ≡ survivors link.zone marks 0 ps }
{}

/// The packet of a PDU of 1 to 65,536 octets is one whole packet of a valid link, is not idle, and
/// its PDU stands after its header of 6 octets.
pub fn a_packet_carries_its_pdu()
    ensures whole { (link : ChannelConfig) (count : ℕ) (pdu : List ℕ) → IsChannel link →
        count < 16384 → 1 ≤ length pdu → length pdu ≤ 65536 →
        SpellsPacket (carrying link count pdu) (packet_of link count pdu) }
    ensures carried { (link : ChannelConfig) (count : ℕ) (pdu : List ℕ) → IsChannel link →
        count < 16384 → 1 ≤ length pdu → length pdu ≤ 65536 →
        (packet_drop link (packet_of link count pdu) ≡ None)
        × (is_idle (packet_of link count pdu) ≡ false)
        × (drop 6 (packet_of link count pdu) ≡ pdu) }
{}

/// A frame of a stream, whenever and however often it is delivered, gives only PDUs of that stream.
///
/// The frames may come in any order. Each lane must hold of a begun packet what some of the frames
/// up to the last one of a stream leave, or nothing; and if the counts say that the frame follows
/// that one, it must. Then it gives, in order, PDUs that were put into the stream, and is left so
/// by this frame. Octets from which no packet can come give nothing.
pub fn a_frame_gives_what_was_sent()
    ensures first { (link : LinkConfig) (up : UpState) → up ≡ first_up link →
        AreLeft link up no_last }
    ensures frame { (link : LinkConfig) (up new : UpState) (last : Lane → Option Delivery)
        (d : Delivery) (before after : List (List ℕ)) → IsLink link → AreLeft link up last →
        IsFrameOf (lane_channel d.lane link) d → IfSome (last d.lane) (λ b. CountsTell b d) →
        Receives d.octets up new before after → GivesSent link new last d before after }
    ensures stray { (link : LinkConfig) (up new : UpState) (last : Lane → Option Delivery)
        (octets : List ℕ) (before after : List (List ℕ)) → AreLeft link up last →
        ((lane : Lane) → IsStray (lane_channel lane link) octets) →
        Receives octets up new before after → GivesNone link new last before after }
    // The same for one lane.
    ensures lane { (up new : LinkReceiverState) (last : Option Delivery) (d : Delivery)
        (before after : List (List ℕ)) → IsChannel up.link → IsFrameOf up.link d →
        IsLeft up last → IfSome last (λ b. CountsTell b d) →
        LaneTakes d.octets up new before after → TakesAny up new d before after }
    ensures lane_stray { (up new : LinkReceiverState) (last : Option Delivery) (octets : List ℕ)
        (before after : List (List ℕ)) → IsStray up.link octets → IsLeft up last →
        LaneTakes octets up new before after → TakesStray up new last before after }
{}

/// All that ever comes up was sent, in whatever order and however often the frames come.
///
/// A receiving end takes frames of both lanes, one after another, and among them octets from which
/// no packet can come. The counts must say, of any two frames of a lane that are delivered one
/// right after the other, whether the second follows. If they do, each PDU given was put into the
/// stream of one of these frames.
pub fn what_comes_up_was_sent()
    ensures { (link : LinkConfig) (came : List Arrival) (up new : UpState)
        (before after : List (List ℕ)) → IsLink link → AreArrivals link came →
        up ≡ first_up link → CountsTellAll no_last came →
        ReceivesAll (map octets_in came) up new before after → ComesOf came before after }
{}

/// If the numbers of two frames are near each other, their counts show whether one follows the
/// other.
///
/// Of two frames, delivered one right after the other, the number of the second must be greater by
/// at most as many as there are counts, or smaller by less than that less one: 2^28 if all have the
/// usage flag of the count cycle, otherwise 2^24. Then its count follows the count of the first
/// only if it is the next frame.
pub fn near_frames_are_told()
    ensures tell { (all : Bool) (before after : Delivery) → AreCounted all before after →
        CountsTell before after }
    // Numbers in a window about the greatest one before are near.
    ensures window { (late ahead first : ℕ) (ns : List ℕ) → late + ahead ≤ frame_counts + 1 →
        late < frame_counts → 0 < late → AreInWindow late ahead first ns →
        AreNear (Some first) ns }
    // No more can be promised: the first frame beyond, on either side, is taken for the next one.
    ensures beyond { (n : ℕ) →
        IsTrue (follows (Some (with_cycle (n % frame_counts)))
        (with_cycle ((n + 1 + frame_counts) % frame_counts))) }
    ensures before { (n : ℕ) →
        IsTrue (follows (Some (with_cycle ((n + frame_counts) % frame_counts)))
        (with_cycle ((n + 1) % frame_counts))) }
{}

/// If a packet is sent later, it changes nothing of what was delivered, or is held, before.
pub fn a_later_packet_leaves_deliveries()
    ensures frame { (link : ChannelConfig) (d : Delivery) (q : List ℕ) → IsPacket q →
        IsFrameOf link d → IsFrameOf link (grown q d) }
    ensures left { (up : LinkReceiverState) (d : Delivery) (q : List ℕ) → IsPacket q →
        d.number * up.link.zone + up.link.zone ≤ length (stream d.packets) →
        IsLeftBy up d → IsLeftBy up (grown q d) }
{}

/// From end to end: each PDU that comes up was put in, in whatever order and however often the
/// frames come.
///
/// A sending end counts its frames from some number on; PDUs are put into both lanes, zones are
/// filled, and frames are made. The other end takes copies of these frames, and among them octets
/// from which no packet can come. Beside the frame taken before it in its lane, the number of each
/// frame must be greater by at most 2^28, or smaller by less than 2^28 - 1. Then all that comes up
/// are PDUs that were put in.
pub fn what_comes_up_was_put_in()
    ensures { (link : LinkConfig) (capacity first : ℕ) (calls : List DownCall)
        (start now : DownState) (came : List Coming) (up new : UpState)
        (before after : List (List ℕ)) → IsLink link → link.spacecraft < 256 →
        start ≡ both_counted_from first (first_down link capacity) → DoesAll calls start now →
        AreComing link calls came → ((lane : Lane) → AreNear None (places_of lane came)) →
        up ≡ first_up link → ReceivesAll (map (coming_octets calls) came) up new before after →
        WerePut calls before after }
{}

/// The same for a sending end that is made again and again, as its station is: all that comes up
/// was put into one of them.
///
/// The frames of each are counted from a number above the numbers of all before it, and at least
/// one number must be left out between them. Beside the frame taken before it in its lane, the
/// number of each frame, of whichever of them, must be greater by at most 2^28, or smaller by less
/// than 2^28 - 1.
pub fn what_comes_up_was_put_in_once()
    ensures { (link : LinkConfig) (capacity : ℕ) (lives : List Life) (came : List ComingOf)
        (up new : UpState) (before after : List (List ℕ)) → IsLink link → link.spacecraft < 256 →
        ((k : ℕ) → k < length lives → IsLife link capacity (life_at lives k)) → AreApart lives →
        AreComingOf link lives came → ((lane : Lane) → AreNear None (numbers_of lane lives came)) →
        up ≡ first_up link → ReceivesAll (map (octets_coming lives) came) up new before after →
        WerePutIn lives before after }
{}
