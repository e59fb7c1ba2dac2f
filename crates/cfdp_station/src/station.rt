//! An entity over both directions of a link.
ghost use Rattle.std.specs.Prelude.{◌≡◌, ℕ, ◌+◌, ◌*◌, ◌<◌, ◌≤◌, ◌↔◌, Bool, List, [], true, false};
ghost use Rattle.std.specs.Prelude.{drop, length, max, get_or, is_ok, is_some, IfOk, IfErr};
ghost use Rattle.std.specs.Prelude.{MatchOption, None, IfSome, OnOk, OnErr};
ghost use Rattle.std.specs.FinMap as map;
ghost use Rattle.mpdu.specs.Stream.{ArePackets};
ghost use Rattle.aos_frame.specs.Frame.{frame_len, lane_channel, other_lane};
ghost use Rattle.link_stack.specs.Downward.{Flushes, IsDown, KeepsLanes, MakesFrame};
ghost use Rattle.link_stack.specs.Downward.{both_controlled, both_counted_from, first_down};
ghost use Rattle.link_stack.specs.Downward.{frame_lane, idle_zones};
ghost use Rattle.link_stack.specs.Downward.{lane_down};
ghost use Rattle.link_stack.specs.Drops as of_link;
ghost use Rattle.link_stack.specs.Frames.{AreOfLink};
ghost use Rattle.link_stack.specs.Upward.{IsUpOf, drop_count, first_up, lane_up};
ghost use Rattle.cfdp_timers.specs.Due.{due_count};
ghost use Rattle.cfdp_timers.specs.ButInactivity.{OnlyInactivity, IsLeastOther};
ghost use Rattle.cfdp_store.specs.Chains.{Raises};
ghost use Rattle.cfdp_store.specs.Stores.{failures_after};
ghost use Rattle.cfdp_entity.specs.Adding.{AddsFile, RefusesToAdd};
ghost use Rattle.cfdp_entity.specs.Entity.{entity_lent, entity_standing, first_entity, with_table};
ghost use Rattle.cfdp_entity.specs.Entity.{phase_told};
ghost use Rattle.cfdp_entity.specs.Errors.{drop_number};
ghost use Rattle.cfdp_entity.specs.Gives.{CountsOutbox};
ghost use Rattle.cfdp_entity.specs.Looking.{LooksUp};
ghost use Rattle.cfdp_entity.specs.Polling.{TakesTurn, turn};
ghost use Rattle.cfdp_entity.specs.Putting.{Accepts, put_refusal, IsPutRefusal, stored_by_error};
ghost use Rattle.cfdp_entity.specs.Putting.{was_answered};
ghost use Rattle.cfdp_entity.specs.Sound.{SpellsTurn, longest_pdu};
ghost use Rattle.cfdp_entity.specs.Storing.{AsksToTick};
ghost use Rattle.cfdp_entity.specs.Table.{Ticks};
ghost use Rattle.cfdp_entity.specs.declared.request.Request.TheVariants as requests;
ghost use Rattle.cfdp_station.specs.declared.polled.Polled.TheVariants as answers;
ghost use Rattle.cfdp_station.specs.Link.{FlushesBoth, WaitAtMost, HoldsAtMost};
ghost use Rattle.cfdp_station.specs.Polling.{Polls, Shows, next_len, next_room, stored_by_poll};
ghost use Rattle.cfdp_station.specs.Requests.{StationAnswers};
ghost use Rattle.cfdp_station.specs.Station.{KeepsLink, KeepsRest, station_lent};
ghost use Rattle.cfdp_station.specs.Taking.{TakesFrame};

use crate::config::StationConfig;
use crate::moving::{hear_all, move_one};
use crate::polled::Polled;
use cfdp_directives::{Indication, Phase};
use cfdp_entity::{AddError, Entity, EntityDrop, PutError, Request, RequestError};
use cfdp_header::TransactionId;
use cfdp_store::{Inbox, MemoryOutbox, Outbox, SeekingOutbox, StoreError};
use link_stack::{Down, Lane, LinkDrop, Up};
use octet_strings::OctetStrings;
use std::alloc::{AllocError, Global};
use std::marker::Model;
use valid_config::Valid;

/// An entity of CFDP, class 2, with both its stores and both directions of its link.
///
/// The calls of the user, and `tick`, are the calls of its [`Entity`]. A [`poll`](Self::poll) moves
/// one PDU down, into a packet of its own, on the lane of its type;
/// [`next_frame`](Self::next_frame) gives the frames that are whole, those of directives first, and
/// a [`flush`](Self::flush) makes the begun one of each lane whole: [`transmit`](Self::transmit)
/// does all three for one frame. [`receive`](Self::receive) takes a frame of the peer, of either
/// lane.
///
/// Each PDU is written once, into a buffer made with the station. So `flush`, `frames_ahead` and
/// `next_frame` take no memory, and `poll` none but what the entity's indications need.
#[derive(Drop)]
pub struct Station<O: Outbox, I: Inbox> {
    pub(crate) entity: Entity<O, I>,
    pub(crate) down: Down,
    up: Up,
    // room for one PDU of a lane's capacity
    buffer: Vec<u8>,
    // The PDUs that a frame gives, while they are heard: kept for its room.
    given: OctetStrings,
}

impl<O: Outbox, I: Inbox> Model for Station<O, I> {
    ghost use Rattle.std.specs.Prelude.{◌≡◌, length};
    ghost use Rattle.cfdp_entity.specs.Coded.{state_codes};
    ghost use Rattle.cfdp_station.specs.Station.{StationState};

    ghost Value = { StationState };

    ghost coded = { Prim.hlevel (state_codes) };

    ghost view = { λ s. record { entity = s.entity; down = s.down; up = s.up } };

    ghost invariant = { λ s. (length s.buffer.items ≡ s.down.directives.capacity)
        × (s.down.file_data.capacity ≡ s.down.directives.capacity) };
}

impl<O: Outbox, I: Inbox> Station<O, I> {
    /// Returns a station without transactions, over its two stores, that sent and took no frame.
    ///
    /// # Errors
    ///
    /// `AllocError` only if the memory for the entity, or for a buffer, was refused.
    pub fn new(
        alloc: Global,
        config: Valid<StationConfig>,
        outbox: O,
        inbox: I,
    ) -> Result<Self, AllocError>
        ensures entity { IfOk result (λ s. s.entity.state ≡ entity_standing (O.stands outbox)
            (first_entity (O.files outbox) (I.published inbox) config.entity)) }
        ensures inbox { IfOk result (λ s. s.entity.inbox_failures ≡ I.failures inbox) }
        ensures outbox { IfOk result (λ s. s.entity.outbox_failures ≡ O.failures outbox) }
        ensures down { IfOk result (λ s. s.down
            ≡ first_down config.sends config.capacity) }
        ensures up { IfOk result (λ s. s.up ≡ first_up config.receives) }
        // The stream of each lane is empty, and it is as no frame of a stream leaves it.
        ensures sent { (lane : Lane) → IfOk result (λ s. IsDown (lane_down lane s.down) [] 0) }
        ensures taken { (lane : Lane) (all : Bool) (ps : List (List ℕ)) → ArePackets ps →
            AreOfLink (lane_channel lane config.receives) ps →
            IfOk result (λ s. IsUpOf all (lane_up lane s.up) ps [] 0) }
    {
        let config = config.get();
        let down = Down::new(alloc, Valid::known(config.sends), config.capacity)?;
        let up = Up::new(alloc, Valid::known(config.receives))?;
        let buffer = vec![in alloc; 0u8; config.capacity]?;
        // Last, so that no error drops an entity.
        let entity = Entity::new(alloc, Valid::known(config.entity), outbox, inbox)?;
        Ok(Station {
            entity,
            down,
            up,
            buffer,
            given: OctetStrings::new(alloc),
        })
    }

    /// Counts the frames of both lanes from this number on, modulo 2^28, as if so many had left
    /// (CCSDS 732.0-B-4, 4.1.2.4).
    ///
    /// It must be called before the first frame, if at all: if a station is restarted after another
    /// one sent, the peer still knows that one's last counts. Counted from 0 again, its first frame
    /// may be taken for the next one of those. Counted from a number far from them, such as one
    /// drawn by chance, it shows the peer that frames are missing, and the peer discards what it
    /// had begun.
    pub fn count_frames_from(&mut self, count: u32)
        ensures from { self.new.down ≡ both_counted_from count self.old.down }
        // A lane that sent nothing is then as one that made so many frames, each filled by an idle
        // packet.
        ensures stream { (lane : Lane) → IsDown (lane_down lane self.old.down) [] 0 →
            IsDown (lane_down lane self.new.down)
            (idle_zones (lane_down lane self.old.down).link.zone count) count }
        ensures rest { KeepsRest self.old self.new }
    {
        self.down.count_from(count);
    }

    /// Puts this into the operational control field of the frames that leave from now on, of both
    /// lanes (CCSDS 732.0-B-4, 4.1.5), if the link has one; at first it is 0.
    pub fn set_control_field(&mut self, control: u32)
        ensures set { self.new.down ≡ both_controlled control self.old.down }
        ensures rest { KeepsRest self.old self.new }
    {
        self.down.set_control_field(control);
    }

    /// Returns the operational control field of the last frame of a lane that came from the peer
    /// and was one of its channel; `None` if none came, or the link has no such field.
    pub fn control_field(&self, lane: Lane) -> Option<u32>
        ensures { result ≡ (lane_up lane self.now.up).control }
    {
        self.up.control_field(lane)
    }

    /// Sends a file of the outbox, to be published by the peer under the second name; both have 1
    /// to 255 octets. Returns the transaction.
    ///
    /// # Errors
    ///
    /// The first cause that holds, if one does, in the order of [`PutError`]. A refused put uses no
    /// number, and changes nothing except the outbox's failures.
    pub fn put(&mut self, source: &[u8], destination: &[u8]) -> Result<TransactionId, PutError>
        ensures accepted { IfOk result (λ id. Accepts source.now destination.now id
            self.old.entity.state self.new.entity.state) }
        ensures refused { IfErr result (λ by. IsPutRefusal (put_refusal (stored_by_error by)
            source.now destination.now self.old.entity.state) by) }
        ensures err { OnErr result (self.new.entity.state ≡ self.old.entity.state) }
        ensures inbox { self.new.entity.inbox_failures ≡ self.old.entity.inbox_failures }
        ensures outbox { self.new.entity.outbox_failures
            ≡ failures_after self.old.entity.outbox_failures (was_answered result) }
        ensures link { KeepsLink self.old self.new }
    {
        self.entity.put(source, destination)
    }

    /// Does what is asked of a transaction: what [`cancel`](Self::cancel),
    /// [`suspend`](Self::suspend), [`resume`](Self::resume) or [`prompt`](Self::prompt) does.
    ///
    /// # Errors
    ///
    /// The first cause that holds, if one does, in the order of [`RequestError`]; nothing changed
    /// then.
    pub fn request(&mut self, id: TransactionId, request: Request) -> Result<(), RequestError>
        ensures { StationAnswers request id result self.old self.new }
    {
        self.entity.request(id, request)
    }

    /// Gives a transaction up, and says so to the peer.
    ///
    /// # Errors
    ///
    /// The first cause that holds, if one does, in the order of [`RequestError`]; nothing changed
    /// then.
    pub fn cancel(&mut self, id: TransactionId) -> Result<(), RequestError>
        ensures { StationAnswers requests.Cancel id result self.old self.new }
    {
        self.request(id, Request::Cancel)
    }

    /// Sends nothing of a transaction, and lets no time run for it.
    ///
    /// # Errors
    ///
    /// The first cause that holds, if one does, in the order of [`RequestError`]; nothing changed
    /// then.
    pub fn suspend(&mut self, id: TransactionId) -> Result<(), RequestError>
        ensures { StationAnswers requests.Suspend id result self.old self.new }
    {
        self.request(id, Request::Suspend)
    }

    /// Goes on with a transaction that was suspended.
    ///
    /// # Errors
    ///
    /// The first cause that holds, if one does, in the order of [`RequestError`]; nothing changed
    /// then.
    pub fn resume(&mut self, id: TransactionId) -> Result<(), RequestError>
        ensures { StationAnswers requests.Resume id result self.old self.new }
    {
        self.request(id, Request::Resume)
    }

    /// Asks the receiver of a file that this station sends for a Keep Alive if `keep_alive` is set,
    /// otherwise for a NAK.
    ///
    /// # Errors
    ///
    /// The first cause that holds, if one does, in the order of [`RequestError`]; nothing changed
    /// then.
    pub fn prompt(&mut self, id: TransactionId, keep_alive: bool) -> Result<(), RequestError>
        ensures { StationAnswers (requests.Prompt keep_alive) id result self.old self.new }
    {
        self.request(id, Request::Prompt { keep_alive })
    }

    /// Returns how far a transaction has come; `None` if it has no record here.
    pub fn phase(&self, id: TransactionId) -> Option<Phase>
        ensures { result ≡ phase_told id self.now.entity.state.table }
    {
        self.entity.phase(id)
    }

    /// Returns how often a PDU that came up was dropped by this cause. The count stays at the
    /// greatest `u64`.
    pub fn drops(&self, by: EntityDrop) -> u64
        ensures { result ≡ get_or self.now.entity.state.drops (drop_number by) 0 }
    {
        self.entity.drops(by)
    }

    /// Returns how often something of the frames taken was dropped by this cause, on either lane.
    /// The count stays at the greatest `u64`.
    pub fn link_drops(&self, by: LinkDrop) -> u64
        ensures { result ≡ drop_count self.now.up (of_link.drop_number by) }
    {
        self.up.drops(by.number())
    }

    /// Returns the earliest deadline of the armed timers except those of kind Inactivity, in units
    /// of the clock of [`tick`](Self::tick); `None` if no other is armed: if one is, an answer is
    /// waited for. [`next_timeout`](Self::next_timeout) counts all timers.
    pub fn next_deadline(&self) -> Option<u64>
        ensures { MatchOption result (OnlyInactivity self.now.entity.state.table.armed)
            (λ deadline. IsLeastOther self.now.entity.state.table.armed deadline) }
    {
        self.entity.next_deadline()
    }

    /// Returns what was indicated, in order, except for the first ones that were discarded.
    pub fn indications(&self) -> &[Indication]
        ensures { result.now ≡ drop self.now.entity.state.table.gone
            self.now.entity.state.table.told }
    {
        self.entity.indications()
    }

    /// Borrows the outbox.
    pub fn outbox(&self) -> &O
        ensures files { O.files result.now ≡ self.now.entity.state.table.sources }
        ensures stands { O.stands result.now ≡ self.now.entity.state.table.stands }
        ensures failures { O.failures result.now ≡ self.now.entity.outbox_failures }
    {
        self.entity.outbox()
    }

    /// Borrows the inbox.
    pub fn inbox(&self) -> &I
        ensures published { I.published result.now ≡ self.now.entity.state.table.files }
        ensures failures { I.failures result.now ≡ self.now.entity.inbox_failures }
    {
        self.entity.inbox()
    }

    /// Moves the PDU whose turn it is down its lane, in a packet of its own, if one is due and
    /// there is room for it: file data go on their own lane, directives on the other. If a PDU
    /// doesn't fit, it stays due. A PDU has at most 4,134 octets.
    ///
    /// # Errors
    ///
    /// `AllocError` only if a record has the turn and its PDU fits, but the memory for the
    /// step's indications was refused; nothing changed then.
    pub fn poll(&mut self) -> Result<Polled, AllocError>
        // What was read of a file is what the outbox has now.
        ensures polled { IfOk result (λ answer. Polls answer (station_lent self.new self.old)
            self.new) }
        ensures shows { IfOk result (λ answer. Shows answer self.old.entity.state
            self.new.entity.state) }
        // Its octets are those of what it says.
        ensures spells { let lent = entity_lent self.new.entity.state self.old.entity.state in
            IfOk result (λ answer. answer ≡ answers.Moved → SpellsTurn (turn lent) lent) }
        ensures full { IfOk result (λ answer. (answer ≡ answers.Full)
            ↔ (next_room self.old.entity.state self.old.down
            < next_len self.old.entity.state)) }
        ensures roomy { IfOk result (λ answer. answer ≡ answers.Full
            → next_room self.old.entity.state self.old.down < longest_pdu) }
        ensures err { OnErr result (self.new ≡ self.old) }
        ensures counts { IfOk result (λ answer. CountsOutbox (stored_by_poll answer)
            self.old.entity.outbox_failures self.new.entity.outbox_failures) }
        ensures lacks { OnErr result
            (TakesTurn (next_room self.old.entity.state self.old.down) self.old.entity.state) }
        ensures inbox { self.new.entity.inbox_failures ≡ self.old.entity.inbox_failures }
        ensures ahead { (lane : Lane) (frames : ℕ) →
            HoldsAtMost frames (lane_down lane self.old.down) →
            WaitAtMost frames (lane_down lane self.new.down) }
        ensures fixed { KeepsLanes self.old.down self.new.down }
    {
        move_one(&mut self.entity, &mut self.down, &mut self.buffer)
    }

    /// Fills the begun frame of each lane by an idle packet, if one is begun, so that all that
    /// was sent can leave in whole frames. It polls nothing.
    pub fn flush(&mut self)
        ensures flushed { FlushesBoth self.old.down self.new.down }
        ensures rest { KeepsRest self.old self.new }
        ensures ahead { (lane : Lane) (frames : ℕ) →
            HoldsAtMost frames (lane_down lane self.old.down) →
            WaitAtMost frames (lane_down lane self.new.down) }
    {
        self.down.flush(Lane::Directives);
        self.down.flush(Lane::Data);
    }

    /// Fills the begun frame of one lane, and leaves the other as it is: so a directive need not
    /// wait for the file data after it, whose begun frame goes on being filled.
    pub fn flush_lane(&mut self, lane: Lane)
        ensures flushed { Flushes (lane_down lane self.old.down) (lane_down lane self.new.down) }
        ensures other { lane_down (other_lane lane) self.new.down
            ≡ lane_down (other_lane lane) self.old.down }
        ensures packet_count { self.new.down.packet_count ≡ self.old.down.packet_count }
        ensures rest { KeepsRest self.old self.new }
    {
        self.down.flush(lane);
    }

    /// Returns the most whole frames that can ever wait in a lane after a poll or a flush: a bound
    /// that never changes, not how many wait now. If a caller has room for so many of each lane, it
    /// can take them all.
    pub fn frames_ahead(&self, lane: Lane) -> usize
        ensures enough { HoldsAtMost result (lane_down lane self.now.down) }
        ensures no_more { result * (lane_down lane self.now.down).link.zone
            ≤ (lane_down lane self.now.down).capacity + 2047 }
    {
        self.down.frames_ahead(lane)
    }

    /// Returns the number of octets of each frame that it sends, in either lane: 8 more than a zone
    /// has, and the octets of the link's fields.
    pub fn frame_len(&self) -> usize
        ensures { (lane : Lane) → result ≡ frame_len (lane_down lane self.now.down).link }
    {
        self.down.frame_len()
    }

    /// Returns the lane whose frame [`next_frame`](Self::next_frame) gives next: directives go
    /// first. `None` if no whole frame waits in either.
    pub fn next_lane(&self) -> Option<Lane>
        ensures { result ≡ frame_lane self.now.down }
    {
        self.down.next_lane()
    }

    /// Writes the oldest whole frame of [`next_lane`](Self::next_lane), takes it off, and returns
    /// the lane. The buffer must have [`frame_len`](Self::frame_len) octets.
    ///
    /// Returns `None` if no whole frame waits: nothing changed then.
    pub fn next_frame(&mut self, out: &mut [u8]) -> Option<Lane>
        requires { length out.old ≡ frame_len self.old.down.directives.link }
        // Directives go first.
        ensures lane { result ≡ frame_lane self.old.down }
        ensures kept { result ≡ None → (self.new ≡ self.old) × (out.new ≡ out.old) }
        // It is the frame of the lane's stream after those made.
        ensures made { IfSome result (λ lane. MakesFrame out.new (lane_down lane self.old.down)
            (lane_down lane self.new.down)) }
        ensures other { IfSome result (λ lane. lane_down (other_lane lane) self.new.down
            ≡ lane_down (other_lane lane) self.old.down) }
        ensures packet_count { self.new.down.packet_count ≡ self.old.down.packet_count }
        ensures rest { KeepsRest self.old self.new }
    {
        self.down.next_frame(out)
    }

    /// Takes a frame, whatever its octets are: the entity hears each PDU that comes up, in order.
    ///
    /// It always returns. What can't be read of the frame is counted in
    /// [`link_drops`](Self::link_drops), and a PDU that the entity doesn't take in
    /// [`drops`](Self::drops). If there is no memory for something, it is dropped and counted in
    /// one of both, as if it had been lost.
    pub fn receive(&mut self, frame: &[u8])
        ensures { TakesFrame frame.now self.old self.new }
    {
        self.given.clear();
        self.up.receive(frame, &mut self.given);
        hear_all(&mut self.entity, &self.given);
    }

    /// Notes the time: each timer that is due as the call begins expires once, in the order of
    /// their deadlines. If the time is earlier than the last one given, it counts as that.
    ///
    /// # Errors
    ///
    /// `AllocError` only if a timer is due, but the memory for what fires, or for its
    /// indications, was refused; nothing changed then, the time neither.
    pub fn tick(&mut self, now: u64) -> Result<(), AllocError>
        ensures ticked { OnOk result (Ticks now self.old.entity.state.table
            self.new.entity.state.table) }
        ensures raises { OnOk result (AsksToTick Raises now self.old.entity.state.table
            self.old.entity.inbox_failures self.new.entity.inbox_failures) }
        ensures table { self.new.entity.state
            ≡ with_table self.old.entity.state self.new.entity.state.table }
        ensures err { OnErr result (self.new ≡ self.old) }
        ensures lacks { OnErr result (1 ≤ due_count self.old.entity.state.table.armed
            (max self.old.entity.state.table.now now)) }
        ensures grows { self.old.entity.inbox_failures ≤ self.new.entity.inbox_failures }
        ensures outbox { self.new.entity.outbox_failures ≡ self.old.entity.outbox_failures }
        ensures link { KeepsLink self.old self.new }
    {
        self.entity.tick(now)
    }
}

impl<I: Inbox> Station<MemoryOutbox, I> {
    /// Adds a file to the outbox. The outbox must have no file of its name: so no file changes that
    /// is being sent. Its octets are copied, and stay until the file is removed.
    ///
    /// # Errors
    ///
    /// The first cause that holds, if one does, in the order of [`AddError`]; nothing changed then.
    pub fn add_source(&mut self, name: &[u8], octets: &[u8]) -> Result<(), AddError>
        ensures added { OnOk result (AddsFile name.now octets.now self.old.entity.state
            self.new.entity.state) }
        ensures refused { IfErr result (RefusesToAdd name.now
            self.old.entity.state.table.sources) }
        ensures err { OnErr result (self.new ≡ self.old) }
        ensures inbox { self.new.entity.inbox_failures ≡ self.old.entity.inbox_failures }
        ensures outbox { self.new.entity.outbox_failures ≡ self.old.entity.outbox_failures }
        ensures link { KeepsLink self.old self.new }
    {
        self.entity.add_source(name, octets)
    }
}

impl<O: SeekingOutbox, I: Inbox> Station<O, I> {
    /// Looks for the file of a name, so that a put can send it as it is now. Returns `true` if
    /// there is one. If the file of that name is being sent already, it isn't looked for: a put
    /// sends what is sent then.
    ///
    /// # Errors
    ///
    /// The error of the outbox, if it fails, which is counted. Nothing else changed then.
    pub fn look_for(&mut self, name: &[u8]) -> Result<bool, StoreError>
        ensures has { IfOk result (λ has. has
            ≡ is_some (map.get self.new.entity.state.table.sources name.now)) }
        ensures looks { OnOk result (LooksUp name.now self.old.entity.state
            self.new.entity.state) }
        ensures err { OnErr result (self.new.entity.state ≡ self.old.entity.state) }
        ensures inbox { self.new.entity.inbox_failures ≡ self.old.entity.inbox_failures }
        ensures outbox { self.new.entity.outbox_failures
            ≡ failures_after self.old.entity.outbox_failures (is_ok result) }
        ensures link { KeepsLink self.old self.new }
    {
        self.entity.look_for(name)
    }
}
