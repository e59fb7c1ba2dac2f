//! Two stations and the frames between them, before anything is said of puts and files.
ghost use Rattle.std.specs.Prelude.{◌≡◌, ◌<◌, ◌≤◌, ◌⊎◌, ◌↔◌, true, false, length, None, Some};
ghost use Rattle.std.specs.Prelude.{IfErr, IfOk, OnErr, OnOk};
ghost use Rattle.cfdp_entity.specs.Gives.{CountsOutbox};
ghost use Rattle.cfdp_entity.specs.Polling.{turn};
ghost use Rattle.cfdp_entity.specs.Sound.{SpellsTurn, longest_pdu};
ghost use Rattle.cfdp_entity.specs.Refusing.{IsRefusal};
ghost use Rattle.cfdp_entity.specs.Requests.{IsCalled, asks_inbox, request_refusal};
ghost use Rattle.aos_frame.specs.Frame.{frame_fault, lane_channel};
ghost use Rattle.aos_frame.specs.declared.config.Lane.{Lane};
ghost use Rattle.aos_frame.specs.declared.error.FrameError.TheVariants.{Damaged};
ghost use Rattle.cfdp_station.specs.Link.{HoldsAtMost};
ghost use Rattle.cfdp_station.specs.Polling.{Polls, next_len, next_room, stored_by_poll};
ghost use Rattle.cfdp_station.specs.Station.{KeepsLink, KeepsRest};
ghost use Rattle.cfdp_station.specs.declared.polled.Polled.TheVariants as answers;
ghost use Rattle.link_stack.specs.Downward.{KeepsLanes, frame_lane, lane_down};
ghost use Rattle.link_sim.specs.FrameLink.{lane_of_links};
ghost use Rattle.link_sim.specs.declared.event.Applied.TheVariants as dids;
ghost use Rattle.link_sim.specs.declared.event.Event.TheVariants as events;
ghost use Rattle.link_sim.specs.AtStation.{AreReady, AreSameLinks, DamagesAt, FlushesAt};
ghost use Rattle.link_sim.specs.AtStation.{FrameArrivesAt};
ghost use Rattle.link_sim.specs.AtStation.{HasBuffers, OnLane, PollsAt, PullsBoth};
ghost use Rattle.cfdp_station.specs.Failures.{KeepsOutbox};
ghost use Rattle.link_sim.specs.AtStation.{PullsOne, PutsAt, RaisesByRequest, StrikesAt};
ghost use Rattle.link_sim.specs.AtStation.{TellsTimeAt, TriesToSend, answered};
ghost use Rattle.link_sim.specs.World.Failures.{HaveFailed};
ghost use Rattle.link_sim.specs.World.State as state;
ghost use Rattle.link_sim.specs.World.Steps as steps;
ghost use Rattle.link_sim.specs.World.State.{station_at, link_from, IsFirst};
ghost use Rattle.link_sim.specs.Calls.{TriesEvent};
ghost use Rattle.station_pair.specs.Stations.{other, station_of};
ghost use Rattle.station_pair.specs.declared.side.Side.{Side};

use crate::event::{AcceptedPut, Applied, Event};
use crate::frame_link::FrameLink;
use crate::frame_links::FrameLinks;
use crate::mark::Loss;
use aos_frame::{ChannelConfig, FrameError, Lane, decode};
use cfdp_directives::Octets;
use cfdp_entity::Request;
use cfdp_header::TransactionId;
use cfdp_station::{Polled, PutError, RequestError, Station};
use cfdp_store::{Inbox, Outbox, SteadyOutbox};
use station_pair::{Refusal, Side, WorldConfig};
use std::alloc::{AllocError, Global};
use std::marker::Model;
use valid_config::Valid;

/// Two stations, the frames that each sent, the puts that they accepted, and how often the time was
/// given.
#[derive(Drop)]
pub(crate) struct TwoStations<O: SteadyOutbox, I: Inbox> {
    alloc: Global,
    one: Station<O, I>,
    two: Station<O, I>,
    from_one: FrameLinks,
    from_two: FrameLinks,
    pub(crate) puts: Vec<AcceptedPut>,
    pub(crate) ticks: u64,
    // How both were set up, and are still.
    config: Valid<WorldConfig>,
}

impl<O: SteadyOutbox, I: Inbox> Model for TwoStations<O, I> {
    ghost use Rattle.std.specs.Prelude.{◌≤◌};
    ghost use Rattle.cfdp_entity.specs.Coded.{state_codes};
    ghost use Rattle.aos_frame.specs.declared.config.Lane.{Lane};
    ghost use Rattle.link_stack.specs.Downward.{lane_down};
    ghost use Rattle.link_sim.specs.AtStation.{AreCarried, AreSetUp};
    ghost use Rattle.link_sim.specs.World.State.{WorldState, seen_links};

    ghost Value = { WorldState };

    ghost coded = { Prim.hlevel (state_codes) };

    ghost view = { λ w. record {
      one = w.one;
      two = w.two;
      from_one = seen_links w.from_one;
      from_two = seen_links w.from_two;
      puts = w.puts.items;
      ticks = w.ticks;
    } };

    // Both lanes of both directions are carried, and a PDU of any kind has room in each if no whole
    // frame waits. Each end that receives is set up as at first.
    ghost invariant = { λ w. AreCarried w.one.down w.from_one w.two.up
        × AreCarried w.two.down w.from_two w.one.up
        × ((lane : Lane) → 8192 ≤ (lane_down lane w.one.down).capacity)
        × ((lane : Lane) → 8192 ≤ (lane_down lane w.two.down).capacity)
        × AreSetUp w.config.one.receives w.one.up × AreSetUp w.config.two.receives w.two.up };
}

impl<O: SteadyOutbox, I: Inbox> TwoStations<O, I> {
    /// Makes two stations over these stores, the first station's stores first. Nothing was sent.
    pub(crate) fn new(
        alloc: Global,
        config: Valid<WorldConfig>,
        outboxes: (O, O),
        inboxes: (I, I),
    ) -> Result<Self, AllocError>
        ensures first { IfOk result (IsFirst config (O.files outboxes.0, O.files outboxes.1)
            (I.published inboxes.0, I.published inboxes.1)) }
        ensures failures { IfOk result (HaveFailed (O.failures outboxes.0, O.failures outboxes.1)
            (I.failures inboxes.0, I.failures inboxes.1)) }
        // Both lanes of both directions are carried, from the first frame on.
        ensures ways { IfOk result (λ w. (side : Side) → state.AreWays side w) }
    {
        // For the prover: it is valid.
        let _config = config.get();
        let (first, second) = (
            WorldConfig::station(config, Side::One),
            WorldConfig::station(config, Side::Two),
        );
        let one = Station::new(alloc, first, outboxes.0, inboxes.0)?;
        match Station::new(alloc, second, outboxes.1, inboxes.1) {
            Ok(two) => {
                let from_one = FrameLinks::new(alloc, one.frame_len());
                let from_two = FrameLinks::new(alloc, two.frame_len());
                Ok(TwoStations {
                    alloc,
                    one,
                    two,
                    from_one,
                    from_two,
                    puts: Vec::new(alloc),
                    ticks: 0,
                    config,
                })
            }
            Err(AllocError) => {
                drop(one);
                Err(AllocError)
            }
        }
    }

    /// Returns a station, borrowed.
    pub(crate) fn station(&self, side: Side) -> &Station<O, I>
        ensures { result.now ≡ station_at side self.now }
    {
        match side {
            Side::One => &self.one,
            Side::Two => &self.two,
        }
    }

    /// Returns the frames that a station sent, in both lanes, with their marks, borrowed.
    pub(crate) fn frames(&self, side: Side) -> &FrameLinks
        ensures { state.seen_links result.now ≡ link_from side self.now }
    {
        match side {
            Side::One => &self.from_one,
            Side::Two => &self.from_two,
        }
    }

    /// Shows what holds of both directions between events.
    pub(crate) fn show_rest(&self)
        ensures { (side : Side) → state.AreRested side self.now }
    {
        // For the prover: the invariant.
        let _ = &self.one;
    }

    /// Lets one thing happen, and returns what it did.
    pub(crate) fn step(&mut self, event: &Event) -> Result<Applied, AllocError>
        ensures { TriesEvent event.now result self.old self.new }
    {
        match event {
            Event::Put {
                at,
                source,
                destination,
            } => self.put(*at, source, destination),
            Event::Cancel { at, id } => self.request(*at, *id, Request::Cancel),
            Event::Suspend { at, id } => self.request(*at, *id, Request::Suspend),
            Event::Resume { at, id } => self.request(*at, *id, Request::Resume),
            Event::Prompt { at, id, keep_alive } => {
                self.request(
                    *at,
                    *id,
                    Request::Prompt {
                        keep_alive: *keep_alive,
                    },
                )
            }
            Event::Poll(side) => self.poll(*side),
            Event::Flush(side) => self.flush(*side),
            Event::Tick { at, now } => self.tick(*at, *now),
            Event::Deliver(side, lane) => Ok(self.deliver(*side, *lane)),
            Event::Strike(side, lane) => Ok(self.strike(*side, *lane)),
            Event::Damage { side, lane, octets } => {
                Ok(self.damage(*side, *lane, octets.as_slice()))
            }
        }
    }

    pub(crate) fn poll(&mut self, side: Side) -> Result<Applied, AllocError>
        ensures { TriesEvent (events.Poll side) result self.old self.new }
    {
        match side {
            Side::One => poll_at(&mut self.one, &mut self.from_one),
            Side::Two => poll_at(&mut self.two, &mut self.from_two),
        }
    }

    pub(crate) fn flush(&mut self, side: Side) -> Result<Applied, AllocError>
        ensures { TriesEvent (events.Flush side) result self.old self.new }
    {
        match side {
            Side::One => flush_at(&mut self.one, &mut self.from_one),
            Side::Two => flush_at(&mut self.two, &mut self.from_two),
        }
    }

    pub(crate) fn deliver(&mut self, side: Side, lane: Lane) -> Applied
        ensures { steps.Delivers result side lane self.old self.new }
    {
        match side {
            Side::One => deliver_at(&mut self.from_one, lane, &mut self.two),
            Side::Two => deliver_at(&mut self.from_two, lane, &mut self.one),
        }
    }

    fn put(
        &mut self,
        side: Side,
        source: &Octets,
        destination: &Octets,
    ) -> Result<Applied, AllocError>
        ensures { TriesEvent (events.Put side source.now destination.now) result self.old
            self.new }
    {
        let alloc = self.alloc;
        match side {
            Side::One => put_at(alloc, &mut self.one, &mut self.puts, source, destination),
            Side::Two => put_at(alloc, &mut self.two, &mut self.puts, source, destination),
        }
    }

    /// Does what the user of a station asks of a transaction.
    fn request(
        &mut self,
        side: Side,
        id: TransactionId,
        request: Request,
    ) -> Result<Applied, AllocError>
        ensures calls { IfOk result (λ did. steps.Calls did side request id self.old self.new) }
        ensures err { OnErr result (self.new ≡ self.old) }
    {
        match side {
            Side::One => answer(request_at(&mut self.one, id, request)),
            Side::Two => answer(request_at(&mut self.two, id, request)),
        }
    }

    fn tick(&mut self, side: Side, now: u64) -> Result<Applied, AllocError>
        ensures { TriesEvent (events.Tick side now) result self.old self.new }
    {
        match side {
            Side::One => tick_at(&mut self.one, &mut self.ticks, now),
            Side::Two => tick_at(&mut self.two, &mut self.ticks, now),
        }
    }

    fn strike(&mut self, side: Side, lane: Lane) -> Applied
        ensures { steps.Strikes result side lane self.old self.new }
    {
        match side {
            Side::One => strike_at(&mut self.from_one, lane),
            Side::Two => strike_at(&mut self.from_two, lane),
        }
    }

    /// Delivers these octets in the place of the oldest waiting frame of a lane.
    fn damage(&mut self, side: Side, lane: Lane, octets: &[u8]) -> Applied
        ensures { steps.Damages result side lane octets.now self.old self.new }
    {
        let channel = channel_from(self.config, side, lane);
        match side {
            Side::One => damage_at(&mut self.from_one, lane, &channel, octets, &mut self.two),
            Side::Two => damage_at(&mut self.from_two, lane, &channel, octets, &mut self.one),
        }
    }
}

/// Returns the channel of a lane of what a station sends, as the other one was set up for it.
fn channel_from(config: Valid<WorldConfig>, side: Side, lane: Lane) -> ChannelConfig
    ensures { result ≡ lane_channel lane (station_of (other side) config).receives }
{
    let receiver = WorldConfig::station(config, side.other()).get();
    receiver.receives.lane(lane)
}

/// Does what the user of a station asks of a transaction. Only one that gives up what is received
/// may ask something of the inbox, and so fail there.
fn request_at<O: Outbox, I: Inbox>(
    station: &mut Station<O, I>,
    id: TransactionId,
    request: Request,
) -> Result<(), RequestError>
    ensures called { OnOk result (IsCalled request id station.old.entity.state
        station.new.entity.state) }
    ensures refused { IfErr result (IsRefusal (request_refusal request id
        station.old.entity.state.table)) }
    ensures err { OnErr result (station.new ≡ station.old) }
    ensures failures { KeepsOutbox station.old.entity station.new.entity }
    ensures inbox { asks_inbox request id station.old.entity.state.table ≡ false
        → station.new.entity.inbox_failures ≡ station.old.entity.inbox_failures }
    ensures raises { OnOk result (RaisesByRequest request id station.old.entity station.new.entity) }
    ensures link { KeepsLink station.old station.new }
{
    match request {
        Request::Cancel => station.cancel(id),
        Request::Suspend => station.suspend(id),
        Request::Resume => station.resume(id),
        Request::Prompt { keep_alive } => station.prompt(id, keep_alive),
    }
}

/// Returns what a world answers to a call on a transaction.
fn answer(called: Result<(), RequestError>) -> Result<Applied, AllocError>
    ensures { result ≡ answered called }
{
    match called {
        Ok(()) => Ok(Applied::Applied),
        Err(RequestError::NoMemory) => Err(AllocError),
        Err(error) => Ok(Applied::Refused(Refusal::Call(error))),
    }
}

/// Makes a put at a station. An error leaves all as it was.
fn put_at<O: Outbox, I: Inbox>(
    alloc: Global,
    station: &mut Station<O, I>,
    puts: &mut Vec<AcceptedPut>,
    source: &Octets,
    destination: &Octets,
) -> Result<Applied, AllocError>
    ensures puts { IfOk result (λ did. PutsAt did source.now destination.now
        station.old.entity station.new.entity puts.old.items puts.new.items) }
    ensures err { OnErr result ((station.new ≡ station.old)
        × (puts.new.items ≡ puts.old.items)) }
    ensures link { KeepsLink station.old station.new }
{
    let source_kept = source.copy(alloc)?;
    let destination_kept = destination.copy(alloc)?;
    puts.reserve(1)?;
    match station.put(source.as_slice(), destination.as_slice()) {
        Ok(id) => {
            let _ = puts.push(AcceptedPut {
                id,
                source: source_kept,
                destination: destination_kept,
            });
            Ok(Applied::Applied)
        }
        Err(PutError::NoMemory) => Err(AllocError),
        Err(error) => Ok(Applied::Refused(Refusal::Put(error))),
    }
}

/// Gives a station the time.
fn tick_at<O: Outbox, I: Inbox>(
    station: &mut Station<O, I>,
    ticks: &mut u64,
    now: u64,
) -> Result<Applied, AllocError>
    ensures ticks { IfOk result (λ did. (did ≡ dids.Applied) × TellsTimeAt now
        station.old.entity station.new.entity ticks.old ticks.new) }
    ensures err { OnErr result ((station.new ≡ station.old) × (ticks.new ≡ ticks.old)) }
    ensures link { KeepsLink station.old station.new }
{
    station.tick(now)?;
    *ticks = ticks.saturating_add(1);
    Ok(Applied::Applied)
}

/// Takes the frame that leaves a station next, if one does.
fn pull_next<O: Outbox, I: Inbox>(links: &mut FrameLinks, station: &mut Station<O, I>) -> bool
    requires { HasBuffers station.old.down links.old }
    ensures none { result ≡ false → frame_lane station.old.down ≡ None }
    ensures kept { result ≡ false → (links.new ≡ links.old) × (station.new ≡ station.old) }
    ensures pulls { result ≡ true → PullsOne station.old.down station.new.down links.old links.new }
    ensures rest { KeepsRest station.old station.new }
{
    let place = links.count();
    match station.next_lane() {
        Some(Lane::Directives) => links.directives.pull(station, Lane::Directives, place),
        Some(Lane::Data) => links.file_data.pull(station, Lane::Data, place),
        None => false,
    }
}

/// Takes all whole zones that wait at a station as frames. There must be buffers for them.
fn pull_all<O: Outbox, I: Inbox>(links: &mut FrameLinks, station: &mut Station<O, I>)
    requires { HasBuffers station.old.down links.old }
    ensures { PullsBoth station.old station.new links.old links.new }
{
    while pull_next(links, station) {}
}

/// Makes room for all frames that a station may make.
fn make_room<O: Outbox, I: Inbox>(
    links: &mut FrameLinks,
    station: &Station<O, I>,
) -> Result<(), AllocError>
    ensures ok { OnOk result ((l : Lane) → HoldsAtMost (lane_of_links l links.new).blanks
        (lane_down l station.now.down)) }
    ensures kept { AreSameLinks links.old links.new }
{
    links
        .directives
        .make_room(station.frames_ahead(Lane::Directives))?;
    links.file_data.make_room(station.frames_ahead(Lane::Data))
}

/// Polls a station whose outbox's files always stand: what it reads is what they have.
fn poll<O: SteadyOutbox, I: Inbox>(station: &mut Station<O, I>) -> Result<Polled, AllocError>
    ensures polled { IfOk result (λ answer. Polls answer station.old station.new) }
    ensures spells { IfOk result (λ answer. answer ≡ answers.Moved
        → SpellsTurn (turn station.old.entity.state) station.old.entity.state) }
    ensures full { IfOk result (λ answer. (answer ≡ answers.Full)
        ↔ (next_room station.old.entity.state station.old.down
        < next_len station.old.entity.state)) }
    ensures roomy { IfOk result (λ answer. answer ≡ answers.Full
        → next_room station.old.entity.state station.old.down < longest_pdu) }
    ensures err { OnErr result (station.new ≡ station.old) }
    ensures counts { IfOk result (λ answer. CountsOutbox (stored_by_poll answer)
        station.old.entity.outbox_failures station.new.entity.outbox_failures) }
    ensures inbox { station.new.entity.inbox_failures ≡ station.old.entity.inbox_failures }
    ensures fixed { KeepsLanes station.old.down station.new.down }
{
    let answer = station.poll();
    // For the prover: its files always stand, so what was read is what they have.
    let _ = station.outbox();
    answer
}

/// Sends a station's next PDU, and all frames that are whole then.
fn poll_at<O: SteadyOutbox, I: Inbox>(
    station: &mut Station<O, I>,
    links: &mut FrameLinks,
) -> Result<Applied, AllocError>
    requires ready { AreReady station.old.down links.old }
    ensures { TriesToSend PollsAt result station.old station.new links.old links.new }
{
    make_room(links, station)?;
    match poll(station)? {
        Polled::Moved => {
            pull_all(links, station);
            Ok(Applied::Applied)
        }
        Polled::SourceFailed => Ok(Applied::Applied),
        // A PDU of any kind has room, so this is never Full.
        Polled::Nothing | Polled::Full => Ok(Applied::Nothing),
    }
}

/// Returns `true` if a lane has more frames than it had.
fn has_more(links: &FrameLinks, directives: usize, file_data: usize) -> bool
    ensures more { result ≡ true → (directives < length links.now.directives.frames)
        ⊎ (file_data < length links.now.file_data.frames) }
    ensures none { result ≡ false → (length links.now.directives.frames ≤ directives)
        × (length links.now.file_data.frames ≤ file_data) }
{
    directives < links.count_in(Lane::Directives) || file_data < links.count_in(Lane::Data)
}

/// Fills a station's begun frame of each lane, and these leave.
fn flush_at<O: Outbox, I: Inbox>(
    station: &mut Station<O, I>,
    links: &mut FrameLinks,
) -> Result<Applied, AllocError>
    requires ready { AreReady station.old.down links.old }
    ensures { TriesToSend FlushesAt result station.old station.new links.old links.new }
{
    make_room(links, station)?;
    let directives = links.count_in(Lane::Directives);
    let file_data = links.count_in(Lane::Data);
    station.flush();
    pull_all(links, station);
    if has_more(links, directives, file_data) {
        Ok(Applied::Applied)
    } else {
        Ok(Applied::Nothing)
    }
}

/// Delivers the oldest waiting frame of a lane to a station.
fn deliver_to<O: Outbox, I: Inbox>(
    link: &mut FrameLink,
    lane: Lane,
    station: &mut Station<O, I>,
) -> Applied
    ensures { FrameArrivesAt result lane link.old link.new station.old station.new }
{
    let Some(frame) = link.oldest() else {
        return Applied::Nothing;
    };
    station.receive(frame);
    link.deliver();
    Applied::Applied
}

/// Delivers the oldest waiting frame of a lane to a station; the other lane stays.
fn deliver_at<O: Outbox, I: Inbox>(
    links: &mut FrameLinks,
    lane: Lane,
    station: &mut Station<O, I>,
) -> Applied
    ensures { OnLane lane (λ link link_now. FrameArrivesAt result lane link link_now
        station.old station.new) links.old links.new }
{
    match lane {
        Lane::Directives => deliver_to(&mut links.directives, lane, station),
        Lane::Data => deliver_to(&mut links.file_data, lane, station),
    }
}

/// Returns `true` if octets are no frame of a channel since they were damaged.
fn comes_damaged(octets: &[u8], channel: &ChannelConfig) -> bool
    ensures { (result ≡ true) ↔ (frame_fault octets.now channel.now ≡ Some Damaged) }
{
    match decode(octets, channel) {
        Err(FrameError::Damaged) => true,
        _ => false,
    }
}

/// Delivers these octets to a station in the place of the oldest waiting frame of a lane.
fn damage_to<O: Outbox, I: Inbox>(
    link: &mut FrameLink,
    channel: &ChannelConfig,
    octets: &[u8],
    station: &mut Station<O, I>,
) -> Applied
    ensures { DamagesAt result channel.now octets.now link.old link.new station.old station.new }
{
    let Some(_frame) = link.oldest() else {
        return Applied::Nothing;
    };
    if !comes_damaged(octets, channel) {
        return Applied::Refused(Refusal::NotDamaged);
    }
    match link.strike() {
        Loss::Done => {
            station.receive(octets);
            Applied::Applied
        }
        Loss::NoneWaits => Applied::Nothing,
        Loss::TooMany => Applied::Refused(Refusal::LossRunTooLong),
    }
}

/// Delivers these octets to a station in the place of the oldest waiting frame of a lane; the other
/// lane stays.
fn damage_at<O: Outbox, I: Inbox>(
    links: &mut FrameLinks,
    lane: Lane,
    channel: &ChannelConfig,
    octets: &[u8],
    station: &mut Station<O, I>,
) -> Applied
    ensures { OnLane lane (λ link link_now. DamagesAt result channel.now octets.now link link_now
        station.old station.new) links.old links.new }
{
    match lane {
        Lane::Directives => damage_to(&mut links.directives, channel, octets, station),
        Lane::Data => damage_to(&mut links.file_data, channel, octets, station),
    }
}

/// Strikes the oldest waiting frame of a lane.
fn strike_lane(link: &mut FrameLink) -> Applied
    ensures { StrikesAt result link.old link.new }
{
    match link.strike() {
        Loss::Done => Applied::Applied,
        Loss::NoneWaits => Applied::Nothing,
        Loss::TooMany => Applied::Refused(Refusal::LossRunTooLong),
    }
}

/// Strikes the oldest waiting frame of a lane; the other lane stays.
fn strike_at(links: &mut FrameLinks, lane: Lane) -> Applied
    ensures { OnLane lane (StrikesAt result) links.old links.new }
{
    match lane {
        Lane::Directives => strike_lane(&mut links.directives),
        Lane::Data => strike_lane(&mut links.file_data),
    }
}
