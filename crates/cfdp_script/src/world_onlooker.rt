//! An onlooker at a script's run, as the world of its stations shows it.
use cfdp_station::Station;
use cfdp_store::{Inbox, Outbox};
use cfdp_watch::{Onlooker, Summary};
use link_sim::{Event, FrameLink, FrameLinks, Lane, Mark, Side, Witness};

/// An onlooker at a world, or nobody. The world shows all frames that were ever sent, so this keeps
/// how many of them were seen.
#[derive(Drop)]
pub struct WorldOnlooker<'a> {
    onlooker: Onlooker<'a>,
    // The frames of either station.
    one: SeenLinks,
    two: SeenLinks,
}

impl<'a> WorldOnlooker<'a> {
    /// Returns an onlooker before the first event.
    pub fn new(onlooker: Onlooker<'a>) -> WorldOnlooker<'a> {
        WorldOnlooker {
            onlooker,
            one: SeenLinks::new(Side::One),
            two: SeenLinks::new(Side::Two),
        }
    }

    /// Ends the run, and returns what is known then; `None` if nobody looked on.
    pub fn into_summary(self) -> Option<Summary> {
        self.onlooker.into_summary()
    }
}

/// The steps of a script are lines of it.
impl Witness for WorldOnlooker<'_> {
    fn saw<O: Outbox, I: Inbox>(
        &mut self,
        event: &Event,
        stations: (&Station<O, I>, &Station<O, I>),
        frames: (&FrameLinks, &FrameLinks),
    ) {
        let onlooker = &mut self.onlooker;
        onlooker.begins_event();
        if let Event::Tick { at, now } = event {
            onlooker.ticks(*at, *now);
        }
        self.one.look(frames.0, onlooker);
        self.two.look(frames.1, onlooker);
        onlooker.ends_event(stations);
    }

    fn comes_to(&mut self, step: usize) {
        self.onlooker.comes_to(step);
    }
}

/// How many frames of a lane were seen to leave, and how many to arrive or to be lost.
#[derive(Clone, Copy)]
struct Counts {
    sent: usize,
    taken: usize,
}

/// How far the frames that a station sends were seen.
#[derive(Clone, Copy)]
struct SeenLinks {
    from: Side,
    directives: Counts,
    file_data: Counts,
}

impl SeenLinks {
    /// Returns the frames that this station sends, before the first.
    fn new(from: Side) -> SeenLinks {
        SeenLinks {
            from,
            directives: Counts { sent: 0, taken: 0 },
            file_data: Counts { sent: 0, taken: 0 },
        }
    }

    /// Shows what became of these frames in one event: any number were sent, and at most one
    /// arrived or was lost. Directives are sent first.
    fn look(&mut self, links: &FrameLinks, onlooker: &mut Onlooker<'_>) {
        self.directives = self.look_at(Lane::Directives, self.directives, links, onlooker);
        self.file_data = self.look_at(Lane::Data, self.file_data, links, onlooker);
    }

    /// Shows what became of the frames of one lane, if `seen` of them were seen before. Returns how
    /// many are seen now.
    fn look_at(
        self,
        lane: Lane,
        seen: Counts,
        links: &FrameLinks,
        onlooker: &mut Onlooker<'_>,
    ) -> Counts {
        let link = links.lane(lane);
        for place in seen.sent..link.count() {
            if let Some(frame) = link.frame(place) {
                onlooker.leaves(self.from, lane, frame);
            }
        }
        Counts {
            sent: link.count(),
            taken: self.look_at_oldest(lane, seen.taken, link, onlooker),
        }
    }

    /// Shows what became of the oldest frame of a lane that waited. Returns how many wait no more.
    fn look_at_oldest(
        self,
        lane: Lane,
        taken: usize,
        link: &FrameLink,
        onlooker: &mut Onlooker<'_>,
    ) -> usize {
        if let Some(mark) = link.mark(taken)
            && let Some(frame) = link.frame(taken)
        {
            match mark {
                Mark::Waiting => return taken,
                Mark::Struck => onlooker.loses(self.from, lane, frame),
                Mark::Delivered => onlooker.arrives(self.from, lane, frame),
            }
            return taken.saturating_add(1);
        }
        taken
    }
}
