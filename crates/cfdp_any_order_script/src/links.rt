//! Which frames of a station wait on the link, and which arrived.
ghost use Rattle.std.specs.Prelude.{◌≡◌, ◌≤◌, ◌<◌, ◌+◌, ◌-◌, ◌++◌, ◌^◌, [], false, not};
ghost use Rattle.std.specs.Prelude.{IfOk, OnErr, MatchOption};
ghost use Rattle.aos_frame.specs.declared.config.Lane.TheVariants as lanes;
ghost use Rattle.cfdp_any_order_script.specs.Links as links;
ghost use Rattle.cfdp_any_order_script.specs.Links.{IsBack, IsBehind, count_of, is_of, made_of};

use any_order::SentFrame;
use aos_frame::Lane;
use std::alloc::{AllocError, Global};
use std::collections::VecDeque;

/// The frames of a station that wait, in the order sent, and those that arrived, in the order in
/// which they arrived first.
#[derive(Drop)]
pub struct Frames {
    pub waiting: VecDeque<SentFrame>,
    pub arrived: Vec<SentFrame>,
}

/// How many frames a station made in its life, lane by lane, and how many lives it had before.
#[derive(Clone, Copy)]
pub struct Made {
    pub life: usize,
    pub directives: usize,
    pub file_data: usize,
}

/// Returns `true` if a frame is of a lane, or of either if none is said.
fn is_of(lane: Option<Lane>, frame: &SentFrame) -> bool
    ensures { result ≡ is_of lane frame.now }
{
    match (lane, frame.lane) {
        (None, _) | (Some(Lane::Directives), Lane::Directives) | (Some(Lane::Data), Lane::Data) =>
            true,
        (Some(Lane::Directives), Lane::Data) | (Some(Lane::Data), Lane::Directives) => false,
    }
}

/// Returns `count` frames of a lane and a life, from the index `first` on.
///
/// # Errors
///
/// `AllocError` if there is no memory for them.
#[tactic(auto, using(crate::proofs::Counts::made_more))]
fn made_of(
    alloc: Global,
    life: usize,
    lane: Lane,
    first: usize,
    count: usize,
) -> Result<VecDeque<SentFrame>, AllocError>
    requires { first + count < 2 ^ 64 }
    ensures { IfOk result (λ made. made.items ≡ made_of life lane first count) }
{
    let mut made = VecDeque::new(alloc);
    for behind in 0..count {
        made.push_back(SentFrame {
            life,
            lane,
            place: first + behind,
        })?;
    }
    Ok(made)
}

/// Returns the waiting frame of a lane, or of either, that has `before` of these before it, and its
/// index; `None` if fewer wait.
#[tactic(auto, using(crate::proofs::Counts::front_yes, crate::proofs::Counts::front_no))]
pub fn waiting_behind(
    waiting: &VecDeque<SentFrame>,
    lane: Option<Lane>,
    before: u64,
) -> Option<(usize, SentFrame)>
    ensures { MatchOption result (count_of lane waiting.now.items ≤ before)
        (λ found. IsBehind lane before waiting.now.items found.0 found.1) }
{
    let mut passed = 0;
    for place in 0..waiting.len() {
        let frame = waiting[place];
        if is_of(lane, &frame) {
            if passed == before {
                return Some((place, frame));
            }
            passed += 1;
        }
    }
    None
}

/// Returns the frame of a lane, or of either, that arrived `back` of these ago, 1 being the last
/// one; `None` if fewer arrived.
#[tactic(auto, using(crate::proofs::Counts::back_yes, crate::proofs::Counts::back_no))]
pub fn arrived_back(arrived: &[SentFrame], lane: Option<Lane>, back: u64) -> Option<SentFrame>
    requires { 1 ≤ back }
    ensures { MatchOption result (count_of lane arrived.now < back)
        (λ frame. IsBack lane back arrived.now frame) }
{
    let mut passed = 0;
    for done in 0..arrived.len() {
        let frame = arrived[arrived.len() - 1 - done];
        if is_of(lane, &frame) {
            if passed + 1 == back {
                return Some(frame);
            }
            passed += 1;
        }
    }
    None
}

impl Frames {
    /// Returns no frames.
    pub fn new(alloc: Global) -> Frames
        ensures waiting { result.waiting.items ≡ [] }
        ensures arrived { result.arrived.items ≡ [] }
    {
        Frames {
            waiting: VecDeque::new(alloc),
            arrived: Vec::new(alloc),
        }
    }

    /// Lets the frames wait that a station made in a life, after those that it had made before.
    /// Returns whether there are any.
    ///
    /// # Errors
    ///
    /// `AllocError` if there is no memory to note them: none of them waits.
    pub fn note(&mut self, alloc: Global, before: Made, now: Made) -> Result<bool, AllocError>
        ensures waiting { IfOk result (λ any. self.new.waiting.items ≡ self.old.waiting.items
            ++ (made_of now.life lanes.Directives before.directives
            (now.directives - before.directives)
            ++ made_of now.life lanes.Data before.file_data (now.file_data - before.file_data))) }
        ensures any { IfOk result (λ any. any ≡ links.is_any (made_of now.life lanes.Directives
            before.directives (now.directives - before.directives)
            ++ made_of now.life lanes.Data before.file_data (now.file_data - before.file_data))) }
        ensures err { OnErr result (self.new.waiting.items ≡ self.old.waiting.items) }
        ensures arrived { self.new.arrived ≡ self.old.arrived }
    {
        let directives = now.directives.saturating_sub(before.directives);
        let file_data = now.file_data.saturating_sub(before.file_data);
        let lane = Lane::Directives;
        let mut made = made_of(alloc, now.life, lane, before.directives, directives)?;
        let mut others = made_of(alloc, now.life, Lane::Data, before.file_data, file_data)?;
        made.append(&mut others)?;
        let any = !made.is_empty();
        self.waiting.append(&mut made)?;
        Ok(any)
    }
}
