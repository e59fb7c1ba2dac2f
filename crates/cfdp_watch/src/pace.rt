//! How far a file is that a station sends, how fast it goes, and how long that still takes.
ghost use Rattle.std.specs.Prelude.{◌≡◌, ◌-◌, ◌^◌, min, take, Some};
ghost use Rattle.cfdp_watch.specs.Pace.{percent_of, rate_of, rest_text, seconds_of, sending_text};

use cfdp_report::Name;
use std::fmt;

/// A rate is measured over so many milliseconds at least, and over twice as many at most.
const SPAN: u64 = 5_000;

/// The most octets of a name that are shown.
const MOST_NAME: usize = 32;

/// How many octets of a file were sent at a time, in milliseconds.
#[derive(Clone, Copy)]
struct Sample {
    time: u64,
    octets: u64,
}

/// How fast a file is sent, by what was sent of it in the last five to ten seconds.
///
/// # Examples
///
/// ```text
/// let mut pace = Pace::new(0, 0);
/// let rate = pace.rate(2_000, 500); // 250 octets a second
/// ```
#[derive(Clone, Copy)]
pub struct Pace {
    older: Sample,
    newer: Sample,
}

impl Pace {
    /// Returns the pace of a file if so many octets of it were sent at this time, in milliseconds.
    pub fn new(time: u64, octets: u64) -> Pace {
        let sample = Sample { time, octets };
        Pace {
            older: sample,
            newer: sample,
        }
    }

    /// Notes how many octets were sent at this time, in milliseconds, and returns how many a second
    /// that is.
    pub fn rate(&mut self, time: u64, octets: u64) -> u64 {
        if time >= self.newer.time.saturating_add(SPAN) {
            self.older = self.newer;
            self.newer = Sample { time, octets };
        }
        let before = self.older;
        octets_a_second(
            octets.saturating_sub(before.octets),
            time.saturating_sub(before.time),
        )
    }
}

/// How far a file is that is being sent, as a line of a terminal says it. If nothing is left to
/// send, or nothing is being sent, the rate and the time are left out.
#[derive(Clone, Copy)]
pub struct Sending<'a> {
    name: &'a [u8],
    percent: u64,
    size: u64,
    rest: Rest,
}

impl<'a> Sending<'a> {
    /// Returns how far a file of this name is if so many octets of `size` were sent, and so many
    /// are sent a second.
    pub fn new(name: &'a [u8], octets: u64, size: u64, rate: u64) -> Sending<'a>
        ensures name { result.name.now ≡ take 32 name.now }
        ensures percent { result.percent ≡ percent_of octets size }
        ensures size { result.size ≡ size }
        ensures rate { result.rest.rate ≡ rate }
        ensures seconds { result.rest.seconds ≡ seconds_of (size - octets) rate }
    {
        let seconds = seconds_left(size.saturating_sub(octets), rate);
        Sending {
            name: front_of(name),
            percent: percent_sent(octets, size),
            size,
            rest: Rest { rate, seconds },
        }
    }
}

impl fmt::Display for Sending<'_> {
    ghost output = { λ it. Some (sending_text it.name.now it.percent it.size (rest_text it.rest.rate
        it.rest.seconds)) };

    fn fmt<W: fmt::Write>(&self, f: &mut fmt::Formatter<W>) -> fmt::Result {
        let Sending {
            name,
            percent,
            size,
            rest,
        } = *self;
        let name = Name(name);
        write!(f, "{name}: {percent} % of {size} octets sent{rest}")
    }
}

/// The rate, and the seconds in which the rest of a file goes.
#[derive(Clone, Copy)]
struct Rest {
    rate: u64,
    seconds: u64,
}

impl fmt::Display for Rest {
    ghost output = { λ it. Some (rest_text it.rate it.seconds) };

    fn fmt<W: fmt::Write>(&self, f: &mut fmt::Formatter<W>) -> fmt::Result {
        let Rest { rate, seconds } = *self;
        if seconds == 0 {
            Ok(())
        } else {
            write!(f, ", {rate} octets/s, {seconds} s left")
        }
    }
}

/// Returns what is shown of a name.
fn front_of(name: &[u8]) -> &[u8]
    ensures { result.now ≡ take 32 name.now }
{
    if name.len() > MOST_NAME {
        &name[..MOST_NAME]
    } else {
        name
    }
}

/// Returns what was sent of a file of so many octets, in percent.
#[tactic(auto, unfolding(crate::specs::Pace::percent_of))]
pub fn percent_sent(octets: u64, size: u64) -> u64
    ensures { result ≡ percent_of octets size }
{
    if size == 0 {
        return 100;
    }
    let percent = 100 * u128::from(octets) / u128::from(size);
    percent.min(100) as u64
}

/// Returns the octets of a second, if so many went in so many milliseconds.
pub fn octets_a_second(octets: u64, milliseconds: u64) -> u64
    ensures { result ≡ min (rate_of octets milliseconds) (2 ^ 64 - 1) }
{
    if milliseconds == 0 {
        return 0;
    }
    let rate = 1_000 * u128::from(octets) / u128::from(milliseconds);
    rate.min(u128::from(u64::MAX)) as u64
}

/// Returns the seconds in which so many octets go at this rate; 0 if nothing goes.
#[tactic(auto, unfolding(crate::specs::Pace::seconds_of))]
pub fn seconds_left(octets: u64, rate: u64) -> u64
    ensures { result ≡ seconds_of octets rate }
{
    if rate == 0 {
        return 0;
    }
    octets.div_ceil(rate)
}
