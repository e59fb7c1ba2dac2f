ghost use Rattle.std.specs.Prelude.{◌≡◌};
ghost use Rattle.std.specs.Result.{result_ok};
ghost use Rattle.cfdp_report.specs.Numbers.{number_of, octet_of};
ghost use Rattle.cfdp_report.specs.Words.{left};
ghost use Rattle.cfdp_report.specs.Meaning.{both};
ghost use Rattle.cfdp_script.specs.Script.Lines.{Reads, line_of, meaning, set_of, file_of};
ghost use Rattle.cfdp_script.specs.Script.Lines.{fill_of, fill_count, command_of, put_of, call_of};
ghost use Rattle.cfdp_script.specs.Script.Lines.{motion_of, round_of, station_words};
ghost use Rattle.cfdp_script.specs.Script.Lines.{transaction_words, number_words, frames_of};
ghost use Rattle.cfdp_script.specs.Script.Lines.{which_of, count_of, frame_number, lane_of};
ghost use Rattle.cfdp_script.specs.Script.Lines.{prompt_of};
ghost use Rattle.cfdp_script.specs.Script.Lines.{damage_at, damage_of, damaged_of};
ghost use Rattle.cfdp_script.specs.Script.Lines.{disorder_of, pick_at, pick_of, restart_at};
ghost use Rattle.cfdp_script.specs.Script.Lines.{restart_of};
ghost use Rattle.cfdp_script.specs.Script.Lines.{station_of};

use cfdp_directives::Octets;
use cfdp_header::TransactionId;
use cfdp_report::{
    LineError, Setting, Unread, Words, parse_asked, parse_hex_octet, parse_id, parse_number,
    parse_setting,
};
use link_sim::{Event, Lane, Side};
use std::alloc::Global;

/// The longest line of a script, in octets, without its line feed.
pub const MAX_LINE: usize = 4096;

/// The longest file that `fill` makes, in octets.
pub const MAX_FILL: u64 = 1_048_576;

/// One line of a script.
#[derive(Drop)]
pub enum Line {
    /// `set KEY N`.
    Set(Setting, u64),
    /// `file S NAME TEXT` or `fill S NAME N HH`.
    File(FileLine),
    /// A command that makes something happen.
    Command(Command),
}

/// A file that a script puts into a station's outbox.
#[derive(Drop)]
pub struct FileLine {
    pub at: Side,
    pub name: Octets,
    pub contents: Contents,
}

/// What is in a file that a script makes.
#[derive(Drop)]
pub enum Contents {
    /// These octets.
    Text(Octets),
    /// An octet, a number of times: at most `MAX_FILL`.
    Fill { count: u64, octet: u8 },
}

/// A command of a script: what happens to the stations and the link.
#[derive(Drop)]
pub enum Command {
    /// An event: `put S SRC DST`, `cancel S ID`, `suspend S ID`, `resume S ID`, `prompt S ID nak`,
    /// `prompt S ID keep`, `poll S`, `flush S`, `tick S N`.
    Once(Event),
    /// An event, a number of times: `deliver S dir [N]`, `strike S data [N]`.
    Repeat(Event, u64),
    /// What happens, a number of times, to the frame that the station sent first, of all of its
    /// frames that wait in either lane: `deliver S [N]`, `strike S [N]`.
    First {
        fate: Fate,
        from: Side,
        count: u64,
    },
    /// `damage S AT HH`, `damage S LANE AT HH`: the oldest frame that waits in the lane comes
    /// damaged; without a lane the one that the station sent first.
    Damage {
        from: Side,
        lane: Option<Lane>,
        damage: Damage,
    },
    /// `spread S`: polls until nothing is due, with a flush after each PDU.
    Spread(Side),
    /// `burst S`: polls until nothing is due, then one flush.
    Burst(Side),
    /// `settle`: polls, flushes and delivers until nothing is due and nothing waits.
    Settle,
    /// `recover`: settles, and gives stations the time and settles again, until no timer is armed
    /// except those of Inactivity.
    Recover,
    /// What no link that keeps its order does, or a station that restarts.
    Disorder(Disorder),
}

/// What happens to frames on a link that keeps no order, and a station that restarts. A world that
/// keeps the order of its frames does none of it.
#[derive(Clone, Copy)]
pub enum Disorder {
    /// `overtake S N`, `overtake S LANE N`: the frame that has N waiting ones before it, of its
    /// lane or of both, arrives before these.
    Overtake(Pick),
    /// `repeat S N`, `repeat S LANE N`: a frame that arrived before arrives again: the Nth, counted
    /// back from the one that arrived last, of a lane or of both.
    Again(Pick),
    /// `restart S`: the station restarts.
    Restart(Side),
    /// `restart S resume`: the station is killed, and resumes.
    Resume(Side),
}

/// One of the frames that a station sent, in one lane or in both, by a number.
#[derive(Clone, Copy)]
pub struct Pick {
    /// The station that sent it.
    pub from: Side,
    /// The lane whose frames are counted; `None` if the frames of both are.
    pub lane: Option<Lane>,
    /// Which one: it must be at least 1.
    pub number: u64,
}

/// What is damaged of a frame: one octet comes as another one.
#[derive(Clone, Copy)]
pub struct Damage {
    /// How many octets of the frame stand before it.
    pub at: u64,
    /// What comes in its place.
    pub octet: u8,
}

/// What happens to a frame that waits.
#[derive(Clone, Copy)]
pub enum Fate {
    /// It arrives.
    Arrives,
    /// It is lost.
    IsLost,
}

impl Fate {
    ghost use Rattle.cfdp_script.specs.Script.Lines.{befalls};

    /// Returns the event that has this effect on the oldest waiting frame that this station sent in
    /// this lane.
    pub fn event(self, from: Side, lane: Lane) -> Event
        ensures { result ≡ befalls self from lane }
    {
        match self {
            Fate::Arrives => Event::Deliver(from, lane),
            Fate::IsLost => Event::Strike(from, lane),
        }
    }
}

/// Reads a line that must be read: it isn't empty and doesn't begin with `#`.
///
/// # Errors
///
/// `Bad` with any `LineError` before `TooLate`; `NoMemory` if there is no memory for the names
/// and the text in it.
pub fn parse_line(alloc: Global, line: &[u8]) -> Result<Line, Unread>
    ensures { Reads result (line_of line.now) }
{
    if line.len() > MAX_LINE {
        return Err(Unread::Bad(LineError::TooLong));
    }
    if !line.is_ascii() {
        return Err(Unread::Bad(LineError::NotAscii));
    }
    parse_words(alloc, Words::of(line))
}

fn parse_words(alloc: Global, mut words: Words<'_>) -> Result<Line, Unread>
    ensures { Reads result (meaning (left words.entry)) }
{
    let verb = words.next_word()?;
    if verb == b"set".as_slice() {
        Ok(parse_set(words)?)
    } else if verb == b"file".as_slice() {
        parse_file(alloc, words)
    } else if verb == b"fill".as_slice() {
        parse_fill(alloc, words)
    } else {
        Ok(Line::Command(parse_command(alloc, verb, words)?))
    }
}

fn parse_set(words: Words<'_>) -> Result<Line, LineError>
    ensures { result_ok result ≡ set_of (left words.entry) }
{
    let (key, value) = words.two()?;
    let setting = parse_setting(key).ok_or(LineError::UnknownKey)?;
    Ok(Line::Set(setting, parse_value(value)?))
}

fn parse_file(alloc: Global, mut words: Words<'_>) -> Result<Line, Unread>
    ensures { Reads result (file_of (left words.entry)) }
{
    let station = words.next_word()?;
    let name = words.next_word()?;
    let text = words.into_text()?;
    let at = parse_station(station)?;
    Ok(Line::File(FileLine {
        at,
        name: Octets::copied(alloc, name)?,
        contents: Contents::Text(Octets::copied(alloc, text)?),
    }))
}

fn parse_fill(alloc: Global, words: Words<'_>) -> Result<Line, Unread>
    ensures { Reads result (fill_of (left words.entry)) }
{
    let (station, name, count, octet) = words.four()?;
    let at = parse_station(station)?;
    let contents = parse_contents(count, octet)?;
    let name = Octets::copied(alloc, name)?;
    Ok(Line::File(FileLine { at, name, contents }))
}

/// Reads an octet and how often it stands in a file: at most `MAX_FILL` times.
fn parse_contents(count: &[u8], octet: &[u8]) -> Result<Contents, LineError>
    ensures { result_ok result ≡ both Contents.Fill (fill_count count.now) (octet_of octet.now) }
{
    Ok(Contents::Fill {
        count: parse_fill_count(count)?,
        octet: parse_octet(octet)?,
    })
}

fn parse_fill_count(word: &[u8]) -> Result<u64, LineError>
    ensures { result_ok result ≡ fill_count word.now }
{
    let count = parse_value(word)?;
    if count > MAX_FILL {
        return Err(LineError::FileTooLong);
    }
    Ok(count)
}

fn parse_command(alloc: Global, verb: &[u8], words: Words<'_>) -> Result<Command, Unread>
    ensures { Reads result (command_of verb.now (left words.entry)) }
{
    if verb == b"put".as_slice() {
        parse_put(alloc, words)
    } else {
        Ok(parse_call(verb, words)?)
    }
}

fn parse_put(alloc: Global, words: Words<'_>) -> Result<Command, Unread>
    ensures { Reads result (put_of (left words.entry)) }
{
    let (station, source, destination) = words.three()?;
    Ok(Command::Once(Event::Put {
        at: parse_station(station)?,
        source: Octets::copied(alloc, source)?,
        destination: Octets::copied(alloc, destination)?,
    }))
}

/// Reads a command that holds no name.
fn parse_call(verb: &[u8], words: Words<'_>) -> Result<Command, LineError>
    ensures { result_ok result ≡ call_of verb.now (left words.entry) }
{
    if verb == b"cancel".as_slice() {
        let (at, id) = parse_transaction(words)?;
        Ok(Command::Once(Event::Cancel { at, id }))
    } else if verb == b"suspend".as_slice() {
        let (at, id) = parse_transaction(words)?;
        Ok(Command::Once(Event::Suspend { at, id }))
    } else if verb == b"resume".as_slice() {
        let (at, id) = parse_transaction(words)?;
        Ok(Command::Once(Event::Resume { at, id }))
    } else if verb == b"prompt".as_slice() {
        parse_prompt(words)
    } else {
        parse_motion(verb, words)
    }
}

/// Reads a command that is of no transaction.
fn parse_motion(verb: &[u8], words: Words<'_>) -> Result<Command, LineError>
    ensures { result_ok result ≡ motion_of verb.now (left words.entry) }
{
    if verb == b"poll".as_slice() {
        Ok(Command::Once(Event::Poll(parse_alone(words)?)))
    } else if verb == b"flush".as_slice() {
        Ok(Command::Once(Event::Flush(parse_alone(words)?)))
    } else if verb == b"tick".as_slice() {
        let (at, now) = parse_number_at(words)?;
        Ok(Command::Once(Event::Tick { at, now }))
    } else if verb == b"deliver".as_slice() {
        parse_frames(Fate::Arrives, words)
    } else if verb == b"strike".as_slice() {
        parse_frames(Fate::IsLost, words)
    } else if verb == b"damage".as_slice() {
        parse_damaged(words)
    } else {
        parse_round(verb, words)
    }
}

/// Reads a command that goes on until nothing is left to do.
fn parse_round(verb: &[u8], words: Words<'_>) -> Result<Command, LineError>
    ensures { result_ok result ≡ round_of verb.now (left words.entry) }
{
    if verb == b"spread".as_slice() {
        Ok(Command::Spread(parse_alone(words)?))
    } else if verb == b"burst".as_slice() {
        Ok(Command::Burst(parse_alone(words)?))
    } else if verb == b"settle".as_slice() {
        words.end()?;
        Ok(Command::Settle)
    } else if verb == b"recover".as_slice() {
        words.end()?;
        Ok(Command::Recover)
    } else {
        Ok(Command::Disorder(parse_disorder(verb, words)?))
    }
}

/// Reads a command that a link which keeps its order doesn't do, or a restart.
fn parse_disorder(verb: &[u8], words: Words<'_>) -> Result<Disorder, LineError>
    ensures { result_ok result ≡ disorder_of verb.now (left words.entry) }
{
    if verb == b"overtake".as_slice() {
        Ok(Disorder::Overtake(parse_pick(words)?))
    } else if verb == b"repeat".as_slice() {
        Ok(Disorder::Again(parse_pick(words)?))
    } else if verb == b"restart".as_slice() {
        parse_restart(words)
    } else {
        Err(LineError::UnknownCommand)
    }
}

/// Reads a station that restarts, or resumes.
fn parse_restart(mut words: Words<'_>) -> Result<Disorder, LineError>
    ensures { result_ok result ≡ restart_of (left words.entry) }
{
    let at = parse_station(words.next_word()?)?;
    parse_restart_at(at, words)
}

/// Reads whether this station resumes.
fn parse_restart_at(at: Side, words: Words<'_>) -> Result<Disorder, LineError>
    ensures { result_ok result ≡ restart_at at (left words.entry) }
{
    if words.is_empty() {
        return Ok(Disorder::Restart(at));
    }
    if words.one()? == b"resume".as_slice() {
        Ok(Disorder::Resume(at))
    } else {
        Err(LineError::ExtraWord)
    }
}

/// Reads one frame of a station.
fn parse_pick(mut words: Words<'_>) -> Result<Pick, LineError>
    ensures { result_ok result ≡ pick_of (left words.entry) }
{
    let from = parse_station(words.next_word()?)?;
    parse_pick_at(from, words)
}

/// Reads one frame of this station: of a lane if one is given, or of both.
fn parse_pick_at(from: Side, mut words: Words<'_>) -> Result<Pick, LineError>
    ensures { result_ok result ≡ pick_at from (left words.entry) }
{
    let word = words.next_word()?;
    match parse_lane(word) {
        Some(lane) => {
            let word = words.one()?;
            let (lane, number) = (Some(lane), parse_frame_number(word, LineError::BadNumber)?);
            Ok(Pick { from, lane, number })
        }
        None => {
            words.end()?;
            let (lane, number) = (None, parse_frame_number(word, LineError::UnknownLane)?);
            Ok(Pick { from, lane, number })
        }
    }
}

/// Reads a station, and nothing else.
fn parse_alone(words: Words<'_>) -> Result<Side, LineError>
    ensures { result_ok result ≡ station_words (left words.entry) }
{
    parse_station(words.one()?)
}

/// Reads a station and a transaction.
fn parse_transaction(words: Words<'_>) -> Result<(Side, TransactionId), LineError>
    ensures { result_ok result ≡ transaction_words (left words.entry) }
{
    let (station, id) = words.two()?;
    Ok((parse_station(station)?, parse_id(id)?))
}

/// Reads a station and a number.
fn parse_number_at(words: Words<'_>) -> Result<(Side, u64), LineError>
    ensures { result_ok result ≡ number_words (left words.entry) }
{
    let (station, number) = words.two()?;
    Ok((parse_station(station)?, parse_value(number)?))
}

/// Reads what happens to frames: the station, and which of its frames.
fn parse_frames(fate: Fate, mut words: Words<'_>) -> Result<Command, LineError>
    ensures { result_ok result ≡ frames_of fate (left words.entry) }
{
    let from = parse_station(words.next_word()?)?;
    parse_which(fate, from, words)
}

/// Reads which frames: those of a lane or of both, and how many: one if no number is given.
fn parse_which(fate: Fate, from: Side, mut words: Words<'_>) -> Result<Command, LineError>
    ensures { result_ok result ≡ which_of fate from (left words.entry) }
{
    if words.is_empty() {
        return Ok(Command::First {
            fate,
            from,
            count: 1,
        });
    }
    let word = words.next_word()?;
    match parse_lane(word) {
        Some(lane) => Ok(Command::Repeat(fate.event(from, lane), parse_count(words)?)),
        None => {
            words.end()?;
            let count = parse_number(word).ok_or(LineError::UnknownLane)?;
            Ok(Command::First { fate, from, count })
        }
    }
}

/// Reads what is damaged: the station, which of its frames, and which octet of it.
fn parse_damaged(mut words: Words<'_>) -> Result<Command, LineError>
    ensures { result_ok result ≡ damaged_of (left words.entry) }
{
    let from = parse_station(words.next_word()?)?;
    parse_damage_at(from, words)
}

/// Reads which frame, and what of it: if no lane is given, the frame which was sent first.
fn parse_damage_at(from: Side, mut words: Words<'_>) -> Result<Command, LineError>
    ensures { result_ok result ≡ damage_at from (left words.entry) }
{
    let word = words.next_word()?;
    match parse_lane(word) {
        Some(lane) => {
            let (at, octet) = words.two()?;
            let (lane, damage) = (Some(lane), parse_damage(at, octet)?);
            Ok(Command::Damage { from, lane, damage })
        }
        None => {
            let octet = words.one()?;
            let (lane, damage) = (None, parse_damage(word, octet)?);
            Ok(Command::Damage { from, lane, damage })
        }
    }
}

/// Reads which octet of a frame is replaced, and what comes in its place.
fn parse_damage(at: &[u8], octet: &[u8]) -> Result<Damage, LineError>
    ensures { result_ok result ≡ damage_of at.now octet.now }
{
    Ok(Damage {
        at: parse_value(at)?,
        octet: parse_octet(octet)?,
    })
}

/// Reads how many: one if no number is given.
fn parse_count(words: Words<'_>) -> Result<u64, LineError>
    ensures { result_ok result ≡ count_of (left words.entry) }
{
    if words.is_empty() {
        return Ok(1);
    }
    parse_value(words.one()?)
}

/// Reads which frame this word says: 1 is the first. It is an error if the word is no number.
fn parse_frame_number(word: &[u8], no_number: LineError) -> Result<u64, LineError>
    ensures { result_ok result ≡ frame_number word.now }
{
    let number = parse_number(word).ok_or(no_number)?;
    if number < 1 {
        return Err(LineError::NoFrame);
    }
    Ok(number)
}

/// Returns the lane of this name.
fn parse_lane(word: &[u8]) -> Option<Lane>
    ensures { result ≡ lane_of word.now }
{
    if word == b"dir".as_slice() {
        Some(Lane::Directives)
    } else if word == b"data".as_slice() {
        Some(Lane::Data)
    } else {
        None
    }
}

fn parse_prompt(words: Words<'_>) -> Result<Command, LineError>
    ensures { result_ok result ≡ prompt_of (left words.entry) }
{
    let (station, id, asked) = words.three()?;
    Ok(Command::Once(Event::Prompt {
        at: parse_station(station)?,
        id: parse_id(id)?,
        keep_alive: parse_asked(asked)?,
    }))
}

fn parse_value(word: &[u8]) -> Result<u64, LineError>
    ensures { result_ok result ≡ number_of word.now }
{
    parse_number(word).ok_or(LineError::BadNumber)
}

fn parse_octet(word: &[u8]) -> Result<u8, LineError>
    ensures { result_ok result ≡ octet_of word.now }
{
    parse_hex_octet(word).ok_or(LineError::BadOctet)
}

fn parse_station(word: &[u8]) -> Result<Side, LineError>
    ensures { result_ok result ≡ station_of word.now }
{
    match parse_number(word) {
        Some(1) => Ok(Side::One),
        Some(2) => Ok(Side::Two),
        _ => Err(LineError::UnknownStation),
    }
}
