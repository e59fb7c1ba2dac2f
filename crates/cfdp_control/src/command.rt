//! The lines by which an operator commands a station that runs.
ghost use Rattle.std.specs.Prelude.{◌≡◌, ◌++◌, List, ℕ, IfOk, IsTrue, codes, not, option_map};
ghost use Rattle.std.specs.Result.{result_ok};
ghost use Rattle.std.specs.Str.{IsTrimAsciiEnd};
ghost use Rattle.cfdp_report.specs.Words.{left};
ghost use Rattle.cfdp_control.specs.Asking.{Reads, ReadsRest, Sends};
ghost use Rattle.cfdp_control.specs.Asking.{asked_by, change_of, named_by, prompt_of};
ghost use Rattle.cfdp_control.specs.Asking.{alone, put_of, rest_of, stop_of, verb_of, wanted};

use cfdp_report::{LineError, Unread, Words, parse_asked, parse_id};
use cfdp_service::{OperatorCommand, PutNames};
use cfdp_station::Request;
use percent_encoding::percent_decode;
use std::alloc::{AllocError, Global};
use std::fmt;
use strsim::levenshtein;

/// What an operator asks of a station that runs.
#[derive(Drop)]
pub enum Asked {
    /// That it does something with its transactions, or ends.
    Command(OperatorCommand),
    /// That nothing leaves, nothing is taken, and its time stands still.
    Freeze,
    /// That it goes on from there.
    Thaw,
    /// Which transactions it has.
    List,
    /// What it counted.
    Counters,
    /// That it reads its file of keys again, and changes to these keys.
    Rekey,
    /// Which commands there are.
    Help,
}

/// The first word of a command.
#[derive(Clone, Copy, PartialEq, Eq)]
pub enum Verb {
    Put,
    Cancel,
    Suspend,
    Resume,
    Prompt,
    Freeze,
    Thaw,
    List,
    Counters,
    Rekey,
    Stop,
    Help,
}

impl Verb {
    /// All of them, in the order in which they are printed.
    pub const ALL: [Verb; 12] = [
        Verb::Put,
        Verb::Cancel,
        Verb::Suspend,
        Verb::Resume,
        Verb::Prompt,
        Verb::Freeze,
        Verb::Thaw,
        Verb::List,
        Verb::Counters,
        Verb::Rekey,
        Verb::Stop,
        Verb::Help,
    ];

    /// Returns the word itself.
    pub fn word(self) -> &'static str {
        match self {
            Verb::Put => "put",
            Verb::Cancel => "cancel",
            Verb::Suspend => "suspend",
            Verb::Resume => "resume",
            Verb::Prompt => "prompt",
            Verb::Freeze => "freeze",
            Verb::Thaw => "thaw",
            Verb::List => "list",
            Verb::Counters => "counters",
            Verb::Rekey => "rekey",
            Verb::Stop => "stop",
            Verb::Help => "help",
        }
    }

    /// Returns the whole command, with words in capitals for what the operator says.
    pub fn form(self) -> &'static str {
        match self {
            Verb::Put => "put [--first] SRC DST",
            Verb::Cancel => "cancel ID",
            Verb::Suspend => "suspend ID",
            Verb::Resume => "resume ID",
            Verb::Prompt => "prompt ID nak|keep",
            Verb::Stop => "stop [now]",
            Verb::Freeze | Verb::Thaw | Verb::List | Verb::Counters | Verb::Rekey | Verb::Help =>
                self.word(),
        }
    }

    /// Returns what the command does, in words.
    pub fn meaning(self) -> &'static str {
        match self {
            Verb::Put => "send the file SRC as DST; --first: before waiting files",
            Verb::Cancel => "cancel the transaction ID, e.g. 1:7",
            Verb::Suspend => "suspend the transaction",
            Verb::Resume => "resume the transaction",
            Verb::Prompt => "ask the peer for its NAKs, or for a Keep Alive",
            Verb::Freeze => "planned outage: send and accept nothing, stop timers",
            Verb::Thaw => "end the planned outage",
            Verb::List => "list open transactions",
            Verb::Counters => "print the counters",
            Verb::Rekey => "read the file of --keys again, and change to its keys",
            Verb::Stop => "finish the open puts, then exit; now: exit at once",
            Verb::Help => "list all commands",
        }
    }
}

/// The commands, a line for each: the answer to `help`.
#[derive(Clone, Copy)]
pub struct CommandHelp;

impl fmt::Display for CommandHelp {
    fn fmt<W: fmt::Write>(&self, f: &mut fmt::Formatter<W>) -> fmt::Result {
        for verb in Verb::ALL {
            let (form, meaning) = (verb.form(), verb.meaning());
            writeln!(f, "{form}: {meaning}")?;
        }
        Ok(())
    }
}

/// Why a line is no command.
#[derive(Clone, Copy)]
pub enum CommandError {
    /// Its first word isn't one of a command. The command whose word is most like it, if one is.
    Unknown(Option<Verb>),
    /// The words after the first one of this command are wrong.
    Malformed(Verb, LineError),
    /// There is no memory for what it says.
    NoMemory,
}

impl fmt::Display for CommandError {
    /// One line, without its end, which says what is wrong and what was expected.
    fn fmt<W: fmt::Write>(&self, f: &mut fmt::Formatter<W>) -> fmt::Result {
        match self {
            CommandError::Unknown(Some(nearest)) => {
                let form = nearest.form();
                write!(f, "unknown command; did you mean: {form}")
            }
            CommandError::Unknown(None) => {
                f.write_str("unknown command; the commands are")?;
                write_words(f)
            }
            CommandError::Malformed(verb, error) => {
                let form = verb.form();
                write!(f, "{error}; usage: {form}")
            }
            CommandError::NoMemory => f.write_str("out of memory"),
        }
    }
}

/// The first words of all commands.
fn write_words<W: fmt::Write>(f: &mut fmt::Formatter<W>) -> fmt::Result {
    for verb in Verb::ALL {
        let mark = if verb == Verb::Put { " " } else { ", " };
        f.write_str(mark)?;
        f.write_str(verb.word())?;
    }
    Ok(())
}

/// Returns the names that two words stand for, if each is a name as it is printed: `%` and two
/// hexadecimal digits stand for an octet, and any other octet for itself, as does a `%` without two
/// digits after it.
///
/// # Errors
///
/// `AllocError` if there is no memory for them.
pub fn printed_names(alloc: Global, words: &PutNames) -> Result<PutNames, AllocError>
    ensures source { IfOk result (λ names. names.source.items
        ≡ named_by words.now.source.items) }
    ensures destination { IfOk result (λ names. names.destination.items
        ≡ named_by words.now.destination.items) }
{
    Ok(PutNames {
        source: printed_name(alloc, words.source.as_slice())?,
        destination: printed_name(alloc, words.destination.as_slice())?,
    })
}

/// Returns the name that a word stands for.
fn printed_name(alloc: Global, word: &[u8]) -> Result<Vec<u8>, AllocError>
    ensures { IfOk result (λ name. name.items ≡ named_by word.now) }
{
    let mut name = Vec::new(alloc);
    percent_decode(word).append_to(&mut name)?;
    Ok(name)
}

/// Returns whether a line asks for an answer in JSON, and the command without that word.
pub fn split_form(line: &[u8]) -> (bool, &[u8])
    ensures json { IsTrue result.0 → line.now ≡ codes "--json " ++ result.1.now }
    ensures text { IsTrue (not result.0) → line.now ≡ result.1.now }
{
    match line.strip_prefix(b"--json ".as_slice()) {
        Some(command) => (true, command),
        None => (false, line),
    }
}

/// Reads a line, without its line feed, as a command: words with one space between. White space at
/// its end doesn't count, so that it may end with a carriage return.
///
/// # Errors
///
/// `Unknown` if its first word isn't that of a command, also if there is none; `Malformed`
/// if other words are wrong; `NoMemory` if there is none for its names.
pub fn parse_command(alloc: Global, line: &[u8]) -> Result<Asked, CommandError>
    ensures { (kept : List ℕ) × IsTrimAsciiEnd line.now kept × Reads result (asked_by kept) }
{
    parse_trimmed(alloc, line.trim_ascii_end())
}

/// Reads a line that doesn't end with white space.
fn parse_trimmed(alloc: Global, line: &[u8]) -> Result<Asked, CommandError>
    ensures { Reads result (asked_by line.now) }
{
    let mut words = Words::of(line);
    let Ok(first) = words.next_word() else {
        return Err(CommandError::Unknown(None));
    };
    let Some(verb) = parse_verb(first) else {
        return Err(unknown(alloc, first));
    };
    match parse_rest(alloc, verb, words) {
        Ok(asked) => Ok(asked),
        Err(Unread::Bad(error)) => Err(CommandError::Malformed(verb, error)),
        Err(Unread::NoMemory) => Err(CommandError::NoMemory),
    }
}

fn parse_verb(word: &[u8]) -> Option<Verb>
    ensures { result ≡ verb_of word.now }
{
    if word == b"put".as_slice() {
        Some(Verb::Put)
    } else if word == b"cancel".as_slice() {
        Some(Verb::Cancel)
    } else if word == b"suspend".as_slice() {
        Some(Verb::Suspend)
    } else if word == b"resume".as_slice() {
        Some(Verb::Resume)
    } else if word == b"prompt".as_slice() {
        Some(Verb::Prompt)
    } else if word == b"freeze".as_slice() {
        Some(Verb::Freeze)
    } else if word == b"thaw".as_slice() {
        Some(Verb::Thaw)
    } else if word == b"list".as_slice() {
        Some(Verb::List)
    } else if word == b"counters".as_slice() {
        Some(Verb::Counters)
    } else if word == b"rekey".as_slice() {
        Some(Verb::Rekey)
    } else if word == b"stop".as_slice() {
        Some(Verb::Stop)
    } else if word == b"help".as_slice() {
        Some(Verb::Help)
    } else {
        None
    }
}

fn parse_rest(alloc: Global, verb: Verb, words: Words<'_>) -> Result<Asked, Unread>
    ensures { ReadsRest result (rest_of verb (left words.entry)) }
{
    match verb {
        Verb::Put => parse_put(alloc, words),
        Verb::Cancel => Ok(parse_change(Request::Cancel, words)?),
        Verb::Suspend => Ok(parse_change(Request::Suspend, words)?),
        Verb::Resume => Ok(parse_change(Request::Resume, words)?),
        Verb::Prompt => Ok(parse_prompt(words)?),
        Verb::Freeze => Ok(parse_alone(Asked::Freeze, words)?),
        Verb::Thaw => Ok(parse_alone(Asked::Thaw, words)?),
        Verb::List => Ok(parse_alone(Asked::List, words)?),
        Verb::Counters => Ok(parse_alone(Asked::Counters, words)?),
        Verb::Rekey => Ok(parse_alone(Asked::Rekey, words)?),
        Verb::Stop => Ok(parse_stop(words)?),
        Verb::Help => Ok(parse_alone(Asked::Help, words)?),
    }
}

fn parse_put(alloc: Global, mut words: Words<'_>) -> Result<Asked, Unread>
    ensures { ReadsRest result (put_of (left words.entry)) }
{
    let word = words.next_word()?;
    if word == b"--first".as_slice() {
        let (source, destination) = words.two()?;
        return Ok(put(alloc, true, source, destination)?);
    }
    let destination = words.one()?;
    Ok(put(alloc, false, word, destination)?)
}

/// The put of a file under these names.
fn put(
    alloc: Global,
    is_first: bool,
    source: &[u8],
    destination: &[u8],
) -> Result<Asked, AllocError>
    ensures { IfOk result (λ asked. wanted asked ≡ Sends is_first source.now destination.now) }
{
    let names = PutNames {
        source: Vec::from_slice(alloc, source)?,
        destination: Vec::from_slice(alloc, destination)?,
    };
    Ok(Asked::Command(OperatorCommand::Put { names, is_first }))
}

fn parse_change(request: Request, words: Words<'_>) -> Result<Asked, LineError>
    ensures { option_map wanted (result_ok result) ≡ change_of request (left words.entry) }
{
    let id = parse_id(words.one()?)?;
    Ok(Asked::Command(OperatorCommand::Change(id, request)))
}

fn parse_prompt(words: Words<'_>) -> Result<Asked, LineError>
    ensures { option_map wanted (result_ok result) ≡ prompt_of (left words.entry) }
{
    let (id, kind) = words.two()?;
    let id = parse_id(id)?;
    let keep_alive = parse_asked(kind)?;
    Ok(Asked::Command(OperatorCommand::Change(id, Request::Prompt { keep_alive })))
}

fn parse_stop(words: Words<'_>) -> Result<Asked, LineError>
    ensures { option_map wanted (result_ok result) ≡ stop_of (left words.entry) }
{
    if words.is_empty() {
        return Ok(Asked::Command(OperatorCommand::Stop));
    }
    if words.one()? == b"now".as_slice() {
        Ok(Asked::Command(OperatorCommand::StopNow))
    } else {
        Err(LineError::ExtraWord)
    }
}

/// A command of one word.
fn parse_alone(asked: Asked, words: Words<'_>) -> Result<Asked, LineError>
    ensures { option_map wanted (result_ok result) ≡ alone (wanted asked) (left words.entry) }
{
    words.end()?;
    Ok(asked)
}

/// So many letters of a word may be others than those of a command that is near to it.
const NEAR: usize = 2;

/// A longer word is near to no command.
const LONGEST: usize = 12;

/// Why a line is no command whose first word is this one.
fn unknown(alloc: Global, word: &[u8]) -> CommandError {
    match nearest(alloc, word) {
        Ok(nearest) => CommandError::Unknown(nearest),
        Err(AllocError) => CommandError::Unknown(None),
    }
}

/// The command whose word is most like this one, if at most two letters differ.
fn nearest(alloc: Global, word: &[u8]) -> Result<Option<Verb>, AllocError> {
    let Ok(word) = str::from_utf8(word) else {
        return Ok(None);
    };
    if word.len() > LONGEST {
        return Ok(None);
    }
    let mut found = None;
    let mut least = NEAR + 1;
    for verb in Verb::ALL {
        let edits = levenshtein(alloc, word, verb.word())?;
        if edits < least {
            least = edits;
            found = Some(verb);
        }
    }
    Ok(found)
}
