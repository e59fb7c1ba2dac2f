//! Asks a station that runs.
use crate::cause::{address_cause, is_malformed};
use crate::json_answer::JsonAnswer;
use crate::shown::ShownAnswer;
use crate::stream::{Stream, socket_path};
use cfdp_report::cause_text;
use std::alloc::{AllocError, Global};
use std::io::{BufWriter, ErrorKind, Read, Write};
use std::net::{TcpStream, ToSocketAddrs};
use std::os::unix::net::UnixStream;
use std::time::{Duration, Instant};
use std::{fmt, io};

/// For so long, in seconds, an answer is awaited, from the start on.
const PATIENCE: u64 = 10;

/// The most octets of an answer: a station has no more wait. Each read brings one at least.
const MOST_ANSWER: usize = (1 << 20) + 4096;

/// Why no whole answer came.
#[derive(Drop)]
enum AskError {
    /// The system, or the other end.
    System(io::Error),
    /// The other end sends more than any station does.
    TooLong,
}

impl AskError {
    /// Returns `true` if the address is written as no address is.
    fn is_mistake(&self) -> bool {
        match self {
            AskError::System(error) => is_malformed(error.kind()),
            AskError::TooLong => false,
        }
    }
}

/// Why the station at an address wasn't asked.
#[derive(Clone, Copy)]
struct Unasked<'a> {
    address: &'a str,
    error: &'a AskError,
}

impl fmt::Display for Unasked<'_> {
    fn fmt<W: fmt::Write>(&self, f: &mut fmt::Formatter<W>) -> fmt::Result {
        match self.error {
            AskError::System(error) if socket_path(self.address).is_some() => {
                f.write_str(cause_text(error.kind()))
            }
            error => write!(f, "{error}"),
        }
    }
}

impl From<io::Error> for AskError {
    fn from(error: io::Error) -> AskError {
        AskError::System(error)
    }
}

impl From<AllocError> for AskError {
    fn from(error: AllocError) -> AskError {
        AskError::System(io::Error::from(error))
    }
}

impl fmt::Display for AskError {
    fn fmt<W: fmt::Write>(&self, f: &mut fmt::Formatter<W>) -> fmt::Result {
        match self {
            AskError::System(error) => f.write_str(address_cause(error.kind())),
            AskError::TooLong => write!(
                f,
                "the answer must have at most {MOST_ANSWER} octets: no station answers so"
            ),
        }
    }
}

/// The octets that are read at once, at most.
const MOST_READ: usize = 4096;

/// How a line begins that is answered in JSON.
const JSON: &str = "--json ";

/// The exit status if the station did what it was asked.
const DONE: u8 = 0;

/// The exit status if the station refused it.
const REFUSED: u8 = 1;

/// The exit status of bad arguments.
const MISTAKE: u8 = 2;

/// The exit status if no station answered.
const UNANSWERED: u8 = 3;

/// Sends these words as one line to the control address of a station that runs, and writes the
/// answer to standard output. Answers the exit status: 0 if the station did it, 1 if it
/// refused, 2 if the words are no line, 3 if there was no whole answer within ten seconds.
pub fn ask(rt: &HostRuntime, address: &str, words: &[String]) -> u8 {
    let Some(line) = line_of(rt.alloc(), words) else {
        let _ = eprintln!(rt; "error: empty command, or a line break in it");
        return MISTAKE;
    };
    let is_json = line.as_str().starts_with(JSON);
    match answer_to(rt, address, line.as_str()) {
        Ok(answer) => told_status(rt, answer.as_slice(), is_json),
        Err(error) => {
            let _ = eprintln!(rt;
                "error: {address}: {}",
                Unasked {
                    address,
                    error: &error
                }
            );
            if error.is_mistake() && socket_path(address).is_none() {
                MISTAKE
            } else {
                UNANSWERED
            }
        }
    }
}

/// The words with one space between, and a line feed. `None` if that is no line of a command.
fn line_of(alloc: Global, words: &[String]) -> Option<String> {
    let mut line = String::new(alloc);
    for word in words {
        let mark = if line.is_empty() { "" } else { " " };
        line.push_str(mark).ok()?;
        line.push_str(word.as_str()).ok()?;
    }
    if line.is_empty() || line.as_bytes().contains(&b'\n') {
        return None;
    }
    line.push('\n').ok()?;
    Some(line)
}

/// Writes an answer, as JSON or as it came, and says by the exit status what it was.
fn told_status(rt: &HostRuntime, answer: &[u8], is_json: bool) -> u8 {
    let text = answer.strip_suffix(b"\n".as_slice()).unwrap_or(answer);
    let written = if is_json {
        write_json(rt, text)
    } else {
        write_shown(rt, text)
    };
    if written.is_err() {
        return UNANSWERED;
    }
    if answer.starts_with(b"error: ") {
        REFUSED
    } else {
        DONE
    }
}

/// Writes an answer to standard output, so that it does nothing to a terminal but to show lines.
fn write_shown(rt: &HostRuntime, text: &[u8]) -> io::Result<()> {
    let mut out = BufWriter::new(rt.alloc(), io::writer(rt))?;
    write!(out, "{}", ShownAnswer(text))?;
    out.flush()
}

/// Writes an answer to standard output as one object of JSON.
fn write_json(rt: &HostRuntime, text: &[u8]) -> io::Result<()> {
    let mut out = BufWriter::new(rt.alloc(), io::writer(rt))?;
    writeln!(out, "{}", JsonAnswer(text))?;
    out.flush()
}

/// Connects to the control address of a station.
///
/// # Errors
///
/// That of the system.
fn connected(rt: &HostRuntime, address: &str, start: Instant) -> Result<Stream, AskError> {
    if let Some(path) = socket_path(address) {
        return Ok(Stream::Unix(UnixStream::connect(rt, path)?));
    }
    let Some(address) = address.to_socket_addrs(rt)?.next() else {
        return Err(AskError::from(io::Error::from(ErrorKind::AddrNotAvailable)));
    };
    let left = time_left(rt, start)?;
    Ok(Stream::Tcp(TcpStream::connect_timeout(rt, &address, left)?))
}

/// Sends a line, and answers what came, up to the empty line at its end.
///
/// # Errors
///
/// That of the system; `TimedOut` if it takes too long, and `UnexpectedEof` if the answer has no
/// end; `TooLong` if it is longer than any of a station.
fn answer_to(rt: &HostRuntime, address: &str, line: &str) -> Result<Vec<u8>, AskError> {
    let start = Instant::now(rt)?;
    let mut stream = connected(rt, address, start)?;
    stream.writes_within(time_left(rt, start)?)?;
    stream.write_all(line.as_bytes())?;
    let mut answer = Vec::new(rt.alloc());
    for _octet in 0..MOST_ANSWER {
        if is_whole(answer.as_slice()) {
            return Ok(answer);
        }
        stream.reads_within(time_left(rt, start)?)?;
        read_more(&mut stream, &mut answer)?;
        if answer.len() > MOST_ANSWER {
            break;
        }
    }
    Err(AskError::TooLong)
}

/// For how long an answer is still awaited.
///
/// # Errors
///
/// `TimedOut` if it isn't.
fn time_left(rt: &HostRuntime, start: Instant) -> io::Result<Duration> {
    match Duration::from_secs(PATIENCE).checked_sub(start.elapsed(rt)?) {
        Some(left) if !left.is_zero() => Ok(left),
        _ => Err(io::Error::from(ErrorKind::TimedOut)),
    }
}

/// Whether an answer has come to its end: an empty line.
fn is_whole(answer: &[u8]) -> bool {
    answer.ends_with(b"\n\n") || answer == b"\n".as_slice()
}

/// Reads more of an answer.
fn read_more(stream: &mut Stream, answer: &mut Vec<u8>) -> io::Result<()> {
    let mut buffer = [0u8; MOST_READ];
    match stream.read(&mut buffer) {
        Ok(0) => Err(io::Error::from(ErrorKind::UnexpectedEof)),
        Ok(len) => {
            answer.extend_from_slice(&buffer[..len])?;
            Ok(())
        }
        Err(error) if error.kind() == ErrorKind::WouldBlock => {
            Err(io::Error::from(ErrorKind::TimedOut))
        }
        Err(error) => Err(error),
    }
}
