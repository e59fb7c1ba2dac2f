//! Dumps: what lines of hexadecimal digits spell, or what the packets of a capture carry.
ghost use Rattle.std.specs.Prelude.{◌≡◌, ◌⊎◌, ◌<◌, ◌≤◌, ◌∷◌, length, nat_le, IfOk, OnOk};
ghost use Rattle.std.specs.Io.Buffered.{writer_buffer, writer_contents};
ghost use Rattle.std.specs.Option.{option_map};
ghost use Rattle.std.specs.Result.{result_ok};
ghost use Rattle.hex.specs.Hex.{decode_of};
ghost use Rattle.cfdp_dump.specs.Spelled.Shape.{IsShape};
ghost use Rattle.cfdp_report.specs.Exit.{IsFlushedAt};
ghost use Rattle.cfdp_dump.specs.Dump.{EndsDump, WritesFile, WritesPieces, WritesText};
ghost use Rattle.cfdp_dump.specs.Dump.{most_octets};
ghost use Rattle.cfdp_dump.specs.Dump.Rows.{hex_octets};
ghost use Rattle.cfdp_dump.specs.Dump.Rows as rows;
ghost use Rattle.cfdp_dump.specs.Dump.Stepping.{ended_pieces, piece_texts};
ghost use Rattle.cfdp_dump.specs.Spelled.Lines.{WritesLine};
ghost use Rattle.cfdp_dump.specs.Dump.Told.{BadHex, TellsTold};
ghost use Rattle.cfdp_dump.specs.Dump as dumps;

mod bad_hex;
mod capture;
mod remark;
mod rows;
mod step;
mod unit;

use crate::channels::Channels;
use crate::dump::bad_hex::BadPlace;
use crate::dump::capture::write_capture;
use crate::dump::step::{Piece, take_line};
use crate::dump::unit::write_unit;
use crate::spelled::form::DumpForm;
use crate::spelled::refusal::LineRefusal;
use crate::spelled::shape::FrameShape;
use captures::Capture;
use cfdp_report::{Exit, Fault, cut_at_first, read_up_to};
use hex::FromHexError;
use std::alloc::{AllocError, Global};
use std::io;
use std::io::{BufWriter, ErrorKind, Read, Write};

/// The longest input of a dump, in octets: 64 MiB.
const MAX_FILE: usize = 67_108_864;

/// The longest input that is digits alone, in octets: 1 MiB.
const MAX_DIGITS: usize = 1_048_576;

/// What the lines of a dump must spell.
#[derive(Clone, Copy)]
pub enum DumpKind {
    /// PDUs.
    Pdus,
    /// AOS transfer frames.
    Frames,
}

/// What the lines are that a dump reads, and how it must show them.
#[derive(Clone, Copy)]
pub struct DumpRequest {
    /// What the lines are.
    pub kind: DumpKind,
    /// What frames are made of: their packet zone must have 16 to 2,040 octets, and their insert
    /// zone at most 64.
    pub shape: FrameShape,
    /// How they are shown.
    pub form: DumpForm,
    /// Whether what frames carry is shown, too: their packets, and the PDUs in these.
    pub deep: bool,
    /// Whether lines are read as tools write them that show octets.
    pub by_tools: bool,
}

/// Reads a file to its end, and writes what it spells: a capture if it begins as one, otherwise
/// lines of hexadecimal digits.
///
/// For each line it writes one that says what the line spells, or with fields a line for each and
/// an empty one. A line is pairs of digits, of either case, and ends with a line feed, which the
/// last one may lack; an empty line is no octets. With `by_tools` spaces may stand anywhere between
/// the digits, `0x` may stand after a space or at the line's beginning, a carriage return may stand
/// at its end, and lines that begin with an offset, as `xxd`, `hexdump -C` and Wireshark write
/// them, are read as one.
///
/// Of a capture it does the same for the payload of each UDP datagram, or for what was captured
/// as it is, and names what it can't read.
///
/// Frames have the packet zone and the fields of `shape`, and are shown whatever their spacecraft
/// and channel. Of PDUs `shape` says nothing. If `deep` is true, after a frame stands what it
/// carries, by the frames before it.
///
/// The answer is `Complete` whatever the lines say, once all have left the buffer. It is `Device`
/// if they couldn't be read, as `read_up_to` says, or are more than 1 MiB of digits alone or 64 MiB
/// of anything else; if a line couldn't be written; or if there was no memory. Nothing is written
/// unless all was read, and nothing is written twice.
pub fn run_dump<R: Read + Drop, W: Write + Drop>(
    alloc: Global,
    request: DumpRequest,
    reader: R,
    out: &mut BufWriter<W>,
) -> Exit
    requires { IsShape request.shape }
    ensures told { EndsDump request (R.remaining reader) (writer_contents W.contents out.old)
        (writer_contents W.contents out.new) result }
    ensures flushed { IsFlushedAt result (writer_buffer out.new) }
{
    dump_lines(alloc, request, reader, out).flushed(out)
}

/// Reads lines, and writes for each what it spells, as [`run_dump`] does. The writer isn't flushed.
pub fn dump_lines<R: Read + Drop, W: Write>(
    alloc: Global,
    request: DumpRequest,
    reader: R,
    out: &mut W,
) -> Exit
    requires { IsShape request.shape }
    ensures { EndsDump request (R.remaining reader) (W.contents out.old) (W.contents out.new)
        result }
{
    let file = match read_up_to(alloc, reader, MAX_FILE) {
        Ok(file) => file,
        Err(fault) => return Exit::Device(fault),
    };
    if !is_short(alloc, request, file.as_slice()) {
        return Exit::Device(Fault::TooLong);
    }
    match write_dump(alloc, request, file.as_slice(), out) {
        Ok(()) => Exit::Complete,
        Err(error) => Exit::Device(write_fault(&error)),
    }
}

/// Returns what failed if the output was not written to its end.
fn write_fault(error: &io::Error) -> Fault
    ensures { (result ≡ Fault.NoMemory) ⊎ (result ≡ Fault.Unwritable) }
{
    match error.kind() {
        ErrorKind::OutOfMemory => Fault::NoMemory,
        _ => Fault::Unwritable,
    }
}

/// Returns `true` if a file has no more octets than are read of one of its kind.
fn is_short(alloc: Global, request: DumpRequest, file: &[u8]) -> bool
    requires { length file.now ≤ MAX_FILE }
    ensures { result ≡ nat_le (length file.now) (most_octets request file.now) }
{
    request.by_tools || file.len() <= MAX_DIGITS || Capture::of(alloc, file).is_some()
}

/// Writes what a file spells: a capture, if it begins as one, otherwise lines.
///
/// # Errors
///
/// The error of the writer, or `OutOfMemory`.
fn write_dump<W: Write>(
    alloc: Global,
    request: DumpRequest,
    file: &[u8],
    out: &mut W,
) -> io::Result<()>
    requires { IsShape request.shape }
    ensures { OnOk result (WritesFile request file.now
        (W.contents out.old) (W.contents out.new)) }
{
    match Capture::of(alloc, file) {
        Some(mut capture) => write_capture(alloc, request, &mut capture, file, out),
        None => write_lines(alloc, request, file, out),
    }
}

/// Writes what the lines of a text spell.
///
/// # Errors
///
/// The error of the writer, or `OutOfMemory`.
fn write_lines<W: Write>(
    alloc: Global,
    request: DumpRequest,
    text: &[u8],
    out: &mut W,
) -> io::Result<()>
    requires { IsShape request.shape }
    ensures { OnOk result (WritesText request text.now
        (W.contents out.old) (W.contents out.new)) }
{
    let mut channels = Channels::new(alloc);
    let mut begun = None;
    let mut rest = text;
    while !rest.is_empty() {
        let (line, behind) = cut_line(rest);
        let step = take_line(alloc, request.by_tools, begun, line)?;
        write_ended(request, step.ended, &mut channels, out)?;
        write_piece(request, step.piece, &mut channels, out)?;
        begun = step.begun;
        rest = behind;
    }
    write_ended(request, begun, &mut channels, out)
}

/// Returns the first line of a text, without its line feed, and the text after it.
fn cut_line(text: &[u8]) -> (&[u8], &[u8])
    requires { 0 < length text.now }
    ensures lines { dumps.lines text.now ≡ result.0.now ∷ dumps.lines result.1.now }
    ensures shorter { length result.1.now < length text.now }
{
    let (line, behind) = cut_at_first(text, b'\n');
    match behind {
        Some(behind) => (line, behind),
        None => (line, &text[text.len()..]),
    }
}

/// Writes what a unit of several lines spells that has ended, if one has.
///
/// # Errors
///
/// The error of the writer, or `OutOfMemory`.
fn write_ended<W: Write>(
    request: DumpRequest,
    ended: Option<Vec<u8>>,
    channels: &mut Channels,
    out: &mut W,
) -> io::Result<()>
    requires { IsShape request.shape }
    ensures { OnOk result (WritesPieces request (ended_pieces ended) channels.old channels.new
        (W.contents out.old) (W.contents out.new)) }
{
    match ended {
        Some(octets) => write_unit(request, octets.as_slice(), channels, out),
        None => Ok(()),
    }
}

/// Writes what a piece is, if there is one.
///
/// # Errors
///
/// The error of the writer, or `OutOfMemory`.
fn write_piece<W: Write>(
    request: DumpRequest,
    piece: Option<Piece<'_>>,
    channels: &mut Channels,
    out: &mut W,
) -> io::Result<()>
    requires { IsShape request.shape }
    ensures { OnOk result (WritesPieces request (piece_texts piece.entry) channels.old channels.new
        (W.contents out.old) (W.contents out.new)) }
{
    match piece {
        Some(Piece::Octets(octets)) => write_unit(request, octets.as_slice(), channels, out),
        Some(Piece::Bad { before, digits }) => write_bad_hex(request, before, digits, out),
        None => Ok(()),
    }
}

/// Writes that what stands after so many octets of a line isn't pairs of hexadecimal digits, and at
/// which column.
///
/// # Errors
///
/// The error of the writer, if it fails.
fn write_bad_hex<W: Write>(
    request: DumpRequest,
    before: u8,
    digits: &[u8],
    out: &mut W,
) -> io::Result<()>
    ensures { OnOk result (WritesLine (TellsTold request (BadHex before digits.now))
        (W.contents out.old) (W.contents out.new)) }
{
    let place = BadPlace::of(request, before, digits);
    writeln!(out, "{}{place}{}", LineRefusal::Hex, request.form.end())
}

/// Returns the octets that the hexadecimal digits of a text spell, in either case, with spaces
/// between words that may begin with `0x`. Returns `None` if it has anything else.
fn parse_hex(alloc: Global, text: &[u8]) -> Result<Option<Vec<u8>>, AllocError>
    ensures { IfOk result (λ octets. option_map (λ v. v.items) octets ≡ hex_octets text.now) }
{
    let digits = digits_of(alloc, text)?;
    parse_digits(alloc, digits.as_slice())
}

/// Returns the words of a text without the spaces between, and without `0x` if one begins so.
fn digits_of(alloc: Global, line: &[u8]) -> Result<Vec<u8>, AllocError>
    ensures { IfOk result (λ digits. digits.items ≡ rows.digits_of line.now) }
{
    let mut digits = Vec::new(alloc);
    let mut rest = Some(line);
    while let Some(words) = rest {
        let (word, behind) = cut_at_first(words, b' ');
        digits.extend_from_slice(bare(word))?;
        rest = behind;
    }
    Ok(digits)
}

/// Returns a word without the `0x` that it may begin with.
fn bare(word: &[u8]) -> &[u8]
    ensures { result.now ≡ rows.bare word.now }
{
    if word.len() >= 2 && word[0] == b'0' && word[1] == b'x' {
        &word[2..]
    } else {
        word
    }
}

/// Returns the octets that pairs of hexadecimal digits spell, in either case. Returns `None` if
/// there is anything else.
fn parse_digits(alloc: Global, digits: &[u8]) -> Result<Option<Vec<u8>>, AllocError>
    ensures { IfOk result (λ octets. option_map (λ v. v.items) octets
        ≡ result_ok (decode_of digits.now)) }
{
    match hex::decode(alloc, digits) {
        Ok(octets) => Ok(Some(octets)),
        Err(FromHexError::OutOfMemory) => Err(AllocError),
        Err(FromHexError::InvalidHexCharacter { .. }) => Ok(None),
        Err(FromHexError::OddLength) => Ok(None),
        Err(FromHexError::InvalidStringLength) => Ok(None),
    }
}
