//! What the words after `station` ask for.
ghost use Rattle.std.specs.Prelude.{◌≡◌, [], false, map, unwrap_or, IfOk, option_map};
ghost use Rattle.clap.specs.Matches.{found_of};
ghost use Rattle.clap.specs.Walk.{all_of, rows_of, rule_of};
ghost use Rattle.cfdp_command_line.specs.Looping.{number_rule, pairs_rule};
ghost use Rattle.cfdp_command_line.specs.Request.{IsCommand};
ghost use Rattle.cfdp_command_line.specs.Shown.{file_rule};
ghost use Rattle.cfdp_command_line.specs.Station.{addresses_app, carried_app, carrier_of_word};
ghost use Rattle.cfdp_command_line.specs.Station.{consoled_app};
ghost use Rattle.cfdp_command_line.specs.Station.{file_app, first_number_rule, flags_of, held_app};
ghost use Rattle.cfdp_command_line.specs.Station.{incoming_app, journaled_app, keyed_app};
ghost use Rattle.cfdp_command_line.specs.Station.{limits_of, lists_app};
ghost use Rattle.cfdp_command_line.specs.Station.{named_rule, names_of_word};
ghost use Rattle.cfdp_command_line.specs.Station.{names_app, numbered_app, numbers_of};
ghost use Rattle.cfdp_command_line.specs.Station.{operated_app};
ghost use Rattle.cfdp_command_line.specs.Station.{own_numbers_app, said_number_rule};
ghost use Rattle.cfdp_command_line.specs.Station.{said_rule, sent_app, spooled_app, station_app};
ghost use Rattle.cfdp_command_line.specs.Station.{station_asked, station_of, stores_app};
ghost use Rattle.cfdp_command_line.specs.Station.{told_app, unit_of_word, words_asked};

use crate::arguments::{file_for, file_under, flag, flag_under, is_given, owned_word, word_of};
use crate::looping::{number_in, tuned};
use crate::losses::{LossRequest, losses_command, losses_of};
use crate::shown::{shown_by, shown_command};
use cfdp_store::NameRule;
use cfdp_watch::Shown;
use clap::builder::ValueParser;
use clap::{Arg, ArgAction, ArgMatches, Command, value_parser};
use std::alloc::{AllocError, Global};

/// A station that must run, and what it must send.
#[derive(Drop)]
pub struct StationRequest {
    /// Who it is, and how it runs.
    pub numbers: StationNumbers,
    /// How much it does at a time, and what it takes.
    pub limits: StationLimits,
    /// What is said by a flag.
    pub flags: StationFlags,
    /// What a datagram carries.
    pub carrier: CarrierKind,
    /// The unit of the times that `--set` sets; `--idle` stays in seconds.
    pub unit: TimeUnit,
    /// Which names files may have that it sends or receives.
    pub names: NameRule,
    /// The address at which it listens.
    pub listen: String,
    /// The address of its peer.
    pub to: String,
    /// The path of the folder that received files come to.
    pub inbox: Option<String>,
    /// The path of the folder that the files lie in which it sends.
    pub outbox: Option<String>,
    /// The path of the folder whose files it sends as they come there.
    pub spool: Option<String>,
    /// The path of the file that keeps which numbers are reserved, if it is said.
    pub state: Option<String>,
    /// The path of the journal by which transfers go on after a restart, if there is one.
    pub journal: Option<String>,
    /// The path of the file of the keys by which frames are authenticated, if they are.
    pub keys: Option<String>,
    /// The TCP address on which commands are taken.
    pub control: Option<String>,
    /// The TCP address at which a browser is shown it.
    pub console: Option<String>,
    /// The path of the file with the token that the console asks for.
    pub console_token: Option<String>,
    /// The name of the host by which a proxy asks the console.
    pub console_host: Option<String>,
    /// The files that it sends: the name of each in that folder, and after it the one that it is
    /// to have at the peer.
    pub puts: Vec<String>,
    /// What is set: the key of each setting, and after it the value.
    pub sets: Vec<String>,
    /// What must be shown of it.
    pub shown: Shown,
}

/// Who a station is, and how it runs.
#[derive(Clone, Copy)]
pub struct StationNumbers {
    /// The id of its entity.
    pub id: u64,
    /// The id of its peer's.
    pub peer: u64,
    /// The seconds after which it ends in which nothing came and nothing was open, up to 1,000,000;
    /// with 0 it never does.
    pub idle: u64,
    /// The number of its first transaction; with 0 it begins after those that are reserved.
    pub first_number: u64,
    /// The most frames that leave in a second, up to 1,000,000; with 0 any number.
    pub rate: u64,
    /// Which of its frames are lost.
    pub losses: LossRequest,
}

/// How much a station does at a time, and what it takes.
#[derive(Clone, Copy)]
pub struct StationLimits {
    /// How often a file of the spool is sent again after a fault that may pass, up to 1,000.
    pub retries: u64,
    /// The most puts that are open at a time, 1 to 3,072.
    pub at_once: u64,
    /// The most octets of a file that comes, up to 2^48; greater ones are refused. With 0 there is
    /// no limit.
    pub most_size: u64,
    /// The most files that come at a time, up to 4,096; with 0 there is no limit.
    pub most_open: u64,
    /// The milliseconds after which the journal notes how far files are, 10 to 3,600,000.
    pub journal_every: u64,
}

/// What is said of a station by a flag, which is there or not.
#[derive(Clone, Copy)]
pub struct StationFlags {
    /// A file of the spool that was sent is removed, and not kept in the spool's folder `.sent`.
    pub remove_sent: bool,
    /// A file that comes under a name that is there is refused.
    pub no_overwrite: bool,
    /// No journal is kept, also if one is named.
    pub no_journal: bool,
    /// Commands are read from standard input.
    pub commands: bool,
    /// Lines begin with no time.
    pub no_time: bool,
    /// Each line is a JSON object.
    pub json: bool,
}

/// What a datagram carries.
#[derive(Clone, Copy, PartialEq, Eq)]
pub enum CarrierKind {
    /// An AOS transfer frame.
    Frames,
    /// A space packet.
    Packets,
    /// A PDU of the file delivery protocol.
    Pdus,
}

/// The unit of times that are set.
#[derive(Clone, Copy, PartialEq, Eq)]
pub enum TimeUnit {
    /// A second.
    Seconds,
    /// A millisecond.
    Milliseconds,
}

/// What must be right of what was said, in words of the command line.
#[derive(Clone, Copy)]
struct StationWords<'a> {
    numbers: StationNumbers,
    limits: StationLimits,
    carrier: CarrierKind,
    unit: TimeUnit,
    names: NameRule,
    listen: &'a str,
    to: &'a str,
}

const STATION_HELP: &str = "\
ADDR is HOST:PORT, e.g. 127.0.0.1:5001. Datagrams that do not come from the peer
are dropped. Both stations must set the same --carrier, zone and spacecraft.

--idle: make it longer than every timer of both stations.
--names: portable is 1 to 64 of A-Z a-z 0-9 . _ -, any is 1 to 255 octets of
UTF-8 without / and control characters; no name may begin with a dot.
--spool: write a file as .NAME and rename it; it goes to .sent or to .failed.
--control: unix:PATH, for its owner alone, or like --console an address of this
machine. A console with --console-token (16 to 256 visible ASCII) may have any.
--keys: FILE has a line for each key: SPI (1 to 65534), send or receive, and 64
hexadecimal digits. A second receive line is the peer's former key.
--state: without it FOLDER.state, beside --outbox or --spool, otherwise --inbox.
--journal: without it STATE.ID-PEER.journal, beside the state file.

Keys of --set and their defaults, beside those of 'sim --help' (number_width 8,
pdu_crc 1, most_gaps 65536 here). Keys peer_.. are of what the peer sends:
  spacecraft 42            0 to 255
  virtual_channel 5, peer_virtual_channel 6              of directives, 0 to 62
  data_virtual_channel 7, peer_data_virtual_channel 8    of file data, 0 to 62
  apid 100, peer_apid 101  0 to 2046
  insert_zone 0, peer_insert_zone 0  octets of the insert zone, 0 to 64
  control_field 0, peer_control_field 0  1: an operational control field
  error_control 0, peer_error_control 0  1: frames have error control (CRC-16)
  mac 16                   with --keys: octets of the MAC of a frame, 16 or 32
  packet_type 0            with --carrier packets: 0 telemetry, 1 telecommand
  secondary_header 0, peer_secondary_header 0
                           octets of the packet secondary header, 0 to 63
The station with the higher id uses the defaults of channels and APIDs swapped.

Exit status: 0 all puts completed, 1 some not, 2 bad arguments or settings file,
3 a folder, a file, a socket or the output failed, or out of memory.

Examples: two terminals that transfer two files; a station that keeps running:
  cfdp_node station --id 2 --peer 1 --listen 127.0.0.1:5002 \\
    --to 127.0.0.1:5001 --inbox RECEIVED --idle 30
  cfdp_node station --id 1 --peer 2 --listen 127.0.0.1:5001 \\
    --to 127.0.0.1:5002 --outbox FILES --put a.bin b.bin --put x y --idle 30
  cfdp_node station --config station.toml --id 1 --peer 2 --spool SEND \\
    --listen 127.0.0.1:5001 --to 127.0.0.1:5002 --control 127.0.0.1:5101";

/// Returns the grammar of what stands after `station`.
pub fn station_command<'a>(alloc: Global) -> Result<Command<'a>, AllocError>
    ensures { IfOk result (IsCommand station_app) }
{
    shown_command(alloc, file_command(alloc)?)
}

/// Returns the grammar above without what is shown beside the report.
fn file_command<'a>(alloc: Global) -> Result<Command<'a>, AllocError>
    ensures { IfOk result (IsCommand file_app) }
{
    told_command(alloc)?
        .arg(file_for(
            alloc,
            "config",
            "Read options from a TOML file; the command line wins",
        ))?
        .arg(flag(
            alloc,
            "print-config",
            "Print such a file with all options, and exit",
        ))
}

/// Returns the grammar above without a file of settings.
fn told_command<'a>(alloc: Global) -> Result<Command<'a>, AllocError>
    ensures { IfOk result (IsCommand told_app) }
{
    consoled_command(alloc)?
        .arg(flag_under(alloc, "Output", "no-time", "Omit timestamps"))?
        .arg(flag_under(alloc, "Output", "json", "Write each line as a JSON object"))
}

/// Returns the grammar above without what says how lines are written.
fn consoled_command<'a>(alloc: Global) -> Result<Command<'a>, AllocError>
    ensures { IfOk result (IsCommand consoled_app) }
{
    operated_command(alloc)?
        .arg(word_for(
            alloc,
            "Operation",
            "console",
            "ADDR",
            "Serve a web console at this TCP address",
        ))?
        .arg(file_under(
            alloc,
            "Operation",
            "console-token",
            "Ask visitors for the token in FILE",
        ))?
        .arg(word_for(
            alloc,
            "Operation",
            "console-host",
            "NAME",
            "Accept a proxy's requests for the host NAME",
        ))
}

/// Returns the grammar above without a console.
fn operated_command<'a>(alloc: Global) -> Result<Command<'a>, AllocError>
    ensures { IfOk result (IsCommand operated_app) }
{
    incoming_command(alloc)?
        .arg(flag_under(
            alloc,
            "Operation",
            "commands",
            "Read commands from standard input",
        ))?
        .arg(word_for(
            alloc,
            "Operation",
            "control",
            "ADDR",
            "Accept commands at this TCP address or unix:PATH",
        ))
}

/// Returns the grammar above without commands.
fn incoming_command<'a>(alloc: Global) -> Result<Command<'a>, AllocError>
    ensures { IfOk result (IsCommand incoming_app) }
{
    held_command(alloc)?
        .arg(flag_under(
            alloc,
            "Files",
            "no-overwrite",
            "Refuse a file whose name is taken",
        ))?
        .arg(named(
            alloc,
            "Files",
            "names",
            "RULE",
            "portable",
            "Allow portable or any file names",
        ))
}

/// Returns the grammar above without `--no-overwrite` and `--names`.
fn held_command<'a>(alloc: Global) -> Result<Command<'a>, AllocError>
    ensures { IfOk result (IsCommand held_app) }
{
    sent_command(alloc)?
        .arg(ranged(
            alloc,
            "Files",
            "most-size",
            "OCTETS",
            "0",
            0,
            281474976710656,
            "Refuse files longer than this (0: any)",
        ))?
        .arg(ranged(
            alloc,
            "Files",
            "most-open",
            "N",
            "0",
            0,
            4096,
            "Receive up to N files at once (0: any)",
        ))
}

/// Returns the grammar above without limits of what comes.
fn sent_command<'a>(alloc: Global) -> Result<Command<'a>, AllocError>
    ensures { IfOk result (IsCommand sent_app) }
{
    spooled_command(alloc)?
        .arg(ranged(
            alloc,
            "Files",
            "retries",
            "N",
            "3",
            0,
            1000,
            "Retry a spool file up to N times",
        ))?
        .arg(ranged(
            alloc,
            "Files",
            "at-once",
            "N",
            "4",
            1,
            3072,
            "Send up to N files at once, 1 to 3072",
        ))
}

/// Returns the grammar above without numbers of what is sent.
fn spooled_command<'a>(alloc: Global) -> Result<Command<'a>, AllocError>
    ensures { IfOk result (IsCommand spooled_app) }
{
    lists_command(alloc)?
        .arg(word_for(
            alloc,
            "Files",
            "spool",
            "FOLDER",
            "Send each file that is put into FOLDER",
        ))?
        .arg(flag_under(
            alloc,
            "Files",
            "remove-sent",
            "Delete sent spool files, instead of keeping them",
        ))
}

/// Returns the grammar above without a spool.
fn lists_command<'a>(alloc: Global) -> Result<Command<'a>, AllocError>
    ensures { IfOk result (IsCommand lists_app) }
{
    keyed_command(alloc)?
        .arg(pairs_under(
            alloc,
            "Files",
            "put",
            &["SRC", "DST"],
            "Send SRC of the outbox as DST; repeatable",
        ))?
        .arg(pairs_under(
            alloc,
            "Link",
            "set",
            &["KEY", "N"],
            "Set a key (see below); repeatable",
        ))
}

/// Returns the grammar above without what may be said more than once.
fn keyed_command<'a>(alloc: Global) -> Result<Command<'a>, AllocError>
    ensures { IfOk result (IsCommand keyed_app) }
{
    journaled_command(alloc)?.arg(file_under(
        alloc,
        "Link",
        "keys",
        "Authenticate frames with the keys in FILE",
    ))
}

/// Returns the grammar above without keys.
fn journaled_command<'a>(alloc: Global) -> Result<Command<'a>, AllocError>
    ensures { IfOk result (IsCommand journaled_app) }
{
    stores_command(alloc)?
        .arg(file_under(
            alloc,
            "Identity",
            "journal",
            "Keep the journal in FILE, to resume by it",
        ))?
        .arg(ranged(
            alloc,
            "Identity",
            "journal-every",
            "MS",
            "1000",
            10,
            3_600_000,
            "Note progress in it each MS ms",
        ))?
        .arg(flag_under(
            alloc,
            "Identity",
            "no-journal",
            "Forget open transfers at a restart",
        ))
}

/// Returns the grammar above without a journal and keys.
fn stores_command<'a>(alloc: Global) -> Result<Command<'a>, AllocError>
    ensures { IfOk result (IsCommand stores_app) }
{
    carried_command(alloc)?
        .arg(word_for(
            alloc,
            "Files",
            "inbox",
            "FOLDER",
            "Receive files into FOLDER",
        ))?
        .arg(word_for(
            alloc,
            "Files",
            "outbox",
            "FOLDER",
            "Find the files of --put in FOLDER",
        ))?
        .arg(file_under(
            alloc,
            "Identity",
            "state",
            "Keep the used transaction numbers in FILE",
        ))
}

/// Returns the grammar above without stores and keys.
fn carried_command<'a>(alloc: Global) -> Result<Command<'a>, AllocError>
    ensures { IfOk result (IsCommand carried_app) }
{
    own_numbers_command(alloc)?
        .arg(named(
            alloc,
            "Link",
            "carrier",
            "KIND",
            "frames",
            "Send frames, packets or pdus over UDP",
        ))?
        .arg(named(
            alloc,
            "Link",
            "unit",
            "UNIT",
            "s",
            "Give the times of --set in s or ms",
        ))
}

/// Returns the grammar above without what a datagram carries and the unit of times.
fn own_numbers_command<'a>(alloc: Global) -> Result<Command<'a>, AllocError>
    ensures { IfOk result (IsCommand own_numbers_app) }
{
    let paced = numbered_command(alloc)?.arg(tuned(
        alloc,
        "Link",
        "rate",
        "N",
        "1000",
        "Send at most N frames a second (0: any)",
    ))?;
    losses_command(alloc, paced)
}

/// Returns the grammar above without what says which frames leave.
fn numbered_command<'a>(alloc: Global) -> Result<Command<'a>, AllocError>
    ensures { IfOk result (IsCommand numbered_app) }
{
    addresses_command(alloc)?
        .arg(tuned(
            alloc,
            "Link",
            "idle",
            "N",
            "0",
            "Stop after N idle seconds (0: never)",
        ))?
        .arg(first_number_argument(alloc))
}

/// Returns the grammar above with ids and addresses alone.
fn addresses_command<'a>(alloc: Global) -> Result<Command<'a>, AllocError>
    ensures { IfOk result (IsCommand addresses_app) }
{
    names_command(alloc)?
        .arg(said(
            alloc,
            "Link",
            "listen",
            "ADDR",
            "Listen at this UDP address",
        ))?
        .arg(said(
            alloc,
            "Link",
            "to",
            "ADDR",
            "Send to this UDP address of the peer",
        ))
}

/// Returns the grammar above with ids alone.
fn names_command<'a>(alloc: Global) -> Result<Command<'a>, AllocError>
    ensures { IfOk result (IsCommand names_app) }
{
    Command::new(alloc, "station")
        .about("Run one end of a link over UDP: send and receive files")
        .after_help(STATION_HELP)
        .arg(said_number(alloc, "Identity", "id", "Set the entity id of this station"))?
        .arg(said_number(alloc, "Identity", "peer", "Set the entity id of the peer"))
}

/// A number that must be said.
fn said_number<'a>(alloc: Global, heading: &'a str, name: &'a str, help: &'a str) -> Arg<'a>
    ensures { (rule_of result ≡ said_number_rule name.now) × (result.global ≡ false) }
{
    said(alloc, heading, name, "ID", help).value_parser(value_parser!(u64))
}

/// A word that must be said after its option.
fn said<'a>(
    alloc: Global,
    heading: &'a str,
    name: &'a str,
    shown: &'a str,
    help: &'a str,
) -> Arg<'a>
    ensures { (rule_of result ≡ said_rule name.now) × (result.global ≡ false) }
{
    Arg::new(alloc, name)
        .long(name)
        .value_name(shown)
        .help(help)
        .help_heading(heading)
        .required(true)
}

/// A word that may be said after its option.
fn word_for<'a>(
    alloc: Global,
    heading: &'a str,
    name: &'a str,
    shown: &'a str,
    help: &'a str,
) -> Arg<'a>
    ensures { (rule_of result ≡ file_rule name.now) × (result.global ≡ false) }
{
    Arg::new(alloc, name)
        .long(name)
        .value_name(shown)
        .help(help)
        .help_heading(heading)
}

/// A word that may be said, and the one that stands for it if none is.
fn named<'a>(
    alloc: Global,
    heading: &'a str,
    name: &'a str,
    shown: &'a str,
    default: &'a str,
    help: &'a str,
) -> Arg<'a>
    ensures { (rule_of result ≡ named_rule name.now default.now) × (result.global ≡ false) }
{
    Arg::new(alloc, name)
        .long(name)
        .value_name(shown)
        .help(help)
        .help_heading(heading)
        .default_value(default)
}

/// A number between these two or one of them, and the one that stands for it if none is said.
fn ranged<'a>(
    alloc: Global,
    heading: &'a str,
    name: &'a str,
    shown: &'a str,
    default: &'a str,
    low: u64,
    high: u64,
    help: &'a str,
) -> Arg<'a>
    ensures { (rule_of result ≡ number_rule name.now low high default.now)
        × (result.global ≡ false) }
{
    Arg::new(alloc, name)
        .long(name)
        .value_name(shown)
        .help(help)
        .help_heading(heading)
        .value_parser(ValueParser::unsigned(low, high))
        .default_value(default)
}

fn first_number_argument<'a>(alloc: Global) -> Arg<'a>
    ensures { (rule_of result ≡ first_number_rule) × (result.global ≡ false) }
{
    Arg::new(alloc, "first-number")
        .long("first-number")
        .value_name("N")
        .help("Number the first put N (0: next unused)")
        .help_heading("Identity")
        .value_parser(value_parser!(u64))
        .default_value("0")
}

/// Returns an argument of two words that may be given more than once.
pub fn pairs<'a>(alloc: Global, name: &'a str, shown: &'a [&'a str; 2], help: &'a str) -> Arg<'a>
    ensures { (rule_of result ≡ pairs_rule name.now) × (result.global ≡ false) }
{
    Arg::new(alloc, name)
        .long(name)
        .value_names(shown)
        .help(help)
        .action(ArgAction::Append)
        .num_args(2)
}

/// Returns such an argument under a heading of the help.
fn pairs_under<'a>(
    alloc: Global,
    heading: &'a str,
    name: &'a str,
    shown: &'a [&'a str; 2],
    help: &'a str,
) -> Arg<'a>
    ensures { (rule_of result ≡ pairs_rule name.now) × (result.global ≡ false) }
{
    pairs(alloc, name, shown, help).help_heading(heading)
}

/// Returns what the words after `station` ask for.
///
/// # Errors
///
/// `AllocError` if there is no memory for the words.
pub fn station_request(
    alloc: Global,
    arguments: &ArgMatches<'_>,
) -> Result<Option<StationRequest>, AllocError>
    ensures { IfOk result (λ found. option_map station_asked found
        ≡ station_of (rows_of (found_of arguments.now))) }
{
    match station_words(arguments) {
        Some(words) => Ok(Some(words.kept(alloc, arguments)?)),
        None => Ok(None),
    }
}

fn station_words<'a>(arguments: &ArgMatches<'a>) -> Option<StationWords<'a>>
    ensures { option_map (words_asked (rows_of (found_of arguments.now))) result
        ≡ station_of (rows_of (found_of arguments.now)) }
{
    Some(StationWords {
        numbers: station_numbers(arguments)?,
        limits: station_limits(arguments)?,
        carrier: carrier_of(word_of(arguments, "carrier")?)?,
        unit: unit_of(word_of(arguments, "unit")?)?,
        names: names_of(word_of(arguments, "names")?)?,
        listen: word_of(arguments, "listen")?,
        to: word_of(arguments, "to")?,
    })
}

fn station_numbers(arguments: &ArgMatches<'_>) -> Option<StationNumbers>
    ensures { result ≡ numbers_of (rows_of (found_of arguments.now)) }
{
    Some(StationNumbers {
        id: number_in(arguments, "id", 0, u64::MAX)?,
        peer: number_in(arguments, "peer", 0, u64::MAX)?,
        idle: number_in(arguments, "idle", 0, 1_000_000)?,
        first_number: number_in(arguments, "first-number", 0, u64::MAX)?,
        rate: number_in(arguments, "rate", 0, 1_000_000)?,
        losses: losses_of(arguments)?,
    })
}

fn station_limits(arguments: &ArgMatches<'_>) -> Option<StationLimits>
    ensures { result ≡ limits_of (rows_of (found_of arguments.now)) }
{
    Some(StationLimits {
        retries: number_in(arguments, "retries", 0, 1000)?,
        at_once: number_in(arguments, "at-once", 1, 3072)?,
        most_size: number_in(arguments, "most-size", 0, 281474976710656)?,
        most_open: number_in(arguments, "most-open", 0, 4096)?,
        journal_every: number_in(arguments, "journal-every", 10, 3_600_000)?,
    })
}

fn station_flags(arguments: &ArgMatches<'_>) -> StationFlags
    ensures { result ≡ flags_of (rows_of (found_of arguments.now)) }
{
    StationFlags {
        remove_sent: is_given(arguments, "remove-sent"),
        no_overwrite: is_given(arguments, "no-overwrite"),
        no_journal: is_given(arguments, "no-journal"),
        commands: is_given(arguments, "commands"),
        no_time: is_given(arguments, "no-time"),
        json: is_given(arguments, "json"),
    }
}

/// What this word says of what a datagram carries.
fn carrier_of(word: &str) -> Option<CarrierKind>
    ensures { result ≡ carrier_of_word word.now }
{
    if word == "frames" {
        Some(CarrierKind::Frames)
    } else if word == "packets" {
        Some(CarrierKind::Packets)
    } else if word == "pdus" {
        Some(CarrierKind::Pdus)
    } else {
        None
    }
}

/// Returns `true` if a word says what a datagram carries.
pub fn is_carrier(word: &str) -> bool {
    carrier_of(word).is_some()
}

/// What this word says of the unit of times.
fn unit_of(word: &str) -> Option<TimeUnit>
    ensures { result ≡ unit_of_word word.now }
{
    if word == "s" {
        Some(TimeUnit::Seconds)
    } else if word == "ms" {
        Some(TimeUnit::Milliseconds)
    } else {
        None
    }
}

/// Returns `true` if a word is a unit of times.
pub fn is_unit(word: &str) -> bool {
    unit_of(word).is_some()
}

/// What this word says of names of files.
fn names_of(word: &str) -> Option<NameRule>
    ensures { result ≡ names_of_word word.now }
{
    if word == "portable" {
        Some(NameRule::Portable)
    } else if word == "any" {
        Some(NameRule::Any)
    } else {
        None
    }
}

impl StationWords<'_> {
    /// Copies it into memory of its own, with what else was found.
    fn kept(self, alloc: Global, arguments: &ArgMatches<'_>) -> Result<StationRequest, AllocError>
        ensures { IfOk result (λ request. station_asked request
            ≡ words_asked (rows_of (found_of arguments.now)) self.entry) }
    {
        Ok(StationRequest {
            numbers: self.numbers,
            limits: self.limits,
            flags: station_flags(arguments),
            carrier: self.carrier,
            unit: self.unit,
            names: self.names,
            listen: String::from_str(alloc, self.listen)?,
            to: String::from_str(alloc, self.to)?,
            inbox: owned_word(alloc, arguments, "inbox")?,
            outbox: owned_word(alloc, arguments, "outbox")?,
            spool: owned_word(alloc, arguments, "spool")?,
            state: owned_word(alloc, arguments, "state")?,
            journal: owned_word(alloc, arguments, "journal")?,
            keys: owned_word(alloc, arguments, "keys")?,
            control: owned_word(alloc, arguments, "control")?,
            console: owned_word(alloc, arguments, "console")?,
            console_token: owned_word(alloc, arguments, "console-token")?,
            console_host: owned_word(alloc, arguments, "console-host")?,
            puts: owned_words(alloc, arguments, "put")?,
            sets: owned_words(alloc, arguments, "set")?,
            shown: shown_by(alloc, arguments)?,
        })
    }
}

/// Copies of all words that were found for this argument.
pub fn owned_words(
    alloc: Global,
    arguments: &ArgMatches<'_>,
    name: &str,
) -> Result<Vec<String>, AllocError>
    ensures { IfOk result (λ words. map (λ word. word.bytes.items) words.items
        ≡ unwrap_or (all_of name.now (rows_of (found_of arguments.now))) []) }
{
    match arguments.get_strs(name) {
        Some(words) => copied(alloc, words),
        None => Ok(Vec::new(alloc)),
    }
}

fn copied(alloc: Global, words: &[&str]) -> Result<Vec<String>, AllocError>
    ensures { IfOk result (λ copies. map (λ word. word.bytes.items) copies.items
        ≡ map (λ word. word.now) words.now) }
{
    let mut copies = Vec::new(alloc);
    for word in words {
        copies.push(String::from_str(alloc, word)?)?;
    }
    Ok(copies)
}
