//! A file sent from one folder into another, by two stations over two sockets of this machine.
ghost use Rattle.std.specs.Prelude.{IfOk};
ghost use Rattle.cfdp_node.specs.Looping.Asked.{AreAsked, AreFor};

use crate::failure::{Failure, FileError, SocketError};
use crate::looping::security::{LoopSecurity, secured};
use crate::looping::udp::UdpWire;
use crate::looping::{LoopEnds, LoopOptions, run_loop};
use crate::transfers::named_files::{check_file, check_name, folder, folder_outbox, tell_untold};
use cfdp_command_line::{LoopRequest, frame_losses, note_losses};
use cfdp_files::HeldFolder;
use cfdp_operator::{InboxRules, LoopLookout, Teller, TellingInbox, TellingOutbox};
use cfdp_port::{FrameLosses, Lookout, LossyWire, Wire};
use cfdp_report::{Exit, Fault, Name};
use cfdp_store::{FolderError, FolderOutbox, Inbox, NameRule, Outbox};
use cfdp_watch::{Onlooker, Progress, Ran, Screen, shown_status};
use station_pair::WorldConfig;
use std::alloc::{AllocError, Global};
use std::cell::Cell;
use std::fs::File;
use std::io;
use std::io::{BufWriter, ErrorKind};
use valid_config::Valid;

/// The most turns that may be asked for, by the grammar of `loop`.
const MOST_TURNS: u64 = 1_000_000;

/// Which files the other folder accepts.
const RULES: InboxRules = InboxRules {
    replaces: true,
    most_size: 0,
    names: NameRule::Portable,
};

/// Sends the file that is asked for, writes the report to standard output, and says on standard
/// error what went wrong. Answers the exit status.
///
/// What may be wrong is looked for in this order: what is set, the file of keys, both names, the
/// folder and the file that must be sent, the other folder, the sockets.
pub fn loop_status(rt: &HostRuntime, request: &LoopRequest) -> u8 {
    let (told, progress) = (Cell::new(false), Progress::new(rt));
    match from_folder(rt, request, &told, &progress) {
        Ok(status) => status,
        Err(failure) => failure.tell(rt),
    }
}

/// What must be sent and how, and how frames are authenticated, if they are.
type Prepared = (LoopOptions, Option<LoopSecurity>);

/// Sends the file of its folder. Answers the exit status.
///
/// # Errors
///
/// Why it can't be sent.
fn from_folder<'a>(
    rt: &'a HostRuntime,
    request: &'a LoopRequest,
    told: &'a Cell<bool>,
    progress: &'a Progress<'a>,
) -> Result<u8, Failure<'a>> {
    let prepared = secured(rt, request, options(rt, request)?)?;
    let outbox = found(rt, request)?;
    let losses = Cell::new(frame_losses(request.losses));
    let way = way(rt, request, &losses)?;
    let teller = Teller::new(rt, progress, told, None);
    let outbox = TellingOutbox::over(rt, request.from.as_str(), outbox, teller);
    Ok(sent_status(rt, request, &prepared, (outbox, way), told, progress))
}

/// The wire of a station, which loses frames by a count that both stations share.
type SharedWire<'a> = LossyWire<UdpWire, &'a Cell<FrameLosses>>;

/// The wires that the file goes over, and the folder that it goes into.
type Way<'a> = ((SharedWire<'a>, SharedWire<'a>), HeldFolder);

/// The wires that the file goes over, which lose frames by this count, and the folder that it goes
/// into.
///
/// # Errors
///
/// `File` if the folder can't be had; `Socket` if the wires can't.
fn way<'a, 'r>(
    rt: &HostRuntime,
    request: &'r LoopRequest,
    losses: &'a Cell<FrameLosses>,
) -> Result<Way<'a>, Failure<'r>> {
    folder(rt, request.to.as_str())?;
    note_losses(rt, request.losses);
    let held = held(rt, request.to.as_str())?;
    match UdpWire::pair(rt) {
        Ok((one, two)) => {
            let wires = (LossyWire::new(one, losses), LossyWire::new(two, losses));
            Ok((wires, held))
        }
        Err(error) => Err(Failure::Socket(SocketError::Loop(error.kind()))),
    }
}

/// Takes the folder that the file goes into.
///
/// # Errors
///
/// Why it can't be had.
fn held<'a>(rt: &HostRuntime, path: &'a str) -> Result<HeldFolder, FileError<'a>> {
    match HeldFolder::take(rt, path) {
        Ok(held) => Ok(held),
        Err(error) => Err(FileError::inbox(path, &error)),
    }
}

/// The folder of the file that must be sent, which was looked for there, after both names.
///
/// # Errors
///
/// Why it can't be sent.
fn found<'a>(
    rt: &'a HostRuntime,
    request: &'a LoopRequest,
) -> Result<FolderOutbox<&'a HostRuntime>, FileError<'a>> {
    let (path, name) = (request.from.as_str(), request.source.as_str());
    check_name(NameRule::Portable, name)?;
    check_name(NameRule::Portable, request.destination.as_str())?;
    folder(rt, path)?;
    let Ok(mut outbox) = folder_outbox(rt, path, NameRule::Portable) else {
        return Err(refused(path, name, ErrorKind::OutOfMemory));
    };
    check_file(rt, &mut outbox, path, name)?;
    check_open(rt, path, name)?;
    Ok(outbox)
}

/// Returns that the system refuses a file of a folder.
fn refused<'a>(folder: &'a str, name: &'a str, kind: ErrorKind) -> FileError<'a> {
    FileError::File(folder, Name(name.as_bytes()), FolderError::System(kind))
}

/// Looks whether a plain file of a folder can be opened, if it is there.
///
/// # Errors
///
/// `File` if it can't be.
fn check_open<'a>(rt: &HostRuntime, path: &'a str, name: &'a str) -> Result<(), FileError<'a>> {
    let kind = match format!(in rt.alloc(); "{path}/{name}") {
        Ok(file) => match File::open(rt, file.as_str()) {
            Ok(_) => return Ok(()),
            Err(error) => error.kind(),
        },
        Err(_) => ErrorKind::OutOfMemory,
    };
    match kind {
        ErrorKind::NotFound => Ok(()),
        kind => Err(refused(path, name, kind)),
    }
}

/// Sends the file, shows what is seen of that, and answers the exit status.
fn sent_status<'a, O: Outbox>(
    rt: &'a HostRuntime,
    request: &'a LoopRequest,
    prepared: &Prepared,
    ends: (O, Way<'a>),
    told: &'a Cell<bool>,
    progress: &'a Progress<'a>,
) -> u8 {
    let (options, security) = prepared;
    let (outbox, (wires, held)) = ends;
    let ran = match security {
        Some(security) => match security.wires(rt.alloc(), wires) {
            Ok(wires) => sent(rt, request, options, outbox, wires, told, progress),
            Err(AllocError) => Ran::unseen(Exit::Device(Fault::NoMemoryAtStart)),
        },
        None => sent(rt, request, options, outbox, wires, told, progress),
    };
    held.clear(rt, request.to.as_str());
    tell_untold(rt, ran.exit, told);
    shown_status(rt, &request.shown, &ran)
}

/// Sends the file into the folder that is asked for.
fn sent<'a, O: Outbox, W: Wire>(
    rt: &'a HostRuntime,
    request: &'a LoopRequest,
    options: &LoopOptions,
    outbox: O,
    wires: (W, W),
    told: &'a Cell<bool>,
    progress: &'a Progress<'a>,
) -> Ran {
    let teller = Teller::new(rt, progress, told, None);
    match TellingInbox::new(rt, request.to.as_str(), RULES, teller, progress) {
        Ok(inbox) => {
            let ends = LoopEnds {
                outbox,
                inbox,
                wires,
            };
            sent_over(rt, request, options, ends, progress)
        }
        Err(AllocError) => Ran::unseen(Exit::Device(Fault::NoMemoryAtStart)),
    }
}

/// Sends the file from an outbox into an inbox, over these wires. Somebody looks on if that is
/// asked for.
fn sent_over<O: Outbox, I: Inbox, W: Wire>(
    rt: &HostRuntime,
    request: &LoopRequest,
    options: &LoopOptions,
    ends: LoopEnds<O, I, W>,
    progress: &Progress<'_>,
) -> Ran {
    let screen = Screen {
        rt,
        progress: Some(progress),
    };
    match Onlooker::new(screen, options.config, &request.shown) {
        Ok(onlooker) => {
            let mut lookout = LoopLookout::new(onlooker, progress);
            let exit = reported(rt, options, ends, &mut lookout);
            if let Some(turns) = lookout.used_up {
                note_turns(rt, turns);
            }
            Ran {
                exit,
                seen: lookout.onlooker.into_summary(),
            }
        }
        Err(AllocError) => Ran::unseen(Exit::Device(Fault::NoMemoryAtStart)),
    }
}

/// Says on standard error that so many turns were taken, and the transfer was not over.
fn note_turns(rt: &HostRuntime, turns: u64) {
    let noun = if turns == 1 { "turn" } else { "turns" };
    let _ = if turns < MOST_TURNS {
        eprintln!(rt;
            "note: the transfer was not over after {turns} {noun}; allow more with --turns, up to \
             {MOST_TURNS}"
        )
    } else {
        eprintln!(rt;
            "note: the transfer was not over after {turns} {noun}, the maximum of --turns"
        )
    };
}

/// Sends the file, and writes the report to standard output. Its buffer is there before the first
/// turn.
fn reported<O: Outbox, I: Inbox, W: Wire, L: Lookout>(
    rt: &HostRuntime,
    options: &LoopOptions,
    ends: LoopEnds<O, I, W>,
    lookout: &mut L,
) -> Exit {
    let alloc = rt.alloc();
    let Ok(mut out) = BufWriter::new(alloc, io::writer(rt)) else {
        return Exit::Device(Fault::NoMemoryAtStart);
    };
    let exit = run_loop(alloc, options, ends, &mut out, lookout);
    // What a failed write left in the buffer is dropped: a `BufWriter` would write it once more.
    let _ = out.into_parts();
    exit
}

/// What must be sent, and how.
///
/// # Errors
///
/// `Set` if what is set can't be; `Memory` if there is no memory.
fn options<'a>(rt: &HostRuntime, request: &'a LoopRequest) -> Result<LoopOptions, Failure<'a>>
    ensures { IfOk result (AreAsked request.now) }
{
    match request.config() {
        Ok(config) => match named(rt.alloc(), request, config) {
            Ok(options) => Ok(options),
            Err(error) => Err(Failure::Memory(error)),
        },
        Err(error) => Err(Failure::Set(error)),
    }
}

/// What must be sent, by stations that are set up so.
fn named(
    alloc: Global,
    request: &LoopRequest,
    config: Valid<WorldConfig>,
) -> Result<LoopOptions, AllocError>
    ensures { IfOk result (AreFor request.now config) }
{
    Ok(LoopOptions {
        source: Vec::from_slice(alloc, request.source.as_bytes())?,
        destination: Vec::from_slice(alloc, request.destination.as_bytes())?,
        turns: request.turns,
        config,
    })
}
