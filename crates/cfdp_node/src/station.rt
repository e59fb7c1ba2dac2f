//! One station over folders and a UDP socket.
ghost use Rattle.std.specs.Prelude.{IfOk};

pub mod console_door;
pub mod earlier;
pub mod operation;
pub mod resuming;

use crate::failure::{DEVICE, Failure, FileError, RestartError, SetupError, SocketError};
use crate::station::console_door::door;
use crate::station::operation::{Context, SecuredEnds, StationParts, StationSpool, Transfers, ran};
use crate::station::resuming::{Found, found_journal, held_folder};
use crate::transfers::named_files::{check_file, check_name, folder, folder_outbox, tell_untold};
use crate::transfers::secured_links::keys_in;
use cfdp_command_line::{CarrierKind, StationNumbers, StationRequest, TimeUnit, note_losses};
use cfdp_control::{LineSources, remove_socket, socket_path};
use cfdp_datagrams::{
    Carrier, DatagramWire, Pace, PacketForm, SharedNumbers, UdpTransport, Unit, Unusable,
};
use cfdp_exchange::{Beacon, Exchange, NoteTopic};
use cfdp_files::{
    HeldFolder, Reservation, StateError, Wanted, is_same_folder, lies_in, try_folder,
};
use cfdp_log::SeenPdus;
use cfdp_operator::{SpoolNotes, Teller, note};
use cfdp_report::{Hint, parse_setting};
use cfdp_setup::{SetFault, StationSetup, key_hint};
use cfdp_spool::FolderSpool;
use cfdp_station::StationConfig;
use cfdp_watch::{Progress, shown_status};
use frame_security::LinkKeys;
use host_journal::{HostJournal, HostSetup, new_journal};
use station_pair::{Side, WorldConfig};
use std::alloc::Global;
use std::borrow::CowStr;
use std::cell::Cell;
use std::io::ErrorKind;
use std::{fs, io};
use valid_config::Valid;

/// What a station has before it opens its socket.
#[derive(Drop)]
struct Prepared<'a> {
    config: Valid<WorldConfig>,
    carrier: Carrier,
    /// How it is set up, from which the frames on the link follow.
    setup: StationSetup,
    /// Its keys, if frames are authenticated.
    keys: Option<LinkKeys>,
    reservation: Reservation<'a>,
    /// The folder of its inbox, if it has one.
    held: Option<HeldFolder>,
    /// Its spool, if it has one.
    spool: Option<StationSpool<'a>>,
    /// What its journal says.
    found: Found,
}

/// Runs the station that is asked for, writes the report to standard output, and says on standard
/// error what went wrong. Answers the exit status.
///
/// What may be wrong is looked for in this order: the console, the control address, what is set,
/// the file of keys, the names of files that must be sent, the folders, those files, the file of
/// reserved numbers, the addresses.
pub fn station_status(rt: &HostRuntime, request: &StationRequest) -> u8 {
    // First of all: a process that was given no standard input has none once a file is opened.
    let exchange = Exchange::new(rt.alloc());
    match sources(rt, request, &exchange) {
        Ok(sources) => {
            let status = started_status(rt, request, sources, &exchange);
            remove_control(rt, request);
            status
        }
        Err(failure) => failure.tell(rt),
    }
}

/// Starts the station, and runs it. Answers the exit status. What is wrong at its start is reported
/// before the sources of commands are released.
fn started_status<'a>(
    rt: &'a HostRuntime,
    request: &'a StationRequest,
    sources: LineSources<'a>,
    exchange: &'a Exchange,
) -> u8 {
    match prepare(rt, request, exchange) {
        Ok(prepared) => bound_status(rt, request, sources, prepared, exchange),
        Err(failure) => {
            let status = failure.tell(rt);
            drop(sources);
            status
        }
    }
}

/// Removes the file of the control address, if that is a Unix socket.
fn remove_control(rt: &HostRuntime, request: &StationRequest) {
    if let Some(address) = &request.control
        && let Some(path) = socket_path(address.as_str())
    {
        remove_socket(rt, path);
    }
}

/// Looks at all that was said, and takes what the station needs before it opens its socket.
///
/// # Errors
///
/// What is wrong.
fn prepare<'a>(
    rt: &'a HostRuntime,
    request: &'a StationRequest,
    exchange: &'a Exchange,
) -> Result<Prepared<'a>, Failure<'a>> {
    check_addresses(rt, request)?;
    let setup = set_up(rt, request)?;
    check_fields(request, &setup)?;
    begun(rt, request, &setup, exchange)
}

/// Opens the station's socket, and runs the station. Answers the exit status. If the socket can't
/// be had, that is reported before the sources of commands are released.
fn bound_status<'a>(
    rt: &'a HostRuntime,
    request: &'a StationRequest,
    sources: LineSources<'a>,
    prepared: Prepared<'a>,
    exchange: &'a Exchange,
) -> u8 {
    let Prepared {
        config,
        carrier,
        setup,
        keys,
        reservation,
        held: _held,
        spool,
        found,
    } = prepared;
    exchange.numbers_left.set(reservation.numbers_left());
    let frame_count = reservation.frame_count();
    let own = WorldConfig::station(config, side_of(request)).get();
    let on_link = setup.on_link(&own);
    let pace = pace_of(request, &on_link, carrier);
    let ends = secured_ends(&setup, keys, &reservation);
    let numbers = SharedNumbers::over(reservation);
    match socket(rt, request, pace, &numbers, exchange) {
        Ok(socket) => {
            let parts = StationParts {
                socket,
                frame_count,
                sources,
                config,
                on_link,
                carrier,
                numbers: &numbers,
                ends,
            };
            let status = ran_status(rt, request, parts, (spool, found), exchange);
            let _ = numbers.settles();
            status
        }
        Err(error) => {
            let status = Failure::Socket(error).tell(rt);
            drop(sources);
            drop(spool);
            status
        }
    }
}

/// Returns what seals and opens the frames, if they are authenticated. Their sequence numbers go on
/// from those of earlier runs.
fn secured_ends(
    setup: &StationSetup,
    keys: Option<LinkKeys>,
    reservation: &Reservation<'_>,
) -> Option<SecuredEnds> {
    let (keys, securities) = (keys?, setup.securities()?);
    Some(SecuredEnds {
        sealer: keys.sealer(securities.sends, reservation.first_sequence_number()),
        opener: keys.opener(securities.receives, reservation.accepted()),
        mac_len: setup.mac_len(),
    })
}

/// Looks whether the station has another address than its peer, and says if none of its frames can
/// arrive.
///
/// # Errors
///
/// `OneAddress` if both are one.
fn check_addresses<'a>(
    rt: &HostRuntime,
    request: &'a StationRequest,
) -> Result<(), SetupError<'a>> {
    note_losses(rt, request.numbers.losses);
    let to = request.to.as_str();
    if to == request.listen.as_str() {
        return Err(SetupError::OneAddress(to));
    }
    Ok(())
}

/// Where commands come from.
///
/// # Errors
///
/// Why the control address or the console can't be had.
fn sources<'a>(
    rt: &'a HostRuntime,
    request: &'a StationRequest,
    exchange: &Exchange,
) -> Result<LineSources<'a>, Failure<'a>> {
    let control = match &request.control {
        Some(address) => Some(address.as_str()),
        None => None,
    };
    let door = door(rt, request)?;
    let sources = match LineSources::new(rt, request.flags.commands, control, door) {
        Ok(sources) => sources,
        Err(error) => {
            let address = control.unwrap_or("");
            return Err(Failure::Socket(SocketError::Control(address, error)));
        }
    };
    if has_any_port(control)
        && let Some(address) = sources.control_address()
    {
        let text = format!(in rt.alloc(); "accepting commands at {address}");
        note(rt, &exchange.notes, NoteTopic::Control, text);
    }
    tell_console(rt, &sources, exchange);
    Ok(sources)
}

/// Says where a browser is shown the station.
fn tell_console(rt: &HostRuntime, sources: &LineSources<'_>, exchange: &Exchange) {
    if let Some(door) = sources.door()
        && let Ok(address) = door.listener().local_addr()
    {
        let text = format!(in rt.alloc(); "console at http://{address}/");
        note(rt, &exchange.notes, NoteTopic::Console, text);
    }
}

/// Whether an address leaves its port to the system.
fn has_any_port(address: Option<&str>) -> bool {
    match address {
        Some(address) => address.ends_with(":0"),
        None => false,
    }
}

/// Looks at what is set, at names, folders and the files that must be sent, takes the folder of
/// the inbox, and reserves numbers.
///
/// # Errors
///
/// What is wrong.
fn begun<'a>(
    rt: &'a HostRuntime,
    request: &'a StationRequest,
    setup: &StationSetup,
    exchange: &'a Exchange,
) -> Result<Prepared<'a>, Failure<'a>> {
    let config = match configuration(request, setup) {
        Ok((config, _)) => config,
        Err(error) => return Err(Failure::Setup(error)),
    };
    let keys = keys(rt, request)?;
    let found = found_journal(rt, request, setup, config, exchange)?;
    let held = held_inbox(rt, request, &found)?;
    check_outbox(rt, request)?;
    let spool = spool(rt, request, exchange)?;
    let reservation = reserved(rt, request, setup, &found)?;
    check_kept(request, &reservation)?;
    found.check_number(request, reservation.number())?;
    let setup = setup.beginning_at(reservation.number());
    let (config, carrier) = match configuration(request, &setup) {
        Ok(configured) => configured,
        Err(error) => return Err(Failure::Setup(error)),
    };
    Ok(Prepared {
        config,
        carrier,
        setup,
        keys,
        reservation,
        held,
        spool,
        found,
    })
}

/// Reads the keys, if frames must be authenticated.
///
/// # Errors
///
/// Why they can't be read.
fn keys<'a>(
    rt: &HostRuntime,
    request: &'a StationRequest,
) -> Result<Option<LinkKeys>, Failure<'a>> {
    let Some(path) = &request.keys else {
        return Ok(None);
    };
    check_keys_place(rt, request, path.as_str())?;
    Ok(Some(keys_in(rt, path.as_str())?))
}

/// Checks that the file of keys is in no folder from which it is sent, or in which the peer can
/// replace it.
///
/// # Errors
///
/// `KeysPlace` if it is.
fn check_keys_place<'a>(
    rt: &HostRuntime,
    request: &'a StationRequest,
    path: &'a str,
) -> Result<(), SetupError<'a>> {
    for folder in [&request.inbox, &request.outbox, &request.spool] {
        if let Some(folder) = folder
            && lies_in(rt, path, folder.as_str())
        {
            return Err(SetupError::KeysPlace(path, folder.as_str()));
        }
    }
    Ok(())
}

/// Checks that the numbers of authenticated frames are kept over a restart.
///
/// # Errors
///
/// `KeysWithoutState` if they aren't.
fn check_kept<'a>(
    request: &'a StationRequest,
    reservation: &Reservation<'_>,
) -> Result<(), SetupError<'a>> {
    if request.keys.is_none() || reservation.has_file() {
        Ok(())
    } else {
        Err(SetupError::KeysWithoutState)
    }
}

/// Takes the folder of the spool, if there is one.
///
/// # Errors
///
/// Why it can't be had.
fn spool<'a>(
    rt: &'a HostRuntime,
    request: &'a StationRequest,
    exchange: &'a Exchange,
) -> Result<Option<StationSpool<'a>>, Failure<'a>> {
    let Some(path) = &request.spool else {
        return Ok(None);
    };
    if request.outbox.is_some() {
        return Err(Failure::Setup(SetupError::SpoolAndOutbox));
    }
    folder(rt, path.as_str())?;
    check_apart(rt, request, path.as_str())?;
    let teller = SpoolNotes {
        rt,
        notes: &exchange.notes,
    };
    let (names, removes_sent) = (request.names, request.flags.remove_sent);
    match FolderSpool::open(rt, path.as_str(), names, removes_sent, teller) {
        Ok(spool) => Ok(Some(spool)),
        Err(error) => Err(Failure::File(FileError::spool(path.as_str(), &error))),
    }
}

/// Looks whether what arrives isn't sent again at once: by a spool that is the inbox too.
///
/// # Errors
///
/// `OneFolder` if it is.
fn check_apart<'a>(
    rt: &HostRuntime,
    request: &StationRequest,
    spool: &'a str,
) -> Result<(), SetupError<'a>> {
    if let Some(inbox) = &request.inbox
        && matches!(is_same_folder(rt, inbox.as_str(), spool), Ok(true))
    {
        return Err(SetupError::OneFolder(spool));
    }
    Ok(())
}

/// How the station and its peer are set up, and what a datagram between them is.
///
/// # Errors
///
/// `OutOfRange` or `Misfit` if they can't be.
fn configuration<'a>(
    request: &'a StationRequest,
    setup: &StationSetup,
) -> Result<(Valid<WorldConfig>, Carrier), SetupError<'a>> {
    let StationNumbers { id, peer, .. } = request.numbers;
    match (setup.config(id, peer), carrier(setup, request.carrier)) {
        (Some(config), Some(carrier)) => Ok((config, carrier)),
        (None, _) | (_, None) => Err(match setup.out_of_range() {
            Some((setting, value)) => SetupError::OutOfRange(setting, value),
            None => SetupError::Misfit(setup.misfit(id, peer)),
        }),
    }
}

/// Returns what a datagram is, by the word for it; `None` if packets can't be set up so.
fn carrier(setup: &StationSetup, kind: CarrierKind) -> Option<Carrier> {
    match kind {
        CarrierKind::Frames => Some(Carrier::Frames),
        CarrierKind::Packets => {
            let packets = setup.packet_form()?;
            Some(Carrier::Packets(PacketForm {
                packet_type: packets.packet_type,
                secondary_header: packets.secondary_header,
                peer_secondary_header: packets.peer_secondary_header,
            }))
        }
        CarrierKind::Pdus => Some(Carrier::Pdus),
    }
}

/// Checks that frames are sent if fields of frames are set or frames are authenticated, and that
/// they are authenticated if the octets of their MAC are set.
///
/// # Errors
///
/// `FieldsWithoutFrames`, `KeysWithoutFrames` or `MacWithoutKeys` if not.
fn check_fields<'a>(
    request: &'a StationRequest,
    setup: &StationSetup,
) -> Result<(), SetupError<'a>> {
    let has_frames = request.carrier == CarrierKind::Frames;
    if !has_frames && !setup.has_bare_frames() {
        Err(SetupError::FieldsWithoutFrames)
    } else if !has_frames && request.keys.is_some() {
        Err(SetupError::KeysWithoutFrames)
    } else if setup.has_idle_mac() {
        Err(SetupError::MacWithoutKeys)
    } else {
        Ok(())
    }
}

/// What is set.
///
/// # Errors
///
/// What can't be set, or the number of the first transaction if it doesn't fit its octets, and
/// these are so many as may be.
fn set_up<'a>(
    rt: &HostRuntime,
    request: &'a StationRequest,
) -> Result<StationSetup, SetupError<'a>> {
    let StationNumbers {
        id,
        peer,
        first_number,
        ..
    } = request.numbers;
    let (is_lesser, is_secured) = (id < peer, request.keys.is_some());
    let words = request.sets.as_slice();
    let setup = match StationSetup::by_words(is_lesser, is_secured, first_number, words) {
        Ok(setup) => setup,
        Err(fault) => return Err(set_error(rt, fault)),
    };
    if setup.out_of_range().is_none() && !setup.fits_first_number() {
        return Err(SetupError::WideNumber(setup.number_width()));
    }
    Ok(setup)
}

/// Which values this key takes, if it is one of a script.
fn value_hint(key: &str) -> Hint {
    match parse_setting(key.as_bytes()) {
        Some(setting) => Hint::Value(setting),
        None => Hint::Nothing,
    }
}

/// Returns why words can't be set, with what may stand in their place.
fn set_error<'a>(rt: &HostRuntime, fault: SetFault<'a>) -> SetupError<'a> {
    match fault {
        SetFault::Number { key, word } => {
            let hint = value_hint(key);
            SetupError::BadNumber { key, word, hint }
        }
        SetFault::Key { key, word } => {
            let hint = key_hint(rt.alloc(), key);
            SetupError::UnknownKey { key, word, hint }
        }
    }
}

/// Reserves numbers in the file that is said; or, if none is and the first number isn't said
/// either, in the one beside the outbox, or beside the inbox if there is no outbox. Without that
/// file a station that puts nothing goes by the clock; so it does if the system refuses a file that
/// nobody has named.
///
/// # Errors
///
/// Why that file can't be used.
fn reserved<'a>(
    rt: &'a HostRuntime,
    request: &'a StationRequest,
    setup: &StationSetup,
    found: &Found,
) -> Result<Reservation<'a>, RestartError<'a>> {
    let (number, width) = (setup.first_number(), setup.number_width());
    let said = if number == 0 { None } else { Some(number) };
    let Some(path) = numbers_path(rt, request, said)? else {
        return Ok(Reservation::by_clock(rt, said));
    };
    if let Some(inbox) = &request.inbox
        && lies_in(rt, path.as_str(), inbox.as_str())
    {
        return Err(RestartError::StateInInbox(path, inbox.as_str()));
    }
    // Each put is two words: its source and its destination.
    let puts = request.puts.len() as u64 / 2;
    let wanted = Wanted {
        said: said.or(number_after(rt, request, found, path.as_str())),
        width,
        puts,
        is_secured: request.keys.is_some(),
    };
    let is_needed = request.state.is_some()
        || puts > 0
        || request.spool.is_some()
        || wanted.is_secured;
    match Reservation::take(rt, path.as_str(), wanted) {
        Ok(reservation) => Ok(reservation),
        Err(StateError::System(_)) if !is_needed => Ok(Reservation::by_clock(rt, None)),
        Err(error) => Err(RestartError::State(path, error)),
    }
}

/// Returns the path of the file of reserved numbers, if there must be one.
///
/// # Errors
///
/// `State` if the folder beside which it lies can't be found.
fn numbers_path<'a>(
    rt: &HostRuntime,
    request: &'a StationRequest,
    said: Option<u64>,
) -> Result<Option<CowStr<'a, Global>>, RestartError<'a>> {
    if let Some(path) = &request.state {
        return Ok(Some(CowStr::Borrowed(path.as_str())));
    }
    match (said, numbers_folder(request)) {
        (None, Some(folder)) => match beside(rt, folder) {
            Ok(path) => Ok(Some(CowStr::Owned(path))),
            Err(error) => {
                let folder = CowStr::Borrowed(folder);
                Err(RestartError::State(folder, StateError::System(error)))
            }
        },
        (Some(_), _) | (None, None) => Ok(None),
    }
}

/// Returns the number after all those of the journal, if it has any, and if there is no file of
/// reserved numbers at this path: it was lost.
fn number_after(
    rt: &HostRuntime,
    request: &StationRequest,
    found: &Found,
    path: &str,
) -> Option<u64> {
    let used = found.greatest_number(request.numbers.id)?;
    match fs::symlink_metadata(rt, path) {
        Err(error) if error.kind() == ErrorKind::NotFound => used.checked_add(1),
        Ok(_) | Err(_) => None,
    }
}

/// The folder beside which the file of reserved numbers lies: that of the outbox or of the spool,
/// or of the inbox if there is none of these.
fn numbers_folder(request: &StationRequest) -> Option<&str> {
    match (&request.outbox, &request.spool, &request.inbox) {
        (Some(path), _, _) | (None, Some(path), _) | (None, None, Some(path)) => {
            Some(path.as_str())
        }
        (None, None, None) => None,
    }
}

/// The path of the file beside a folder.
fn beside(rt: &HostRuntime, folder: &str) -> io::Result<String> {
    let path = fs::canonicalize(rt, folder)?;
    Ok(format!(in rt.alloc(); "{}.state", path.display())?)
}

/// Returns the path of the file of reserved numbers, if it can be found.
pub fn state_path(rt: &HostRuntime, request: &StationRequest) -> Option<String> {
    match &request.state {
        Some(path) => String::from_str(rt.alloc(), path.as_str()).ok(),
        None => beside(rt, numbers_folder(request)?).ok(),
    }
}

/// Looks at the names of files that must be sent, and takes the folder of the inbox and tries it,
/// if there is one.
///
/// # Errors
///
/// What is wrong.
fn held_inbox<'a>(
    rt: &HostRuntime,
    request: &'a StationRequest,
    found: &Found,
) -> Result<Option<HeldFolder>, Failure<'a>> {
    for put in 0..request.puts.len() / 2 {
        check_name(request.names, request.puts[2 * put].as_str())?;
    }
    match &request.inbox {
        Some(path) => {
            folder(rt, path.as_str())?;
            let held = held_folder(rt, request, path.as_str(), found)?;
            match try_folder(rt, path.as_str(), !request.flags.no_overwrite) {
                Ok(()) => Ok(Some(held)),
                Err(error) => Err(Failure::File(FileError::trial(path.as_str(), &error))),
            }
        }
        None => Ok(None),
    }
}

/// Looks at the folder of the outbox, and whether what has the names of files that must be sent
/// are files. Each is looked for again when its put is made, so it may be missing here.
///
/// # Errors
///
/// What is wrong.
fn check_outbox<'a>(rt: &HostRuntime, request: &'a StationRequest) -> Result<(), Failure<'a>> {
    let Some(path) = outbox_of(request) else {
        if request.puts.is_empty() {
            return Ok(());
        }
        return Err(Failure::Setup(SetupError::PutWithoutFolder));
    };
    folder(rt, path)?;
    Ok(check_files(rt, path, request)?)
}

/// Returns the folder that files are sent from: the outbox, or the spool.
pub fn outbox_of(request: &StationRequest) -> Option<&str> {
    match (&request.outbox, &request.spool) {
        (Some(path), _) | (None, Some(path)) => Some(path.as_str()),
        (None, None) => None,
    }
}

/// Looks at the files of a folder that must be sent, by pairs of words of the request.
///
/// # Errors
///
/// Why one can't be sent.
fn check_files<'a>(
    rt: &HostRuntime,
    path: &'a str,
    request: &'a StationRequest,
) -> Result<(), FileError<'a>> {
    let words = request.puts.as_slice();
    let Ok(mut outbox) = folder_outbox(rt, path, request.names) else {
        return Err(FileError::Folder(path, ErrorKind::OutOfMemory));
    };
    for put in 0..words.len() / 2 {
        check_file(rt, &mut outbox, path, words[2 * put].as_str())?;
    }
    Ok(())
}

/// How a station that is set up so uses its socket, and what a datagram is.
fn pace_of(request: &StationRequest, config: &StationConfig, carrier: Carrier) -> Pace {
    Pace {
        rate: request.numbers.rate,
        idle: request.numbers.idle,
        sends: config.sends,
        receives: config.receives,
        carrier,
        beacon: Beacon::of(config),
        unit: unit_of(request),
    }
}

/// The socket, with the peer's address.
///
/// # Errors
///
/// `Datagrams` if an address can't be used.
fn socket<'a, 'n>(
    rt: &'a HostRuntime,
    request: &'a StationRequest,
    pace: Pace,
    numbers: &'a SharedNumbers<'n>,
    exchange: &'a Exchange,
) -> Result<DatagramWire<'a, 'n, UdpTransport>, SocketError<'a>> {
    let (listen, to) = (request.listen.as_str(), request.to.as_str());
    match bound(rt, listen, to, pace, numbers, exchange) {
        Ok(socket) => {
            if has_any_port(Some(listen))
                && let Ok(address) = socket.transport().local_address()
            {
                let text = format!(in rt.alloc(); "listening at {address}");
                note(rt, &exchange.notes, NoteTopic::Listening, text);
            }
            Ok(socket)
        }
        Err(unusable) => {
            let (option, address, kind) = match unusable {
                Unusable::Own(error) => ("listen", listen, error.kind()),
                Unusable::Peer(error) => ("to", to, error.kind()),
            };
            Err(SocketError::Datagrams {
                option,
                address,
                kind,
            })
        }
    }
}

/// The wire over a socket at the first address, whose peer is at the second one.
///
/// # Errors
///
/// `Unusable`, with what stands against one of both addresses.
fn bound<'a, 'n>(
    rt: &'a HostRuntime,
    listen: &str,
    to: &str,
    pace: Pace,
    numbers: &'a SharedNumbers<'n>,
    exchange: &'a Exchange,
) -> Result<DatagramWire<'a, 'n, UdpTransport>, Unusable> {
    let transport = UdpTransport::bind(rt, listen, to, pace.room())?;
    DatagramWire::new(rt, transport, pace, numbers, exchange).map_err(Unusable::Own)
}

/// The unit of times that are set.
fn unit_of(request: &StationRequest) -> Unit {
    match request.unit {
        TimeUnit::Seconds => Unit::Seconds,
        TimeUnit::Milliseconds => Unit::Milliseconds,
    }
}

/// Returns which of both stations it is.
pub fn side_of(request: &StationRequest) -> Side {
    if request.numbers.id < request.numbers.peer {
        Side::One
    } else {
        Side::Two
    }
}

/// Returns the journal of the station, if it has one.
fn journal_of<'a>(
    rt: &'a HostRuntime,
    request: &'a StationRequest,
    found: &'a Found,
) -> Option<HostJournal<'a>> {
    let path = found.path(request)?;
    let inbox = match &request.inbox {
        Some(folder) => Some(folder.as_str()),
        None => None,
    };
    let setup = HostSetup {
        path,
        inbox,
        owner: found.owner,
        every: request.limits.journal_every,
    };
    Some(new_journal(rt, setup))
}

/// Runs the station, shows what is seen of that, and answers the exit status.
fn ran_status<'a>(
    rt: &'a HostRuntime,
    request: &'a StationRequest,
    parts: StationParts<'a, '_>,
    source: (Option<StationSpool<'a>>, Found),
    exchange: &'a Exchange,
) -> u8 {
    let (spool, found) = source;
    let (told, progress) = (Cell::new(false), Progress::new(rt));
    let pdus = SeenPdus::new(rt.alloc());
    let journal = journal_of(rt, request, &found);
    let context = Context {
        rt,
        request,
        exchange,
        pdus: &pdus,
        transfers: journal.as_ref().map(|journal| Transfers {
            journal,
            found: &found,
        }),
        progress: &progress,
        teller: Teller::new(rt, &progress, &told, Some(&exchange.notes)),
    };
    let ran = ran(context, parts, spool);
    tell_untold(rt, ran.exit, &told);
    let status = shown_status(rt, &request.shown, &ran);
    match &journal {
        Some(journal) if journal.is_stuck() => DEVICE,
        Some(_) | None => status,
    }
}
