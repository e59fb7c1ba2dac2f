//! A station that serves its operator over its stores, from its first turn to its last.
use crate::station::earlier::keep_earlier;
use crate::station::resuming::{Found, run_resumed};
use crate::station::{outbox_of, side_of, state_path};
use crate::transfers::named_files::folder_outbox;
use cfdp_command_line::{CarrierKind, StationRequest, VERSION, frame_losses};
use cfdp_console::LogLines;
use cfdp_control::LineSources;
use cfdp_datagrams::{
    Carrier, CarrierWire, DatagramWire, SharedNumbers, StationKeeper, UdpTransport, frame_len,
};
use cfdp_exchange::Exchange;
use cfdp_log::{
    Board, BoardSetup, Form, KeptLog, Log, LogSetup, LossyLog, PduWatch, SeenPdus, StationLog,
    Style,
};
use cfdp_operator::{
    FileLimits, InboxRules, LoopLookout, Notices, OperatorConsole, OperatorPost, SpoolNotes,
    Teller, TellingInbox, TellingNoInbox, TellingOutbox, tell_authentication, tell_timers,
};
use cfdp_port::{Lookout, LossyWire, PeerWire};
use cfdp_report::{Exit, Fault};
use cfdp_service::{
    Clerk, ClerkLimits, Ended, NoSpool, PutNames, ServiceEnds, ServiceOptions, Spool, run,
};
use cfdp_spool::FolderSpool;
use cfdp_station::{Limits, StationConfig};
use cfdp_store::{ResumingInbox, SeekingOutbox};
use cfdp_watch::{Onlooker, Progress, Ran, Screen, Shown};
use frame_security::{Opener, Sealer};
use host_journal::HostJournal;
use secured_wire::SecuredWire;
use station_pair::WorldConfig;
use std::alloc::AllocError;
use transfer_journal::Survey;
use valid_config::Valid;

/// The longest frame over which a wire can be secured.
const MOST_FRAME: usize = 65_536;

/// A spool over a folder, which reports to its operator on standard error and in the log.
pub type StationSpool<'a> = FolderSpool<'a, SpoolNotes<'a>>;

/// What a station needs to run.
#[derive(Drop)]
pub struct StationParts<'a, 'n> {
    pub socket: DatagramWire<'a, 'n, UdpTransport>,
    /// The count of its first frame in either lane.
    pub frame_count: u32,
    /// Where commands come from.
    pub sources: LineSources<'a>,
    /// How both stations are set up.
    pub config: Valid<WorldConfig>,
    /// How this station is set up, with the frames that are on the link.
    pub on_link: StationConfig,
    /// What a datagram between them is.
    pub carrier: Carrier,
    /// The numbers that it reserves.
    pub numbers: &'a SharedNumbers<'n>,
    /// What seals and opens its frames, if they are authenticated.
    pub ends: Option<SecuredEnds>,
}

/// What seals the frames that a station sends, and opens those that it receives.
#[derive(Drop)]
pub struct SecuredEnds {
    pub sealer: Sealer,
    pub opener: Opener,
    /// How many octets a MAC has.
    pub mac_len: u64,
}

/// What a station serves, before it has its wire.
#[derive(Drop)]
struct Served<'a, O: SeekingOutbox, I: ResumingInbox, S: Spool> {
    stores: (O, I),
    spool: S,
    sources: LineSources<'a>,
}

/// The journal of a station, and what it said before the start.
#[derive(Clone, Copy)]
pub struct Transfers<'a> {
    pub journal: &'a HostJournal<'a>,
    pub found: &'a Found,
}

/// What a run is shown by, and what was asked for.
#[derive(Clone, Copy)]
pub struct Context<'a> {
    pub rt: &'a HostRuntime,
    pub request: &'a StationRequest,
    pub exchange: &'a Exchange,
    /// The PDUs that the console's board doesn't know yet.
    pub pdus: &'a SeenPdus,
    /// The journal by which transfers go on, if there is one.
    pub transfers: Option<Transfers<'a>>,
    pub progress: &'a Progress<'a>,
    /// Who reports to the operator what is wrong.
    pub teller: Teller<'a>,
}

/// Runs the station over the folder that it sends from. Without one it has no put, and asks for no
/// file.
pub fn ran<'a>(
    context: Context<'a>,
    parts: StationParts<'a, '_>,
    spool: Option<StationSpool<'_>>,
) -> Ran {
    let rt = context.rt;
    let path = outbox_of(context.request).unwrap_or("");
    match folder_outbox(rt, path, context.request.names) {
        Ok(outbox) => {
            let outbox = TellingOutbox::over(rt, path, outbox, context.teller);
            match spool {
                Some(spool) => ran_from(context, parts, outbox, spool),
                None => ran_from(context, parts, outbox, NoSpool::new()),
            }
        }
        Err(AllocError) => Ran::unseen(Exit::Device(Fault::NoMemoryAtStart)),
    }
}

/// Runs the station over this outbox and the folder of its inbox; without one it takes no file.
fn ran_from<'a, O: SeekingOutbox, S: Spool>(
    context: Context<'a>,
    parts: StationParts<'a, '_>,
    outbox: O,
    spool: S,
) -> Ran {
    let Context {
        rt,
        request,
        teller,
        ..
    } = context;
    match &request.inbox {
        Some(path) => {
            let rules = InboxRules {
                replaces: !request.flags.no_overwrite,
                most_size: request.limits.most_size,
                names: request.names,
            };
            match inbox_at(context, path.as_str(), rules) {
                Ok(inbox) => ran_over(context, parts, (outbox, inbox), spool),
                Err(AllocError) => Ran::unseen(Exit::Device(Fault::NoMemoryAtStart)),
            }
        }
        None => {
            let inbox = TellingNoInbox::new(rt, teller);
            ran_over(context, parts, (outbox, inbox), spool)
        }
    }
}

/// Returns the inbox over a folder. If there is a journal, it has the parts that it goes on with.
fn inbox_at<'a>(
    context: Context<'a>,
    path: &'a str,
    rules: InboxRules,
) -> Result<TellingInbox<'a>, AllocError> {
    let Context {
        rt,
        transfers,
        progress,
        teller,
        ..
    } = context;
    match transfers {
        Some(Transfers { journal, found }) => {
            let parts = found.part_names(rt);
            TellingInbox::with_journal(rt, path, rules, teller, progress, (journal, &parts))
        }
        None => TellingInbox::new(rt, path, rules, teller, progress),
    }
}

/// Runs the station over these stores. One looks on if that is asked for.
fn ran_over<'a, O: SeekingOutbox, I: ResumingInbox, S: Spool>(
    context: Context<'a>,
    parts: StationParts<'a, '_>,
    stores: (O, I),
    spool: S,
) -> Ran {
    let Context {
        rt,
        request,
        exchange,
        pdus,
        transfers,
        progress,
        teller,
    } = context;
    let config = parts.config;
    let screen = Screen {
        rt,
        progress: Some(progress),
    };
    keep_seen(rt, &request.shown);
    match Onlooker::at_station(screen, config, &request.shown) {
        Ok(onlooker) => {
            let own = WorldConfig::station(config, side_of(request)).get();
            let lookout = LoopLookout::new(onlooker, progress);
            tell_timers(rt, teller, &own, request.unit);
            tell_authentication(
                rt,
                teller,
                request.carrier,
                parts.ends.as_ref().map(|it| it.mac_len),
            );
            let (configs, to) = ((own, parts.on_link), request.to.as_str());
            let state = state_path(rt, request);
            let mut notices = Notices::new(rt, teller, lookout, exchange, configs, to, state);
            notices.watch = pdu_watch(context, config);
            notices.journal = transfers.map(|it| it.journal);
            let exit = wired(context, parts, stores, spool, &mut notices);
            Ran {
                exit,
                seen: notices.lookout.onlooker.into_summary(),
            }
        }
        Err(AllocError) => Ran::unseen(Exit::Device(Fault::NoMemoryAtStart)),
    }
}

/// What looks at the PDUs for the console, if there is one and there is memory for that.
fn pdu_watch<'a>(context: Context<'a>, config: Valid<WorldConfig>) -> Option<PduWatch<'a>> {
    let _address = context.request.console.as_ref()?;
    let own = WorldConfig::station(config, side_of(context.request));
    PduWatch::new(context.rt.alloc(), own, context.pdus).ok()
}

/// Keeps the capture and the chart of an earlier run, if there are any.
fn keep_seen(rt: &HostRuntime, shown: &Shown) {
    if let Some(path) = &shown.pcap {
        keep_earlier(rt, path.as_str());
    }
    if let Some(path) = &shown.chart {
        keep_earlier(rt, path.as_str());
    }
}

/// Runs the station over its socket, which loses some of its datagrams if that is asked for.
fn wired<'a, O: SeekingOutbox, I: ResumingInbox, S: Spool, L: Lookout>(
    context: Context<'a>,
    parts: StationParts<'a, '_>,
    stores: (O, I),
    spool: S,
    lookout: &mut L,
) -> Exit {
    let StationParts {
        socket,
        frame_count,
        sources,
        config,
        carrier,
        numbers,
        ends,
        ..
    } = parts;
    let side = side_of(context.request);
    let options = ServiceOptions {
        config: WorldConfig::station(config, side),
        frame_count,
        side,
    };
    let served = Served {
        stores,
        spool,
        sources,
    };
    let wire = LossyWire::new(socket, frame_losses(context.request.numbers.losses));
    match ends {
        Some(ends) => {
            let keeper = StationKeeper::new(numbers, context.exchange);
            secured(context, options, served, wire, (keeper, ends), lookout)
        }
        None => carried(context, options, served, wire, carrier, lookout),
    }
}

/// Runs the station over a wire whose frames are authenticated.
fn secured<'a, O: SeekingOutbox, I: ResumingInbox, S: Spool, W: PeerWire, L: Lookout>(
    context: Context<'a>,
    options: ServiceOptions,
    served: Served<'a, O, I, S>,
    wire: W,
    security: (StationKeeper<'a, '_>, SecuredEnds),
    lookout: &mut L,
) -> Exit {
    let (keeper, ends) = security;
    let SecuredEnds { sealer, opener, .. } = ends;
    let alloc = context.rt.alloc();
    let most = frame_len(&options.config.get().sends).min(MOST_FRAME);
    match SecuredWire::new(alloc, wire, keeper, sealer, opener, most) {
        Ok(wire) => operated(context, options, served, wire, lookout),
        Err(AllocError) => Exit::Device(Fault::NoMemoryAtStart),
    }
}

/// Runs the station over a wire whose datagrams are frames, packets or PDUs.
fn carried<'a, O: SeekingOutbox, I: ResumingInbox, S: Spool, W: PeerWire, L: Lookout>(
    context: Context<'a>,
    options: ServiceOptions,
    served: Served<'a, O, I, S>,
    wire: W,
    carrier: Carrier,
    lookout: &mut L,
) -> Exit {
    let (own, tally) = (options.config, &context.exchange.dropped);
    match CarrierWire::new(context.rt.alloc(), carrier, own, wire, tally) {
        Ok(wire) => operated(context, options, served, wire, lookout),
        Err(AllocError) => Exit::Device(Fault::NoMemoryAtStart),
    }
}

/// Runs the station for its operator. The buffer of its log is there before the first turn.
fn operated<'a, O: SeekingOutbox, I: ResumingInbox, W: PeerWire, S: Spool, L: Lookout>(
    context: Context<'a>,
    options: ServiceOptions,
    served: Served<'a, O, I, S>,
    wire: W,
    lookout: &mut L,
) -> Exit {
    let Served {
        stores,
        spool,
        sources,
    } = served;
    let (outbox, inbox) = stores;
    let ends = ServiceEnds {
        outbox,
        inbox,
        wire,
    };
    let Ok(journal) = begun_journal(context, sources.door().is_some()) else {
        return Exit::Device(Fault::NoMemoryAtStart);
    };
    let own = options.config.get();
    let post = operator_post(context, &own, sources, journal);
    let (rt, request) = (context.rt, context.request);
    let console = OperatorConsole::new(rt, post, context.exchange, context.progress);
    let limits = limits(request, own.entity.policy.most_gaps.unwrap_or(0));
    let mut clerk = Clerk::new(rt.alloc(), request.numbers.id, limits, spool, console);
    let exit = match run_by_clerk(context, options, ends, &mut clerk, lookout) {
        Ok(ended) => clerk.console().exit(ended.is_short, ended.has_failed),
        Err(AllocError) => Exit::Device(Fault::NoMemoryAtStart),
    };
    finished(clerk, exit)
}

/// Returns the journal of what happens, before the first line. If there is a console, it keeps the
/// last lines.
fn begun_journal<'a>(
    context: Context<'a>,
    has_console: bool,
) -> Result<StationLog<'a, KeptLog<LossyLog<'a>>>, AllocError> {
    let rt = context.rt;
    let setup = journal_setup(context);
    let out = LossyLog::new(setup.log)?;
    let lines = has_console.then(|| LogLines::new(rt.alloc()));
    StationLog::new(setup, KeptLog::new(out, lines))
}

/// Returns what the operator of a station has before the first command.
fn operator_post<'a>(
    context: Context<'a>,
    own: &StationConfig,
    sources: LineSources<'a>,
    journal: StationLog<'a, KeptLog<LossyLog<'a>>>,
) -> OperatorPost<'a> {
    let request = context.request;
    let policy = own.entity.policy;
    let board = board_at(context, policy.limits, sources.door().is_some());
    OperatorPost {
        sources,
        journal,
        board,
        pdus: context.pdus,
        form: form_of(request),
        keys: keys_of(request),
        outbox: outbox_of(request),
        names: request.names,
        limits: FileLimits {
            most_size: request.limits.most_size,
            most_open: request.limits.most_open,
        },
        inactivity: u64::from(policy.times.inactivity),
        unit: request.unit,
        transfers: context.transfers.map(|it| it.journal),
        teller: context.teller,
    }
}

/// Returns what the console shows, if there is one.
fn board_at(context: Context<'_>, limits: Limits, has_console: bool) -> Option<Board<'_>> {
    if has_console {
        Some(Board::new(board_setup(context, limits)))
    } else {
        None
    }
}

/// Returns how questions are answered.
fn form_of(request: &StationRequest) -> Form {
    if request.flags.json {
        Form::Json
    } else {
        Form::Text
    }
}

/// Runs the station as its clerk wishes. If there is a journal, what that says goes on.
///
/// # Errors
///
/// `AllocError` if there is no memory for the station, for what it must send, or for what goes on.
fn run_by_clerk<'a, O: SeekingOutbox, I: ResumingInbox, W: PeerWire, S: Spool, L: Lookout>(
    context: Context<'a>,
    options: ServiceOptions,
    ends: ServiceEnds<O, I, W>,
    clerk: &mut Clerk<S, OperatorConsole<'a>>,
    lookout: &mut L,
) -> Result<Ended, AllocError> {
    match context.transfers {
        Some(transfers) => {
            let (journal, survey) = (transfers.journal, transfers.found.take());
            add_puts(context, clerk, survey.as_ref())?;
            let (rt, teller) = (context.rt, context.teller);
            run_resumed(rt, teller, options, ends, (journal, survey), clerk, lookout)
        }
        None => {
            add_puts(context, clerk, None)?;
            run(context.rt.alloc(), options, ends, clerk, lookout)
        }
    }
}

/// Writes the rest of the log, and returns how the station ended.
fn finished<S: Spool>(clerk: Clerk<S, OperatorConsole<'_>>, exit: Exit) -> Exit {
    let mut log = clerk.into_console().into_writer().into_inner();
    if log.finish() {
        exit
    } else {
        Exit::Device(Fault::Unwritable)
    }
}

/// How the log is written.
fn journal_setup(context: Context<'_>) -> LogSetup<'_> {
    let Context {
        rt,
        request,
        exchange,
        ..
    } = context;
    let flags = request.flags;
    let style = match (flags.json, flags.no_time) {
        (true, no_time) => Style::Json { has_time: !no_time },
        (false, true) => Style::Plain,
        (false, false) => Style::Text,
    };
    let own = request.numbers.id;
    LogSetup {
        log: Log { rt, own, style },
        outbox: outbox_of(request),
        exchange,
    }
}

/// The station that the console's board is of.
fn board_setup(context: Context<'_>, limits: Limits) -> BoardSetup<'_> {
    let Context {
        rt,
        request,
        exchange,
        ..
    } = context;
    BoardSetup {
        rt,
        own: request.numbers.id,
        peer: request.numbers.peer,
        carrier: match request.carrier {
            CarrierKind::Frames => "frames",
            CarrierKind::Packets => "packets",
            CarrierKind::Pdus => "pdus",
        },
        to: request.to.as_str(),
        version: VERSION,
        is_authenticated: request.keys.is_some(),
        limits,
        exchange,
    }
}

/// Returns the path of the file of keys, if there is one.
fn keys_of(request: &StationRequest) -> Option<&str> {
    match &request.keys {
        Some(path) => Some(path.as_str()),
        None => None,
    }
}

/// What limits the station's clerk; `most_gaps` are the most of a file, and 0 stands for no limit.
fn limits(request: &StationRequest, most_gaps: u64) -> ClerkLimits {
    let limits = request.limits;
    ClerkLimits {
        at_once: limits.at_once as usize,
        retries: u32::try_from(limits.retries).unwrap_or(u32::MAX),
        most_size: limits.most_size,
        most_open: limits.most_open as usize,
        most_gaps,
    }
}

/// Asks for the files that must be sent, by pairs of words, except for those that an earlier run
/// began to send.
fn add_puts<S: Spool>(
    context: Context<'_>,
    clerk: &mut Clerk<S, OperatorConsole<'_>>,
    survey: Option<&Survey>,
) -> Result<(), AllocError> {
    let alloc = context.rt.alloc();
    let words = context.request.puts.as_slice();
    for pair in 0..words.len() / 2 {
        let (source, destination) = (words[2 * pair].as_bytes(), words[2 * pair + 1].as_bytes());
        if !survey.is_some_and(|it| it.sends(source, destination)) {
            let names = PutNames {
                source: Vec::from_slice(alloc, source)?,
                destination: Vec::from_slice(alloc, destination)?,
            };
            clerk.add(names, false)?;
        }
    }
    Ok(())
}
