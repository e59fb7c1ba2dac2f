//! Transfers that go on after a restart, by the journal of the station.
use crate::failure::{FileError, JournalFault, RestartError, SetupError};
use crate::station::{outbox_of, side_of, state_path};
use cfdp_command_line::{StationNumbers, StationRequest};
use cfdp_directives::{Addressing, Indication};
use cfdp_exchange::{Exchange, NoteTopic};
use cfdp_files::{HeldFolder, is_same_folder, lies_in};
use cfdp_header::TransactionId;
use cfdp_operator::{Teller, note};
use cfdp_port::{Lookout, PeerWire, Port};
use cfdp_report::Name;
use cfdp_service::{
    Clerk, Console, Ended, PutNames, ServiceEnds, ServiceOptions, Spool, User, run_restored,
};
use cfdp_setup::StationSetup;
use cfdp_station::RestoreError;
use cfdp_store::{ResumingInbox, SeekingOutbox};
use host_journal::{HostJournal, read_survey};
use station_pair::WorldConfig;
use std::alloc::{AllocError, Global};
use std::borrow::CowStr;
use std::cell::Cell;
use std::collections::BTreeSet;
use std::os::unix::fs::MetadataExt;
use std::{fmt, fs};
use transfer_journal::{
    JournalError, KeptEnd, Owner, PublishRules, Restored, ResumedTransaction, Survey, SurveyError,
    publish_again, restore,
};
use valid_config::Valid;

/// What a journal says, until the station is there on which that is restored.
#[derive(Drop)]
pub struct Found {
    survey: Cell<Option<Survey>>,
    /// Whose the journal is from now on.
    pub owner: Owner,
    // Where it lies if it isn't named.
    unnamed: Option<String>,
}

impl Found {
    /// Returns the names of the parts of files that go on.
    pub fn part_names(&self, rt: &HostRuntime) -> BTreeSet<String> {
        match self.survey.take() {
            Some(survey) => {
                let names = kept_parts(rt, &survey);
                self.survey.set(Some(survey));
                names
            }
            None => BTreeSet::new(rt.alloc()),
        }
    }

    /// Returns the greatest number of a transaction that this entity began, if the journal has any.
    pub fn greatest_number(&self, own: u64) -> Option<u64> {
        let survey = self.survey.take()?;
        let greatest = survey.greatest_number(own);
        self.survey.set(Some(survey));
        greatest
    }

    /// Checks that the first put gets a number that no transaction of the journal has.
    ///
    /// # Errors
    ///
    /// `UsedNumber` if it doesn't.
    pub fn check_number<'a>(
        &self,
        request: &'a StationRequest,
        number: u64,
    ) -> Result<(), SetupError<'a>> {
        let own = request.numbers.id;
        match self.greatest_number(own) {
            Some(used) if used >= number => Err(SetupError::UsedNumber { number, own, used }),
            Some(_) | None => Ok(()),
        }
    }

    /// Returns the path of the journal, if one must be kept.
    pub fn path<'a>(&'a self, request: &'a StationRequest) -> Option<&'a str> {
        journal_path(request, &self.unnamed)
    }

    /// Returns what was found, once.
    pub fn take(&self) -> Option<Survey> {
        self.survey.take()
    }
}

/// Returns the path of the journal, if one must be kept.
fn journal_path<'a>(request: &'a StationRequest, unnamed: &'a Option<String>) -> Option<&'a str> {
    match (request.flags.no_journal, &request.journal, unnamed) {
        (false, Some(path), _) | (false, None, Some(path)) => Some(path.as_str()),
        (true, _, _) | (false, None, None) => None,
    }
}

/// Returns the path of a journal that isn't named: beside the file of reserved numbers, if there
/// is one, with the ids of both stations, since a journal is of one pair. None is kept in an inbox
/// or a spool.
fn unnamed_journal(
    rt: &HostRuntime,
    request: &StationRequest,
    setup: &StationSetup,
) -> Option<String> {
    if request.state.is_none() && setup.first_number() != 0 {
        return None;
    }
    let state = state_path(rt, request)?;
    let StationNumbers { id, peer, .. } = request.numbers;
    let path = format!(in rt.alloc(); "{state}.{id}-{peer}.journal").ok()?;
    for folder in [&request.inbox, &request.spool] {
        if let Some(folder) = folder
            && lies_in(rt, path.as_str(), folder.as_str())
        {
            return None;
        }
    }
    Some(path)
}

/// Reads the journal of the station, if it keeps one.
///
/// # Errors
///
/// `Journal` if it can't be used.
pub fn found_journal<'a>(
    rt: &HostRuntime,
    request: &'a StationRequest,
    setup: &StationSetup,
    config: Valid<WorldConfig>,
    exchange: &Exchange,
) -> Result<Found, RestartError<'a>> {
    let mut owner = Owner {
        entity: request.numbers.id,
        peer: request.numbers.peer,
        start: 1,
    };
    let unnamed = unnamed_journal(rt, request, setup);
    let survey = match journal_path(request, &unnamed) {
        Some(path) => match survey_at(rt, request, path, (owner, config), exchange) {
            Ok(survey) => survey,
            Err(fault) => {
                return Err(RestartError::Journal(own_path(request, unnamed), fault));
            }
        },
        None => None,
    };
    if let Some(found) = survey.as_ref().and_then(|survey| survey.owner()) {
        owner.start = found.start.saturating_add(1);
    }
    Ok(Found {
        survey: Cell::new(survey),
        owner,
        unnamed,
    })
}

/// Returns the path of a journal that is named in the request or isn't.
fn own_path(request: &StationRequest, unnamed: Option<String>) -> CowStr<'_, Global> {
    match (&request.journal, unnamed) {
        (Some(path), _) => CowStr::Borrowed(path.as_str()),
        (None, Some(path)) => CowStr::Owned(path),
        (None, None) => CowStr::Borrowed(""),
    }
}

/// Returns what the journal at a path says, which must be of this owner; `None` if there is none.
/// A damaged one is set aside, and nothing goes on.
///
/// # Errors
///
/// Why it can't be used.
fn survey_at<'a>(
    rt: &HostRuntime,
    request: &'a StationRequest,
    path: &str,
    station: (Owner, Valid<WorldConfig>),
    exchange: &Exchange,
) -> Result<Option<Survey>, JournalFault<'a>> {
    let (owner, config) = station;
    check_place(rt, request, path)?;
    match read_survey(rt, path, owner, addressing_of(request, config)) {
        Ok(survey) => Ok(with_changes(rt, request, path, survey)),
        Err(SurveyError::Damaged) => {
            tell_damaged(rt, path, exchange);
            Ok(None)
        }
        Err(SurveyError::OfOthers(entity, peer)) => Err(JournalFault::OfOthers(entity, peer)),
        // Who has that has the inbox or the state file too, which refuse this station.
        Err(SurveyError::File(JournalError::InUse)) if request.journal.is_none() => Ok(None),
        Err(SurveyError::File(JournalError::InUse)) => Err(JournalFault::InUse),
        Err(SurveyError::File(JournalError::System(error))) => {
            Err(JournalFault::System(error.kind()))
        }
    }
}

/// Notes in what a journal says which files to send changed after it was written last: the station
/// didn't run then. It must be called before anything renames these files.
fn with_changes(
    rt: &HostRuntime,
    request: &StationRequest,
    path: &str,
    survey: Option<Survey>,
) -> Option<Survey> {
    let mut survey = survey?;
    if let Some(folder) = outbox_of(request)
        && let Ok(journal) = fs::symlink_metadata(rt, path)
    {
        let written = (journal.mtime(), journal.mtime_nsec());
        for transfer in survey.transfers_mut() {
            if let Some(transfer) = transfer
                && let KeptEnd::Sends(sender) = &mut transfer.end
                && is_newer(rt, folder, sender.transfer.source.as_slice(), written)
            {
                sender.changes();
            }
        }
    }
    Some(survey)
}

/// Returns `true` if a file of this name is there that changed, or got this name, after that time.
fn is_newer(rt: &HostRuntime, folder: &str, name: &[u8], then: (i64, i64)) -> bool {
    let Ok(name) = str::from_utf8(name) else {
        return false;
    };
    let Ok(path) = format!(in rt.alloc(); "{folder}/{name}") else {
        return false;
    };
    match fs::symlink_metadata(rt, path.as_str()) {
        Ok(file) => (file.ctime(), file.ctime_nsec()) > then,
        Err(_) => false,
    }
}

/// Returns how a file of the peer is addressed if only its name is known: as those that this
/// station sends.
fn addressing_of(request: &StationRequest, config: Valid<WorldConfig>) -> Addressing {
    let own = WorldConfig::station(config, side_of(request)).get().entity;
    Addressing {
        id: TransactionId {
            source: own.peer,
            number: 0,
        },
        destination: own.entity,
        id_width: own.id_width,
        number_width: own.number_width,
        crc: own.pdu_crc,
    }
}

/// Looks whether the journal lies out of the peer's reach, isn't sent, and isn't the state file.
///
/// # Errors
///
/// `IsState`, `InSpool` or `InInbox` if not.
fn check_place<'a>(
    rt: &HostRuntime,
    request: &'a StationRequest,
    path: &str,
) -> Result<(), JournalFault<'a>> {
    if is_state_file(rt, request, path) {
        return Err(JournalFault::IsState);
    }
    if let Some(spool) = &request.spool
        && lies_in(rt, path, spool.as_str())
    {
        return Err(JournalFault::InSpool(spool.as_str()));
    }
    if let Some(inbox) = &request.inbox
        && lies_in(rt, path, inbox.as_str())
    {
        return Err(JournalFault::InInbox(inbox.as_str()));
    }
    Ok(())
}

/// Returns `true` if the state file of the station has this path, or is the file that is there.
fn is_state_file(rt: &HostRuntime, request: &StationRequest, path: &str) -> bool {
    match state_path(rt, request) {
        Some(state) => {
            state.as_str() == path || matches!(is_same_folder(rt, state.as_str(), path), Ok(true))
        }
        None => false,
    }
}

/// Says that a journal was damaged.
fn tell_damaged(rt: &HostRuntime, path: &str, exchange: &Exchange) {
    let text = format!(in rt.alloc();
        "{path}: damaged: it is kept as {path}.damaged, and no transfer goes on"
    );
    note(rt, &exchange.notes, NoteTopic::Journal, text);
}

/// Takes the folder of the inbox, without what earlier runs left there, except for the parts of
/// files that go on. Files that were about to be published are published.
///
/// # Errors
///
/// `InboxInUse` or `Folder` if it can't be had.
pub fn held_folder<'a>(
    rt: &HostRuntime,
    request: &'a StationRequest,
    path: &'a str,
    found: &Found,
) -> Result<HeldFolder, FileError<'a>> {
    let Some(mut survey) = found.take() else {
        return held_without(rt, path, &BTreeSet::new(rt.alloc()));
    };
    let held = held_without(rt, path, &kept_parts(rt, &survey))?;
    let rules = PublishRules {
        folder: path,
        replaces: !request.flags.no_overwrite,
        most_size: request.limits.most_size,
        names: request.names,
    };
    publish_again(rt, rt.alloc(), rules, &mut survey);
    found.survey.set(Some(survey));
    Ok(held)
}

/// Takes the folder of the inbox, without the parts of files that aren't kept.
///
/// # Errors
///
/// `InboxInUse` or `Folder` if it can't be had.
fn held_without<'a>(
    rt: &HostRuntime,
    path: &'a str,
    kept: &BTreeSet<String>,
) -> Result<HeldFolder, FileError<'a>> {
    match HeldFolder::take_with(rt, path, kept) {
        Ok(held) => Ok(held),
        Err(error) => Err(FileError::inbox(path, &error)),
    }
}

/// Returns the names of the parts that are still needed; none if there is no memory for them.
fn kept_parts(rt: &HostRuntime, survey: &Survey) -> BTreeSet<String> {
    match survey.part_names() {
        Ok(names) => names,
        Err(AllocError) => BTreeSet::new(rt.alloc()),
    }
}

/// Makes a station on which what the journal says goes on, if there was one, and has it serve its
/// clerk. The journal of this run is there before its first turn.
///
/// # Errors
///
/// `AllocError` if there is no memory for the station, or for what goes on.
pub fn run_resumed<O, I, W, S, C, L>(
    rt: &HostRuntime,
    teller: Teller<'_>,
    options: ServiceOptions,
    ends: ServiceEnds<O, I, W>,
    journal: (&HostJournal<'_>, Option<Survey>),
    clerk: &mut Clerk<S, C>,
    lookout: &mut L,
) -> Result<Ended, AllocError>
where
    O: SeekingOutbox,
    I: ResumingInbox,
    W: PeerWire,
    S: Spool,
    C: Console,
    L: Lookout,
{
    let ServiceEnds {
        outbox,
        inbox,
        wire,
    } = ends;
    let (journal, survey) = journal;
    let alloc = rt.alloc();
    let mut port = Port::new(alloc, options.side, options.config, (outbox, inbox), wire)?;
    port.count_frames_from(options.frame_count);
    let pending = match survey {
        Some(survey) => {
            let restored = restore(alloc, &mut port, survey)?;
            tell_restored(rt, teller, &restored);
            take_back(clerk, restored)
        }
        None => Vec::new(alloc),
    };
    journal.begins(port.station(), pending.as_slice());
    let ended = run_restored(&mut port, clerk, lookout);
    drop(port);
    ended.ok_or(AllocError)
}

/// Gives a clerk back the puts that go on, and lets it hear what it may not have heard: that is
/// returned.
fn take_back<S: Spool, C: Console>(clerk: &mut Clerk<S, C>, restored: Restored) -> Vec<Indication> {
    let Restored {
        resumed,
        pending,
        ..
    } = restored;
    for one in resumed {
        take_back_one(clerk, one);
    }
    hear_all(clerk, pending.as_slice());
    pending
}

/// Gives a clerk back a put that goes on, or whose end it may not have heard.
fn take_back_one<S: Spool, C: Console>(clerk: &mut Clerk<S, C>, one: ResumedTransaction) {
    let ResumedTransaction {
        id,
        name,
        destination,
        is_taken_back,
        ..
    } = one;
    if is_taken_back {
        let names = PutNames {
            source: name,
            destination,
        };
        clerk.takes_back(id, names);
    }
}

fn hear_all<S: Spool, C: Console>(clerk: &mut Clerk<S, C>, pending: &[Indication]) {
    for indication in pending {
        clerk.hears(indication);
    }
}

/// Says which transfers go on, and which don't.
fn tell_restored(rt: &HostRuntime, teller: Teller<'_>, restored: &Restored) {
    for one in &restored.resumed {
        if one.is_open {
            tell_resumed(rt, teller, one);
        }
    }
    tell_all_lost(rt, teller, restored.lost.as_slice());
}

/// Says which transfers don't go on, and why.
fn tell_all_lost(rt: &HostRuntime, teller: Teller<'_>, lost: &[(TransactionId, RestoreError)]) {
    for (id, error) in lost {
        let TransactionId { source, number } = *id;
        let text = format!(in rt.alloc(); "transaction {source}:{number} doesn't go on: {error}");
        teller.notes(NoteTopic::Journal, text);
    }
}

/// Octets of a file of so many.
#[derive(Clone, Copy)]
struct Share {
    octets: u64,
    size: Option<u64>,
}

impl fmt::Display for Share {
    fn fmt<W: fmt::Write>(&self, f: &mut fmt::Formatter<W>) -> fmt::Result {
        let octets = self.octets;
        match self.size {
            Some(size) => write!(f, "{octets} of {size} octets"),
            None => write!(f, "{octets} octets"),
        }
    }
}

fn tell_resumed(rt: &HostRuntime, teller: Teller<'_>, one: &ResumedTransaction) {
    let TransactionId { source, number } = one.id;
    let name = Name(one.name.as_slice());
    let share = Share {
        octets: one.octets,
        size: one.size,
    };
    let text = format!(in rt.alloc(); "resumed {source}:{number} {name} at {share}");
    teller.notes(NoteTopic::Journal, text);
}
