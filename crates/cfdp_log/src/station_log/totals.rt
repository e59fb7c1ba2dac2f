//! What a station has done for its user, in numbers.
ghost use Rattle.std.specs.Prelude.{◌≡◌, ◌||◌, ◌&&◌, not, true};
ghost use Rattle.cfdp_log.specs.Log.Totals.{counted, is_failed_reception, is_refused};
ghost use Rattle.cfdp_log.specs.Log.Totals.{is_failed_send, is_short};
ghost use Rattle.cfdp_log.specs.Log.Totals.{with_failures};
ghost use Rattle.cfdp_report.specs.Exit.{run_exit};
ghost use Rattle.cfdp_report.specs.Report.Lines.{is_own_completion};

use cfdp_directives::{Condition, Delivery, FileStatus, Indication};
use cfdp_header::TransactionId;
use cfdp_report::{Exit, own_completions};
use cfdp_station::PutError;
use std::slice;

/// What a station has done for its user since it was started. Each count stays at its greatest
/// value.
#[derive(Clone, Copy, Debug, PartialEq, Eq)]
pub struct Totals {
    /// Puts that were made, each time that a file was tried.
    pub made: usize,
    /// Files that must be sent, each counted once.
    pub asked: usize,
    /// Puts that were refused.
    pub refused: usize,
    /// Transactions of its own that were indicated as complete.
    pub complete: usize,
    /// Octets of the files of these, as far as they are known.
    pub octets_sent: u64,
    /// Files that it received.
    pub received: usize,
    /// Octets of these.
    pub octets_received: u64,
    /// Files that began to come and weren't received.
    pub failed: usize,
    /// Transactions of its own that ended, and whose file the peer doesn't have. A file of a spool
    /// that is tried again counts each time.
    pub sends_failed: usize,
    /// The last two by the conditions by which they ended.
    pub failures: Failures,
    /// Whether a put was refused because memory ran out.
    pub is_short: bool,
}

impl Totals {
    /// Nothing was done yet.
    pub const NONE: Totals = Totals {
        made: 0,
        asked: 0,
        refused: 0,
        complete: 0,
        octets_sent: 0,
        received: 0,
        octets_received: 0,
        failed: 0,
        sends_failed: 0,
        failures: Failures::NONE,
        is_short: false,
    };

    /// Counts a put, which was answered so; of a file that was put before if `is_again`.
    pub fn counts_put(&mut self, answer: Result<TransactionId, PutError>, is_again: bool)
        ensures made { self.new.made ≡ counted true self.old.made }
        ensures asked { self.new.asked ≡ counted (not is_again) self.old.asked }
        ensures refused { self.new.refused ≡ counted (is_refused answer) self.old.refused }
        ensures short { self.new.is_short ≡ (self.old.is_short || is_short answer) }
        ensures others { (self.new.complete ≡ self.old.complete)
            × (self.new.failed ≡ self.old.failed)
            × (self.new.sends_failed ≡ self.old.sends_failed) }
    {
        self.made = self.made.saturating_add(1);
        self.asked = self.asked.saturating_add(usize::from(!is_again));
        self.refused = self.refused.saturating_add(usize::from(answer.is_err()));
        self.is_short |= matches!(answer, Err(PutError::NoMemory));
    }

    /// Counts what a station, whose id is `own`, indicated of a transaction: of a file of so
    /// many octets, if that is known, and that was reported over before if `is_over`.
    pub fn hears(&mut self, own: u64, told: &Indication, is_over: bool, size: Option<u64>)
        ensures complete { self.new.complete
            ≡ counted (is_own_completion own told.now) self.old.complete }
        ensures failed { self.new.failed
            ≡ counted (not is_over && is_failed_reception own told.now) self.old.failed }
        ensures sends { self.new.sends_failed
            ≡ counted (not is_over && is_failed_send own told.now) self.old.sends_failed }
        ensures others { (self.new.made ≡ self.old.made) × (self.new.asked ≡ self.old.asked)
            × (self.new.refused ≡ self.old.refused) × (self.new.is_short ≡ self.old.is_short) }
    {
        let octets = size.unwrap_or(0);
        let sent = own_completions(own, slice::from_ref(told));
        self.complete = self.complete.saturating_add(sent);
        if sent > 0 {
            self.octets_sent = self.octets_sent.saturating_add(octets);
        }
        if is_received(own, told) {
            self.received = self.received.saturating_add(1);
            self.octets_received = self.octets_received.saturating_add(octets);
        }
        let has_failed = !is_over && fails_to_come(own, told);
        self.failed = self.failed.saturating_add(usize::from(has_failed));
        let has_failed_to_go = !is_over && fails_to_go(own, told);
        self.sends_failed = self
            .sends_failed
            .saturating_add(usize::from(has_failed_to_go));
        if (has_failed || has_failed_to_go)
            && let Some(condition) = end_condition(told)
        {
            self.failures.counts(has_failed_to_go, condition);
        }
    }

    /// Returns how a run ended, by whether memory ran out in it, for a put or otherwise, and
    /// whether a store failed: it is complete only if all files were, those that were received too.
    pub fn exit(&self, is_short: bool, has_store_failed: bool) -> Exit
        ensures { result ≡ with_failures self.now.failed (run_exit (is_short || self.now.is_short)
            has_store_failed self.now.complete self.now.asked) }
    {
        let is_short = is_short || self.is_short;
        match Exit::of_run(is_short, has_store_failed, self.complete, self.asked) {
            Exit::Complete if self.failed > 0 => Exit::Incomplete,
            exit => exit,
        }
    }
}

/// How many conditions there are, by their codes.
pub const CONDITIONS: usize = 16;

/// How many transactions failed by each condition: those that sent a file, and those that received
/// one. Each count stays at 2^64 - 1.
#[derive(Clone, Copy, Debug, PartialEq, Eq)]
pub struct Failures {
    sends: [u64; 16],
    receptions: [u64; 16],
}

impl Failures {
    /// None failed yet.
    pub const NONE: Failures = Failures {
        sends: [0; 16],
        receptions: [0; 16],
    };

    /// Counts a transaction that failed by this condition, which sent a file or received one.
    fn counts(&mut self, is_send: bool, condition: Condition) {
        let code = usize::from(condition.code());
        let all = if is_send {
            &mut self.sends
        } else {
            &mut self.receptions
        };
        if let Some(count) = all.get_mut(code) {
            *count = count.saturating_add(1);
        }
    }

    /// Returns how many transactions that sent a file failed by the condition of this code.
    pub fn sends_by(&self, code: usize) -> u64 {
        self.sends.get(code).copied().unwrap_or(0)
    }

    /// Returns how many transactions that received a file failed by the condition of this code.
    pub fn receptions_by(&self, code: usize) -> u64 {
        self.receptions.get(code).copied().unwrap_or(0)
    }
}

/// Returns the condition by which a transaction is over, if this says that it is.
fn end_condition(told: &Indication) -> Option<Condition> {
    match told {
        Indication::Finished { condition, .. } => Some(*condition),
        Indication::Abandoned(_, condition) => Some(*condition),
        _ => None,
    }
}

/// Whether by this a file of another entity was received whole.
fn is_received(own: u64, told: &Indication) -> bool {
    match told {
        Indication::Finished {
            id,
            condition,
            delivery: Delivery::Complete,
            status: FileStatus::Retained,
        } => condition.code() == 0 && id.source != own,
        _ => false,
    }
}

/// Whether by this a file of another entity is over and was not received.
fn fails_to_come(own: u64, told: &Indication) -> bool
    ensures { result ≡ is_failed_reception own told.now }
{
    match told {
        Indication::Finished {
            id,
            condition,
            delivery,
            status,
        } => {
            let is_whole = *delivery == Delivery::Complete && *status == FileStatus::Retained;
            id.source != own && !(condition.code() == 0 && is_whole)
        }
        Indication::Abandoned(id, _) => id.source != own,
        _ => false,
    }
}

/// Returns whether by this a transaction of this entity is over, and its file isn't at the peer.
fn fails_to_go(own: u64, told: &Indication) -> bool
    ensures { result ≡ is_failed_send own told.now }
{
    match told {
        Indication::Finished {
            id,
            condition,
            delivery,
            status,
        } => {
            let is_whole = *delivery == Delivery::Complete && *status == FileStatus::Retained;
            id.source == own && !(condition.code() == 0 && is_whole)
        }
        Indication::Abandoned(id, _) => id.source == own,
        _ => false,
    }
}
