//! Errors that the network reports of datagrams that were sent before.
ghost use Rattle.std.specs.Prelude.{◌≡◌, ◌+◌, ◌-◌, ◌<◌, ◌≤◌, ◌↔◌, false, true};

use std::io::ErrorKind;

/// After this number of reports in a row the peer can't be reached.
pub const MOST_REPORTS: u32 = 8;

/// A report is in a row with the one before if at most so many datagrams were sent in between, and
/// none was heard.
const MOST_BETWEEN: u32 = 8;

/// So many reports are believed before anything is heard: the peer may start a few seconds later,
/// and what is sent before then is lost.
const PATIENCE: u32 = 50;

/// How many errors the network has reported in a row, and how many datagrams were sent since the
/// last of them.
///
/// A report is an ICMP message about a datagram that was sent before. Anybody can forge one, so a
/// few mean nothing.
#[derive(Clone, Copy)]
pub struct Reports {
    in_a_row: u32,
    sent_since: u32,
    // How many more reports are believed before anything is heard.
    patience: u32,
    // The last error that nobody has looked at.
    last: Option<ErrorKind>,
}

impl Reports {
    /// Before the first report, and before anything was heard.
    pub const START: Reports = Reports {
        in_a_row: 0,
        sent_since: 0,
        patience: PATIENCE,
        last: None,
    };

    /// Counts a report. Returns whether it may be passed over: `false` if nothing was heard yet and
    /// it is one of the first, or if it is one too many in a row, after which they are counted from
    /// 0.
    pub fn may_pass(&mut self, kind: ErrorKind) -> bool
        ensures first { 0 < self.old.patience → result ≡ false }
        ensures passes { self.old.patience ≡ 0 →
            ((result ≡ true) ↔ (self.old.in_a_row + 1 < 8)) }
        ensures counts { result ≡ true → self.new.in_a_row ≡ self.old.in_a_row + 1 }
        ensures anew { result ≡ false → self.new.in_a_row ≡ 0 }
        ensures patience { self.new.patience ≡ self.old.patience - 1 }
        ensures since { self.new.sent_since ≡ 0 }
    {
        let in_a_row = self.in_a_row.saturating_add(1);
        let may_pass = self.patience == 0 && in_a_row < MOST_REPORTS;
        self.in_a_row = if may_pass { in_a_row } else { 0 };
        self.patience = self.patience.saturating_sub(1);
        self.sent_since = 0;
        self.last = Some(kind);
        may_pass
    }

    /// Returns the last error that was reported, once.
    pub fn take_last(&mut self) -> Option<ErrorKind> {
        self.last.take()
    }

    /// Counts a datagram that was sent.
    pub fn sends(&mut self)
        ensures few { self.old.sent_since < 8 → self.new.in_a_row ≡ self.old.in_a_row }
        ensures many { 8 ≤ self.old.sent_since → self.new.in_a_row ≡ 0 }
        ensures since { self.old.sent_since < 8 → self.new.sent_since ≡ self.old.sent_since + 1 }
    {
        self.sent_since = self.sent_since.saturating_add(1);
        if self.sent_since > MOST_BETWEEN {
            self.in_a_row = 0;
        }
    }

    /// Notes that a datagram was heard: the peer can be reached.
    pub fn hears(&mut self)
        ensures in_a_row { self.new.in_a_row ≡ 0 }
        ensures patience { self.new.patience ≡ 0 }
    {
        self.in_a_row = 0;
        self.patience = 0;
    }
}

/// Returns `true` if the network reports this error, by an ICMP message.
pub fn is_report(kind: ErrorKind) -> bool {
    matches!(
        kind,
        ErrorKind::ConnectionRefused | ErrorKind::HostUnreachable | ErrorKind::NetworkUnreachable
    )
}
