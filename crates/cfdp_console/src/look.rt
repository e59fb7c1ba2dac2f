//! What of a station can be looked at.
ghost use Rattle.std.specs.Prelude.{◌≡◌, IfNone, IfOk, IfSome, IsSome, option_copied};
ghost use Rattle.cfdp_console.specs.Asking.{plain_at};
ghost use Rattle.cfdp_console.specs.Denying.{IsNothingAt};

use std::alloc::{AllocError, Global};

/// What of a station can be looked at.
#[derive(Drop)]
pub enum Look {
    /// The page, `/`: it has nothing of the station, and asks for everything else.
    Page,
    /// The token that the page shows, `/token`, if it may.
    Token,
    /// The station and its link, `/status`.
    Status,
    /// What passed over the link in the last ten minutes, `/history`.
    History,
    /// The open transactions, and some that were closed, `/transactions?after=N`: these from the
    /// next one after number N on.
    Transactions(u64),
    /// A transaction that is open or is one of the last closed ones, `/transactions/ID`.
    Transaction(Vec<u8>),
    /// The same with what of its file is held and what is missing, its NAKs and its timers,
    /// `/transactions/ID/details`.
    Details(Vec<u8>),
    /// Some lines of the log, `/log?after=N`: from the next one after number N on.
    Log(u64),
    /// All numbers for Prometheus, `/metrics`.
    Metrics,
    /// The names of files that may be sent, `/files`.
    Files,
}

/// Returns what is looked at by this path and query; `None` if there is nothing.
///
/// # Errors
///
/// `AllocError` if there is no memory for an id.
pub fn look_at(alloc: Global, path: &[u8], query: Option<&str>) -> Result<Option<Look>, AllocError>
    ensures plain { IfOk result (λ found. IfSome (plain_at path.now)
        (λ there. IfSome found (λ it. it ≡ there))) }
    ensures nothing { IfOk result (λ found.
        IfNone found (IsNothingAt path.now (option_copied query.entry))) }
{
    if let Some(look) = plain(path) {
        return Ok(Some(look));
    }
    if path == b"/transactions".as_slice() {
        return Ok(after(query).map(Look::Transactions));
    }
    if path == b"/log".as_slice() {
        return Ok(after(query).map(Look::Log));
    }
    match path.strip_prefix(b"/transactions/") {
        Some(rest) => Ok(Some(transaction_at(alloc, rest)?)),
        None => Ok(None),
    }
}

/// What is looked at of a transaction by what follows `/transactions/` in a path.
fn transaction_at(alloc: Global, rest: &[u8]) -> Result<Look, AllocError> {
    match rest.strip_suffix(b"/details") {
        Some(id) => Ok(Look::Details(Vec::from_slice(alloc, id)?)),
        None => Ok(Look::Transaction(Vec::from_slice(alloc, rest)?)),
    }
}

/// What is looked at by a path alone.
fn plain(path: &[u8]) -> Option<Look>
    ensures { result ≡ plain_at path.now }
{
    if path == b"/".as_slice() {
        Some(Look::Page)
    } else if path == b"/token".as_slice() {
        Some(Look::Token)
    } else if path == b"/status".as_slice() {
        Some(Look::Status)
    } else if path == b"/history".as_slice() {
        Some(Look::History)
    } else if path == b"/metrics".as_slice() {
        Some(Look::Metrics)
    } else if path == b"/files".as_slice() {
        Some(Look::Files)
    } else {
        None
    }
}

/// The number in `after=N`, which is 0 if there is no query; `None` if it is none.
fn after(query: Option<&str>) -> Option<u64>
    ensures { IfNone result (IsSome (option_copied query.entry)) }
{
    match query {
        None => Some(0),
        Some(query) => query.strip_prefix("after=")?.parse().ok(),
    }
}
