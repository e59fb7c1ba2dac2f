//! Who may ask for what.
ghost use Rattle.std.specs.Prelude.{◌≡◌, ◌↔◌, IfErr, IfOk, IsTrue, MatchOption};
ghost use Rattle.cfdp_play.specs.Asking.{ComesFrom, IsDenied, IsMethodOf, IsNowhere, MayAsk};
ghost use Rattle.cfdp_play.specs.Asking.{TellsOrigin, path_of};

use bytes::Bytes;
use cfdp_console::{Denial, is_own};
use http::{Request, header};

/// What a request asks for.
#[derive(Clone, Copy, PartialEq, Eq)]
pub enum Asked {
    /// The page.
    Page,
    /// The run of the script that its body is.
    Run,
    /// The fields of the frames or PDUs in its body.
    Fields,
}

/// Returns what a request asks for, if its sender may ask that: it must be sent to this server by
/// its own address, by no page of another site, and what is posted must be sent by the page itself.
///
/// # Errors
///
/// The `Denial`: `Foreign` goes before all others if it is sent to a foreign name or by a page
/// of another site, and after them if it is posted by no page.
pub fn what_is_asked(request: &Request<Bytes>) -> Result<Asked, Denial>
    ensures may { IfOk result (MayAsk request.now) }
    ensures denied { IfErr result (IsDenied request.now) }
{
    if !is_own(request) {
        return Err(Denial::Foreign);
    }
    let Some(asked) = asked_at(request.uri().path()) else {
        return Err(Denial::NotFound);
    };
    if !is_method_of(asked, request.method().as_str()) {
        return Err(Denial::WrongMethod);
    }
    if comes_from(asked, request) {
        Ok(asked)
    } else {
        Err(Denial::Foreign)
    }
}

/// Returns what is asked for at this path.
fn asked_at(path: &str) -> Option<Asked>
    ensures { MatchOption result (IsNowhere path.now) (λ it. path.now ≡ path_of it) }
{
    if path == "/" {
        Some(Asked::Page)
    } else if path == "/run" {
        Some(Asked::Run)
    } else if path == "/fields" {
        Some(Asked::Fields)
    } else {
        None
    }
}

/// Returns `true` if it is asked for by this method.
fn is_method_of(asked: Asked, method: &str) -> bool
    ensures { IsTrue result ↔ IsMethodOf asked method.now }
{
    match asked {
        Asked::Page => method == "GET" || method == "HEAD",
        Asked::Run | Asked::Fields => method == "POST",
    }
}

/// Returns `true` if it is asked for by a sender that may ask for it.
fn comes_from(asked: Asked, request: &Request<Bytes>) -> bool
    ensures { IsTrue result → ComesFrom asked request.now }
{
    match asked {
        Asked::Page => true,
        Asked::Run | Asked::Fields => tells_origin(request),
    }
}

/// Returns `true` if a request says which page sends it.
fn tells_origin(request: &Request<Bytes>) -> bool
    ensures { IsTrue result → TellsOrigin request.now }
{
    match request.headers().get(header::ORIGIN) {
        Some(_) => true,
        None => false,
    }
}
