//! What a request asks of a station.
ghost use Rattle.std.specs.Prelude.{IfErr, IfOk};
ghost use Rattle.cfdp_console.specs.Asking.{IsEntitled, IsGet, IsPost, May};
ghost use Rattle.cfdp_console.specs.Denying.{IsDenied};

use crate::deed::command_line;
use crate::denial::Denial;
use crate::guard::{Guard, is_allowed};
use crate::look::{Look, look_at};
use bytes::Bytes;
use http::Request;
use std::alloc::Global;

/// What a request asks of a station.
#[derive(Drop)]
pub enum Ask {
    /// To be shown something.
    Look(Look),
    /// A command, in a line as the control address takes it.
    Command(Vec<u8>),
}

/// Returns what a request asks, if its sender may ask it.
///
/// # Errors
///
/// The `Denial`, by which nothing is asked. `Foreign` goes before all others, and `NoToken` before
/// those of a command.
pub fn judge(alloc: Global, guard: &Guard, request: &Request<Bytes>) -> Result<Ask, Denial>
    ensures may { IfOk result (λ ask. May guard.now request.now ask) }
    ensures denied { IfErr result (IsDenied guard.now request.now) }
{
    if !is_allowed(guard, request) {
        return Err(Denial::Foreign);
    }
    let method = request.method().as_str();
    if method == "POST" {
        command(alloc, guard, request)
    } else if method == "GET" || method == "HEAD" {
        look(alloc, guard, request)
    } else {
        Err(Denial::WrongMethod)
    }
}

/// What a request asks that changes something.
fn command(alloc: Global, guard: &Guard, request: &Request<Bytes>) -> Result<Ask, Denial>
    requires { IsPost request.now }
    ensures ok { IfOk result (IsEntitled guard.now request.now) }
    ensures err { IfErr result (IsDenied guard.now request.now) }
{
    if !guard.knows(request) {
        return Err(Denial::NoToken);
    }
    let path = request.uri().path().as_bytes();
    match command_line(alloc, path, request.body().as_slice()) {
        Ok(line) => Ok(Ask::Command(line)),
        Err(why) => Err(why),
    }
}

/// What a request asks to be shown.
fn look(alloc: Global, guard: &Guard, request: &Request<Bytes>) -> Result<Ask, Denial>
    requires { IsGet request.now }
    ensures ok { IfOk result (IsEntitled guard.now request.now) }
    ensures err { IfErr result (IsDenied guard.now request.now) }
{
    let uri = request.uri();
    let Some(look) = look_at(alloc, uri.path().as_bytes(), uri.query())? else {
        return Err(Denial::NotFound);
    };
    match look {
        Look::Page => Ok(Ask::Look(Look::Page)),
        look if guard.is_open || guard.knows(request) => Ok(Ask::Look(look)),
        _ => Err(Denial::NoToken),
    }
}
