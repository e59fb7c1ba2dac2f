//! Who may ask a station something through its console.
ghost use Rattle.std.specs.Prelude.{◌↔◌, IsTrue, option_copied};
ghost use Rattle.std.specs.Prelude.{◌≡◌};
ghost use Rattle.cfdp_console.specs.Guard.{IsAllowed, IsByProxy, IsOfAddress, IsOwn, IsOwnHost};
ghost use Rattle.cfdp_console.specs.Guard.{IsProxyHost, OriginFits, ProxyOriginFits, ShowsToken};

use crate::octets::is_joined;
use bytes::Bytes;
use http::{HeaderValue, Request, header};

/// Who may ask a station something through its console.
#[derive(Drop)]
pub struct Guard {
    /// What a request must show that changes something, and each one if `is_open` isn't so.
    pub token: Vec<u8>,
    /// Whether one may look without the token, as if nobody but this machine reaches the
    /// console. The page itself, which has nothing of the station, is shown to all.
    pub is_open: bool,
    /// The name of the host by which a proxy asks, with its port if it says one; empty without one.
    pub proxy_host: Vec<u8>,
}

impl Guard {
    /// Returns `true` if a request shows the token, as `Authorization: Bearer TOKEN`.
    pub fn knows(&self, request: &Request<Bytes>) -> bool
        ensures { IsTrue result ↔ ShowsToken self.now request.now }
    {
        match request.headers().get(header::AUTHORIZATION) {
            Some(shown) => is_joined(shown.as_bytes(), b"Bearer ", self.token.as_slice()),
            None => false,
        }
    }
}

/// Returns `true` if a request may be answered: it is for this console by its own address, or a
/// proxy asks by its name.
pub fn is_allowed(guard: &Guard, request: &Request<Bytes>) -> bool
    ensures { IsTrue result ↔ IsAllowed guard.now request.now }
{
    is_own(request) || is_by_proxy(guard, request)
}

/// Returns `true` if a proxy asks by its name, and a page of that name sends the request, or none.
fn is_by_proxy(guard: &Guard, request: &Request<Bytes>) -> bool
    ensures { IsTrue result ↔ IsByProxy guard.now request.now }
{
    let headers = request.headers();
    let Some(host) = headers.get(header::HOST) else {
        return false;
    };
    let host = host.as_bytes();
    if !is_proxy_host(guard, host) {
        return false;
    }
    fits_proxy_origin(headers.get(header::ORIGIN), host)
}

/// Whether this is the name of the host by which a proxy asks.
fn is_proxy_host(guard: &Guard, host: &[u8]) -> bool
    ensures { IsTrue result ↔ IsProxyHost guard.now host.now }
{
    !guard.proxy_host.is_empty() && host == guard.proxy_host.as_slice()
}

/// Whether a page of this host sends it, over TLS or not, or none.
fn fits_proxy_origin(origin: Option<&HeaderValue>, host: &[u8]) -> bool
    ensures { IsTrue result ↔ ProxyOriginFits (option_copied origin.entry) host.now }
{
    match origin {
        Some(origin) => {
            let origin = origin.as_bytes();
            is_joined(origin, b"https://", host) || is_joined(origin, b"http://", host)
        }
        None => true,
    }
}

/// Returns `true` if a request is for this console by its own address, and isn't sent by a page of
/// another site: `Host` has no foreign name (which a name server could make lead here), and
/// `Origin`, if it stands, is the same address.
pub fn is_own(request: &Request<Bytes>) -> bool
    ensures { IsTrue result ↔ IsOwn request.now }
{
    let headers = request.headers();
    let Some(host) = headers.get(header::HOST) else {
        return false;
    };
    let host = host.as_bytes();
    if !is_own_host(host) {
        return false;
    }
    fits_origin(headers.get(header::ORIGIN), host)
}

/// Whether a page of the same address sends it, or none.
fn fits_origin(origin: Option<&HeaderValue>, host: &[u8]) -> bool
    ensures { IsTrue result ↔ OriginFits (option_copied origin.entry) host.now }
{
    match origin {
        Some(origin) => is_joined(origin.as_bytes(), b"http://", host),
        None => true,
    }
}

/// Whether this is the name of this machine or an address in digits, with a port or without.
fn is_own_host(host: &[u8]) -> bool
    ensures { IsTrue result ↔ IsOwnHost host.now }
{
    host == b"localhost".as_slice()
        || host.starts_with(b"localhost:")
        || host.starts_with(b"[")
        || host.iter().all(|octet| is_of_address(*octet))
}

fn is_of_address(octet: u8) -> bool
    ensures { IsTrue result ↔ IsOfAddress octet }
{
    octet == b'.' || (b'0'..=b':').contains(&octet)
}
