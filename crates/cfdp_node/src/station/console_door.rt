//! The console's address, and the token that it asks for.
use crate::failure::{Failure, FileError, LEAST_TOKEN, MOST_TOKEN, SetupError, SocketError};
use cfdp_command_line::StationRequest;
use cfdp_control::WebDoor;
use cfdp_files::{SecretError, read_secret};

/// Opens the console, if one is asked for.
///
/// # Errors
///
/// Why its address or its token can't be had.
pub fn door<'a>(
    rt: &'a HostRuntime,
    request: &'a StationRequest,
) -> Result<Option<WebDoor<'a>>, Failure<'a>> {
    let Some(address) = &request.console else {
        if request.console_token.is_some() {
            return Err(Failure::Setup(SetupError::TokenWithoutConsole));
        }
        return Ok(None);
    };
    let token = match &request.console_token {
        Some(path) => Some(token_in(rt, path.as_str())?),
        None => None,
    };
    match WebDoor::new(rt, address.as_str(), token, proxy_host(request)?) {
        Ok(door) => Ok(Some(door)),
        Err(error) => Err(Failure::Socket(SocketError::Console(address.as_str(), error))),
    }
}

/// Returns the name of the host by which a proxy asks; empty if none does.
///
/// # Errors
///
/// `HostWithoutToken` if no token is asked of those who come through the proxy.
fn proxy_host(request: &StationRequest) -> Result<&str, SetupError<'_>> {
    match (&request.console_host, &request.console_token) {
        (None, _) => Ok(""),
        (Some(host), Some(_)) => Ok(host.as_str()),
        (Some(_), None) => Err(SetupError::HostWithoutToken),
    }
}

/// The token in this file, without the white space around it. Nobody but its owner may have access
/// to the file.
///
/// # Errors
///
/// `File` if it can't be read or is none; `Memory` if there is none for it.
fn token_in<'a>(rt: &HostRuntime, path: &'a str) -> Result<String, Failure<'a>> {
    let text = match read_secret(rt, path) {
        Ok(text) => text,
        Err(error) => return Err(Failure::File(no_token(path, &error))),
    };
    let token = text.as_str().trim();
    if !is_token(token.as_bytes()) {
        return Err(Failure::File(FileError::NoToken(path)));
    }
    Ok(String::from_str(rt.alloc(), token)?)
}

/// Returns why the file of a token can't be read.
fn no_token<'a>(path: &'a str, error: &SecretError) -> FileError<'a> {
    match error {
        SecretError::System(error) => FileError::TokenFile(path, error.kind()),
        SecretError::Open(mode) => FileError::OpenToken(path, *mode),
        SecretError::TooLong | SecretError::Keys(_) => FileError::NoToken(path),
    }
}

/// Whether these octets can be a token: hard to guess, and sent in one word of a header.
fn is_token(octets: &[u8]) -> bool {
    (LEAST_TOKEN..=MOST_TOKEN).contains(&octets.len())
        && octets.iter().all(|octet| octet.is_ascii_graphic())
}
