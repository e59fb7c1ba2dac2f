//! The address of the page.
use crate::clients::Clients;
use crate::serving::Serving;
use cfdp_report::cause_text;
use std::io;
use std::io::ErrorKind;
use std::net::{SocketAddr, TcpListener, ToSocketAddrs};

/// The exit status of bad arguments.
const MISTAKE: u8 = 2;

/// The exit status if a socket or memory failed.
const DEVICE: u8 = 3;

/// Serves the page at this address, which must be one of this machine alone, until the process
/// ends. Returns the exit status if the address can't be had, as standard error says then.
pub fn play_status(rt: &HostRuntime, listen: &str) -> u8 {
    let address = match address_of(rt, listen) {
        Ok(address) => address,
        Err(error) => return fails(rt, listen, &error),
    };
    if !address.ip().is_loopback() {
        let _ = eprintln!(rt;
            "error: --listen {listen}: must be an address of this machine alone, 127.0.0.1 or [::1]"
        );
        return MISTAKE;
    }
    match listener(rt, address) {
        Ok(listener) => {
            let own = listener.local_addr().unwrap_or(address);
            let _ = println!(rt; "http://{own}/");
            serve(rt, listener);
            0
        }
        Err(error) => fails(rt, listen, &error),
    }
}

/// Returns the address that these words say.
fn address_of(rt: &HostRuntime, listen: &str) -> io::Result<SocketAddr> {
    match listen.to_socket_addrs(rt)?.next() {
        Some(address) => Ok(address),
        None => Err(io::Error::from(ErrorKind::NotFound)),
    }
}

/// Returns what accepts connections there.
fn listener(rt: &HostRuntime, address: SocketAddr) -> io::Result<TcpListener> {
    let listener = TcpListener::bind(rt, address)?;
    listener.set_nonblocking(true)?;
    Ok(listener)
}

/// Reports why an address can't be had.
fn fails(rt: &HostRuntime, listen: &str, error: &io::Error) -> u8 {
    let cause = match error.kind() {
        ErrorKind::InvalidInput | ErrorKind::InvalidData => {
            "an address must be HOST:PORT, e.g. 127.0.0.1:8090, with a port of 0 to 65535"
        }
        ErrorKind::NotFound | ErrorKind::Other | ErrorKind::Uncategorized => {
            "host not found (an address must be HOST:PORT, e.g. 127.0.0.1:8090)"
        }
        kind => cause_text(kind),
    };
    let _ = eprintln!(rt; "error: --listen {listen}: {cause}");
    DEVICE
}

/// Serves whoever comes.
fn serve(rt: &HostRuntime, listener: TcpListener) {
    let mut clients = Clients::new(rt, listener);
    let mut serving = Serving { rt };
    for _ in 0..u64::MAX {
        clients.turn(&mut serving);
    }
}
