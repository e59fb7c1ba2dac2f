//! A UDP socket, connected to the peer's.
use crate::transport::Transport;
use libc::net::{self, SO_RCVBUF, SO_SNDBUF, SOL_SOCKET};
use std::io;
use std::io::ErrorKind;
use std::net::{SocketAddr, ToSocketAddrs, UdpSocket};
use std::os::fd::{AsRawFd, RawFd};

/// A UDP socket at an address of this machine, connected to the peer's: the system drops what comes
/// from others.
#[derive(Drop)]
pub struct UdpTransport {
    socket: UdpSocket,
}

/// Why a socket can't be used.
#[derive(Drop)]
pub enum Unusable {
    /// Something stands against its own address, as that it is in use.
    Own(io::Error),
    /// The peer's address can't be found.
    Peer(io::Error),
}

impl UdpTransport {
    /// Returns a socket at the first address, whose peer is at the second one. The system is asked
    /// for room of so many octets in each direction, and gives what it has.
    ///
    /// # Errors
    ///
    /// `Unusable`, with what stands against one of both addresses.
    pub fn bind(
        rt: &HostRuntime,
        listen: &str,
        to: &str,
        room: u32,
    ) -> Result<UdpTransport, Unusable> {
        let peer = peer_address(rt, to).map_err(Unusable::Peer)?;
        let socket = UdpSocket::bind(rt, listen).map_err(Unusable::Own)?;
        socket.connect(peer).map_err(Unusable::Peer)?;
        socket.set_nonblocking(true).map_err(Unusable::Own)?;
        ask_for_room(&socket, room);
        Ok(UdpTransport { socket })
    }

    /// Returns the address of the socket, with its port.
    ///
    /// # Errors
    ///
    /// The error of the system.
    pub fn local_address(&self) -> io::Result<SocketAddr> {
        self.socket.local_addr()
    }
}

impl AsRawFd for UdpTransport {
    fn as_raw_fd(&self) -> RawFd {
        self.socket.as_raw_fd()
    }
}

impl Transport for UdpTransport {
    fn send(&mut self, datagram: &[u8]) -> Result<(), ErrorKind> {
        match self.socket.send(datagram) {
            Ok(_) => Ok(()),
            Err(error) => Err(error.kind()),
        }
    }

    fn receive(&mut self, buffer: &mut [u8]) -> Result<usize, ErrorKind> {
        match self.socket.recv(buffer) {
            Ok(len) => Ok(len),
            Err(error) => Err(error.kind()),
        }
    }
}

/// Asks the system for room of so many octets in the socket, in each direction.
fn ask_for_room(socket: &UdpSocket, octets: u32) {
    let mut value = [0u8; 16];
    value[..4].copy_from_slice(&octets.to_ne_bytes());
    let fd = socket.as_raw_fd();
    let _ = unsafe { net::setsockopt(fd, SOL_SOCKET, SO_RCVBUF, &value, 4) };
    let _ = unsafe { net::setsockopt(fd, SOL_SOCKET, SO_SNDBUF, &value, 4) };
}

/// Returns the first address of these words.
fn peer_address(rt: &HostRuntime, to: &str) -> io::Result<SocketAddr> {
    match to.to_socket_addrs(rt)?.next() {
        Some(address) => Ok(address),
        None => Err(io::Error::from(ErrorKind::AddrNotAvailable)),
    }
}
