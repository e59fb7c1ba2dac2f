//! A wire of UDP sockets: one frame in each datagram.
use cfdp_port::{Wire, WireFault};
use std::io;
use std::io::ErrorKind;
use std::net::{Ipv4Addr, Net, SocketAddr, UdpSocket};

/// A UDP socket with one peer. It never waits, and no datagram of a stranger comes through it.
#[derive(Drop)]
pub struct UdpWire {
    socket: UdpSocket,
}

impl UdpWire {
    /// A socket on a free port of 127.0.0.1, without a peer.
    fn open<R: Net>(net: &R) -> io::Result<UdpWire> {
        let socket = UdpSocket::bind(net, SocketAddr::from((Ipv4Addr::LOCALHOST, 0)))?;
        socket.set_nonblocking(true)?;
        Ok(UdpWire { socket })
    }

    /// Opens two sockets of this machine, each the other's peer.
    ///
    /// # Errors
    ///
    /// That of the system, if there is no room for a socket.
    pub fn pair<R: Net>(net: &R) -> io::Result<(UdpWire, UdpWire)> {
        let one = UdpWire::open(net)?;
        let two = UdpWire::open(net)?;
        one.socket.connect(two.socket.local_addr()?)?;
        two.socket.connect(one.socket.local_addr()?)?;
        Ok((one, two))
    }
}

impl Wire for UdpWire {
    fn send(&mut self, frame: &[u8]) -> Result<(), WireFault> {
        match self.socket.send(frame) {
            Ok(len) if len == frame.len() => Ok(()),
            _ => Err(WireFault),
        }
    }

    fn receive(&mut self, buffer: &mut [u8]) -> Result<Option<usize>, WireFault> {
        match self.socket.recv(buffer) {
            Ok(len) => Ok(Some(len)),
            Err(error) if error.kind() == ErrorKind::WouldBlock => Ok(None),
            Err(_) => Err(WireFault),
        }
    }
}
