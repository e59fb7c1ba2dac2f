//! A control address: a TCP address of this machine, or the path of a Unix socket.
use std::fs::{DirBuilder, Permissions, remove_dir, remove_file, rename, set_permissions};
use std::io::{ErrorKind, Read, Write};
use std::net::{Shutdown, SocketAddr, TcpListener, TcpStream};
use std::os::fd::{AsRawFd, RawFd};
use std::os::unix::fs::{DirBuilderExt, FileTypeExt, PermissionsExt};
use std::os::unix::net::{UnixListener, UnixStream};
use std::time::Duration;
use std::{fs, io};

/// What stands before the path of a Unix socket.
const UNIX: &str = "unix:";

/// The mode of the file of a Unix socket: only its owner may connect.
const OWNER_ALONE: u32 = 0o600;

/// The mode of the folder in which a socket is made, until it has its mode.
const FOLDER_MODE: u32 = 0o700;

/// Returns the path of the Unix socket that an address names, if it names one.
pub fn socket_path(address: &str) -> Option<&str> {
    address.strip_prefix(UNIX)
}

/// A connection over which lines come and are answered.
#[derive(Drop)]
pub(crate) enum Stream {
    Tcp(TcpStream),
    Unix(UnixStream),
}

impl Stream {
    /// Returns the descriptor.
    pub(crate) fn fd(&self) -> RawFd {
        match self {
            Stream::Tcp(stream) => stream.as_raw_fd(),
            Stream::Unix(stream) => stream.as_raw_fd(),
        }
    }

    /// Sets the stream so that no call waits, and small answers leave at once.
    ///
    /// # Errors
    ///
    /// That of the system.
    pub(crate) fn never_waits(&self) -> io::Result<()> {
        match self {
            Stream::Tcp(stream) => {
                stream.set_nonblocking(true)?;
                let _ = stream.set_nodelay(true);
                Ok(())
            }
            Stream::Unix(stream) => stream.set_nonblocking(true),
        }
    }

    /// Says to its other end that nothing more comes.
    ///
    /// # Errors
    ///
    /// That of the system.
    pub(crate) fn shuts(&self) -> io::Result<()> {
        match self {
            Stream::Tcp(stream) => stream.shutdown(Shutdown::Write),
            Stream::Unix(stream) => stream.shutdown(Shutdown::Write),
        }
    }

    /// Lets a write wait for so long at most.
    ///
    /// # Errors
    ///
    /// That of the system.
    pub(crate) fn writes_within(&self, time: Duration) -> io::Result<()> {
        match self {
            Stream::Tcp(stream) => stream.set_write_timeout(Some(time)),
            Stream::Unix(stream) => stream.set_write_timeout(Some(time)),
        }
    }

    /// Lets a read wait for so long at most.
    ///
    /// # Errors
    ///
    /// That of the system.
    pub(crate) fn reads_within(&self, time: Duration) -> io::Result<()> {
        match self {
            Stream::Tcp(stream) => stream.set_read_timeout(Some(time)),
            Stream::Unix(stream) => stream.set_read_timeout(Some(time)),
        }
    }
}

impl Read for Stream {
    fn read(&mut self, octets: &mut [u8]) -> io::Result<usize> {
        match self {
            Stream::Tcp(stream) => stream.read(octets),
            Stream::Unix(stream) => stream.read(octets),
        }
    }
}

impl Write for Stream {
    fn write(&mut self, octets: &[u8]) -> io::Result<usize> {
        match self {
            Stream::Tcp(stream) => stream.write(octets),
            Stream::Unix(stream) => stream.write(octets),
        }
    }

    fn flush(&mut self) -> io::Result<()> {
        match self {
            Stream::Tcp(stream) => stream.flush(),
            Stream::Unix(stream) => stream.flush(),
        }
    }
}

/// What takes connections. No call waits.
#[derive(Drop)]
pub(crate) enum Listener {
    Tcp(TcpListener),
    Unix(UnixListener),
}

impl Listener {
    /// Returns the descriptor.
    pub(crate) fn fd(&self) -> RawFd {
        match self {
            Listener::Tcp(listener) => listener.as_raw_fd(),
            Listener::Unix(listener) => listener.as_raw_fd(),
        }
    }

    /// Takes a connection, if one waits for that.
    ///
    /// # Errors
    ///
    /// That of the system.
    pub(crate) fn accept(&self) -> io::Result<Stream> {
        match self {
            Listener::Tcp(listener) => Ok(Stream::Tcp(listener.accept()?.0)),
            Listener::Unix(listener) => Ok(Stream::Unix(listener.accept()?.0)),
        }
    }

    /// Returns the TCP address, if it has one.
    pub(crate) fn tcp_address(&self) -> Option<SocketAddr> {
        match self {
            Listener::Tcp(listener) => listener.local_addr().ok(),
            Listener::Unix(_) => None,
        }
    }
}

/// Makes a Unix socket at this path, to which only its owner may connect. A socket that lies there
/// and at which nobody listens is replaced.
///
/// # Errors
///
/// `AddrInUse` if somebody listens there, `AlreadyExists` if what lies there is no socket, and what
/// the system says.
pub(crate) fn unix_listener(rt: &HostRuntime, path: &str) -> io::Result<Listener> {
    remove_stale(rt, path)?;
    // The socket is made in a folder to which nobody else has access, and moved once it has its
    // mode: so nobody can connect before.
    let folder = format!(in rt.alloc(); "{path}.new")?;
    let made = format!(in rt.alloc(); "{folder}/s")?;
    // What a start left that was killed here.
    let _ = remove_file(rt, made.as_str());
    let _ = remove_dir(rt, folder.as_str());
    DirBuilder::new()
        .mode(FOLDER_MODE)
        .create(rt, folder.as_str())?;
    let listener = moved_listener(rt, made.as_str(), path);
    let _ = remove_dir(rt, folder.as_str());
    listener
}

/// Makes a Unix socket at one path, and moves it to another one.
fn moved_listener(rt: &HostRuntime, made: &str, path: &str) -> io::Result<Listener> {
    let listener = UnixListener::bind(rt, made)?;
    listener.set_nonblocking(true)?;
    set_permissions(rt, made, Permissions::from_mode(OWNER_ALONE))?;
    rename(rt, made, path)?;
    Ok(Listener::Unix(listener))
}

/// Removes the socket at this path at which nobody listens, if there is one.
///
/// # Errors
///
/// `AddrInUse` if somebody listens there, and `AlreadyExists` if what lies there is no socket.
fn remove_stale(rt: &HostRuntime, path: &str) -> io::Result<()> {
    let Ok(found) = fs::symlink_metadata(rt, path) else {
        return Ok(());
    };
    if !found.file_type().is_socket() {
        return Err(io::Error::from(ErrorKind::AlreadyExists));
    }
    match UnixStream::connect(rt, path) {
        Err(error) if error.kind() == ErrorKind::ConnectionRefused => remove_file(rt, path),
        _ => Err(io::Error::from(ErrorKind::AddrInUse)),
    }
}

/// Removes the socket at this path, which the station made, once it doesn't listen any more.
pub fn remove_socket(rt: &HostRuntime, path: &str) {
    let _ = remove_file(rt, path);
}
