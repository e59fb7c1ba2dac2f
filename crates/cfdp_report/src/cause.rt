//! Why the system refused something, in the words of an operator.
use std::io::ErrorKind;

/// Returns why the system refused something, in an operator's words. What has no plain cause here
/// is reported as an input or output error: a broken device, for the most part.
pub fn cause_text(kind: ErrorKind) -> &'static str {
    match kind {
        ErrorKind::AddrInUse
        | ErrorKind::AddrNotAvailable
        | ErrorKind::ConnectionAborted
        | ErrorKind::ConnectionRefused
        | ErrorKind::ConnectionReset
        | ErrorKind::HostUnreachable
        | ErrorKind::NetworkDown
        | ErrorKind::NetworkUnreachable
        | ErrorKind::NotConnected => network_cause(kind),
        ErrorKind::BrokenPipe => "broken pipe",
        ErrorKind::InvalidData => "not valid UTF-8",
        ErrorKind::InvalidInput => "invalid argument",
        ErrorKind::OutOfMemory => "out of memory",
        ErrorKind::PermissionDenied => "permission denied",
        ErrorKind::TimedOut => "timed out",
        ErrorKind::UnexpectedEof => "unexpected end",
        ErrorKind::Unsupported => "not supported by the system",
        ErrorKind::WouldBlock => "in use by another process",
        kind => file_cause(kind),
    }
}

/// Returns why the system refused something of a file or a folder.
fn file_cause(kind: ErrorKind) -> &'static str {
    match kind {
        ErrorKind::AlreadyExists => "a file of that name exists",
        ErrorKind::CrossesDevices => "not on the same file system",
        ErrorKind::DirectoryNotEmpty => "folder not empty",
        ErrorKind::FileTooLarge => "file too large",
        ErrorKind::FilesystemLoop => "too many links in the path",
        ErrorKind::InvalidFilename => "name too long or not valid",
        ErrorKind::IsADirectory => "is a folder",
        ErrorKind::NotADirectory => "part of the path is not a folder",
        ErrorKind::NotFound => "no such file or folder",
        ErrorKind::NotSeekable => "not a plain file",
        ErrorKind::QuotaExceeded => "disk quota exceeded",
        ErrorKind::ReadOnlyFilesystem => "read-only file system",
        ErrorKind::ResourceBusy => "in use",
        ErrorKind::StaleNetworkFileHandle => "stale network file handle",
        ErrorKind::StorageFull | ErrorKind::WriteZero => "no space left on the device",
        ErrorKind::TooManyLinks => "too many links to the file",
        _ => "input or output error",
    }
}

/// Returns why the system refused something of a socket.
fn network_cause(kind: ErrorKind) -> &'static str {
    match kind {
        ErrorKind::AddrInUse => "address in use",
        ErrorKind::AddrNotAvailable => "address not available",
        ErrorKind::ConnectionRefused => "connection refused: nothing listens there",
        ErrorKind::HostUnreachable => "host unreachable",
        ErrorKind::NetworkDown => "network down",
        ErrorKind::NetworkUnreachable => "network unreachable",
        ErrorKind::NotConnected => "not connected",
        _ => "the other end closed the connection",
    }
}
