//! An open file, and an open folder.
ghost use Rattle.std.specs.Prelude.{◌≤◌, IfOk};

use os::FromRawFd;
use std::fs::{Metadata, OpenFile};
use std::io::{self, ErrorKind, Read, Seek, SeekFrom, Write};
use std::os::fd::{AsRawFd, OwnedFd};

/// How often a call is made at the most that signals interrupt.
const MOST_TRIES: u32 = 1_000;

/// The bits of the mode of a new file, which the process's mask narrows.
const NEW_FILE_MODE: u32 = 0o666;

/// Returns why the last call failed.
pub(crate) fn last_error() -> io::Error {
    io::Error::from_raw_os_error(os::errno())
}

/// Checks what a call returned: 0, or -1 if it failed.
pub(crate) fn done(status: i32) -> io::Result<()> {
    if status < 0 {
        return Err(last_error());
    }
    Ok(())
}

/// Returns how many octets a call moved, of so many.
fn moved(count: isize, most: usize) -> io::Result<usize>
    ensures { IfOk result (λ n. n ≤ most) }
{
    if count < 0 {
        return Err(last_error());
    }
    Ok((count as usize).min(most))
}

/// A call on an open file that a signal may interrupt.
#[derive(Clone, Copy)]
enum Change {
    Cut(i64),
    Sync,
    SyncData,
    Lock,
    Share,
}

/// An open file of the system. It is closed if it is dropped.
#[derive(Drop)]
pub struct SystemFile {
    descriptor: OwnedFd,
}

impl SystemFile {
    /// Opens the file of a path, by the C library's flags.
    pub(crate) fn open(path: &str, flags: i32) -> io::Result<SystemFile> {
        for _ in 0..MOST_TRIES {
            let descriptor = os::open_with(path.as_bytes(), flags, NEW_FILE_MODE);
            if descriptor >= 0 {
                return Ok(SystemFile {
                    descriptor: unsafe { OwnedFd::from_raw_fd(descriptor) },
                });
            }
            if os::errno() != libc::EINTR {
                break;
            }
        }
        Err(last_error())
    }

    /// Returns `true` if it is a folder: no octets are read of one.
    pub(crate) fn is_folder(&self) -> bool {
        let mut octet = [0u8; 1];
        let count = libc::pread(self.descriptor.as_raw_fd(), &mut octet, 0);
        count < 0 && os::errno() == libc::EISDIR
    }

    /// Returns how many octets it has. It stands at its end after that.
    pub(crate) fn len(&self) -> io::Result<u64> {
        self.place(0, libc::SEEK_END)
    }

    fn place(&self, offset: i64, whence: i32) -> io::Result<u64> {
        let at = libc::lseek(self.descriptor.as_raw_fd(), offset, whence);
        if at < 0 {
            return Err(last_error());
        }
        Ok(at.cast_unsigned())
    }

    /// Keeps others away that ask so too, as long as the file is open. It waits for nobody.
    ///
    /// # Errors
    ///
    /// `WouldBlock` if somebody keeps it; or what the system says.
    pub fn lock(&self) -> io::Result<()> {
        self.change(Change::Lock)
    }

    /// Returns `true` if somebody keeps others away from it by [`lock`](Self::lock).
    pub(crate) fn is_locked(&self) -> bool {
        match self.change(Change::Share) {
            Ok(()) => false,
            Err(error) => error.kind() == ErrorKind::WouldBlock,
        }
    }

    fn change_once(&self, change: Change) -> i32 {
        let descriptor = self.descriptor.as_raw_fd();
        match change {
            Change::Cut(size) => libc::ftruncate(descriptor, size),
            Change::Sync => libc::fsync(descriptor),
            Change::SyncData => libc::fdatasync(descriptor),
            Change::Lock => libc::flock(descriptor, libc::LOCK_EX | libc::LOCK_NB),
            Change::Share => libc::flock(descriptor, libc::LOCK_SH | libc::LOCK_NB),
        }
    }

    fn change(&self, change: Change) -> io::Result<()> {
        for _ in 0..MOST_TRIES {
            if self.change_once(change) >= 0 {
                return Ok(());
            }
            if os::errno() != libc::EINTR {
                break;
            }
        }
        Err(last_error())
    }
}

impl Read for SystemFile {
    fn read(&mut self, buf: &mut [u8]) -> io::Result<usize> {
        let count = libc::read(self.descriptor.as_raw_fd(), buf);
        moved(count, buf.len())
    }
}

impl Write for SystemFile {
    fn write(&mut self, buf: &[u8]) -> io::Result<usize> {
        moved(libc::write(self.descriptor.as_raw_fd(), buf), buf.len())
    }

    fn flush(&mut self) -> io::Result<()> {
        Ok(())
    }
}

impl Seek for SystemFile {
    fn seek(&mut self, to: SeekFrom) -> io::Result<u64> {
        let (offset, whence) = match to {
            SeekFrom::Start(at) => (at.cast_signed(), libc::SEEK_SET),
            SeekFrom::End(offset) => (offset, libc::SEEK_END),
            SeekFrom::Current(offset) => (offset, libc::SEEK_CUR),
        };
        self.place(offset, whence)
    }
}

/// Of a file its length alone is given, and it stands at its end after that.
impl OpenFile for SystemFile {
    fn metadata(&self) -> io::Result<Metadata> {
        Ok(Metadata::of_file(self.len()?))
    }

    fn set_len(&self, size: u64) -> io::Result<()> {
        match i64::try_from(size) {
            Ok(size) => self.change(Change::Cut(size)),
            Err(_) => Err(io::Error::from(ErrorKind::InvalidInput)),
        }
    }

    fn sync_all(&self) -> io::Result<()> {
        self.change(Change::Sync)
    }

    fn sync_data(&self) -> io::Result<()> {
        self.change(Change::SyncData)
    }
}

/// An open folder, which is read as the names in it, each ended by a NUL.
#[derive(Drop)]
pub struct SystemFolder {
    pub(crate) file: SystemFile,
}

impl Read for SystemFolder {
    fn read(&mut self, buf: &mut [u8]) -> io::Result<usize> {
        let count = os::read_dir(self.file.descriptor.as_raw_fd(), buf);
        if count == 0 && os::errno() != 0 {
            return Err(last_error());
        }
        Ok(count.min(buf.len()))
    }
}
