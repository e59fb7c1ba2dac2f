//! The files of the system.
use crate::flags::flags_of;
use crate::found::{find, find_behind_links, is_link};
use crate::system_file::{SystemFile, SystemFolder, done};
use std::alloc::Allocator;
use std::fs::{Files, Metadata, OpenOptions};
use std::io::{self, ErrorKind};

/// The files of the system, by calls of the C library. What the stores over folders don't ask for
/// is `Unsupported`.
///
/// Of a file they say how long it is, and nothing else: so an outbox over them sees that a file
/// changed while it was sent if its length did, and a pipe that lies there is waited for.
#[derive(Clone, Copy)]
pub struct SystemFiles;

fn unsupported() -> io::Error {
    io::Error::from(ErrorKind::Unsupported)
}

impl Files for SystemFiles {
    type File = SystemFile;

    type Dir = SystemFolder;

    // No link is followed to a file that is written: the name of a part file is known, and
    // somebody may have put a link there since the file was made.
    fn open_file(&self, how: &OpenOptions, path: &str) -> io::Result<SystemFile> {
        how.check()?;
        if how.asks_write() && matches!(is_link(path), Ok(true)) {
            return Err(io::Error::from_raw_os_error(libc::ELOOP));
        }
        SystemFile::open(path, flags_of(how))
    }

    fn open_dir(&self, path: &str) -> io::Result<SystemFolder> {
        let file = SystemFile::open(path, libc::O_RDONLY)?;
        Ok(SystemFolder { file })
    }

    fn metadata(&self, path: &str) -> io::Result<Metadata> {
        find_behind_links(path)
    }

    fn symlink_metadata(&self, path: &str) -> io::Result<Metadata> {
        find(path)
    }

    fn copy(&self, _from: &str, _to: &str) -> io::Result<u64> {
        Err(unsupported())
    }

    fn rename(&self, from: &str, to: &str) -> io::Result<()> {
        done(os::rename(from.as_bytes(), to.as_bytes()))
    }

    fn remove_file(&self, path: &str) -> io::Result<()> {
        done(os::unlink(path.as_bytes()))
    }

    fn create_dir(&self, path: &str) -> io::Result<()> {
        done(os::mkdir(path.as_bytes()))
    }

    fn remove_dir(&self, path: &str) -> io::Result<()> {
        done(os::rmdir(path.as_bytes()))
    }

    fn remove_dir_all<B: Allocator>(&self, _alloc: B, _path: &str) -> io::Result<()> {
        Err(unsupported())
    }
}
