// What lies at a path. The calls of the C library give the length of a file, and neither when it
// was changed nor its number: what `statx` writes has fields that no crate beside std can name.
use crate::system_file::{SystemFile, last_error};
use std::fs::Metadata;
use std::io;

/// Returns what lies at a path. A link there isn't followed.
pub(crate) fn find(path: &str) -> io::Result<Metadata> {
    if is_link(path)? {
        return Ok(Metadata::of_symlink(0));
    }
    find_behind_links(path)
}

/// Returns what lies at a path, if links are followed. A pipe is none of what can be returned.
pub(crate) fn find_behind_links(path: &str) -> io::Result<Metadata> {
    let file = SystemFile::open(path, libc::O_RDONLY)?;
    if file.is_folder() {
        return Ok(Metadata::of_dir());
    }
    Ok(Metadata::of_file(file.len()?))
}

/// Returns `true` if a link lies at a path; an error if nothing does.
pub(crate) fn is_link(path: &str) -> io::Result<bool> {
    let mut target = [0u8; 1];
    if os::readlink(path.as_bytes(), &mut target) >= 0 {
        return Ok(true);
    }
    if os::errno() == libc::EINVAL {
        return Ok(false);
    }
    Err(last_error())
}
