// What a file of a spool was when the system was asked for it.
ghost use Rattle.std.specs.Prelude.{◌≡◌, ◌↔◌, true};

use std::fs::Metadata;
use std::os::unix::fs::MetadataExt;

/// Which file it is, how long, and when it was written and changed. As long as this stays, so does
/// what the file has.
#[derive(Clone, Copy, PartialEq)]
pub struct FileStamp {
    content: Content,
    changed: (i64, i64),
}

/// What of that a move leaves as it is.
#[derive(Clone, Copy, PartialEq)]
struct Content {
    device: u64,
    inode: u64,
    len: u64,
    written: (i64, i64),
}

impl FileStamp {
    /// Returns the stamp of a file of the system.
    pub fn of(file: &Metadata) -> FileStamp {
        FileStamp {
            content: Content {
                device: file.dev(),
                inode: file.ino(),
                len: file.len(),
                written: (file.mtime(), file.mtime_nsec()),
            },
            changed: (file.ctime(), file.ctime_nsec()),
        }
    }

    /// Returns `true` if this is the same file as another.
    pub fn is(&self, before: &FileStamp) -> bool
        ensures { (result ≡ true) ↔ (self.now ≡ before.now) }
    {
        self.content == before.content && self.changed == before.changed
    }

    /// Returns `true` if this is the same file with the same octets, whatever names it had since.
    pub fn is_moved_from(&self, before: &FileStamp) -> bool
        ensures { (result ≡ true) ↔ (self.now.content ≡ before.now.content) }
    {
        self.content == before.content
    }
}
