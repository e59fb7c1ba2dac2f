//! The files of an inbox in which a received file may not take the place of another, nor be longer
//! than a limit.
ghost use Rattle.std.specs.Prelude.{◌≡◌, false, true};
ghost use Rattle.cfdp_files.specs.InboxFolder.{MayBeNamed};

use crate::made_files::{MadeFile, MadeFiles};
use std::alloc::Allocator;
use std::fs::{File, Files, Metadata, OpenFile, OpenOptions};
use std::io;
use std::io::{ErrorKind, Read, Seek, SeekFrom, Write};

/// A file of an inbox. It knows the place in it at which the next octet is written, and goes there
/// only if that is another one: what comes in order is written by one call of the system each.
#[derive(Drop)]
pub struct InboxFile {
    file: File,
    /// `None` if it isn't known.
    place: Option<u64>,
}

impl InboxFile {
    /// Returns a file that was opened, of whose place nothing is known.
    fn new(file: File) -> InboxFile {
        InboxFile { file, place: None }
    }

    /// Notes that the system read or wrote more octets at the place, or failed.
    fn passes(&mut self, answer: &io::Result<usize>) {
        let place = self.place.take();
        if let Ok(count) = answer {
            self.place = place.and_then(|place| place.checked_add(*count as u64));
        }
    }
}

impl Read for InboxFile {
    fn read(&mut self, buffer: &mut [u8]) -> io::Result<usize> {
        let answer = self.file.read(buffer);
        self.passes(&answer);
        answer
    }
}

impl Write for InboxFile {
    fn write(&mut self, octets: &[u8]) -> io::Result<usize> {
        let answer = self.file.write(octets);
        self.passes(&answer);
        answer
    }

    fn flush(&mut self) -> io::Result<()> {
        self.file.flush()
    }
}

impl Seek for InboxFile {
    fn seek(&mut self, to: SeekFrom) -> io::Result<u64> {
        if let (SeekFrom::Start(wanted), Some(place)) = (to, self.place)
            && wanted == place
        {
            return Ok(place);
        }
        self.place = None;
        let place = self.file.seek(to)?;
        self.place = Some(place);
        Ok(place)
    }
}

impl OpenFile for InboxFile {
    fn metadata(&self) -> io::Result<Metadata> {
        self.file.metadata()
    }

    fn set_len(&self, size: u64) -> io::Result<()> {
        self.file.set_len(size)
    }

    fn sync_all(&self) -> io::Result<()> {
        self.file.sync_all()
    }

    fn sync_data(&self) -> io::Result<()> {
        self.file.sync_data()
    }
}

/// The files of the system, for an inbox that replaces files, or keeps those that are there.
///
/// If it keeps them, a rename is a link, which the system refuses if anything has that name,
/// and then the removal of the old name: both names are of one whole file meanwhile, so nothing
/// partial is seen, and there is no time between a look and a rename in which another program could
/// make a file of that name. So the file system needs to have links.
///
/// A file is written, and renamed, only if it is one that these made. Others may write into the
/// folder too: if one of them puts a link or another file in the place of a part file, nothing is
/// written to that, and it isn't renamed.
#[derive(Drop)]
pub struct InboxFiles<'a> {
    rt: &'a HostRuntime,
    replaces: bool,
    most_size: u64,
    made: MadeFiles,
}

impl<'a> InboxFiles<'a> {
    /// Returns the files of the system. If it doesn't replace, no rename takes a name that is
    /// there;
    /// and none gives a name to a file of more than `most_size` octets, unless that is 0.
    pub fn new(rt: &'a HostRuntime, replaces: bool, most_size: u64) -> InboxFiles<'a> {
        InboxFiles {
            rt,
            replaces,
            most_size,
            made: MadeFiles::new(rt.alloc()),
        }
    }

    /// Takes a plain file for one that these made, since an earlier run of the station did. It says
    /// nothing of what is no plain file.
    ///
    /// # Errors
    ///
    /// What the system says if nothing is there, or `OutOfMemory`.
    pub fn takes_back(&self, path: &str) -> io::Result<()> {
        let found = self.rt.symlink_metadata(path)?;
        if found.is_file() {
            self.made.notes(path, &found)?;
        }
        Ok(())
    }

    /// Makes a file, and notes which it is.
    fn make(&self, how: &OpenOptions, path: &str) -> io::Result<File> {
        let file = self.rt.open_file(how, path)?;
        self.made.notes(path, &file.metadata()?)?;
        Ok(file)
    }

    /// Opens a file to write it that was made before. What has its name is looked at before it is
    /// opened, and what was opened once more. It is opened to be read too: so the system doesn't
    /// wait, if a pipe gets that name in between.
    fn open_again(&self, path: &str) -> io::Result<File> {
        let made = self.made.check(path, &self.rt.symlink_metadata(path)?)?;
        let file = self.open_made(&made, path)?;
        let _ = self.made.check(path, &file.metadata()?)?;
        Ok(file)
    }

    /// Opens a file to write it.
    fn open_made(&self, _made: &MadeFile, path: &str) -> io::Result<File>
        requires { _made.now.path ≡ path.now }
    {
        File::options().read(true).write(true).open(self.rt, path)
    }

    /// Gives a file another name, in the place of what has it or, if it keeps that, a free one.
    fn give_name(&self, made: &MadeFile, from: &str, to: &str) -> io::Result<()>
        requires made { made.now.path ≡ from.now }
        requires size { MayBeNamed self.now.most_size made.now.size }
    {
        if self.replaces {
            return self.put_in_place(made, from, to);
        }
        self.rt.hard_link(from, to)?;
        let _ = self.rt.remove_file(from);
        Ok(())
    }

    /// Gives a file the name of another one, which is gone then.
    fn put_in_place(&self, _made: &MadeFile, from: &str, to: &str) -> io::Result<()>
        requires replaces { self.now.replaces ≡ true }
        requires made { _made.now.path ≡ from.now }
    {
        self.rt.rename(from, to)
    }

    /// Returns `true` if a file is too long to get a name.
    fn is_too_long(&self, made: &MadeFile) -> bool
        ensures { result ≡ false → MayBeNamed self.now.most_size made.now.size }
    {
        self.most_size > 0 && made.size() > self.most_size
    }
}

impl Files for InboxFiles<'_> {
    type File = InboxFile;

    type Dir = <HostRuntime as Files>::Dir;

    fn open_file(&self, how: &OpenOptions, path: &str) -> io::Result<InboxFile> {
        let file = if how.asks_create_new() {
            self.make(how, path)?
        } else if how.asks_write() {
            self.open_again(path)?
        } else {
            self.rt.open_file(how, path)?
        };
        Ok(InboxFile::new(file))
    }

    fn open_dir(&self, path: &str) -> io::Result<<HostRuntime as Files>::Dir> {
        self.rt.open_dir(path)
    }

    fn metadata(&self, path: &str) -> io::Result<Metadata> {
        self.rt.metadata(path)
    }

    fn symlink_metadata(&self, path: &str) -> io::Result<Metadata> {
        self.rt.symlink_metadata(path)
    }

    fn copy(&self, from: &str, to: &str) -> io::Result<u64> {
        self.rt.copy(from, to)
    }

    /// Renames a file. If the old name can't be removed after the link, the file has both: it is
    /// there under the new one, and the next start removes the other.
    fn rename(&self, from: &str, to: &str) -> io::Result<()> {
        let made = self.made.check(from, &self.rt.symlink_metadata(from)?)?;
        if self.is_too_long(&made) {
            return Err(io::Error::from(ErrorKind::FileTooLarge));
        }
        self.give_name(&made, from, to)?;
        // Another file may have come between the look and the renaming; or it has left by now.
        if let Ok(found) = self.rt.symlink_metadata(to) {
            let _ = self.made.check(from, &found)?;
        }
        self.made.forgets(from);
        Ok(())
    }

    fn remove_file(&self, path: &str) -> io::Result<()> {
        self.made.forgets(path);
        self.rt.remove_file(path)
    }

    fn create_dir(&self, path: &str) -> io::Result<()> {
        self.rt.create_dir(path)
    }

    fn remove_dir(&self, path: &str) -> io::Result<()> {
        self.rt.remove_dir(path)
    }

    fn remove_dir_all<B: Allocator>(&self, alloc: B, path: &str) -> io::Result<()> {
        self.rt.remove_dir_all(alloc, path)
    }

    fn hard_link(&self, original: &str, link: &str) -> io::Result<()> {
        self.rt.hard_link(original, link)
    }
}
