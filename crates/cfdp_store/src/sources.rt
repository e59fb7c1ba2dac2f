// The files of a folder that are read as they are asked for: the calls of the system.
ghost use Rattle.std.specs.Prelude.{◌≢◌, ◌<◌, IfErr, IfSome, vec_len};

use crate::folder_error::FolderError;
use crate::known::Stamp;
use crate::parts::path_in;
use ghost_list::GhostList;
use std::alloc::Global;
use std::fs::{self, File, Files, OpenFile};
use std::io::{self, ErrorKind, Read, Seek, SeekFrom};

/// The most files that are open at once.
const MOST_OPEN: usize = 16;

/// How many octets of a file are read at once, if it is read again before it is closed.
const BLOCK: u64 = 65_536;

/// What the system showed of a file.
#[derive(Drop)]
pub enum Shown {
    /// A look found the file of this name, so many octets long.
    Found(GhostList<u8>, u64),
    /// A look found that nothing has this name.
    Missing(GhostList<u8>),
    /// The file of this name has these octets, from an offset on.
    Read(GhostList<u8>, u64, GhostList<u8>),
}

/// A file that is open, and the block of it that was read last, empty before the first.
#[derive(Drop)]
struct Source<F: Files> {
    name: Vec<u8>,
    file: F::File,
    /// What it was when it was looked for.
    stamp: Stamp,
    /// Where the block begins.
    start: u64,
    block: Vec<u8>,
}

impl<F: Files> Source<F> {
    /// Fails if the file isn't the one that was looked for, or isn't as it was then.
    fn check(&self) -> Result<(), FolderError> {
        let found = self.file.metadata()?;
        if Stamp::of(&found) != self.stamp {
            return Err(FolderError::Changed);
        }
        Ok(())
    }

    /// Returns how many octets are read if so many are asked for. The first time no more than these
    /// are read: if many files are read in turn, each is closed before the rest of a block would be
    /// of use.
    fn block_len(&self, wanted: usize) -> u64 {
        if self.block.is_empty() {
            return (wanted as u64).min(BLOCK);
        }
        BLOCK
    }

    /// Reads the block that begins there, as far as the file goes. It is checked after the read: if
    /// the file was changed before, what was read is never used.
    fn load(&mut self, start: u64, wanted: usize) -> Result<(), FolderError> {
        let count = self
            .stamp
            .len
            .saturating_sub(start)
            .min(self.block_len(wanted));
        self.block.resize(count as usize, 0)?;
        self.file.seek(SeekFrom::Start(start))?;
        self.file
            .read_exact(&mut self.block)
            .map_err(changed_or_refused)?;
        self.start = start;
        self.check()
    }

    /// Returns `true` if the block has the octet at an offset.
    fn has(&self, offset: u64) -> bool {
        self.start <= offset && offset - self.start < self.block.len() as u64
    }

    /// Returns what the file has from an offset on, to the end of the block, if so many octets are
    /// asked for. It is empty after the file's end.
    fn octets_from(&mut self, offset: u64, wanted: usize) -> Result<&[u8], FolderError> {
        if !self.has(offset) {
            self.load(offset, wanted)?;
        }
        let skipped = offset.saturating_sub(self.start);
        Ok(self.block.get(skipped as usize..).unwrap_or(&[]))
    }

    fn read(&mut self, offset: u64, out: &mut [u8]) -> Result<(), FolderError> {
        let mut done = 0;
        while done < out.len() {
            let wanted = out.len() - done;
            let octets = self.octets_from(offset.saturating_add(done as u64), wanted)?;
            let count = octets.len().min(wanted);
            if count == 0 {
                return Err(FolderError::Changed);
            }
            out[done..done + count].copy_from_slice(&octets[..count]);
            done += count;
        }
        Ok(())
    }
}

/// Returns why a file that was there can't be read.
fn changed_or_refused(error: io::Error) -> FolderError {
    match error.kind() {
        ErrorKind::NotFound | ErrorKind::UnexpectedEof => FolderError::Changed,
        kind => FolderError::System(kind),
    }
}

/// The files of a folder, and the open ones; the one used last comes after the others.
#[derive(Drop)]
pub struct Sources<F: Files + Drop> {
    files: F,
    alloc: Global,
    folder: String,
    opened: Vec<Source<F>>,
}

impl<F: Files + Drop> Sources<F> {
    /// Returns the files of a folder, which must be there. None is open.
    pub fn new(files: F, alloc: Global, folder: String) -> Self {
        Sources {
            files,
            alloc,
            folder,
            opened: Vec::new(alloc),
        }
    }

    fn path(&self, name: &[u8]) -> Result<String, FolderError>
        ensures { IfErr result (λ error. error ≢ FolderError.Name) }
    {
        path_in(self.alloc, self.folder.as_str(), name)
    }

    /// Returns which of the open files has this name.
    fn place_of(&self, name: &[u8]) -> Option<usize>
        ensures { IfSome result (λ at. at < vec_len self.now.opened) }
    {
        let mut opened = self.opened.iter();
        opened.position(|source| source.name.as_slice() == name)
    }

    fn close(&mut self, name: &[u8]) {
        if let Some(at) = self.place_of(name) {
            let _ = self.opened.remove(at);
        }
    }

    /// Closes the file that wasn't used for the longest time if no more may be open.
    fn make_room(&mut self) {
        if self.opened.len() >= MOST_OPEN {
            let _ = self.opened.remove(0);
        }
    }

    /// Opens a file. Its path is looked at first, since to open a pipe could block.
    fn open(&self, name: &[u8], stamp: Stamp) -> Result<Source<F>, FolderError> {
        let path = self.path(name)?;
        let found = fs::symlink_metadata(&self.files, path.as_str()).map_err(changed_or_refused)?;
        if Stamp::of(&found) != stamp {
            return Err(FolderError::Changed);
        }
        let file = File::open(&self.files, path.as_str()).map_err(changed_or_refused)?;
        let source = Source {
            name: Vec::from_slice(self.alloc, name)?,
            file,
            stamp,
            start: 0,
            block: Vec::new(self.alloc),
        };
        source.check()?;
        Ok(source)
    }

    /// Takes a file out of the open ones, or opens it.
    fn take(&mut self, name: &[u8], stamp: Stamp) -> Result<Source<F>, FolderError> {
        match self.place_of(name) {
            Some(at) => Ok(self.opened.remove(at)),
            None => {
                self.make_room();
                self.open(name, stamp)
            }
        }
    }

    /// Returns the stamp of the plain file of that name; `None` if nothing has that name. The file
    /// is closed if it was open.
    pub fn look(&mut self, name: &[u8]) -> Result<Option<Stamp>, FolderError>
        ensures { IfErr result (λ error. error ≢ FolderError.Name) }
    {
        self.close(name);
        let path = self.path(name)?;
        match fs::symlink_metadata(&self.files, path.as_str()) {
            Ok(found) if found.is_file() => Ok(Some(Stamp::of(&found))),
            Ok(found) if found.is_dir() => Err(FolderError::Folder),
            Ok(found) if found.is_symlink() => Err(FolderError::Link),
            Ok(_) => Err(FolderError::NoFile),
            Err(error) if error.kind() == ErrorKind::NotFound => Ok(None),
            Err(error) => Err(FolderError::from(error)),
        }
    }

    /// Reads octets of a file that had this stamp when it was looked for. It is closed if that
    /// fails, so that no block is used that wasn't read well.
    pub fn read(
        &mut self,
        name: &[u8],
        stamp: Stamp,
        offset: u64,
        out: &mut [u8],
    ) -> Result<(), FolderError> {
        let mut source = self.take(name, stamp)?;
        source.read(offset, out)?;
        let _ = self.opened.push(source);
        Ok(())
    }
}
