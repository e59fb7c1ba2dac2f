// The part files of a folder: what the system did with them, and the calls of it.
ghost use Rattle.std.specs.FinMap as map;
ghost use Rattle.std.specs.Prelude.{◌≡◌, ◌≢◌, ◌++◌, ◌∷◌, [], true, false, Some, None, Ok, IsSome};
ghost use Rattle.std.specs.Prelude.{IfErr, OnOk, OnErr};
ghost use Rattle.cfdp_store.specs.Disk.{published_by, staged_by};
ghost use Rattle.cfdp_store.specs.Staged.{OthersKeep, front, staged_for, written};

use crate::folder_error::FolderError;
use crate::part_names::part_path;
use cfdp_header::TransactionId;
use ghost_list::GhostList;
use std::alloc::Global;
use std::fs::{self, File, Files, OpenFile};
use std::io::{ErrorKind, Read, Seek, SeekFrom, Write};

/// The most part files that are open at once.
const MOST_OPEN: usize = 16;

/// What the system did with a transaction's part file.
#[derive(Drop)]
pub enum Done {
    /// It made it, with no octets.
    Made(TransactionId),
    /// It found it, with at least so many octets.
    Found(TransactionId, u64),
    /// It wrote octets, from an offset on.
    Wrote(TransactionId, u64, GhostList<u8>),
    /// It read octets, from an offset on.
    Read(TransactionId, u64, GhostList<u8>),
    /// It cut it to a length, or filled it up with zeros.
    Cut(TransactionId, u64),
    /// It gave it this name, in place of the file that had it.
    Named(TransactionId, GhostList<u8>),
    /// It removed it, or refused something: what it has is known no more.
    Lost(TransactionId),
}

/// A part file that is open.
#[derive(Drop)]
struct Part<F: Files> {
    id: TransactionId,
    file: F::File,
}

/// The part files of a folder, and what the system did with them. Each lies under a name that
/// begins with a point, which no published file has.
#[derive(Drop)]
pub struct Parts<F: Files + Drop> {
    files: F,
    alloc: Global,
    folder: String,
    open: Vec<Part<F>>,
    pub done: GhostList<Done>,
}

// Each of these functions asks one thing of the system; `done` doesn't note it yet.
impl<F: Files + Drop> Parts<F> {
    fn path(&self, id: TransactionId) -> Result<String, FolderError>
        ensures { IfErr result (λ error. error ≢ FolderError.Name) }
    {
        Ok(part_path(self.alloc, self.folder.as_str(), id)?)
    }

    fn close(&mut self, id: TransactionId)
        ensures { self.new.done ≡ self.old.done }
    {
        if let Some(at) = self.open.iter().position(|part| part.id == id) {
            let _ = self.open.remove(at);
        }
    }

    /// Closes the part file that wasn't used for the longest time if no more may be open.
    fn make_room(&mut self)
        ensures { self.new.done ≡ self.old.done }
    {
        if self.open.len() >= MOST_OPEN {
            let _ = self.open.remove(0);
        }
    }

    /// Keeps a part file open.
    fn keep(&mut self, part: Part<F>)
        ensures { self.new.done ≡ self.old.done }
    {
        let _ = self.open.push(part);
    }

    /// Takes a part file out of the open ones, or opens it.
    fn take(&mut self, id: TransactionId) -> Result<Part<F>, FolderError>
        ensures done { self.new.done ≡ self.old.done }
        ensures err { IfErr result (λ error. error ≢ FolderError.Name) }
    {
        if let Some(at) = self.open.iter().position(|part| part.id == id) {
            return Ok(self.open.remove(at));
        }
        self.make_room();
        let path = self.path(id)?;
        let file = File::options()
            .read(true)
            .write(true)
            .open(&self.files, path.as_str())?;
        Ok(Part { id, file })
    }

    fn try_make(&mut self, id: TransactionId) -> Result<(), FolderError>
        ensures done { self.new.done ≡ self.old.done }
        ensures err { IfErr result (λ error. error ≢ FolderError.Name) }
    {
        self.close(id);
        let path = self.path(id)?;
        let _ = fs::remove_file(&self.files, path.as_str());
        self.make_room();
        let file = File::create_new(&self.files, path.as_str())?;
        self.keep(Part { id, file });
        Ok(())
    }

    fn try_write(
        &mut self,
        id: TransactionId,
        offset: u64,
        octets: &[u8],
    ) -> Result<(), FolderError>
        ensures done { self.new.done ≡ self.old.done }
        ensures err { IfErr result (λ error. error ≢ FolderError.Name) }
    {
        let mut part = self.take(id)?;
        part.file.seek(SeekFrom::Start(offset))?;
        part.file.write_all(octets)?;
        self.keep(part);
        Ok(())
    }

    /// Opens a part file if it is there, and has at least so many octets.
    fn try_adopt(&mut self, id: TransactionId, end: u64) -> Result<bool, FolderError>
        ensures done { self.new.done ≡ self.old.done }
        ensures err { IfErr result (λ error. error ≢ FolderError.Name) }
    {
        let part = match self.take(id) {
            Ok(part) => part,
            Err(FolderError::System(ErrorKind::NotFound)) => return Ok(false),
            Err(error) => return Err(error),
        };
        let found = part.file.metadata()?;
        if found.len() < end {
            return Ok(false);
        }
        self.keep(part);
        Ok(true)
    }

    /// Reads octets of a part file, if it has them all.
    fn try_read(
        &mut self,
        id: TransactionId,
        offset: u64,
        out: &mut [u8],
    ) -> Result<bool, FolderError>
        ensures done { self.new.done ≡ self.old.done }
        ensures err { IfErr result (λ error. error ≢ FolderError.Name) }
    {
        let mut part = self.take(id)?;
        part.file.seek(SeekFrom::Start(offset))?;
        match part.file.read_exact(out) {
            Ok(()) => {}
            Err(error) if error.kind() == ErrorKind::UnexpectedEof => return Ok(false),
            Err(error) => return Err(FolderError::from(error)),
        }
        self.keep(part);
        Ok(true)
    }

    /// Cuts a part file to a length, or fills it up. What it has is then on the device, too.
    fn try_cut(&mut self, id: TransactionId, size: u64) -> Result<(), FolderError>
        ensures done { self.new.done ≡ self.old.done }
        ensures err { IfErr result (λ error. error ≢ FolderError.Name) }
    {
        let part = self.take(id)?;
        part.file.set_len(size)?;
        part.file.sync_all()?;
        Ok(())
    }

    /// Gives a part file a name. The folder is flushed to the device too, so that the file keeps
    /// its name. If only that fails, the file may lie there under its name.
    fn try_name(&mut self, id: TransactionId, name: &[u8]) -> Result<(), FolderError>
        ensures done { self.new.done ≡ self.old.done }
        ensures err { IfErr result (λ error. error ≢ FolderError.Name) }
    {
        let part = self.path(id)?;
        let path = path_in(self.alloc, self.folder.as_str(), name)?;
        let folder = File::open(&self.files, self.folder.as_str())?;
        fs::rename(&self.files, part.as_str(), path.as_str())?;
        folder.sync_all()?;
        Ok(())
    }

    fn try_remove(&mut self, id: TransactionId) -> Result<(), FolderError>
        ensures done { self.new.done ≡ self.old.done }
        ensures err { IfErr result (λ error. error ≢ FolderError.Name) }
    {
        self.close(id);
        let path = self.path(id)?;
        match fs::remove_file(&self.files, path.as_str()) {
            Ok(()) => Ok(()),
            Err(error) if error.kind() == ErrorKind::NotFound => Ok(()),
            Err(error) => Err(FolderError::from(error)),
        }
    }
}

/// Returns the path of a file in a folder.
pub fn path_in(alloc: Global, folder: &str, name: &[u8]) -> Result<String, FolderError>
    ensures { IfErr result (λ error. error ≢ FolderError.Name) }
{
    match str::from_utf8(name) {
        Ok(name) => Ok(format!(in alloc; "{folder}/{name}")?),
        Err(_) => Err(FolderError::System(ErrorKind::InvalidFilename)),
    }
}

// Each of these notes what the system did, as far as it answered that it did it.
impl<F: Files + Drop> Parts<F> {
    /// Returns no part files, in a folder that must be there.
    pub fn new(files: F, alloc: Global, folder: String) -> Self
        ensures { result.done ≡ [] }
    {
        Parts {
            files,
            alloc,
            folder,
            open: Vec::new(alloc),
            done: GhostList::new(),
        }
    }

    /// Makes a part file with no octets, in place of what it was.
    pub fn make(&mut self, id: TransactionId) -> Result<(), FolderError>
        ensures staged { OnOk result (staged_by self.new.done id ≡ Some map.empty) }
        ensures others { OthersKeep id (staged_by self.old.done) (staged_by self.new.done) }
        ensures published { published_by self.new.done ≡ published_by self.old.done }
        ensures name { IfErr result (λ error. error ≢ FolderError.Name) }
    {
        if let Err(error) = self.try_make(id) {
            self.lose(id);
            return Err(error);
        }
        self.done.put(&Done::Made(id));
        Ok(())
    }

    /// Returns `true` if a part file is there that has at least so many octets.
    pub fn adopt(&mut self, id: TransactionId, end: u64) -> Result<bool, FolderError>
        ensures staged { result ≡ Ok true → IsSome (staged_by self.new.done id) }
        ensures short { result ≡ Ok false → self.new.done ≡ self.old.done }
        ensures others { OthersKeep id (staged_by self.old.done) (staged_by self.new.done) }
        ensures published { published_by self.new.done ≡ published_by self.old.done }
    {
        match self.try_adopt(id, end) {
            Ok(true) => {
                self.done.put(&Done::Found(id, end));
                Ok(true)
            }
            Ok(false) => Ok(false),
            Err(error) => {
                self.done.put(&Done::Lost(id));
                Err(error)
            }
        }
    }

    /// Reads octets of a part file, from an offset on, and returns `true` if it has them all.
    pub fn read(
        &mut self,
        id: TransactionId,
        offset: u64,
        out: &mut [u8],
    ) -> Result<bool, FolderError>
        requires { IsSome (staged_by self.old.done id) }
        ensures staged { result ≡ Ok true → staged_by self.new.done id
            ≡ Some (written (staged_for (staged_by self.old.done) id) offset out.new) }
        ensures short { result ≡ Ok false → self.new.done ≡ self.old.done }
        ensures others { OthersKeep id (staged_by self.old.done) (staged_by self.new.done) }
        ensures published { published_by self.new.done ≡ published_by self.old.done }
    {
        match self.try_read(id, offset, out) {
            Ok(true) => {
                self.done.put(&Done::Read(id, offset, GhostList::of(out)));
                Ok(true)
            }
            Ok(false) => Ok(false),
            Err(error) => {
                self.done.put(&Done::Lost(id));
                Err(error)
            }
        }
    }

    /// Writes octets to a part file, from an offset on.
    pub fn write(
        &mut self,
        id: TransactionId,
        offset: u64,
        octets: &[u8],
    ) -> Result<(), FolderError>
        requires { IsSome (staged_by self.old.done id) }
        ensures staged { OnOk result (staged_by self.new.done id
            ≡ Some (written (staged_for (staged_by self.old.done) id) offset octets.now)) }
        ensures others { OthersKeep id (staged_by self.old.done) (staged_by self.new.done) }
        ensures published { published_by self.new.done ≡ published_by self.old.done }
        ensures name { IfErr result (λ error. error ≢ FolderError.Name) }
    {
        if let Err(error) = self.try_write(id, offset, octets) {
            self.lose(id);
            return Err(error);
        }
        self.done
            .put(&Done::Wrote(id, offset, GhostList::of(octets)));
        Ok(())
    }

    /// Cuts a part file to its first octets, and gives it a name.
    pub fn publish(&mut self, id: TransactionId, name: &[u8], size: u64) -> Result<(), FolderError>
        requires { IsSome (staged_by self.old.done id) }
        ensures ok { OnOk result (published_by self.new.done
            ≡ map.insert (published_by self.old.done) name.now
            (front (staged_for (staged_by self.old.done) id) size)) }
        ensures err { OnErr result (published_by self.new.done ≡ published_by self.old.done) }
        ensures staged { OnOk result (staged_by self.new.done id ≡ None) }
        ensures others { OthersKeep id (staged_by self.old.done) (staged_by self.new.done) }
        ensures name { IfErr result (λ error. error ≢ FolderError.Name) }
    {
        if let Err(error) = self.try_cut(id, size) {
            self.lose(id);
            return Err(error);
        }
        self.done.put(&Done::Cut(id, size));
        if let Err(error) = self.try_name(id, name) {
            self.lose(id);
            return Err(error);
        }
        self.done.put(&Done::Named(id, GhostList::of(name)));
        Ok(())
    }

    /// Removes a part file, if it is there.
    pub fn remove(&mut self, id: TransactionId) -> Result<(), FolderError>
        ensures staged { staged_by self.new.done id ≡ None }
        ensures others { OthersKeep id (staged_by self.old.done) (staged_by self.new.done) }
        ensures published { published_by self.new.done ≡ published_by self.old.done }
        ensures name { IfErr result (λ error. error ≢ FolderError.Name) }
    {
        let answer = self.try_remove(id);
        self.done.put(&Done::Lost(id));
        answer
    }

    /// Removes a part file if the system refused something for it.
    fn lose(&mut self, id: TransactionId)
        ensures { self.new.done ≡ self.old.done ++ Done.Lost id ∷ [] }
    {
        let _ = self.try_remove(id);
        self.done.put(&Done::Lost(id));
    }
}
