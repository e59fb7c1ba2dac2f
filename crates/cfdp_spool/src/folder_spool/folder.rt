// The folder of a spool: the calls of the system, and how a file leaves.
ghost use Rattle.std.specs.Prelude.{◌≡◌, [], ◌∷◌, ◌++◌, false, true};
ghost use Rattle.std.specs.Prelude.{IfOk, OnErr, OnOk, string_bytes};
ghost use Rattle.cfdp_spool.specs.Leaving.{EndsWith, IsLast, IsTold, May, OnlyDoes, Shows};
ghost use Rattle.cfdp_spool.specs.Leaving.{file_path, folder_path, noted};

use crate::folder_spool::notes::{Done, Told};
use crate::folder_spool::place::{Place, Way};
use crate::folder_spool::stamp::FileStamp;
use cfdp_files::{LockError, LockedFile};
use cfdp_store::NameRule;
use ghost_list::GhostList;
use std::fs::{File, ReadDir};
use std::io::ErrorKind;
use std::marker::Model;
use std::{fs, io};

/// The name of the file by which it is tried whether files can be moved.
const TRIAL: &str = ".spool-trial";

/// The folder of a spool, which one process has at a time: `.leaving` in it is locked as long as
/// this value lives.
#[derive(Drop)]
pub struct SpoolFolder<'a> {
    rt: &'a HostRuntime,
    path: String,
    /// Which names its files may have.
    names: NameRule,
    /// Whether files that were sent are removed.
    removes_sent: bool,
    told: GhostList<Told>,
    done: GhostList<Done>,
    _held: LockedFile,
}

impl<'a> Model for SpoolFolder<'a> {
    ghost use Rattle.std.specs.Prelude.{◌≡◌, string_bytes};
    ghost use Rattle.cfdp_spool.specs.declared.folder_spool.place.Place.TheVariants.{Leaving};
    ghost use Rattle.cfdp_spool.specs.Leaving.{IsRight, SpoolState, folder_path};

    ghost Value = { SpoolState };

    ghost view = { λ f. record {
      path = string_bytes f.path;
      names = f.names;
      removes = f.removes_sent;
      told = f.told;
      done = f.done;
    } };

    ghost invariant = { λ f. IsRight (record {
      path = string_bytes f.path;
      names = f.names;
      removes = f.removes_sent;
      told = f.told;
      done = f.done;
    }) × (f._held ≡ folder_path (string_bytes f.path) Leaving) };
}

// Paths, and what is asked of the system that moves no file.
impl<'a> SpoolFolder<'a> {
    /// Returns the path of the folder.
    pub fn path(&self) -> &str
        ensures { result.now ≡ self.now.path }
    {
        self.path.as_str()
    }

    /// Returns which names its files may have.
    pub fn names(&self) -> NameRule
        ensures { result ≡ self.now.names }
    {
        self.names
    }

    /// Returns the path of the folder of a place.
    fn folder(&self, place: Place) -> io::Result<String>
        ensures { IfOk result (λ path. string_bytes path ≡ folder_path self.now.path place) }
    {
        let (alloc, path) = (self.rt.alloc(), self.path.as_str());
        match place {
            Place::Spool => Ok(String::from_str(alloc, path)?),
            Place::Leaving => Ok(format!(in alloc; "{path}/.leaving")?),
            Place::Left(Way::Sent) => Ok(format!(in alloc; "{path}/.sent")?),
            Place::Left(Way::Failed) => Ok(format!(in alloc; "{path}/.failed")?),
        }
    }

    /// Returns the path of the file of this name at a place.
    fn file(&self, name: &[u8], place: Place) -> io::Result<String>
        ensures { IfOk result (λ path. string_bytes path ≡ file_path self.now.path place name.now) }
    {
        let (folder, name) = (self.folder(place)?, text_of(name)?);
        let folder = folder.as_str();
        Ok(format!(in self.rt.alloc(); "{folder}/{name}")?)
    }

    /// Returns what lies in it, as it is listed.
    pub fn list(&self) -> io::Result<ReadDir<HostRuntime>> {
        fs::read_dir(self.rt, self.path.as_str())
    }

    /// Returns what the plain file of this name at a place is; `None` if there is none. No link is
    /// followed.
    pub fn look(&self, name: &[u8], place: Place) -> io::Result<Option<FileStamp>> {
        match fs::symlink_metadata(self.rt, self.file(name, place)?.as_str()) {
            Ok(found) if found.is_file() => Ok(Some(FileStamp::of(&found))),
            Ok(_) => Ok(None),
            Err(error) if error.kind() == ErrorKind::NotFound => Ok(None),
            Err(error) => Err(error),
        }
    }

    /// Makes the folder of a place if there is none.
    fn make(&self, place: Place) -> io::Result<()> {
        make_folder(self.rt, self.folder(place)?.as_str())
    }

    /// Flushes the folder of a place to the device.
    fn flush(&self, place: Place) -> io::Result<()> {
        File::open(self.rt, self.folder(place)?.as_str())?.sync_all()
    }
}

// Each of these asks one thing of the system, and notes what it did.
impl<'a> SpoolFolder<'a> {
    /// Looks what the plain file of this name at a place is; `None` if there is none.
    pub fn see(&mut self, name: &[u8], place: Place) -> io::Result<Option<FileStamp>>
        ensures ok { IfOk result (λ found. self.new
            ≡ noted (Done.Saw name.now place found) self.old) }
        ensures err { OnErr result (self.new ≡ self.old) }
    {
        let found = self.look(name, place)?;
        self.notes(Done::Saw(GhostList::of(name), place, found));
        Ok(found)
    }

    /// Looks whether nothing in the spool has this name.
    fn is_free(&mut self, name: &[u8]) -> io::Result<bool>
        ensures free { IfOk result (λ free. free ≡ true
            → self.new ≡ noted (Done.Free name.now) self.old) }
        ensures taken { IfOk result (λ free. free ≡ false → self.new ≡ self.old) }
        ensures err { OnErr result (self.new ≡ self.old) }
    {
        let path = self.file(name, Place::Spool)?;
        let is_free = fs::symlink_metadata(self.rt, path.as_str()).is_err();
        if is_free {
            self.notes(Done::Free(GhostList::of(name)));
        }
        Ok(is_free)
    }

    /// Moves a file from a place to another one.
    fn moves(&mut self, name: &[u8], from: Place, to: Place) -> io::Result<()>
        requires { May self.old (Done.Moved name.now from to) }
        ensures ok { OnOk result (self.new ≡ noted (Done.Moved name.now from to) self.old) }
        ensures err { OnErr result (self.new ≡ self.old) }
    {
        let (old, new) = (self.file(name, from)?, self.file(name, to)?);
        fs::rename(self.rt, old.as_str(), new.as_str())?;
        self.notes(Done::Moved(GhostList::of(name), from, to));
        Ok(())
    }

    /// Removes a file from those that leave.
    fn removes(&mut self, name: &[u8]) -> io::Result<()>
        requires { May self.old (Done.Removed name.now) }
        ensures ok { OnOk result (self.new ≡ noted (Done.Removed name.now) self.old) }
        ensures err { OnErr result (self.new ≡ self.old) }
    {
        fs::remove_file(self.rt, self.file(name, Place::Leaving)?.as_str())?;
        self.notes(Done::Removed(GhostList::of(name)));
        Ok(())
    }

    /// Gives a file that leaves its name in the spool too, unless something has that. Returns
    /// whether the spool has the name now; `false` if no such file leaves.
    fn links(&mut self, name: &[u8]) -> io::Result<bool>
        ensures has { IfOk result (λ has. has ≡ true
            → self.new ≡ noted (Done.Stands name.now) self.old) }
        ensures none { IfOk result (λ has. has ≡ false → self.new ≡ self.old) }
        ensures err { OnErr result (self.new ≡ self.old) }
    {
        let (leaving, spool) = (
            self.file(name, Place::Leaving)?,
            self.file(name, Place::Spool)?,
        );
        match fs::hard_link(self.rt, leaving.as_str(), spool.as_str()) {
            Err(error) if error.kind() == ErrorKind::NotFound => return Ok(false),
            Err(error) if error.kind() != ErrorKind::AlreadyExists => return Err(error),
            _ => {}
        }
        self.notes(Done::Stands(GhostList::of(name)));
        Ok(true)
    }

    /// Notes what the system did.
    fn notes(&mut self, done: Done)
        requires { May self.old done }
        ensures { self.new ≡ noted done self.old }
    {
        self.done.put(&done);
        drop(done);
    }

    /// Notes that a file must leave this way, and what it was when it was given, if it was.
    pub fn tells(&mut self, name: &[u8], way: Way, stamp: Option<FileStamp>)
        ensures { self.new ≡ record self.old {
          told = self.old.told
              ++ (record { name = name.now; way = way; stamp = stamp }) ∷ [];
        } }
    {
        let name = GhostList::of(name);
        let told = Told { name, way, stamp };
        self.told.put(&told);
        drop(told);
    }
}

// How a file leaves.
impl<'a> SpoolFolder<'a> {
    /// Moves a file away if it was this. The move is in two steps, by a folder of its own, so that
    /// a file that came in its place just before isn't taken for it: that one is given back. A
    /// crash between the steps is mended by the next start, which gives the file back.
    ///
    /// If nothing has the name, or another file has it, nothing is moved.
    ///
    /// # Errors
    ///
    /// The error of the system. The file lies where it was, or in the folder of its own, from which
    /// the next call goes on; or, if only the flush of the folders failed, where it goes, though a
    /// crash of the machine may bring it back.
    pub fn leave(&mut self, name: &[u8], stamp: FileStamp, way: Way) -> io::Result<()>
        requires { IsTold self.old name.now way stamp }
        ensures only { OnlyDoes self.old self.new }
        ensures ends { EndsWith name.now self.new }
    {
        let answer = self.try_to_leave(name, stamp, way);
        if answer.is_err() {
            self.notes(Done::Refused(GhostList::of(name)));
        }
        answer
    }

    fn try_to_leave(&mut self, name: &[u8], stamp: FileStamp, way: Way) -> io::Result<()>
        requires { IsTold self.old name.now way stamp }
        ensures only { OnlyDoes self.old self.new }
        ensures ends { OnOk result (EndsWith name.now self.new) }
    {
        if !self.take_out(name, stamp, way)? {
            return Ok(());
        }
        match self.see(name, Place::Leaving)? {
            Some(found) if found.is_moved_from(&stamp) => self.finish(name, way),
            _ => self.give_back(name),
        }
    }

    /// Does the first step: takes a file out of the spool, if it is there as it was. Returns
    /// whether one of its name lies among those that leave.
    fn take_out(&mut self, name: &[u8], stamp: FileStamp, way: Way) -> io::Result<bool>
        requires { IsTold self.old name.now way stamp }
        ensures only { OnlyDoes self.old self.new }
        ensures ends { OnOk result (EndsWith name.now self.new) }
    {
        if self.see(name, Place::Leaving)?.is_some() {
            return Ok(true);
        }
        match self.see(name, Place::Spool)? {
            Some(found) if found.is(&stamp) => {
                self.moves(name, Place::Spool, Place::Leaving)?;
                Ok(true)
            }
            _ => Ok(false),
        }
    }

    /// Does the second step: moves a file on, or removes it, and flushes the folders.
    fn finish(&mut self, name: &[u8], way: Way) -> io::Result<()>
        requires { Shows self.old name.now way }
        ensures only { OnlyDoes self.old self.new }
        ensures ends { OnOk result (EndsWith name.now self.new) }
    {
        let flushed = self.go_on(name, way)?;
        self.flush(flushed)?;
        self.flush(Place::Spool)
    }

    /// Moves a file on, or removes it. Returns the place whose folder is changed by it.
    fn go_on(&mut self, name: &[u8], way: Way) -> io::Result<Place>
        requires { Shows self.old name.now way }
        ensures only { OnlyDoes self.old self.new }
        ensures ends { OnOk result (EndsWith name.now self.new) }
    {
        if way == Way::Sent && self.removes_sent {
            self.removes(name)?;
            return Ok(Place::Leaving);
        }
        self.make(Place::Left(way))?;
        self.moves(name, Place::Leaving, Place::Left(way))?;
        Ok(Place::Left(way))
    }

    /// Gives a file its name back, if it has left it. If a newer one has that name, which would
    /// have taken its place, the older one is removed.
    fn give_back(&mut self, name: &[u8]) -> io::Result<()>
        ensures only { OnlyDoes self.old self.new }
        ensures ends { EndsWith name.now self.old → OnOk result (EndsWith name.now self.new) }
    {
        match self.links(name) {
            Ok(true) => self.removes(name),
            Ok(false) => Ok(()),
            // A file system without links: what comes between a look and the rename is replaced.
            Err(error) => {
                if self.is_free(name)? {
                    return self.moves(name, Place::Leaving, Place::Spool);
                }
                Err(error)
            }
        }
    }
}

// How the folder is taken.
impl<'a> SpoolFolder<'a> {
    /// Takes a folder whose files may have the names of a rule, makes the folders in it that it
    /// needs, tries whether files can be moved to them, and gives back what a run that died had
    /// begun to move.
    ///
    /// # Errors
    ///
    /// `LockError`: another process has it, or the system refused. Then nothing has left it.
    pub fn take(
        rt: &'a HostRuntime,
        path: &str,
        names: NameRule,
        removes_sent: bool,
    ) -> Result<SpoolFolder<'a>, LockError>
        ensures path { IfOk result (λ folder. folder.path ≡ path.now) }
        ensures names { IfOk result (λ folder. folder.names ≡ names) }
        ensures removes { IfOk result (λ folder. folder.removes ≡ removes_sent) }
        ensures told { IfOk result (λ folder. folder.told ≡ []) }
    {
        let leaving = format!(in rt.alloc(); "{path}/.leaving").map_err(io::Error::from)?;
        make_folder(rt, leaving.as_str())?;
        let held = LockedFile::open(rt, leaving.as_str())?;
        let mut folder = SpoolFolder {
            rt,
            path: String::from_str(rt.alloc(), path).map_err(io::Error::from)?,
            names,
            removes_sent,
            told: GhostList::new(),
            done: GhostList::new(),
            _held: held,
        };
        folder.give_all_back()?;
        folder.try_moves()?;
        Ok(folder)
    }

    /// Gives all back that a run that died had begun to move.
    fn give_all_back(&mut self) -> io::Result<()>
        ensures { OnlyDoes self.old self.new }
    {
        for entry in fs::read_dir(self.rt, self.folder(Place::Leaving)?.as_str())? {
            self.give_back(entry?.file_name().as_bytes())?;
        }
        Ok(())
    }

    /// Moves a file as one that leaves is moved, to each folder, and removes it.
    fn try_moves(&self) -> io::Result<()> {
        self.try_move(Way::Failed)?;
        if self.removes_sent {
            return Ok(());
        }
        self.try_move(Way::Sent)
    }

    fn try_move(&self, way: Way) -> io::Result<()> {
        let (rt, name, to) = (self.rt, TRIAL.as_bytes(), Place::Left(way));
        let (spool, leaving) = (
            self.file(name, Place::Spool)?,
            self.file(name, Place::Leaving)?,
        );
        let left = self.file(name, to)?;
        let _ = File::create_new(rt, leaving.as_str())?;
        fs::rename(rt, leaving.as_str(), spool.as_str())?;
        fs::rename(rt, spool.as_str(), leaving.as_str())?;
        self.make(to)?;
        fs::rename(rt, leaving.as_str(), left.as_str())?;
        self.flush(to)?;
        self.flush(Place::Spool)?;
        fs::remove_file(rt, left.as_str())
    }
}

fn text_of(name: &[u8]) -> io::Result<&str>
    ensures { IfOk result (λ text. text.now ≡ name.now) }
{
    match str::from_utf8(name) {
        Ok(text) => Ok(text),
        Err(_) => Err(io::Error::from(ErrorKind::InvalidFilename)),
    }
}

/// Makes a folder if there is none. What else has its name, such as a pipe, isn't opened.
fn make_folder(rt: &HostRuntime, path: &str) -> io::Result<()> {
    match fs::create_dir(rt, path) {
        Err(error) if error.kind() != ErrorKind::AlreadyExists => Err(error),
        Err(_) if !fs::symlink_metadata(rt, path)?.is_dir() => {
            Err(io::Error::from(ErrorKind::NotADirectory))
        }
        _ => Ok(()),
    }
}
