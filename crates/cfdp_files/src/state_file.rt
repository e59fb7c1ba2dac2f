//! The numbers that a station has reserved, in a small file, so that none comes back when it is
//! killed and restarted.
ghost use Rattle.std.specs.Prelude.{◌≡◌, ◌+◌, ◌-◌, ◌^◌, ◌<◌, ◌≤◌, Some, IfOk, IfSome, IsSomeAnd};
ghost use Rattle.std.specs.Prelude.{OnErr, OnOk, min, unwrap_or};

use crate::least_number::{least_number, microseconds};
use crate::locks::{LockError, lock};
use crate::plain_file::{Identity, Use, check_plain, open_plain};
use crate::reserving::{ACCEPTED, Beginning, Reserved};
use crate::state_text::{parse, text_of};
use aos_frame::FRAME_COUNTS;
use cfdp_report::cause_text;
use cfdp_store::folder_of;
use std::alloc::AllocError;
use std::fs::{File, Metadata};
use std::io::{ErrorKind, Read, Write};
use std::{fmt, fs, io};

/// The most octets of the file that are read: more than it has.
const MOST_OCTETS: u64 = 4096;

/// How many transaction numbers are reserved at a time, if they have four octets or more.
const NUMBERS: u64 = 1024;

/// Why a file can't be used.
#[derive(Drop)]
pub enum StateError {
    /// The system refused.
    System(io::Error),
    /// Another station runs with it.
    InUse,
    /// It isn't what a station wrote.
    Damaged,
    /// All numbers are used.
    Spent,
}

impl fmt::Display for StateError {
    fn fmt<W: fmt::Write>(&self, f: &mut fmt::Formatter<W>) -> fmt::Result {
        match self {
            StateError::System(error) => f.write_str(cause_text(error.kind())),
            StateError::InUse => f.write_str("in use by another station"),
            StateError::Damaged => {
                f.write_str("not a state file; delete it only if transaction numbers may be reused")
            }
            StateError::Spent => f.write_str("all transaction numbers are used"),
        }
    }
}

impl From<io::Error> for StateError {
    fn from(error: io::Error) -> StateError {
        StateError::System(error)
    }
}

impl From<LockError> for StateError {
    fn from(error: LockError) -> StateError {
        match error {
            LockError::InUse => StateError::InUse,
            LockError::System(error) => StateError::System(error),
        }
    }
}

impl From<AllocError> for StateError {
    fn from(error: AllocError) -> StateError {
        StateError::System(io::Error::from(error))
    }
}

/// What a station asks for at its start.
#[derive(Clone, Copy, Debug)]
pub struct Wanted {
    /// The number of its first transaction, if one is given.
    pub said: Option<u64>,
    /// How many octets a transaction number has: 1 to 8.
    pub width: u64,
    /// How many puts it makes at once.
    pub puts: u64,
    /// Whether its frames are secured. Their sequence numbers must never come back, so without a
    /// file they begin at the clock.
    pub is_secured: bool,
}

/// The file of a station that runs, which nobody else uses meanwhile.
#[derive(Drop)]
pub struct StateFile<'a> {
    rt: &'a HostRuntime,
    path: String,
    file: File,
    // what the file says
    reserved: Reserved,
    // the first number after those that are reserved for this station
    numbers_end: u64,
}

impl<'a> StateFile<'a> {
    /// Takes the file at this path, which is made if there is none, and reserves a number for
    /// each put: from the given one on, or otherwise after all reserved ones and not below
    /// [`least_number`].
    ///
    /// # Errors
    ///
    /// `StateError`; what was reserved stays so then.
    pub fn take(
        rt: &'a HostRuntime,
        path: &str,
        wanted: Wanted,
    ) -> Result<(StateFile<'a>, Beginning), StateError> {
        let Wanted {
            said,
            width,
            puts,
            ..
        } = wanted;
        let held = held(rt, path)?;
        let before = match &held {
            Some(file) => read(rt, file)?,
            None => Reserved::NOTHING.from_frame(least_frame(rt, wanted)),
        };
        let least = least_number(rt, width, held.is_none());
        let taken = before.begin(said, least, puts).ok_or(StateError::Spent)?;
        let file = match held {
            Some(held) => replaced(rt, path, &held, taken.reserved)?,
            None => made(rt, path, taken.reserved)?,
        };
        let state = StateFile {
            rt,
            path: String::from_str(rt.alloc(), path)?,
            file,
            reserved: taken.reserved,
            numbers_end: taken.numbers_end,
        };
        Ok((state, taken.beginning))
    }

    /// Notes that frames up to this count may leave, if that wasn't noted before.
    ///
    /// # Errors
    ///
    /// `StateError` if it can't be noted.
    pub fn covers(&mut self, count: u64) -> Result<(), StateError>
        ensures covered { OnOk result (count < self.new.reserved.frames) }
        ensures numbers { self.new.numbers_end ≡ self.old.numbers_end }
    {
        let reserved = self.reserved.covering(count).ok_or(StateError::Spent)?;
        self.write(reserved)
    }

    /// Notes that the peer's frame with this sequence number is handed on, and so many more ahead
    /// of it, if that wasn't noted before.
    ///
    /// # Errors
    ///
    /// `StateError` if it can't be noted.
    pub fn accepts(&mut self, number: u64, ahead: u64) -> Result<(), StateError>
        ensures covered { OnOk result
            (IsSomeAnd self.new.reserved.accepted (λ reserved. number ≤ reserved)) }
        ensures numbers { self.new.numbers_end ≡ self.old.numbers_end }
    {
        self.write(self.reserved.accepting(number, ahead))
    }

    /// Notes that none of the peer's frames with a greater sequence number was handed on.
    ///
    /// # Errors
    ///
    /// `StateError` if it can't be noted.
    pub fn settles(&mut self, last: Option<u64>) -> Result<(), StateError>
        ensures exact { OnOk result (self.new.reserved.accepted ≡ last) }
        ensures numbers { self.new.numbers_end ≡ self.old.numbers_end }
    {
        self.write(Reserved {
            accepted: last,
            ..self.reserved
        })
    }

    /// Reserves `more` transaction numbers.
    ///
    /// # Errors
    ///
    /// `StateError`; what was reserved stays so then.
    pub fn adds_numbers(&mut self, more: u64) -> Result<(), StateError>
        ensures more { OnOk result (self.new.numbers_end ≡ self.old.numbers_end + more) }
        ensures reserved { OnOk result (self.new.numbers_end ≤ self.new.reserved.numbers) }
        ensures err { OnErr result (self.new.numbers_end ≡ self.old.numbers_end) }
    {
        let end = self.numbers_end;
        let reserved = self.reserved.adding(end, more).ok_or(StateError::Spent)?;
        self.write(reserved)?;
        self.numbers_end = end + more;
        Ok(())
    }

    /// Writes a new file in the place of this one, and takes it, if this one says something else.
    fn write(&mut self, reserved: Reserved) -> Result<(), StateError>
        ensures ok { OnOk result (self.new.reserved ≡ reserved) }
        ensures err { OnErr result (self.new.reserved ≡ self.old.reserved) }
        ensures numbers { self.new.numbers_end ≡ self.old.numbers_end }
    {
        if reserved == self.reserved {
            return Ok(());
        }
        self.file = replaced(self.rt, self.path.as_str(), &self.file, reserved)?;
        self.reserved = reserved;
        Ok(())
    }
}

/// Returns the count of frames from which on a station without a file counts.
fn least_frame(rt: &HostRuntime, wanted: Wanted) -> u64 {
    if wanted.is_secured {
        microseconds(rt)
    } else {
        0
    }
}

/// Opens the file at a path, if one is there, and keeps others away from it.
fn held(rt: &HostRuntime, path: &str) -> Result<Option<File>, StateError> {
    let file = match open_plain(rt, path, Use::Update) {
        Ok(file) => file,
        Err(error) if is_missing(rt, path, &error) => return Ok(None),
        Err(error) => return Err(StateError::from(error)),
    };
    lock(&file)?;
    // Who had it before may have put another in its place.
    check_own(&file, &fs::metadata(rt, path)?)?;
    Ok(Some(file))
}

/// Returns `true` if a path couldn't be opened since nothing is there, not even a link to nothing.
fn is_missing(rt: &HostRuntime, path: &str, error: &io::Error) -> bool {
    error.kind() == ErrorKind::NotFound && fs::symlink_metadata(rt, path).is_err()
}

/// Fails unless this was found when that file was opened.
fn check_own(file: &File, found: &Metadata) -> Result<(), StateError> {
    if Identity::of(&file.metadata()?) == Identity::of(found) {
        return Ok(());
    }
    Err(StateError::InUse)
}

/// Returns what a file says.
fn read(rt: &HostRuntime, file: &File) -> Result<Reserved, StateError> {
    let mut octets = Vec::new(rt.alloc());
    file.take(MOST_OCTETS).read_to_end(&mut octets)?;
    match str::from_utf8(octets.as_slice()) {
        Ok(text) => parse(rt.alloc(), text)?.ok_or(StateError::Damaged),
        Err(_) => Err(StateError::Damaged),
    }
}

/// Makes the file at a path, if there was none. It gets its name once it is whole, so that a
/// crash leaves none that says nothing.
///
/// # Errors
///
/// `InUse` if another station makes it, or has made it by now; or what the system says.
fn made(rt: &HostRuntime, path: &str, reserved: Reserved) -> Result<File, StateError> {
    let part = part_of(rt, path)?;
    let file = written(rt, part.as_str(), None, reserved)?;
    let named = named(rt, part.as_str(), path);
    let _ = fs::remove_file(rt, part.as_str());
    match named {
        Ok(()) => {}
        Err(error) if error.kind() == ErrorKind::AlreadyExists => return Err(StateError::InUse),
        Err(error) => return Err(StateError::from(error)),
    }
    sync_folder_of(rt, path)?;
    Ok(file)
}

/// Gives a file a name that nothing has, by a link. If the file system has no links, the name is
/// made first and then replaced: a crash between both leaves an empty file.
fn named(rt: &HostRuntime, part: &str, path: &str) -> io::Result<()> {
    match fs::hard_link(rt, part, path) {
        Err(error) if error.kind() != ErrorKind::AlreadyExists => {
            let _empty = File::create_new(rt, path)?;
            fs::rename(rt, part, path)
        }
        answer => answer,
    }
}

/// Writes a file beside the one at a path, which is held, and puts it in the place of that.
fn replaced(
    rt: &HostRuntime,
    path: &str,
    held: &File,
    reserved: Reserved,
) -> Result<File, StateError> {
    let part = part_of(rt, path)?;
    let file = written(rt, part.as_str(), Some(held), reserved)?;
    fs::rename(rt, part.as_str(), path)?;
    sync_folder_of(rt, path)?;
    Ok(file)
}

/// Returns the path of the file that is written before it gets the name of the one at this path.
fn part_of(rt: &HostRuntime, path: &str) -> Result<String, AllocError> {
    format!(in rt.alloc(); "{path}.new")
}

/// Writes a new file, keeps others away from it, and flushes it.
fn written(
    rt: &HostRuntime,
    part: &str,
    held: Option<&File>,
    reserved: Reserved,
) -> Result<File, StateError> {
    remove_left(rt, part, held)?;
    let mut file = match File::create_new(rt, part) {
        Ok(file) => file,
        Err(error) if error.kind() == ErrorKind::AlreadyExists => return Err(StateError::InUse),
        Err(error) => return Err(StateError::from(error)),
    };
    lock(&file)?;
    check_own(&file, &fs::symlink_metadata(rt, part)?)?;
    file.write_all(text_of(rt.alloc(), reserved)?.as_bytes())?;
    file.sync_all()?;
    Ok(file)
}

/// Removes the file that a run left which died as it wrote it; none that another one writes now.
/// It may be the one that is held, if that run died before it removed this name of it.
///
/// # Errors
///
/// `InUse` if another writes it; or what the system says, as `NotSeekable` for what is no file.
fn remove_left(rt: &HostRuntime, part: &str, held: Option<&File>) -> Result<(), StateError> {
    let found = match fs::symlink_metadata(rt, part) {
        Ok(found) => found,
        Err(error) if error.kind() == ErrorKind::NotFound => return Ok(()),
        Err(error) => return Err(StateError::from(error)),
    };
    check_plain(&found)?;
    if let Some(held) = held
        && check_own(held, &found).is_ok()
    {
        fs::remove_file(rt, part)?;
        return Ok(());
    }
    let left = open_plain(rt, part, Use::Update)?;
    lock(&left)?;
    check_own(&left, &fs::symlink_metadata(rt, part)?)?;
    fs::remove_file(rt, part)?;
    Ok(())
}

/// Sees that the folder of a path keeps what names were given in it.
fn sync_folder_of(rt: &HostRuntime, path: &str) -> io::Result<()> {
    File::open(rt, folder_of(path))?.sync_all()
}

/// The numbers that a station has for its transactions and frames: reserved in a file, or by the
/// clock alone.
#[derive(Drop)]
pub struct Reservation<'a> {
    file: Option<StateFile<'a>>,
    beginning: Beginning,
    /// The count of the next frame, not modulo 2^28.
    next_frame: u64,
    /// The sequence number of the peer's secured frame that was handed on last, or what the file
    /// says of earlier ones.
    accepted: Option<u64>,
    /// How many sequence numbers are reserved ahead of the next one that isn't reserved: twice as
    /// many each time, until the file says exactly what was accepted.
    ahead: u64,
    /// How many numbers are reserved at the start, and how many at a time after these.
    numbers: u64,
    step: u64,
}

impl<'a> Reservation<'a> {
    /// Reserves numbers in the file at this path, as [`StateFile::take`] does.
    ///
    /// # Errors
    ///
    /// `StateError`; what was reserved stays so then.
    pub fn take(
        rt: &'a HostRuntime,
        path: &str,
        wanted: Wanted,
    ) -> Result<Reservation<'a>, StateError> {
        let (file, beginning) = StateFile::take(rt, path, wanted)?;
        let accepted = file.reserved.accepted;
        Ok(Reservation {
            file: Some(file),
            beginning,
            next_frame: beginning.frames,
            accepted,
            ahead: 1,
            numbers: wanted.puts,
            step: if wanted.width < 4 { 1 } else { NUMBERS },
        })
    }

    /// Returns the number that is said, or otherwise the clock's, in no file.
    pub fn by_clock(rt: &HostRuntime, said: Option<u64>) -> Reservation<'a> {
        let now = microseconds(rt);
        Reservation {
            file: None,
            beginning: Beginning {
                number: said.unwrap_or(now),
                frames: now,
            },
            next_frame: now,
            accepted: None,
            ahead: 1,
            numbers: u64::MAX,
            step: u64::MAX,
        }
    }

    /// Returns `true` if the numbers are kept in a file.
    pub fn has_file(&self) -> bool {
        self.file.is_some()
    }

    /// Returns the number of the first transaction.
    pub fn number(&self) -> u64 {
        self.beginning.number
    }

    /// Returns the count of the first frame in either lane.
    pub fn frame_count(&self) -> u32 {
        (self.beginning.frames % u64::from(FRAME_COUNTS)) as u32
    }

    /// Returns the sequence number of the first secured frame: its count, not modulo 2^28. So the
    /// numbers of all frames that may leave are reserved with their counts.
    pub fn first_sequence_number(&self) -> u64
        ensures { result ≡ self.now.beginning.frames }
    {
        self.beginning.frames
    }

    /// Returns the sequence number up to which the peer's secured frames must be refused; 0 if none
    /// was ever accepted.
    pub fn accepted(&self) -> u64
        ensures { result ≡ unwrap_or self.now.accepted 0 }
    {
        self.accepted.unwrap_or(0)
    }

    /// Returns how many transaction numbers are reserved at the start.
    pub fn numbers_left(&self) -> u64 {
        self.numbers
    }

    /// Reserves more transaction numbers, after those that are reserved. Returns how many.
    ///
    /// # Errors
    ///
    /// `StateError` if none can be reserved.
    pub fn adds_numbers(&mut self) -> Result<u64, StateError>
        ensures { IfOk result (λ more. IfSome self.old.file (λ old. IfSome self.new.file (λ new.
            (new.numbers_end ≡ old.numbers_end + more) × (new.numbers_end ≤ new.reserved.numbers)))) }
    {
        if let Some(file) = &mut self.file {
            file.adds_numbers(self.step)?;
        }
        Ok(self.step)
    }

    /// Notes that one frame more leaves, in either lane.
    ///
    /// # Errors
    ///
    /// `StateError` if its count can't be reserved: then the frame must not leave.
    pub fn covers_next(&mut self) -> Result<(), StateError>
        ensures covered { OnOk result (IfSome self.new.file (λ file.
            self.old.next_frame < file.reserved.frames)) }
        ensures counted { OnOk result (self.new.next_frame
            ≡ min (self.old.next_frame + 1) (2 ^ 64 - 1)) }
        ensures err { OnErr result (self.new.next_frame ≡ self.old.next_frame) }
    {
        if let Some(file) = &mut self.file {
            file.covers(self.next_frame)?;
        }
        self.next_frame = self.next_frame.saturating_add(1);
        Ok(())
    }

    /// Notes that the peer's secured frame with this sequence number, which must be greater than
    /// those before, is handed on. Of most numbers that is noted before, so that nothing is
    /// written.
    ///
    /// # Errors
    ///
    /// `StateError` if the number can't be reserved: then the frame must not be handed on.
    pub fn covers_accepted(&mut self, number: u64) -> Result<(), StateError>
        ensures covered { OnOk result (IfSome self.new.file (λ file.
            IsSomeAnd file.reserved.accepted (λ reserved. number ≤ reserved))) }
        ensures last { OnOk result (self.new.accepted ≡ Some number) }
        ensures err { OnErr result (self.new.accepted ≡ self.old.accepted) }
    {
        if let Some(file) = &mut self.file {
            let before = file.reserved.accepted;
            file.accepts(number, self.ahead)?;
            if file.reserved.accepted != before {
                self.ahead = self.ahead.saturating_mul(2).min(ACCEPTED);
            }
        }
        self.accepted = Some(number);
        Ok(())
    }

    /// Notes that no later frame was handed on, so that a station that is restarted refuses none
    /// that it hasn't received. It should be called once a second in which frames were accepted,
    /// and at the end.
    ///
    /// # Errors
    ///
    /// `StateError` if that can't be noted; then up to 1,024 later frames are refused after a
    /// crash.
    pub fn settles_accepted(&mut self) -> Result<(), StateError>
        ensures exact { OnOk result (IfSome self.new.file (λ file.
            file.reserved.accepted ≡ self.old.accepted)) }
        ensures same { self.new.accepted ≡ self.old.accepted }
    {
        self.ahead = 1;
        match &mut self.file {
            Some(file) => file.settles(self.accepted),
            None => Ok(()),
        }
    }
}
