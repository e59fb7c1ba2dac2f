// The files of a spool that wait, and those that were given.
ghost use Rattle.std.specs.Prelude.{◌≡◌, IfSome, OnSome};
ghost use Rattle.cfdp_store.specs.Names.{Allows};
ghost use Rattle.cfdp_spool.specs.Leaving.{EndsWith, GivenAs, IsTold, OnlyDoes, ToldToLeave};

use crate::folder_spool::folder::SpoolFolder;
use crate::folder_spool::notice::{SpoolNews, SpoolNotice, SpoolTeller};
use crate::folder_spool::place::{Place, Way};
use crate::folder_spool::scan::{Lying, Scan};
use crate::folder_spool::stamp::FileStamp;
use std::collections::{BTreeMap, BTreeSet, VecDeque};
use std::io;
use std::marker::Model;
use std::time::Instant;

/// The most files that are known at a time: such as were given, or were put back.
const MOST_KNOWN: usize = 4096;

/// The seconds until something may be done again: a look through the folder, and moves that the
/// system refused.
const PAUSE: u64 = 1;

/// The seconds that a file waits that was put back.
const AGAIN: u64 = 5;

/// A file that can't be moved away, though its sending is over.
#[derive(Drop)]
struct Staying {
    name: Vec<u8>,
    stamp: FileStamp,
    way: Way,
}

/// A file that was put back, and since when it waits.
#[derive(Drop)]
struct Waiting {
    name: Vec<u8>,
    since: Instant,
}

/// The files of a spool.
#[derive(Drop)]
pub struct Queue<'a, T: SpoolTeller> {
    rt: &'a HostRuntime,
    folder: SpoolFolder<'a>,
    teller: T,
    /// The next one, if it was asked whether there is one. It isn't known before it is given.
    offered: Option<Vec<u8>>,
    /// Those that must be given next.
    ready: BTreeSet<Lying>,
    /// What those were that were given, as they were given, until they left the folder. What is in
    /// the two lists below is here too.
    known: BTreeMap<Vec<u8>, FileStamp>,
    /// Those that were put back, the first of them first.
    waiting: VecDeque<Waiting>,
    /// Those that can't be moved away.
    staying: VecDeque<Staying>,
    /// The names that can't be sent, if that was noted.
    told: BTreeSet<String>,
    has_told_no_text: bool,
    has_told_unlisted: bool,
    /// When the folder was last looked through.
    looked: Option<Instant>,
    /// When it was last tried to move those away that stay.
    tried: Option<Instant>,
}

impl<'a, T: SpoolTeller> Model for Queue<'a, T> {
    ghost use Rattle.cfdp_spool.specs.Leaving.{AreTold, SpoolState};

    ghost Value = { SpoolState };

    ghost view = { λ q. q.folder };

    ghost invariant = { λ q. AreTold q.folder.told q.staying.items };
}

impl<'a, T: SpoolTeller> Queue<'a, T> {
    /// Returns a queue that knows nothing of the folder.
    pub fn new(rt: &'a HostRuntime, folder: SpoolFolder<'a>, teller: T) -> Queue<'a, T>
        ensures { result ≡ folder.entry }
    {
        let alloc = rt.alloc();
        Queue {
            rt,
            folder,
            teller,
            offered: None,
            ready: BTreeSet::new(alloc),
            known: BTreeMap::new(alloc),
            waiting: VecDeque::new(alloc),
            staying: VecDeque::new(alloc),
            told: BTreeSet::new(alloc),
            has_told_no_text: false,
            has_told_unlisted: false,
            looked: None,
            tried: None,
        }
    }

    /// Returns `true` if a file waits.
    pub fn has_next(&mut self) -> bool
        ensures { OnlyDoes self.old self.new }
    {
        if self.offered.is_none() {
            self.offered = self.find();
        }
        self.offered.is_some()
    }

    /// Returns the name of the next file, which is known from now on as what it is now; `None` if
    /// none waits, or there is no memory for it.
    pub fn next(&mut self) -> Option<Vec<u8>>
        ensures only { OnlyDoes self.old self.new }
        ensures given { IfSome result (λ name. GivenAs name.items self.new) }
        ensures named { IfSome result (λ name. Allows self.old.names name.items) }
    {
        if !self.has_next() {
            return None;
        }
        let name = self.offered.take()?;
        if !self.folder.names().allows(name.as_slice()) {
            return None;
        }
        self.know(name.as_slice())?;
        Some(name)
    }

    /// Takes the file of this name as given, as an earlier run gave it. Returns `true` if it lies
    /// there and may be sent.
    pub fn takes_back(&mut self, name: &[u8]) -> bool
        ensures { OnlyDoes self.old self.new }
    {
        self.known.len() < MOST_KNOWN
            && self.folder.names().allows(name)
            && self.know(name).is_some()
    }

    /// Knows a file from now on as what it is now; `None` if it isn't there, or there is no memory
    /// for it.
    fn know(&mut self, name: &[u8]) -> Option<()>
        ensures only { OnlyDoes self.old self.new }
        ensures given { OnSome result (GivenAs name.now self.new) }
    {
        let stamp = self.folder.see(name, Place::Spool).ok()??;
        let kept = Vec::from_slice(self.rt.alloc(), name).ok()?;
        let _ = self.known.insert(kept, stamp).ok()?;
        Some(())
    }

    /// Finds the next file that isn't known.
    fn find(&mut self) -> Option<Vec<u8>>
        ensures { OnlyDoes self.old self.new }
    {
        let now = Instant::now(self.rt).ok()?;
        self.try_staying(now);
        if self.ready.is_empty() || self.known.len() >= MOST_KNOWN {
            if let Some(name) = self.next_waiting(now) {
                return Some(name);
            }
            self.look_through(now);
        }
        self.next_ready()
    }

    /// Returns the next of those that are ready and still there.
    fn next_ready(&mut self) -> Option<Vec<u8>>
        ensures { self.new ≡ self.old }
    {
        for _ in 0..self.ready.len() {
            if self.known.len() >= MOST_KNOWN {
                return None;
            }
            let name = self.ready.pop_first()?.name;
            if !self.known.contains_key(name.as_slice()) && self.is_there(name.as_slice()) {
                return Some(name);
            }
        }
        None
    }

    /// Returns the next of those that were put back and are still there, if it has waited for long
    /// enough.
    fn next_waiting(&mut self, now: Instant) -> Option<Vec<u8>>
        ensures { self.new ≡ self.old }
    {
        for _ in 0..self.waiting.len() {
            let first = self.waiting.front()?;
            if now.duration_since(first.since).as_secs() < AGAIN {
                return None;
            }
            let name = self.waiting.pop_front()?.name;
            let _ = self.known.remove(name.as_slice());
            if self.is_there(name.as_slice()) {
                return Some(name);
            }
        }
        None
    }

    /// Returns `true` if a plain file of this name lies in the folder.
    fn is_there(&self, name: &[u8]) -> bool {
        matches!(self.folder.look(name, Place::Spool), Ok(Some(_)))
    }

    /// Looks through the folder, if all that was found before is given and the last look is over
    /// for long enough.
    fn look_through(&mut self, now: Instant)
        ensures { self.new ≡ self.old }
    {
        if !self.ready.is_empty() || !is_due(self.looked, now) {
            return;
        }
        self.looked = Some(now);
        let known = &self.known;
        let found = Scan::of(
            self.rt.alloc(),
            &self.folder,
            |name| known.contains_key(name),
        );
        match found {
            Ok(scan) => self.takes(scan),
            Err(error) => self.tell_unlisted(&error),
        }
    }

    /// Takes what a look found, and notes names that can't be sent.
    fn takes(&mut self, scan: Scan)
        ensures { self.new ≡ self.old }
    {
        self.has_told_unlisted = false;
        for name in scan.unsendable.iter() {
            if !self.told.contains(name.as_str()) {
                self.tell(SpoolNews::Unsendable(name.as_str(), self.folder.names()));
            }
        }
        if scan.has_no_text && !self.has_told_no_text {
            self.tell(SpoolNews::NoText);
        }
        self.has_told_no_text = scan.has_no_text;
        self.told = scan.unsendable;
        self.ready = scan.files;
    }

    fn tell_unlisted(&mut self, error: &io::Error)
        ensures { self.new ≡ self.old }
    {
        if !self.has_told_unlisted {
            self.tell(SpoolNews::Unlisted(error.kind()));
        }
        self.has_told_unlisted = true;
    }

    fn tell(&self, news: SpoolNews<'_>) {
        self.teller.tells(SpoolNotice {
            folder: self.folder.path(),
            news,
        });
    }

    /// Moves a file away that was given and whose sending is over.
    pub fn leaves(&mut self, name: &[u8], way: Way)
        ensures { ToldToLeave name.now way self.old self.new }
    {
        let stamp = self.known.get(name).copied();
        self.folder.tells(name, way, stamp);
        if let Some(stamp) = stamp
            && let Err(error) = self.try_to_leave(name, stamp, way)
        {
            self.tell(SpoolNews::Stays(name, error.kind()));
            self.stays(name, stamp, way);
        }
    }

    /// Moves a file away, and forgets it.
    fn try_to_leave(&mut self, name: &[u8], stamp: FileStamp, way: Way) -> io::Result<()>
        requires { IsTold self.old name.now way stamp }
        ensures only { OnlyDoes self.old self.new }
        ensures ends { EndsWith name.now self.new }
    {
        self.folder.leave(name, stamp, way)?;
        let _ = self.known.remove(name);
        Ok(())
    }

    /// Notes a file that can't be moved away. If there is no memory for that, it is known until
    /// the end, and so isn't given again either.
    fn stays(&mut self, name: &[u8], stamp: FileStamp, way: Way)
        requires { IsTold self.old name.now way stamp }
        ensures { self.new ≡ self.old }
    {
        if let Ok(name) = Vec::from_slice(self.rt.alloc(), name) {
            drop(self.staying.push_back(Staying { name, stamp, way }));
        }
    }

    /// Tries to move those away that the system refused to move.
    fn try_staying(&mut self, now: Instant)
        ensures { OnlyDoes self.old self.new }
    {
        if self.staying.is_empty() || !is_due(self.tried, now) {
            return;
        }
        self.tried = Some(now);
        for _ in 0..self.staying.len() {
            self.try_first_staying();
        }
    }

    /// Tries to move the first of those away that the system refused to move. If it refuses again,
    /// that one stays after the others.
    fn try_first_staying(&mut self)
        ensures { OnlyDoes self.old self.new }
    {
        if let Some(Staying { name, stamp, way }) = self.next_staying()
            && self.try_to_leave(name.as_slice(), stamp, way).is_err()
        {
            self.stays(name.as_slice(), stamp, way);
        }
    }

    /// Takes the first of those that the system refused to move.
    fn next_staying(&mut self) -> Option<Staying>
        ensures same { self.new ≡ self.old }
        ensures told { IfSome result (λ s. IsTold self.new s.name.items s.way s.stamp) }
    {
        self.staying.pop_front()
    }

    /// Gives a file again, after those that are ready, and some seconds later.
    pub fn put_back(&mut self, name: &[u8])
        ensures { self.new ≡ self.old }
    {
        if self.try_to_put_back(name).is_err() {
            // Without memory for that the next look through the folder finds it.
            let _ = self.known.remove(name);
        }
    }

    fn try_to_put_back(&mut self, name: &[u8]) -> io::Result<()>
        ensures { self.new ≡ self.old }
    {
        let since = Instant::now(self.rt)?;
        let name = Vec::from_slice(self.rt.alloc(), name)?;
        self.waiting.push_back(Waiting { name, since })?;
        Ok(())
    }
}

/// Returns `true` if what was done then may be done again.
fn is_due(last: Option<Instant>, now: Instant) -> bool {
    match last {
        Some(last) => now.duration_since(last).as_secs() >= PAUSE,
        None => true,
    }
}
