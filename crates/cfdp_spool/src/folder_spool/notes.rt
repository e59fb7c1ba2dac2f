// What is noted of the files of a spool, for clauses alone.
use crate::folder_spool::place::{Place, Way};
use crate::folder_spool::stamp::FileStamp;
use ghost_list::GhostList;

/// A file that must leave a spool: its name, its way, and what it was when it was given, if it was
/// given and hasn't left since.
#[derive(Drop)]
pub struct Told {
    pub name: GhostList<u8>,
    pub way: Way,
    pub stamp: Option<FileStamp>,
}

/// What the system did with a file of a spool, or showed of it. The file keeps its name.
#[derive(Drop)]
pub enum Done {
    /// A look showed what plain file of this name lies at this place, if one does.
    Saw(GhostList<u8>, Place, Option<FileStamp>),
    /// Nothing in the spool has this name.
    Free(GhostList<u8>),
    /// Something in the spool has this name: the file that leaves, by a second name of it, or what
    /// had it before.
    Stands(GhostList<u8>),
    /// It moved the file from the first place to the second one.
    Moved(GhostList<u8>, Place, Place),
    /// It removed the file from those that leave.
    Removed(GhostList<u8>),
    /// It refused something of the file, or there was no memory to ask for it.
    Refused(GhostList<u8>),
}
