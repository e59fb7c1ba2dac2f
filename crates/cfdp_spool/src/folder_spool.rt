//! A spool over a folder: files that are put into it are sent.
ghost use Rattle.std.specs.Prelude.{◌≡◌, [], ◌∷◌, ◌++◌, IfOk, IfSome};
ghost use Rattle.cfdp_store.specs.Names.{Allows};
ghost use Rattle.cfdp_spool.specs.Leaving.{GivenAs, OnlyDoes, ToldToLeave, names_told};
ghost use Rattle.cfdp_spool.specs.declared.folder_spool.place.Way.TheVariants.{Sent, Failed};

mod folder;
mod notes;
mod notice;
mod place;
mod queue;
mod scan;
mod stamp;

use cfdp_files::LockError;
use cfdp_service::Spool;
use cfdp_store::NameRule;
pub use folder::SpoolFolder;
pub use notice::{SpoolNews, SpoolNotice, SpoolTeller, StandardErrorTeller, rule_text};
use place::Way;
use queue::Queue;
use std::marker::Model;

/// A spool over a folder. The plain files in it that can be sent are given in the order in which
/// they were written last, and then in the order of their names; a file can be sent if a rule
/// allows its name. What has another name, or is no plain file, is left alone, and so is all whose
/// name begins with a point. So a writer must write a file as `.NAME`, or in another folder of the
/// file system, and rename it once it is whole.
///
/// A file that was sent is moved to the folder `.sent` in it, or removed; if it couldn't be sent,
/// it is moved to `.failed`; each in the place of an older one of that name. `.leaving` has what is
/// between both, and its lock keeps other stations away. If the system refuses the move, that is
/// noted once, and tried again each second; the file isn't given again meanwhile.
///
/// A file that came under the name of one that is being sent stays, and is given too. It isn't
/// moved: its predecessor was gone with that rename. What lies in the folder when the program ends,
/// however that ends, is given again by the next start.
///
/// The folder is looked through once a second at most, and not before all are given that the last
/// look found, which are 1,024 at most. No more than 4,096 files are known at a time: those that
/// are being sent, were put back, or can't be moved away.
#[derive(Drop)]
pub struct FolderSpool<'a, T: SpoolTeller> {
    queue: Queue<'a, T>,
}

impl<'a, T: SpoolTeller> Model for FolderSpool<'a, T> {
    ghost use Rattle.cfdp_spool.specs.Leaving.{SpoolState};

    ghost Value = { SpoolState };

    ghost view = { λ s. s.queue };
}

impl<'a, T: SpoolTeller> FolderSpool<'a, T> {
    /// Returns a spool over this folder, which must be there. It gives files whose names this rule
    /// allows. Files that were sent are removed from it if `removes_sent`. What an operator must
    /// know goes to `teller`.
    ///
    /// # Errors
    ///
    /// `InUse` if another process holds the folder; `System` if the system refuses it, or that its
    /// files are moved.
    pub fn open(
        rt: &'a HostRuntime,
        path: &str,
        names: NameRule,
        removes_sent: bool,
        teller: T,
    ) -> Result<FolderSpool<'a, T>, LockError>
        ensures path { IfOk result (λ spool. spool.path ≡ path.now) }
        ensures names { IfOk result (λ spool. spool.names ≡ names) }
        ensures removes { IfOk result (λ spool. spool.removes ≡ removes_sent) }
        ensures told { IfOk result (λ spool. spool.told ≡ []) }
    {
        let folder = SpoolFolder::take(rt, path, names, removes_sent)?;
        Ok(FolderSpool {
            queue: Queue::new(rt, folder, teller),
        })
    }
}

impl<'a, T: SpoolTeller> Spool for FolderSpool<'a, T> {
    ghost sent = { λ s. names_told Sent s.told };

    ghost failed = { λ s. names_told Failed s.told };

    fn has_next(&mut self) -> bool
        ensures sent { names_told Sent self.new.told ≡ names_told Sent self.old.told }
        ensures failed { names_told Failed self.new.told ≡ names_told Failed self.old.told }
        ensures only { OnlyDoes self.old self.new }
    {
        self.queue.has_next()
    }

    fn next(&mut self) -> Option<Vec<u8>>
        ensures sent { names_told Sent self.new.told ≡ names_told Sent self.old.told }
        ensures failed { names_told Failed self.new.told ≡ names_told Failed self.old.told }
        ensures only { OnlyDoes self.old self.new }
        ensures given { IfSome result (λ name. GivenAs name.items self.new) }
        ensures named { IfSome result (λ name. Allows self.old.names name.items) }
    {
        self.queue.next()
    }

    fn takes_back(&mut self, name: &[u8]) -> bool
        ensures sent { names_told Sent self.new.told ≡ names_told Sent self.old.told }
        ensures failed { names_told Failed self.new.told ≡ names_told Failed self.old.told }
        ensures only { OnlyDoes self.old self.new }
    {
        self.queue.takes_back(name)
    }

    fn sent(&mut self, name: &[u8])
        ensures sent { names_told Sent self.new.told
            ≡ names_told Sent self.old.told ++ (name.now ∷ []) }
        ensures failed { names_told Failed self.new.told ≡ names_told Failed self.old.told }
        ensures leaves { ToldToLeave name.now Sent self.old self.new }
    {
        self.queue.leaves(name, Way::Sent);
    }

    fn failed(&mut self, name: &[u8])
        ensures sent { names_told Sent self.new.told ≡ names_told Sent self.old.told }
        ensures failed { names_told Failed self.new.told
            ≡ names_told Failed self.old.told ++ (name.now ∷ []) }
        ensures leaves { ToldToLeave name.now Failed self.old self.new }
    {
        self.queue.leaves(name, Way::Failed);
    }

    fn put_back(&mut self, name: &[u8])
        ensures sent { names_told Sent self.new.told ≡ names_told Sent self.old.told }
        ensures failed { names_told Failed self.new.told ≡ names_told Failed self.old.told }
        ensures same { self.new ≡ self.old }
    {
        self.queue.put_back(name);
    }
}
