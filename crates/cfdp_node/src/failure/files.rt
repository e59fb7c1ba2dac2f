//! Why a folder or a file that a command line names can't be used.
use cfdp_files::{LockError, SecretError, TrialError};
use cfdp_operator::fault_text;
use cfdp_report::{Name, cause_text};
use cfdp_spool::rule_text;
use cfdp_store::{FolderError, NameRule};
use std::fmt;
use std::io::ErrorKind;
use thiserror::Error;

/// The fewest characters of a token.
pub const LEAST_TOKEN: usize = 16;

/// The most characters of a token.
pub const MOST_TOKEN: usize = 256;

/// Why a folder or a file can't be used.
#[derive(Drop, Error)]
pub enum FileError<'a> {
    /// No file may have this name by this rule.
    #[error("a file name must be {rule}, no leading dot (got {1})", rule = rule_text(*.0))]
    Name(NameRule, Name<'a>),
    /// What has this path is no folder.
    #[error("{0}: not a folder")]
    NotFolder(&'a str),
    /// The system refuses the folder of this path.
    #[error("{0}: {cause}", cause = cause_text(*.1))]
    Folder(&'a str, ErrorKind),
    /// Another process receives into the folder of this path.
    #[error("{0}: another station or loop is receiving into this folder")]
    InboxInUse(&'a str),
    /// Another process sends from the spool of this path.
    #[error("{0}: another station is sending the files of this folder")]
    SpoolInUse(&'a str),
    /// Files of the folder of this path can't be kept from being replaced.
    #[error("{0}: --no-overwrite needs a file system with hard links")]
    NoLinks(&'a str),
    /// The file of this name in a folder can't be read.
    #[error("{0}/{1}: {cause}", cause = fault_text(*.2))]
    File(&'a str, Name<'a>, FolderError),
    /// The file of this path has no keys that can be used.
    #[error("{0}: {1}")]
    Keys(&'a str, SecretError),
    /// The system refuses the file of a token.
    #[error("--console-token {0}: {cause}", cause = cause_text(*.1))]
    TokenFile(&'a str, ErrorKind),
    /// Other users have access to the file of a token, by this mode.
    #[error("--console-token {0}: other users have access to it (mode {1:04o}): run chmod 600 {0}")]
    OpenToken(&'a str, u32),
    /// The file of this path has no token.
    #[error("--console-token {0}: a token must be {LEAST_TOKEN} to {MOST_TOKEN} visible ASCII \
        characters")]
    NoToken(&'a str),
}

impl<'a> FileError<'a> {
    /// Returns why the folder of an inbox at this path can't be held.
    pub fn inbox(path: &'a str, error: &LockError) -> FileError<'a> {
        match error {
            LockError::InUse => FileError::InboxInUse(path),
            LockError::System(error) => FileError::Folder(path, error.kind()),
        }
    }

    /// Returns why the folder of a spool at this path can't be held.
    pub fn spool(path: &'a str, error: &LockError) -> FileError<'a> {
        match error {
            LockError::InUse => FileError::SpoolInUse(path),
            LockError::System(error) => FileError::Folder(path, error.kind()),
        }
    }

    /// Returns why nothing can be written into the folder at this path.
    pub fn trial(path: &'a str, error: &TrialError) -> FileError<'a> {
        match error {
            TrialError::NoLinks => FileError::NoLinks(path),
            TrialError::System(error) => FileError::Folder(path, error.kind()),
        }
    }

    /// Returns `true` if it is a mistake of whoever asked, and stays one however often it is tried.
    pub fn is_mistake(&self) -> bool {
        match self {
            FileError::Keys(_, SecretError::System(_)) => false,
            FileError::Name(..)
            | FileError::Keys(..)
            | FileError::OpenToken(..)
            | FileError::NoToken(_) => true,
            FileError::NotFolder(_)
            | FileError::Folder(..)
            | FileError::InboxInUse(_)
            | FileError::SpoolInUse(_)
            | FileError::NoLinks(_)
            | FileError::File(..)
            | FileError::TokenFile(..) => false,
        }
    }
}

impl fmt::Debug for FileError<'_> {
    fn fmt<W: fmt::Write>(&self, f: &mut fmt::Formatter<W>) -> fmt::Result {
        write!(f, "{self}")
    }
}
