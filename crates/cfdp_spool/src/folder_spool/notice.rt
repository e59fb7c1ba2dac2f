//! What an operator must know of a spool.
use cfdp_report::{Name, cause_text};
use cfdp_store::NameRule;
use std::fmt;
use std::io::ErrorKind;

/// A note to an operator about the folder of a spool; its `Display` is a line without its end.
#[derive(Clone, Copy)]
pub struct SpoolNotice<'a> {
    /// The path of the folder.
    pub folder: &'a str,
    /// What is noted of it.
    pub news: SpoolNews<'a>,
}

/// What happened in the folder of a spool.
#[derive(Clone, Copy)]
pub enum SpoolNews<'a> {
    /// A file lies there that can't be sent, since this rule doesn't allow its name. Noted once.
    Unsendable(&'a str, NameRule),
    /// Something lies there whose name is no text. Noted once.
    NoText,
    /// The folder can't be looked through. Noted once, until it can be.
    Unlisted(ErrorKind),
    /// The sending of this file is over, and it can't be moved away. That is tried again, and the
    /// file isn't sent again in this run. Noted once.
    Stays(&'a [u8], ErrorKind),
}

impl fmt::Display for SpoolNotice<'_> {
    fn fmt<W: fmt::Write>(&self, f: &mut fmt::Formatter<W>) -> fmt::Result {
        let folder = self.folder;
        match self.news {
            SpoolNews::Unsendable(name, rule) => write!(
                f,
                "{folder}/{}: not sent: a name must be {}",
                Name(name.as_bytes()),
                rule_text(rule)
            ),
            SpoolNews::NoText => write!(
                f,
                "{folder}: a file is not sent: its name is not valid UTF-8"
            ),
            SpoolNews::Unlisted(kind) => write!(
                f,
                "{folder}: cannot list the folder: {}",
                cause_text(kind)
            ),
            SpoolNews::Stays(name, kind) => write!(
                f,
                "{folder}/{}: cannot move the file: {}",
                Name(name),
                cause_text(kind)
            ),
        }
    }
}

/// Returns which names a rule allows, in words that follow "must be"; that no name may begin with a
/// dot is left out.
pub fn rule_text(rule: NameRule) -> &'static str {
    match rule {
        NameRule::Portable => "1 to 64 of A-Z a-z 0-9 . _ -",
        NameRule::Any => "1 to 255 octets of UTF-8 without / and control characters",
    }
}

/// Where the notes of a spool to an operator go, such as a log.
pub trait SpoolTeller: Drop {
    /// Writes this note.
    fn tells(&self, notice: SpoolNotice<'_>);
}

/// Notes on standard error: `note: ` and the text of the note.
#[derive(Clone, Copy)]
pub struct StandardErrorTeller<'a>(pub &'a HostRuntime);

impl SpoolTeller for StandardErrorTeller<'_> {
    fn tells(&self, notice: SpoolNotice<'_>) {
        let _ = eprintln!(self.0; "note: {notice}");
    }
}
