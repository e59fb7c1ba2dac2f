//! What can be done with a station through its console, and the lines that say so.
ghost use Rattle.std.specs.Prelude.{◌≡◌, ◌++◌, ◌↔◌, IfErr, IfOk, IsTrue, MatchOption};
ghost use Rattle.std.specs.Prelude.{option_map};
ghost use Rattle.serde_json.specs.View.{view};
ghost use Rattle.cfdp_console.specs.Asking as asking;
ghost use Rattle.cfdp_console.specs.Asking.{Commands, IsIdOf, IsOfWord, IsWord, MayBePut, PutOf};
ghost use Rattle.cfdp_console.specs.Asking.{Puts, behind_of, front_of, name_at_peer, path_of};
ghost use Rattle.cfdp_console.specs.Denying.{IsNoCommand, IsNoPut, IsNotOf, SaysNoPut};
ghost use Rattle.cfdp_console.specs.Asking.{put_words, words_of};

use crate::denial::Denial;
use crate::octets::{behind, in_front_of};
use serde_json::Value;
use std::alloc::{AllocError, Global};

/// What can be done with a station through its console.
#[derive(Clone, Copy, PartialEq, Eq)]
pub enum Deed {
    Put,
    Cancel,
    Suspend,
    Resume,
    Freeze,
    Thaw,
}

impl Deed {
    /// What its path has before the id.
    fn front(self) -> &'static [u8]
        ensures { result.now ≡ front_of self }
    {
        match self {
            Deed::Put => b"/puts",
            Deed::Cancel | Deed::Suspend | Deed::Resume => b"/transactions/",
            Deed::Freeze => b"/freeze",
            Deed::Thaw => b"/thaw",
        }
    }

    /// What its path has after the id.
    fn behind(self) -> &'static [u8]
        ensures { result.now ≡ behind_of self }
    {
        match self {
            Deed::Cancel => b"/cancel",
            Deed::Suspend => b"/suspend",
            Deed::Resume => b"/resume",
            Deed::Put | Deed::Freeze | Deed::Thaw => b"",
        }
    }

    /// What its line has before the id.
    fn words(self) -> &'static [u8]
        ensures { result.now ≡ words_of self }
    {
        match self {
            Deed::Put => b"put ",
            Deed::Cancel => b"cancel ",
            Deed::Suspend => b"suspend ",
            Deed::Resume => b"resume ",
            Deed::Freeze => b"freeze",
            Deed::Thaw => b"thaw",
        }
    }

    /// Whether this may be the id in its path.
    fn takes(self, id: &[u8]) -> bool
        ensures { IsTrue result ↔ IsIdOf self id.now }
    {
        match self {
            Deed::Cancel | Deed::Suspend | Deed::Resume => is_word(id),
            Deed::Put | Deed::Freeze | Deed::Thaw => id.is_empty(),
        }
    }

    /// The id in a path of this deed; `None` if it is none.
    fn id_in(self, path: &[u8]) -> Option<&[u8]>
        ensures { MatchOption result (IsNotOf self path.now)
            (λ id. (path.now ≡ path_of self id.now) × IsIdOf self id.now) }
    {
        let id = in_front_of(behind(path, self.front())?, self.behind())?;
        if self.takes(id) { Some(id) } else { None }
    }
}

/// Returns the line of the control address that a request to this path with this body stands for.
///
/// # Errors
///
/// `NotFound` if the path is that of no deed, `BadBody` if a put doesn't say what it must
/// say, and `NoMemory`.
pub fn command_line(alloc: Global, path: &[u8], body: &[u8]) -> Result<Vec<u8>, Denial>
    ensures ok { IfOk result (λ line. Commands path.now body.now line.items) }
    ensures err { IfErr result (IsNoCommand path.now body.now) }
{
    match deed_of(path) {
        Some((Deed::Put, _)) => put_line(alloc, body),
        Some((deed, id)) => Ok(joined(alloc, deed.words(), id)?),
        None => Err(Denial::NotFound),
    }
}

/// What a path asks to be done, and the id in it.
fn deed_of(path: &[u8]) -> Option<(Deed, &[u8])>
    ensures { MatchOption result ((deed : Deed) → IsNotOf deed path.now)
        (λ found. (path.now ≡ path_of found.0 found.1.now) × IsIdOf found.0 found.1.now) }
{
    if let Some(id) = Deed::Put.id_in(path) {
        Some((Deed::Put, id))
    } else if let Some(id) = Deed::Cancel.id_in(path) {
        Some((Deed::Cancel, id))
    } else if let Some(id) = Deed::Suspend.id_in(path) {
        Some((Deed::Suspend, id))
    } else if let Some(id) = Deed::Resume.id_in(path) {
        Some((Deed::Resume, id))
    } else if let Some(id) = Deed::Freeze.id_in(path) {
        Some((Deed::Freeze, id))
    } else if let Some(id) = Deed::Thaw.id_in(path) {
        Some((Deed::Thaw, id))
    } else {
        None
    }
}

/// Two, one after the other.
fn joined(alloc: Global, front: &[u8], behind: &[u8]) -> Result<Vec<u8>, AllocError>
    ensures { IfOk result (λ both. both.items ≡ front.now ++ behind.now) }
{
    let mut both = Vec::from_slice(alloc, front)?;
    both.extend_from_slice(behind)?;
    Ok(both)
}

/// The line of a put.
fn put_line(alloc: Global, body: &[u8]) -> Result<Vec<u8>, Denial>
    ensures ok { IfOk result (λ line. Puts body.now line.items) }
    ensures err { IfErr result (IsNoPut body.now) }
{
    let wanted = Value::from_slice(alloc, body)?;
    line_of(alloc, &wanted)
}

/// The line of a put that is wanted so.
fn line_of(alloc: Global, wanted: &Value) -> Result<Vec<u8>, Denial>
    ensures ok { IfOk result (λ line. PutOf (view wanted.now) line.items) }
    ensures err { IfErr result (SaysNoPut (view wanted.now)) }
{
    let Some(source) = text_in(wanted, "source") else {
        return Err(Denial::BadBody);
    };
    let destination = named(source, text_in(wanted, "destination"));
    if !may_be_put(source.as_bytes(), destination.as_bytes()) {
        return Err(Denial::BadBody);
    }
    let is_first = wanted.get("first").and_then(Value::as_bool);
    Ok(said(alloc, is_first, source.as_bytes(), destination.as_bytes())?)
}

/// The words of a put.
fn said(
    alloc: Global,
    is_first: Option<bool>,
    source: &[u8],
    destination: &[u8],
) -> Result<Vec<u8>, AllocError>
    ensures { IfOk result (λ line. line.items
        ≡ put_words is_first source.now destination.now) }
{
    let first: &[u8] = match is_first {
        Some(true) => b"put --first ",
        Some(false) | None => b"put ",
    };
    let mut line = Vec::from_slice(alloc, first)?;
    line.extend_from_slice(source)?;
    line.extend_from_slice(b" ")?;
    line.extend_from_slice(destination)?;
    Ok(line)
}

/// The text of a member.
fn text_in<'a>(wanted: &'a Value, key: &str) -> Option<&'a str>
    ensures { option_map (λ text. text.now) result ≡ asking.text_in key.now (view wanted.now) }
{
    wanted.get(key).and_then(Value::as_str)
}

/// The name at the peer: the one that is said, or that of the file.
fn named<'a>(source: &'a str, said: Option<&'a str>) -> &'a str
    ensures { result.now ≡ name_at_peer source.now (option_map (λ text. text.now) said.entry) }
{
    match said {
        Some(name) => name,
        None => source,
    }
}

/// Whether these names can stand in a line.
fn may_be_put(source: &[u8], destination: &[u8]) -> bool
    ensures { IsTrue result ↔ MayBePut source.now destination.now }
{
    is_word(source) && source != b"--first".as_slice() && is_word(destination)
}

/// Whether these octets are one word of a line.
fn is_word(octets: &[u8]) -> bool
    ensures { IsTrue result ↔ IsWord octets.now }
{
    !octets.is_empty() && octets.iter().all(|octet| is_of_word(*octet))
}

fn is_of_word(octet: u8) -> bool
    ensures { IsTrue result ↔ IsOfWord octet }
{
    octet > b' ' && octet != 127
}
