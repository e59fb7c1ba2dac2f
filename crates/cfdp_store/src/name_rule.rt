//! Which names files in a folder may have.
ghost use Rattle.std.specs.Prelude.{◌↔◌, IsTrue};
ghost use Rattle.cfdp_store.specs.Names.{Allows, IsFileName, IsFileNameOctet, IsFolderName};
ghost use Rattle.cfdp_store.specs.Names.{IsNameOctet};

/// Which names files in a folder may have. No rule allows a name that is empty, begins with a point
/// or has a slash: such a name would be hidden, or lead out of the folder.
#[derive(Clone, Copy, Debug, PartialEq, Eq)]
pub enum NameRule {
    /// 1 to 64 of `A-Z a-z 0-9 . _ -`.
    Portable,
    /// 1 to 255 octets of UTF-8, without control characters (0 to 31, and 127).
    Any,
}

impl NameRule {
    /// Returns `true` if a file in a folder may have this name.
    pub fn allows(self, name: &[u8]) -> bool
        ensures { IsTrue result ↔ Allows self name.now }
    {
        match self {
            NameRule::Portable => is_folder_name(name),
            NameRule::Any => is_file_name(name),
        }
    }
}

/// Returns `true` if a file in a folder may have this name: it must have 1 to 64 of `A-Z a-z 0-9 .
/// _ -`, and must not begin with a point.
pub fn is_folder_name(name: &[u8]) -> bool
    ensures { IsTrue result ↔ IsFolderName name.now }
{
    match name.first() {
        None | Some(&b'.') => false,
        Some(_) => name.len() <= 64 && name.iter().all(|octet| is_name_octet(*octet)),
    }
}

fn is_name_octet(octet: u8) -> bool
    ensures { IsTrue result ↔ IsNameOctet octet }
{
    octet.is_ascii_alphanumeric() || octet == b'.' || octet == b'_' || octet == b'-'
}

/// Returns `true` if a file in a folder may have this name by the rule `Any`.
fn is_file_name(name: &[u8]) -> bool
    ensures { IsTrue result ↔ IsFileName name.now }
{
    match name.first() {
        Some(&b'.') | None => false,
        Some(_) => {
            name.len() <= 255
                && name.iter().all(|octet| is_file_name_octet(*octet))
                && str::from_utf8(name).is_ok()
        }
    }
}

fn is_file_name_octet(octet: u8) -> bool
    ensures { IsTrue result ↔ IsFileNameOctet octet }
{
    octet >= 32 && octet != b'/' && octet != 127
}
