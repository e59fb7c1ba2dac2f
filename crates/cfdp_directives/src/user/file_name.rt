ghost use Rattle.std.specs.Prelude.{◌≡◌, ◌↔◌, IsTrue};
ghost use Rattle.cfdp_directives.specs.User.FileName as names;
ghost use Rattle.cfdp_directives.specs.User.FileName.{IsFileName};

/// Returns `true` if a file may have this name: it must have 1 to 255 octets, of any values. A put
/// with another name is refused, and so is Metadata that names no file.
pub fn is_file_name(name: &[u8]) -> bool
    ensures value { result ≡ names.is_file_name name.now }
    ensures valid { IsTrue result ↔ IsFileName name.now }
{
    !name.is_empty() && name.len() <= 255
}
