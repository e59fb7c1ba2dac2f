//! Which calls the library has.
ghost use Rattle.std.specs.Prelude.{◌≡◌};

/// Returns the number of this interface: it grows by one whenever a call, a struct or a number of
/// it changes.
#[unsafe(no_mangle)]
pub extern "C" fn cfdp_version() -> u32
    ensures { result ≡ 8 }
{
    8
}
