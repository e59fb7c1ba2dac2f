//! Files of the system for code that is given no runtime, as that of a static library is: what
//! the stores over folders ask for, by calls of the C library, and a folder that is held.
//!
//! Beside the C library its user must give it two functions: to get the number of the last error of
//! the calling thread, and to set it. `bindings/c/errno.c` has both.
//!
//! Tested by `tests/bindings.py`, through the library for C.
#![tactic(auto)]

mod flags;
mod found;
mod held_folder;
mod system_file;
mod system_files;

pub use held_folder::{FolderRefusal, HeldFolder, is_held, look_at_folder};
pub use system_file::{SystemFile, SystemFolder};
pub use system_files::SystemFiles;
