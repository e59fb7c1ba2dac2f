//! Cyclic redundancy checks: the remainder of octets that are divided, as polynomials over two
//! elements, by a polynomial that the standard gives.
//!
//! ```rust
//! assert_eq!(crc16(b"123456789"), 0x29B1);
//! assert_eq!(crc16_more(crc16(b"1234"), b"56789"), 0x29B1);
//!
//! assert_eq!(Crc32::Ieee.of(b"123456789"), 0xCBF4_3926);
//! let mut check = FileCheck::new(Crc32::Ieee);
//! check.add(4, b"56789");
//! check.add(0, b"1234");
//! assert_eq!(check.value(), 0xCBF4_3926);
//! ```
//!
//! Tested by the laws `the_worked_check` and `the_worked_file_checks`.
#![tactic(auto)]

mod damage;
mod file_check;
mod laws;
mod lookup;
mod moving;
mod sixteen;
mod sixteen_tables;
mod thirty_two;

pub use damage::damage_is_seen;
pub use file_check::FileCheck;
pub use laws::{
    a_check_goes_on, a_file_check_goes_on, cut_file_has_its_check, the_worked_check,
    the_worked_file_checks, what_is_left_is_the_remainder,
};
pub use sixteen::{crc16, crc16_more};
pub use thirty_two::Crc32;
