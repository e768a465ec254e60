//! Classes of bytes that several layers ask for, and runs of bytes of one class.
#![tactic(auto)]

mod classes;
mod codes;
mod runs;
#[cfg(test)]
mod tests;

pub use classes::{Blank, ByteClass, NameByte, Other, is_blank, is_name_byte};
pub use codes::{Alphanumeric, Digit, is_code};
pub use runs::{all_of, skip};
