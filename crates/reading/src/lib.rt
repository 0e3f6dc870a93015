// A picture read, whatever its bytes: whole, and checked alone.
#![tactic(auto)]

pub mod lone; // the check of a lone picture
mod sections; // all records of one kind, from a place on
pub mod whole; // a whole picture

pub use whole::read_picture;
