// The picture of one partition's stable tables (document 01, 'The picture'): its marks and sizes, and what is made of them. The
// definitions and what is proved of them stand in specs/ and proofs/; crates decoding, reading, standing and writing have the functions.
#![tactic(auto)]

ghost use Rattle.picture.specs.Claims.{ReadsBack, NoOtherBytes, Largest, LoadsBack, LoadsAfterCrash};

use lists::Bounded;
use names::Name;
use protocol::{Backpointer, Entry, Record, Refusal};
use tables::Partition;

mod fields; // what each kind has in its item
mod row; // the kinds of record between header and close

pub use row::Row;

// The marks of header and close.
pub const HEAD_MARK: [u8; 2] = [b'H', b'D'];

pub const CLOSE_MARK: [u8; 2] = [b'E', b'D'];

// How many bytes each kind of record has, its mark among them.
pub const HEAD_SIZE: usize = 8;

pub const ENTRY_SIZE: usize = 18;

pub const BACKPOINTER_SIZE: usize = 18;

pub const RECORD_SIZE: usize = 19;

pub const CLOSE_SIZE: usize = 4;

// The header: which partition, of how many, and the last number that it gave.
#[derive(Clone, Copy)]
pub struct Head {
    pub partition: u8,
    pub count: u8,
    pub last: u32,
}

// In what every record between header and close ends: three bytes, a name and a number.
#[derive(Clone, Copy)]
pub struct Item {
    pub a: u8,
    pub b: u8,
    pub c: u8,
    pub name: Name,
    pub number: u32,
}

// The records of one kind from a place on, and the place behind them.
#[derive(Clone, Copy)]
pub struct Gathered<T, const N: usize> {
    pub list: Bounded<T, N>,
    pub end: usize,
}

// The records of every kind behind a header, and the place behind them.
#[derive(Clone, Copy)]
pub struct Sections {
    pub tables: Partition,
    pub end: usize,
}

// What a picture shows: whose tables, of how many partitions, and they, down and with records ready.
#[derive(Clone, Copy)]
pub struct Picture {
    pub head: Head,
    pub tables: Partition,
}

// What stands at a place of a picture.
#[derive(Clone, Copy)]
pub enum Part {
    Head(Head),
    Entry(Entry),
    Backpointer(Backpointer),
    Record(Record),
    Close,
    Refused(Refusal),
}

// What a reader hands out at a place, and the place where it stands next.
#[derive(Clone, Copy)]
pub struct Handed {
    pub part: Part,
    pub next: usize,
}

// What is proved of the definitions: the contract states it, and the function does nothing.
pub fn claims()
    ensures { ReadsBack × NoOtherBytes × Largest × LoadsBack × LoadsAfterCrash }
{}
