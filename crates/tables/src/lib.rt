// The tables by value, with document 01's bounds: lists in arrays, each with its count. `specs/View.antt` says what they mean.
#![tactic(auto)]

use lists::Bounded;
use protocol::{Backpointer, Entry, Message, Record};

pub mod elements;
pub mod fresh;
pub mod reads;
pub mod writes;

pub const MAX_PARTITIONS: usize = 4;

pub const DIRECTORIES: u8 = 4;

pub const OBJECTS: u8 = 64;

pub const MAX_ENTRIES: usize = 64;

pub const MAX_BACKPOINTERS: usize = 64;

pub const MAX_RECORDS: usize = 16;

pub const MAX_MESSAGES: usize = 32;

pub const LARGEST_NUMBER: u32 = 4294967295;

// One queue for each ordered pair of partitions.
pub const QUEUES: usize = 16;

pub type Entries = Bounded<Entry, MAX_ENTRIES>;

pub type Backpointers = Bounded<Backpointer, MAX_BACKPOINTERS>;

pub type Records = Bounded<Record, MAX_RECORDS>;

pub type Queue = Bounded<Message, MAX_MESSAGES>;

#[derive(Clone, Copy)]
pub struct Partition {
    pub up: bool,
    pub last: u32,
    pub entries: Entries,
    pub backpointers: Backpointers,
    pub records: Records,
}

// The queue from s to r stands at place s * 4 + r. The count stands beside the partitions, and not in a Bounded: `shaped` asks of the
// places past it that they are absent, not free slots.
#[derive(Clone, Copy)]
pub struct Tables {
    pub count: usize,
    pub partitions: [Partition; MAX_PARTITIONS],
    pub queues: [Queue; QUEUES],
}
