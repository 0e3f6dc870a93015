// The rehearsal (document 01, 'The rehearsal program'): what a line asks, and the text that answers it, in types and definitions.
// What is proved of the definitions in specs/ stands in the contract of `claims`, and the function does nothing.
#![tactic(auto)]

ghost use Rattle.rehearsal.specs.Claims.{Worked, OneReading, ReadBack, ShortText, OneText};

use lists::Bounded;
use names::Name;

// The bytes of a line, the LF that ends it not counted.
pub const LINE_BYTES: usize = 64;

// So many words a command has at most behind its letter.
pub const WORDS: usize = 5;

pub const SPACE: u8 = 32;

pub const LF: u8 = 10;

pub const BASE: u32 = 10;

pub const DIGIT_ZERO: u8 = 48;

// So many numbers a line of the output has at most behind its own: the refusal and sixteen queue lengths.
pub const NUMBERS: usize = 17;

// The side of the square of queue lengths.
pub const SIDE: usize = 4;

#[derive(Clone, Copy)]
pub enum Verb {
    Open,
    Link,
    Create,
    Unlink,
    Advance,
    Deliver,
    Cut,
    Crash,
    Recover,
    Settle,
    Totals,
    Square,
    NotUnderstood,
}

// What a line asks. The number of the word at place k stands at place k, and 0 where that word is a name, or where there is none.
#[derive(Clone, Copy)]
pub struct Command {
    pub verb: Verb,
    pub name: Name,
    pub numbers: [u32; WORDS],
}

// What a line answers, behind its own number.
pub type Numbers = Bounded<u32, NUMBERS>;

pub fn claims()
    ensures { Worked × OneReading × ReadBack × ShortText × OneText }
{}
