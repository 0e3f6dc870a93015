// One record of each kind, from its start, where its mark stands.
#![tactic(auto)]

ghost use Rattle.std.specs.Prelude.{◌≡◌, ◌≤◌, length, drop, leb};
ghost use Rattle.protocol.specs.declared.Refusal.TheVariants.{FieldOutOfRange};
ghost use Rattle.picture.specs.Rows.{body, marked};
ghost use Rattle.picture.specs.Answers.{told, within};
ghost use Rattle.decoding.specs.Found.{found, kind_at};

use picture::{Head, Row};
use protocol::{Backpointer, Entry, Kind, Record, Refusal, Stage};

pub mod bytes; // numbers, names and marks at a place of a slice
mod head; // the header

pub use head::read_head;

// A kind of record as its bytes say it.
pub trait FromBytes: Row {
    // The record whose mark stands at the start, or none where no value has these bytes.
    fn from_bytes(s: &[u8]) -> Option<Self>
        requires { Self.SIZE ≤ length s.now }
        ensures { Self.layout.form.get (drop 2 s.now) ≡ found result (drop Self.SIZE s.now) };
}

impl FromBytes for Entry {
    fn from_bytes(s: &[u8]) -> Option<Entry> {
        Some(Entry::from(bytes::item_at(s, 2)))
    }
}

impl FromBytes for Backpointer {
    fn from_bytes(s: &[u8]) -> Option<Backpointer> {
        Some(Backpointer::from(bytes::item_at(s, 2)))
    }
}

impl FromBytes for Record {
    fn from_bytes(s: &[u8]) -> Option<Record> {
        let kind = kind_of(s[2])?;
        let i = bytes::item_at(s, 3);
        Some(Record {
            kind,
            directory: i.a,
            name: i.name,
            partition: i.b,
            object: i.c,
            number: i.number,
            stage: Stage::Ready,
        })
    }
}

// Not a TryFrom: both it and Kind are of other crates, so its impl could not stand here.
fn kind_of(byte: u8) -> Option<Kind>
    ensures { result ≡ kind_at byte }
{
    match byte {
        1 => Some(Kind::Link),
        2 => Some(Kind::Create),
        3 => Some(Kind::Unlink),
        _ => None,
    }
}

// Whether the mark of a kind stands at a place.
pub fn is_marked<T: Row>(s: &[u8], at: usize) -> bool
    requires { at ≤ length s.now }
    ensures { result ≡ marked T.layout (drop at s.now) }
{
    bytes::begins_with(s, at, T::MARK)
}

// The record whose mark stands at the start, under a header.
pub fn decode<T: FromBytes>(s: &[u8], head: Head) -> Result<T, Refusal>
    ensures { told T.SIZE s.now result ≡ body T.layout FieldOutOfRange (T.fits head) s.now }
{
    if s.len() < T::SIZE {
        return Err(Refusal::EndsEarly);
    }
    let Some(x) = T::from_bytes(s) else {
        return Err(Refusal::FieldOutOfRange);
    };
    if !x.fits(head) {
        return Err(Refusal::FieldOutOfRange);
    }
    Ok(x)
}

// The same behind so many of its kind, of which there are at most N.
pub fn one_more<T: FromBytes, const N: usize>(
    s: &[u8],
    head: Head,
    behind: usize,
) -> Result<T, Refusal>
    ensures { told T.SIZE s.now result ≡ within (leb N behind) (body T.layout FieldOutOfRange (T.fits head) s.now) }
{
    let x = decode(s, head)?;
    if N <= behind {
        return Err(Refusal::FieldOutOfRange);
    }
    Ok(x)
}
