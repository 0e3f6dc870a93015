// Tests of the elements, and what stands in a free slot.
ghost use Rattle.std.specs.Prelude.{Bool, ◌&&◌, ◌≡◌, eqb};
ghost use Rattle.names.specs.Names.{same_name, zero_name};
ghost use Rattle.protocol.specs.Elements.{kind_number, same_kind, adds, is_ready, is_sent, is_request, stage_fits, body_fits};
ghost use Rattle.tables.specs.Slots.{zero_entry, zero_backpointer, zero_record, zero_message, free_entry, free_backpointer, free_record, free_message};

use names::Name;
use protocol::{Backpointer, Body, Entry, Kind, Message, Record, Stage};

// An element of a list of the tables: what a free slot of such a list holds, and whether a slot is free.
pub trait Slot: Copy {
    ghost zero: { Self };

    ghost free: { Self → Bool };

    fn zero() -> Self
        ensures { result ≡ zero };

    fn is_free(&self) -> bool
        ensures { result ≡ free self.now };
}

// Whether these are the parts of a free slot. With no exit between them, since most slots that are asked about are free; and not by the
// derived `==`, which looks at one byte of the name after the other.
fn are_free(number: u32, directory: u8, partition: u8, object: u8, name: Name) -> bool
    ensures { result ≡ (eqb number 0 && (eqb directory 0 && (eqb partition 0 && (eqb object 0 && same_name name zero_name)))) }
{
    (number == 0)
        & ((directory == 0) & ((partition == 0) & ((object == 0) & names::is_unnamed(name))))
}

impl Slot for Entry {
    ghost zero = { zero_entry };

    ghost free = { free_entry };

    fn zero() -> Entry {
        Entry::default()
    }

    fn is_free(&self) -> bool {
        are_free(
            self.number,
            self.directory,
            self.partition,
            self.object,
            self.name,
        )
    }
}

impl Slot for Backpointer {
    ghost zero = { zero_backpointer };

    ghost free = { free_backpointer };

    fn zero() -> Backpointer {
        Backpointer::default()
    }

    fn is_free(&self) -> bool {
        are_free(
            self.number,
            self.directory,
            self.parent,
            self.object,
            self.name,
        )
    }
}

impl Slot for Record {
    ghost zero = { zero_record };

    ghost free = { free_record };

    fn zero() -> Record {
        Record::default()
    }

    fn is_free(&self) -> bool {
        are_free(
            self.number,
            self.directory,
            self.partition,
            self.object,
            self.name,
        ) & ((kind_number(self.kind) == 1) & is_ready(self.stage))
    }
}

impl Slot for Message {
    ghost zero = { zero_message };

    ghost free = { free_message };

    fn zero() -> Message {
        Message::default()
    }

    fn is_free(&self) -> bool {
        are_free(
            self.number,
            self.directory,
            self.partition,
            self.object,
            self.name,
        ) & ((kind_number(self.kind) == 1) & is_request(self.body))
    }
}

// The byte that stands for a kind in a picture. Not a `From`: `Kind` and `u8` are both of other crates.
pub fn kind_number(k: Kind) -> u8
    ensures { result ≡ kind_number k }
{
    match k {
        Kind::Link => 1,
        Kind::Create => 2,
        Kind::Unlink => 3,
    }
}

pub fn same_kind(k: Kind, l: Kind) -> bool
    ensures { result ≡ same_kind k l }
{
    k == l
}

pub fn adds(k: Kind) -> bool
    ensures { result ≡ adds k }
{
    k != Kind::Unlink
}

pub fn is_ready(s: Stage) -> bool
    ensures { result ≡ is_ready s }
{
    s == Stage::Ready
}

pub fn is_sent(s: Stage) -> bool
    ensures { result ≡ is_sent s }
{
    s == Stage::Sent
}

pub fn is_request(b: Body) -> bool
    ensures { result ≡ is_request b }
{
    b == Body::Request
}

pub fn stage_fits(k: Kind, s: Stage) -> bool
    ensures { result ≡ stage_fits k s }
{
    match s {
        Stage::Ready | Stage::Sent => true,
        Stage::Held | Stage::Refused(_) => adds(k),
        Stage::Cleared => !adds(k),
    }
}

pub fn body_fits(k: Kind, b: Body) -> bool
    ensures { result ≡ body_fits k b }
{
    match b {
        Body::Request | Body::Yes => true,
        Body::No => !adds(k),
        Body::NoBecause(_) => adds(k),
    }
}
