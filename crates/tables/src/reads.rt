// Reads of the lists: where an element stands, and the sum in O5.
ghost use Rattle.std.specs.Prelude.{◌≤◌, ◌+◌, ◌≡◌, length};
ghost use Rattle.std.specs.List.{filter};
ghost use Rattle.lists.specs.Lists.{first_at, keep, is_none};
ghost use Rattle.protocol.specs.Bounds.{max_records};
ghost use Rattle.protocol.specs.Tables.{entry_bears, record_bears, stands_under, in_place, unentered};
ghost use Rattle.protocol.specs.Deliver.{is_exactly, of_object};
ghost use Rattle.tables.specs.View.{Sized, entries_of, backpointers_of, records_of};

use crate::{Backpointers, Entries, Records, Tables, elements};
use names::Name;
use protocol::{Backpointer, Entry, Message, Record};

// ---- the tables whole

// How long their arrays are and how large their numbers, a proof knows of a value, not of what is lent: so it is said once of the value.
// It does nothing.
pub fn are_sized(t: Tables)
    ensures { Sized t }
{}

// ---- tests of one element

fn entry_bears(e: &Entry, number: u32) -> bool
    ensures { result ≡ entry_bears number e.now }
{
    e.number == number
}

fn record_bears(r: &Record, number: u32) -> bool
    ensures { result ≡ record_bears number r.now }
{
    r.number == number
}

fn stands_under(e: &Entry, directory: u8, name: Name) -> bool
    ensures { result ≡ stands_under directory name e.now }
{
    e.directory == directory && names::same(e.name, name)
}

pub fn in_place(b: &Backpointer, object: u8, parent: u8, directory: u8, name: Name) -> bool
    ensures { result ≡ in_place object parent directory name b.now }
{
    b.object == object
        && b.parent == parent
        && b.directory == directory
        && names::same(b.name, name)
}

// The back-pointer that a request from partition s is about, its number too.
fn is_exactly(b: &Backpointer, s: u8, x: &Message) -> bool
    ensures { result ≡ is_exactly s x.now b.now }
{
    b.number == x.number && in_place(b, x.object, s, x.directory, x.name)
}

fn of_object(b: &Backpointer, object: u8) -> bool
    ensures { result ≡ of_object object b.now }
{
    b.object == object
}

// ---- where the first that passes stands

pub fn find_entry(l: &Entries, number: u32) -> Option<usize>
    ensures { result ≡ first_at (entry_bears number) (entries_of l.now) }
{
    l.listed().iter().position(|e| entry_bears(e, number))
}

pub fn find_name(l: &Entries, directory: u8, name: Name) -> Option<usize>
    ensures { result ≡ first_at (stands_under directory name) (entries_of l.now) }
{
    l.listed()
        .iter()
        .position(|e| stands_under(e, directory, name))
}

pub fn find_record(l: &Records, number: u32) -> Option<usize>
    ensures { result ≡ first_at (record_bears number) (records_of l.now) }
{
    l.listed().iter().position(|r| record_bears(r, number))
}

pub fn find_place(
    l: &Backpointers,
    object: u8,
    parent: u8,
    directory: u8,
    name: Name,
) -> Option<usize>
    ensures { result ≡ first_at (in_place object parent directory name) (backpointers_of l.now) }
{
    l.listed()
        .iter()
        .position(|b| in_place(b, object, parent, directory, name))
}

pub fn find_exactly(l: &Backpointers, s: u8, x: &Message) -> Option<usize>
    ensures { result ≡ first_at (is_exactly s x.now) (backpointers_of l.now) }
{
    l.listed().iter().position(|b| is_exactly(b, s, x))
}

pub fn find_object(l: &Backpointers, object: u8) -> Option<usize>
    ensures { result ≡ first_at (of_object object) (backpointers_of l.now) }
{
    l.listed().iter().position(|b| of_object(b, object))
}

// ---- the sum in O5

fn is_unentered(l: &Entries, r: &Record) -> bool
    ensures { result ≡ unentered (entries_of l.now) r.now }
{
    elements::adds(r.kind) && find_entry(l, r.number).is_none()
}

fn count_unentered(entries: &Entries, records: &Records) -> usize
    ensures unentered { result ≡ length (filter (unentered (entries_of entries.now)) (records_of records.now)) }
    ensures within { result ≤ max_records }
{
    records
        .listed()
        .iter()
        .filter(|r| is_unentered(entries, r))
        .count()
}

pub fn claimed(entries: &Entries, records: &Records) -> usize
    ensures { result ≡ length (entries_of entries.now) + length (keep (unentered (entries_of entries.now)) (records_of records.now)) }
{
    entries.listed().len() + count_unentered(entries, records)
}
