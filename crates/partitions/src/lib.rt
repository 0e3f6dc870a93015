// O1 to O5 and the records' half of O7: what is asked of one partition, among so many.
#![tactic(auto)]

ghost use Rattle.std.specs.Prelude.{Bool, List, ℕ, [], ◌∷◌, ◌&&◌, ◌≡◌};
ghost use Rattle.lists.specs.Lists.{all, any, apart, every, tidy};
ghost use Rattle.protocol.specs.Order.{entries_clash, backpointers_clash, records_clash};
ghost use Rattle.tables.specs.View.{entries_of, list_of, records_of};
ghost use Rattle.partitions.specs.Clauses.{placed_among, entry_among, backpointer_among, record_among, given, backpointer_given, room_in, ready_record, partition_fine};
ghost use Rattle.partitions.specs.declared.Givers.{Givers};

use lists::Bounded;
use protocol::{Backpointer, Entry, Record};
use tables::elements::{Slot, is_ready, stage_fits};
use tables::{
    DIRECTORIES, Entries, MAX_ENTRIES, MAX_PARTITIONS, OBJECTS, Partition, Records, reads,
};

// Who gave the numbers: how many partitions there are, the last number of the partition that is tested, and of each.
#[derive(Clone, Copy)]
pub struct Givers {
    pub count: usize,
    pub last: u32,
    pub lasts: [u32; MAX_PARTITIONS],
}

// What is asked of an element of a partition's list: its parts are in range, its number was given by its giver, and no two clash.
pub trait Element: Slot {
    ghost among: { ℕ → Self → Bool };

    ghost numbered: { Givers → Self → Bool };

    ghost clash: { Self → Self → Bool };

    fn is_among(&self, count: usize) -> bool
        ensures { result ≡ among count self.now };

    fn is_numbered(&self, by: &Givers) -> bool
        ensures { result ≡ numbered by.now self.now };

    fn clashes(&self, other: &Self) -> bool
        ensures { result ≡ clash self.now other.now };
}

fn is_placed(directory: u8, partition: u8, object: u8, n: usize) -> bool
    ensures { result ≡ placed_among n directory partition object }
{
    directory < DIRECTORIES && (partition as usize) < n && object < OBJECTS
}

// Whether a number was given, where this is the giver's last.
pub fn is_given(last: u32, number: u32) -> bool
    ensures { result ≡ given last number }
{
    1 <= number && number <= last
}

// The number is that of its own partition.
impl Element for Entry {
    ghost among = { entry_among };

    ghost numbered = { λ by e. given by.last e.number };

    ghost clash = { entries_clash };

    fn is_among(&self, count: usize) -> bool {
        is_placed(self.directory, self.partition, self.object, count) && names::good(self.name)
    }

    fn is_numbered(&self, by: &Givers) -> bool {
        is_given(by.last, self.number)
    }

    fn clashes(&self, other: &Entry) -> bool {
        other.number == self.number
            || (other.directory == self.directory && names::same(other.name, self.name))
    }
}

// The giver of the number is its parent.
impl Element for Backpointer {
    ghost among = { backpointer_among };

    ghost numbered = { λ by b. backpointer_given by.lasts b };

    ghost clash = { backpointers_clash };

    fn is_among(&self, count: usize) -> bool {
        is_placed(self.directory, self.parent, self.object, count) && names::good(self.name)
    }

    fn is_numbered(&self, by: &Givers) -> bool {
        match by.lasts.get(self.parent as usize) {
            Some(last) => is_given(*last, self.number),
            None => false,
        }
    }

    fn clashes(&self, other: &Backpointer) -> bool {
        reads::in_place(other, self.object, self.parent, self.directory, self.name)
    }
}

// The number is that of its own partition.
impl Element for Record {
    ghost among = { record_among };

    ghost numbered = { λ by r. given by.last r.number };

    ghost clash = { records_clash };

    fn is_among(&self, count: usize) -> bool {
        is_placed(self.directory, self.partition, self.object, count)
            && names::good(self.name)
            && stage_fits(self.kind, self.stage)
    }

    fn is_numbered(&self, by: &Givers) -> bool {
        is_given(by.last, self.number)
    }

    fn clashes(&self, other: &Record) -> bool {
        other.number == self.number
    }
}

// ---- one list

fn is_fine<T: Element>(x: &T, by: &Givers) -> bool
    ensures { result ≡ (T.among by.now.count x.now && T.numbered by.now x.now) }
{
    x.is_among(by.count) && x.is_numbered(by)
}

fn all_fine<T: Element>(l: &[T], by: &Givers) -> bool
    ensures { result ≡ all (λ x. T.among by.now.count x && T.numbered by.now x) l.now }
{
    l.iter().all(|x| is_fine(x, by))
}

fn any_clashes<T: Element>(x: &T, l: &[T]) -> bool
    ensures { result ≡ any (T.clash x.now) l.now }
{
    l.iter().any(|other| x.clashes(other))
}

// Whether no two of them clash.
pub fn are_apart<T: Element>(l: &[T]) -> bool
    ensures { result ≡ apart T.clash l.now }
{
    let mut rest = l;
    while let Some((first, others)) = rest.split_first() {
        if any_clashes(first, others) {
            return false;
        }
        rest = others;
    }
    true
}

fn list_in_order<T: Element, const N: usize>(l: &Bounded<T, N>, by: &Givers) -> bool
    ensures { result ≡ every (tidy N T.free l.now.count l.now.items ∷ all (λ x. T.among by.now.count x && T.numbered by.now x) (list_of l.now) ∷ apart T.clash (list_of l.now) ∷ []) }
{
    shapes::is_shaped(l) && all_fine(l.listed(), by) && are_apart(l.listed())
}

// ---- the partition

// Where the records would fit even if no entry bore their numbers, they need not be looked at.
pub fn has_room(entries: &Entries, records: &Records) -> bool
    ensures { result ≡ room_in (entries_of entries.now) (records_of records.now) }
{
    entries.listed().len() + records.listed().len() <= MAX_ENTRIES
        || reads::claimed(entries, records) <= MAX_ENTRIES
}

fn all_ready(l: &[Record]) -> bool
    ensures { result ≡ all ready_record l.now }
{
    l.iter().all(|r| is_ready(r.stage))
}

pub fn partition_in_order(p: &Partition, n: usize, lasts: &[u32; MAX_PARTITIONS]) -> bool
    ensures { result ≡ partition_fine n lasts.now p.now }
{
    let by = Givers {
        count: n,
        last: p.last,
        lasts: *lasts,
    };
    list_in_order(&p.entries, &by)
        && list_in_order(&p.backpointers, &by)
        && list_in_order(&p.records, &by)
        && has_room(&p.entries, &p.records)
        && (p.up || all_ready(p.records.listed()))
}
