// What `S` and `Q` count. No contents of the tables are asked for: of a count that says more than its array has, the array's
// length counts, which is what the tables then mean.
#![tactic(auto)]

ghost use Rattle.std.specs.Prelude.{◌≡◌, ◌<◌, ◌≤◌, min};
ghost use Rattle.protocol.specs.Bounds.{max_messages, max_partitions};
ghost use Rattle.protocol.specs.Tables.{totals};
ghost use Rattle.tables.specs.View.{view};
ghost use Rattle.counts.specs.Counts.{Small, lengths, lengths_from, plus_partition, sums_of};

use rehearsal::SIDE;
use tables::{MAX_BACKPOINTERS, MAX_ENTRIES, MAX_MESSAGES, MAX_RECORDS, Partition, Queue, Tables};

// What stands in the tables over all partitions and queues.
#[derive(Clone, Copy)]
pub struct Sums {
    pub entries: u32,
    pub backpointers: u32,
    pub records: u32,
    pub messages: u32,
}

// ---- the totals

fn plus_partition(x: Sums, p: &Partition) -> Sums
    requires { Small x }
    ensures { result ≡ plus_partition x p.now }
{
    Sums {
        entries: x.entries + p.entries.count.min(MAX_ENTRIES) as u32,
        backpointers: x.backpointers + p.backpointers.count.min(MAX_BACKPOINTERS) as u32,
        records: x.records + p.records.count.min(MAX_RECORDS) as u32,
        ..x
    }
}

fn length_of(q: &Queue) -> u32
    ensures { (result ≡ min q.now.count max_messages) × (result ≤ max_messages) }
{
    q.count.min(MAX_MESSAGES) as u32
}

fn messages_in(t: Tables) -> u32
    ensures { result ≡ (totals (view t)).messages }
{
    let mut sum = 0;
    for q in &t.queues {
        sum += length_of(q);
    }
    sum
}

// Entries, back-pointers, records and messages over all.
pub fn totals_of(t: Tables) -> Sums
    ensures { result ≡ sums_of (totals (view t)) }
{
    let mut sums = Sums {
        entries: 0,
        backpointers: 0,
        records: 0,
        messages: messages_in(t),
    };
    for p in &t.partitions[..t.count.min(SIDE)] {
        sums = plus_partition(sums, p);
    }
    sums
}

// ---- the square

// The lengths of the queues from partition s.
fn row_of(t: &Tables, s: usize) -> [u32; SIDE]
    requires { s < max_partitions }
    ensures { result ≡ lengths_from t.now s }
{
    let at = s * SIDE;
    [
        length_of(&t.queues[at]),
        length_of(&t.queues[at + 1]),
        length_of(&t.queues[at + 2]),
        length_of(&t.queues[at + 3]),
    ]
}

// The queue lengths as a square, one row for each sender, filled from the flat queues.
pub fn lengths_of(t: Tables) -> [[u32; SIDE]; SIDE]
    ensures { result ≡ lengths (view t) }
{
    [row_of(&t, 0), row_of(&t, 1), row_of(&t, 2), row_of(&t, 3)]
}
