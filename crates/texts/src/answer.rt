// What is answered, as the numbers that a line gives behind its own.
ghost use Rattle.std.specs.Prelude.{[], ◌++◌, ◌∷◌, ◌≡◌, ◌+◌, ◌≤◌, min, get_or, length};
ghost use Rattle.protocol.specs.Bounds.{max_partitions};
ghost use Rattle.rehearsal.specs.Answers.{max_numbers, numbers_of, square_of, stored};

use rehearsal::{NUMBERS, Numbers, SIDE};

// These numbers, and no more.
fn listed(numbers: &[u32]) -> Numbers
    requires { length numbers.now ≤ max_numbers }
    ensures { result ≡ stored numbers.now }
{
    let count = numbers.len();
    let mut items = [0; NUMBERS];
    items[..count].copy_from_slice(numbers);
    Numbers { count, items }
}

// The refusal, the transaction number concerned, the reply.
pub fn answered(refusal: u32, number: u32, reply: u32) -> Numbers
    ensures { result ≡ stored (refusal ∷ number ∷ reply ∷ []) }
{
    listed(&[refusal, number, reply])
}

// Accepted; entries, back-pointers, records and messages over all.
pub fn totals(entries: u32, backpointers: u32, records: u32, messages: u32) -> Numbers
    ensures { result ≡ stored (0 ∷ entries ∷ backpointers ∷ records ∷ messages ∷ []) }
{
    listed(&[0, entries, backpointers, records, messages])
}

// A row behind the numbers that are there.
fn with_row(x: Numbers, row: &[u32]) -> Numbers
    requires { (x ≡ stored (numbers_of x)) × (length (numbers_of x) + length row.now ≤ max_numbers) }
    ensures { result ≡ stored (numbers_of x ++ row.now) }
{
    let mut items = x.items;
    let count = x.count + row.len();
    items[x.count..count].copy_from_slice(row);
    Numbers { count, items }
}

// Accepted; the queue lengths between the partitions that there are, one row for each sender, row after row.
pub fn square(lengths: [[u32; SIDE]; SIDE], count: usize) -> Numbers
    ensures { result ≡ stored (0 ∷ square_of (min count max_partitions) (λ s k. get_or (get_or lengths s []) k 0)) }
{
    let side = count.min(SIDE);
    let mut x = listed(&[0]);
    for row in &lengths[..side] {
        x = with_row(x, &row[..side]);
    }
    x
}
