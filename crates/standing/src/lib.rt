// What stands at a place of a picture, and where a reader stands next: the work of the reader on a lent picture.
#![tactic(auto)]

ghost use Rattle.std.specs.Prelude.{◌≡◌, ◌+◌, ◌≤◌, length, drop, leb};
ghost use Rattle.protocol.specs.declared.Refusal.TheVariants.{FieldOutOfRange};
ghost use Rattle.tables.specs.View.{Ranged};
ghost use Rattle.picture.specs.Rows.{body};
ghost use Rattle.picture.specs.Standing.{handed, hands, handed_next, handed_at};

use decoding::{FromBytes, is_marked, one_more};
use picture::{HEAD_SIZE, Handed, Head, Part};
use protocol::{Backpointer, Entry, Record, Refusal};
use reading::whole;
use tables::{MAX_BACKPOINTERS, MAX_ENTRIES, MAX_RECORDS, Partition};

// One more record of a kind, behind so many of it.
fn hand<T: FromBytes, const N: usize>(
    s: &[u8],
    at: usize,
    head: Head,
    behind: usize,
) -> Result<Handed, Refusal>
    requires { at ≤ length s.now }
    ensures { handed at result
        ≡ hands (λ x. record { part = T.part x; next = at + T.SIZE }) at (leb N behind) (body T.layout FieldOutOfRange (T.fits head) (drop at s.now)) }
{
    let x = one_more::<T, N>(&s[at..], head, behind)?;
    Ok(Handed {
        part: x.part(),
        next: at + T::SIZE,
    })
}

// Behind the records of these tables.
fn next_at(s: &[u8], at: usize, head: Head, before: &Partition) -> Result<Handed, Refusal>
    requires { (at ≤ length s.now) × Ranged before.now }
    ensures { handed at result ≡ handed_next at head before.now.entries.count before.now.backpointers.count before.now.records.count (drop at s.now) }
{
    let no_record = before.records.count == 0;
    let entries_only = before.backpointers.count == 0 && no_record;
    if is_marked::<Entry>(s, at) && entries_only {
        return hand::<Entry, MAX_ENTRIES>(s, at, head, before.entries.count);
    }
    if is_marked::<Backpointer>(s, at) && no_record {
        return hand::<Backpointer, MAX_BACKPOINTERS>(s, at, head, before.backpointers.count);
    }
    if is_marked::<Record>(s, at) {
        return hand::<Record, MAX_RECORDS>(s, at, head, before.records.count);
    }
    whole::close_at(s, at, whole::total(before))?;
    Ok(Handed {
        part: Part::Close,
        next: at,
    })
}

// Under the picture's header and behind what stands before the place.
fn found_at(s: &[u8], at: usize) -> Result<Handed, Refusal>
    ensures { handed at result ≡ handed_at s.now at }
{
    let head = decoding::read_head(s)?;
    if at < HEAD_SIZE {
        return Ok(Handed {
            part: Part::Head(head),
            next: HEAD_SIZE,
        });
    }
    if s.len() < at {
        return Err(Refusal::EndsEarly);
    }
    let before = whole::read_sections(&s[..at], head)?;
    if before.end < at {
        return Err(Refusal::MarkNotAllowed);
    }
    next_at(s, at, head, &before.tables)
}

// What stands at a place, or the refusal of what stands there or before it.
pub fn record_at(s: &[u8], at: usize) -> Handed
    ensures { result ≡ handed_at s.now at }
{
    match found_at(s, at) {
        Ok(handed) => handed,
        Err(why) => Handed {
            part: Part::Refused(why),
            next: at,
        },
    }
}
