// The shape of the tables: counts within bounds, unused slots zero.
#![tactic(auto)]

ghost use Rattle.std.specs.Prelude.{◌≡◌};
ghost use Rattle.lists.specs.Lists.{tidy};
ghost use Rattle.tables.specs.View.{shaped_partition, absent};

use lists::Bounded;
use tables::Partition;
use tables::elements::Slot;

pub fn is_shaped<T: Slot, const N: usize>(l: &Bounded<T, N>) -> bool
    ensures { result ≡ tidy N T.free l.now.count l.now.items }
{
    l.count <= N && l.unused().iter().all(|slot| slot.is_free())
}

pub fn partition_shaped(p: &Partition) -> bool
    ensures { result ≡ shaped_partition p.now }
{
    is_shaped(&p.entries) && is_shaped(&p.backpointers) && is_shaped(&p.records)
}

// Whether a partition is one that is not there: nothing is in it, and it is not up.
pub fn is_absent(p: &Partition) -> bool
    ensures { result ≡ absent p.now }
{
    !p.up
        && p.last == 0
        && p.entries.count == 0
        && p.backpointers.count == 0
        && p.records.count == 0
}
