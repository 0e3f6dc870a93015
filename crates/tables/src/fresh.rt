// The fresh tables: all partitions up, nothing in them.
ghost use Rattle.std.specs.Prelude.{◌≤◌, [], ◌≡◌};
ghost use Rattle.protocol.specs.Bounds.{max_partitions};
ghost use Rattle.protocol.specs.Tables.{fresh};
ghost use Rattle.tables.specs.View.{empty_partition, pack, pack_list};

use crate::elements::Slot;
use crate::{MAX_PARTITIONS, Partition, QUEUES, Tables};
use lists::Bounded;

// A list with nothing in it.
pub fn none<T: Slot, const N: usize>() -> Bounded<T, N>
    ensures { result ≡ pack_list N T.zero [] }
{
    Bounded {
        count: 0,
        items: [T::zero(); N],
    }
}

fn empty_partition(up: bool) -> Partition
    ensures { result ≡ empty_partition up }
{
    Partition {
        up,
        last: 0,
        entries: none(),
        backpointers: none(),
        records: none(),
    }
}

// So many partitions, as many as there can be or fewer.
pub fn fresh(count: usize) -> Tables
    requires { count ≤ max_partitions }
    ensures { result ≡ pack (fresh count) }
{
    let mut partitions = [empty_partition(false); MAX_PARTITIONS];
    partitions[..count].fill(empty_partition(true));
    Tables {
        count,
        partitions,
        queues: [none(); QUEUES],
    }
}
