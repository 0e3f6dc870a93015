// The queue from one partition to another.
ghost use Rattle.std.specs.Prelude.{◌≡◌, ◌*◌, ◌+◌, ◌<◌};
ghost use Rattle.protocol.specs.Bounds.{max_partitions};
ghost use Rattle.tables.specs.View.{queue_at};

use tables::{MAX_PARTITIONS, Queue, Tables};

pub fn queue(t: &Tables, s: usize, r: usize) -> &Queue
    requires { (s < max_partitions) × (r < max_partitions) }
    ensures { result.now ≡ queue_at t.now (s * max_partitions + r) }
{
    &t.queues[s * MAX_PARTITIONS + r]
}
