// Whether the tables are in order, O1 to O7 of document 01, whatever they hold.
#![tactic(auto)]

ghost use Rattle.std.specs.Prelude.{◌&&◌, ◌≡◌, ◌<◌};
ghost use Rattle.lists.specs.Lists.{below};
ghost use Rattle.protocol.specs.Bounds.{max_partitions, queue_count};
ghost use Rattle.protocol.specs.Order.{in_order};
ghost use Rattle.tables.specs.View.{Sized, view, shaped};
ghost use Rattle.order.specs.Clauses.{lasts_of, pair_at, place_at, place_fine};

use tables::{MAX_PARTITIONS, Partition, QUEUES, Tables, reads};

fn lasts_of(t: &Tables) -> [u32; MAX_PARTITIONS]
    ensures { result ≡ lasts_of t.now.partitions }
{
    let [a, b, c, d] = &t.partitions;
    [a.last, b.last, c.last, d.last]
}

// Whether a partition may stand at place a, where n are there.
fn place_in_order(p: &Partition, a: usize, n: usize, lasts: &[u32; MAX_PARTITIONS]) -> bool
    ensures { result ≡ place_fine n lasts.now a p.now }
{
    if a < n {
        return partitions::partition_in_order(p, n, lasts);
    }
    shapes::partition_shaped(p) && shapes::is_absent(p)
}

fn places_in_order(t: &Tables) -> bool
    ensures { result ≡ below max_partitions (place_at t.now.count t.now.partitions) }
{
    let lasts = lasts_of(t);
    (0..MAX_PARTITIONS).all(|a| place_in_order(&t.partitions[a], a, t.count, &lasts))
}

// Of the two partitions whose queue stands at place k.
fn pair_in_order(t: &Tables, k: usize) -> bool
    requires { k < queue_count }
    ensures { result ≡ pair_at t.now k }
{
    let s = k / MAX_PARTITIONS;
    let r = k % MAX_PARTITIONS;
    let from = &t.partitions[s];
    let to = &t.partitions[r];
    messages::pair_in_order(
        from.up && to.up,
        &from.records,
        &to.records,
        s as u8,
        r as u8,
        &t.queues[k],
        &t.queues[r * MAX_PARTITIONS + s],
    )
}

fn pairs_in_order(t: &Tables) -> bool
    ensures { result ≡ below queue_count (pair_at t.now) }
{
    (0..QUEUES).all(|k| pair_in_order(t, k))
}

// The test on tables that are lent: who holds them does not copy them for it. It says of them what their type says.
pub fn lent_in_order(t: &Tables) -> bool
    ensures decided { result ≡ (shaped t.now && in_order (view t.now)) }
    ensures sized { Sized t.now }
{
    reads::are_sized(*t);
    1 <= t.count && t.count <= MAX_PARTITIONS && places_in_order(t) && pairs_in_order(t)
}

pub fn in_order(t: Tables) -> bool
    ensures { result ≡ (shaped t && in_order (view t)) }
{
    lent_in_order(&t)
}
