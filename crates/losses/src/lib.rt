// What a cut or a crash loses: records that relapse to ready, and queues that empty (document 01, 'The nine events', 6 and 7).
#![tactic(auto)]

ghost use Rattle.std.specs.Prelude.{◌&&◌, map, ◌≡◌, ◌≤◌, eqb};
ghost use Rattle.lists.specs.Lists.{map_from, map_if, pad, pick};
ghost use Rattle.protocol.specs.Bounds.{max_partitions, max_records};
ghost use Rattle.protocol.specs.Elements.{is_sent};
ghost use Rattle.protocol.specs.Faults.{between, falls_with, sent_between, touches};
ghost use Rattle.protocol.specs.Tables.{in_stage};
ghost use Rattle.protocol.specs.declared.Stage.TheVariants.{Ready as ReadyStage};
ghost use Rattle.tables.specs.View.{pack, pack_partition, pack_records, records_of, view, view_partition, zero_partition};
ghost use Rattle.answers.specs.Called.{Ready};
ghost use Rattle.losses.specs.Lost.{empties_of, lost, partition_after, queue_after, relapses_of, up_after};

use protocol::{Record, Stage};
use tables::{MAX_PARTITIONS, Partition, QUEUES, Queue, Records, Tables, elements, fresh};

// What is lost: all between two partitions that are cut off from each other, or all of one that crashes.
#[derive(Clone, Copy)]
pub enum Loss {
    Cut(usize, usize),
    Crash(usize),
}

// ---- which queues empty, and which records relapse

fn between(a: usize, b: usize, s: usize, r: usize) -> bool
    ensures { result ≡ between a b s r }
{
    (s == a && r == b) || (s == b && r == a)
}

fn touches(p: usize, s: usize, r: usize) -> bool
    ensures { result ≡ touches p s r }
{
    s == p || r == p
}

// Whether the queue from s to r empties, and below whether a record relapses: two questions about one loss.
fn empties(loss: Loss, s: usize, r: usize) -> bool
    ensures { result ≡ empties_of loss s r }
{
    match loss {
        Loss::Cut(a, b) => between(a, b, s, r),
        Loss::Crash(p) => touches(p, s, r),
    }
}

fn sent_between(a: usize, b: usize, p: usize, r: Record) -> bool
    ensures { result ≡ sent_between a b p r }
{
    elements::is_sent(r.stage) && between(a, b, p, r.partition as usize)
}

fn sent_to(p: usize, r: Record) -> bool
    ensures { result ≡ (is_sent r.stage && eqb r.partition p) }
{
    elements::is_sent(r.stage) && r.partition as usize == p
}

fn falls_with(p: usize, q: usize, r: Record) -> bool
    ensures { result ≡ falls_with p q r }
{
    q == p || sent_to(p, r)
}

// Whether partition p's record r relapses.
fn relapses(loss: Loss, p: usize, r: Record) -> bool
    ensures { result ≡ relapses_of loss p r }
{
    match loss {
        Loss::Cut(a, b) => sent_between(a, b, p, r),
        Loss::Crash(q) => falls_with(q, p, r),
    }
}

// ---- the losses

// Partition p's record r, after the loss.
fn record_after(loss: Loss, p: usize, r: Record) -> Record
    ensures { result ≡ pick (relapses_of loss p r) (in_stage ReadyStage r) r }
{
    if relapses(loss, p, r) {
        return advances::in_stage(Stage::Ready, r);
    }
    r
}

// By places, as the other losses: each place is written from what stood there.
fn relapse_records(loss: Loss, p: usize, l: Records) -> Records
    requires { (pack_records (records_of l) ≡ l) × (l.count ≤ max_records) }
    ensures { result ≡ pack_records (map_if (relapses_of loss p) (in_stage ReadyStage) (records_of l)) }
{
    let mut items = l.items;
    // by place, as the losses below, which ask which place it is: one law serves the three loops
    for i in 0..l.count {
        items[i] = record_after(loss, p, l.items[i]);
    }
    Records { items, ..l }
}

// Whether partition p is up after the loss.
fn up_after(loss: Loss, p: usize, up: bool) -> bool
    ensures { result ≡ up_after loss p up }
{
    match loss {
        Loss::Cut(_, _) => up,
        Loss::Crash(q) => up && p != q,
    }
}

fn partition_after(loss: Loss, p: usize, x: Partition) -> Partition
    requires { (pack_partition (view_partition x) ≡ x) × (x.records.count ≤ max_records) }
    ensures { result ≡ pack_partition (partition_after loss p (view_partition x)) }
{
    Partition {
        up: up_after(loss, p, x.up),
        records: relapse_records(loss, p, x.records),
        ..x
    }
}

// The partitions of t, after the loss. They are handed over beside t, to be changed where they stand.
pub fn partitions_after(
    loss: Loss,
    t: Tables,
    before: [Partition; MAX_PARTITIONS],
) -> [Partition; MAX_PARTITIONS]
    requires { Ready t × (before ≡ t.partitions) }
    ensures { result ≡ pad max_partitions zero_partition (map pack_partition (map_from (partition_after loss) 0 (view t).partitions)) }
{
    let mut partitions = before;
    // the place says whose partition it is
    for i in 0..t.count {
        partitions[i] = partition_after(loss, i, partitions[i]);
    }
    partitions
}

pub fn queues_after(loss: Loss, before: [Queue; QUEUES]) -> [Queue; QUEUES]
    ensures { result ≡ map_from (queue_after loss) 0 before }
{
    let none = fresh::none();
    let mut queues = before;
    // the place says between which partitions the queue is
    for i in 0..QUEUES {
        if empties(loss, i / MAX_PARTITIONS, i % MAX_PARTITIONS) {
            queues[i] = none;
        }
    }
    queues
}

pub fn lose(loss: Loss, t: Tables) -> Tables
    requires { Ready t }
    ensures { result ≡ pack (lost loss (view t)) }
{
    Tables {
        count: t.count,
        partitions: partitions_after(loss, t, t.partitions),
        queues: queues_after(loss, t.queues),
    }
}
