// What an event of one partition does, before it is stored. An event hands it back in place of the tables, which are eight times as
// large; who holds the tables stores it where they stand.
ghost use Rattle.std.specs.Prelude.{◌≡◌, ◌<◌, ◌≤◌};
ghost use Rattle.protocol.specs.Bounds.{max_messages, max_partitions};
ghost use Rattle.tables.specs.View.{messages_of, pack_queue};
ghost use Rattle.answers.specs.Change.{Applies, Sends, Takes, applied, changes_with, exchanges_with, keeps_with, sent_if, taken_if};

use crate::{Answered, accepting, refusing};
use protocol::{Answer, Message, Refusal, Reply};
use tables::{MAX_PARTITIONS, Partition, Queue, Tables, writes};

// The partition `at` becomes `partition`; the oldest message from `other` is taken if `takes`, and then the message `sends` goes
// there, if there is one. Nothing stands beside `takes`: what is taken is the oldest, whichever it is.
#[derive(Clone, Copy)]
pub struct Change {
    pub answer: Answer,
    pub at: usize,
    pub other: usize,
    pub takes: bool,
    pub sends: Option<Message>,
    pub partition: Partition,
}

// A refusal: x is partition p as it is.
pub fn keeps(p: usize, x: Partition, why: Refusal) -> Change
    ensures { result ≡ keeps_with p x why }
{
    Change {
        answer: refusing(why),
        at: p,
        other: p,
        takes: false,
        sends: None,
        partition: x,
    }
}

// Partition p becomes x; no message is taken or sent.
pub fn changes(p: usize, x: Partition, number: u32, reply: Reply) -> Change
    ensures { result ≡ changes_with p x number reply }
{
    Change {
        answer: accepting(number, reply),
        at: p,
        other: p,
        takes: false,
        sends: None,
        partition: x,
    }
}

// Partition p becomes x; a message from q is taken, one is sent there, or both.
pub fn exchanges(
    p: usize,
    q: usize,
    x: Partition,
    number: u32,
    takes: bool,
    sends: Option<Message>,
) -> Change
    ensures { result ≡ exchanges_with p q x number takes sends }
{
    Change {
        answer: accepting(number, Reply::None),
        at: p,
        other: q,
        takes,
        sends,
        partition: x,
    }
}

// ---- it is stored

pub fn taken_if(b: bool, mut q: Queue) -> Queue
    requires { (pack_queue (messages_of q) ≡ q) × (q.count ≤ max_messages) × Takes b q }
    ensures { result ≡ taken_if b q }
{
    if b {
        writes::remove(&mut q, 0);
    }
    q
}

pub fn sent_if(message: Option<Message>, mut q: Queue) -> Queue
    requires { (pack_queue (messages_of q) ≡ q) × Sends message q }
    ensures { result ≡ sent_if message q }
{
    if let Some(x) = message {
        writes::add(&mut q, x);
    }
    q
}

pub fn apply(mut t: Tables, c: Change) -> Answered
    requires { Applies t c × (c.at < max_partitions) × (c.other < max_partitions) }
    ensures { result ≡ applied t c }
{
    let from = c.other * MAX_PARTITIONS + c.at;
    let to = c.at * MAX_PARTITIONS + c.other;
    t.partitions[c.at] = c.partition;
    t.queues[from] = taken_if(c.takes, t.queues[from]);
    t.queues[to] = sent_if(c.sends, t.queues[to]);
    Answered {
        answer: c.answer,
        tables: t,
    }
}
