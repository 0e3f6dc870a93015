// O6 and the queues' half of O7: what is asked of the queue from one partition to another, and of the records that its messages
// are of.
#![tactic(auto)]

ghost use Rattle.std.specs.Prelude.{◌≡◌, ◌≤◌, length};
ghost use Rattle.std.specs.List.{filter};
ghost use Rattle.lists.specs.Lists.{all, any};
ghost use Rattle.protocol.specs.Bounds.{max_messages};
ghost use Rattle.protocol.specs.Order.{matches, sent_as, is_request_of, is_answer_to};
ghost use Rattle.tables.specs.View.{messages_of, records_of};
ghost use Rattle.messages.specs.Clauses.{message_fine, record_answered, pair_fine};

use protocol::{Message, Record};
use tables::elements::{body_fits, is_request, is_sent, same_kind};
use tables::{MAX_MESSAGES, Queue, Records};

// Whether a message is of a record.
fn is_of(r: &Record, x: &Message) -> bool
    ensures { result ≡ matches r.now x.now }
{
    x.number == r.number
        && same_kind(x.kind, r.kind)
        && x.directory == r.directory
        && x.partition == r.partition
        && x.object == r.object
        && names::same(x.name, r.name)
}

// Whether a record is sent, towards a partition, and the message is of it.
fn is_sent_as(r: &Record, x: &Message, to: u8) -> bool
    ensures { result ≡ sent_as x.now to r.now }
{
    is_sent(r.stage) && r.partition == to && is_of(r, x)
}

fn has_record(l: &[Record], x: &Message, to: u8) -> bool
    ensures { result ≡ any (sent_as x.now to) l.now }
{
    l.iter().any(|r| is_sent_as(r, x, to))
}

// Of the records xs of partition s and ys of partition r: a message on the way from s to r is of one of them.
fn message_in_order(xs: &[Record], ys: &[Record], s: u8, r: u8, x: &Message) -> bool
    ensures { result ≡ message_fine xs.now ys.now s r x.now }
{
    if !body_fits(x.kind, x.body) {
        return false;
    }
    if is_request(x.body) {
        has_record(xs, x, r)
    } else {
        has_record(ys, x, s)
    }
}

fn messages_in_order(xs: &[Record], ys: &[Record], s: u8, r: u8, q: &[Message]) -> bool
    ensures { result ≡ all (message_fine xs.now ys.now s r) q.now }
{
    q.iter().all(|x| message_in_order(xs, ys, s, r, x))
}

fn is_request_of(r: &Record, x: &Message) -> bool
    ensures { result ≡ is_request_of r.now x.now }
{
    is_request(x.body) && is_of(r, x)
}

fn is_answer_to(r: &Record, x: &Message) -> bool
    ensures { result ≡ is_answer_to r.now x.now }
{
    !is_request(x.body) && is_of(r, x)
}

fn requests_of(q: &[Message], r: &Record) -> usize
    ensures { result ≡ length (filter (is_request_of r.now) q.now) }
{
    q.iter().filter(|x| is_request_of(r, x)).count()
}

fn answers_to(q: &[Message], r: &Record) -> usize
    ensures { result ≡ length (filter (is_answer_to r.now) q.now) }
{
    q.iter().filter(|x| is_answer_to(r, x)).count()
}

// Whether a record, if it is sent towards r, has one message: in the queue q there or in the queue back.
fn record_answered(x: &Record, r: u8, q: &[Message], back: &[Message]) -> bool
    requires few { (length q.now ≤ max_messages) × (length back.now ≤ max_messages) }
    ensures { result ≡ record_answered r q.now back.now x.now }
{
    if !is_sent(x.stage) || x.partition != r {
        return true;
    }
    let requests = requests_of(q, x);
    let answers = answers_to(back, x);
    requests + answers == 1
}

fn records_answered(xs: &[Record], r: u8, q: &[Message], back: &[Message]) -> bool
    requires few { (length q.now ≤ max_messages) × (length back.now ≤ max_messages) }
    ensures { result ≡ all (record_answered r q.now back.now) xs.now }
{
    xs.iter().all(|x| record_answered(x, r, q, back))
}

// The queue q from s to r and the queue back, the records xs of s and ys of r; whether both partitions are up. Where one is down, the
// queue is empty.
pub fn pair_in_order(
    up: bool,
    xs: &Records,
    ys: &Records,
    s: u8,
    r: u8,
    q: &Queue,
    back: &Queue,
) -> bool
    ensures { result ≡ pair_fine up (records_of xs.now) (records_of ys.now) s r q.now back.now }
{
    shapes::is_shaped(q)
        && back.count <= MAX_MESSAGES
        && (up || q.listed().is_empty())
        && messages_in_order(xs.listed(), ys.listed(), s, r, q.listed())
        && records_answered(xs.listed(), r, q.listed(), back.listed())
}
