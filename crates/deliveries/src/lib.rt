// Deliver: the oldest message from a sender to a receiver (document 01, 'The nine events', 5).
#![tactic(auto)]

ghost use Rattle.std.specs.Prelude.{◌&&◌, true, ◌≡◌, ◌*◌, ◌+◌, ◌<◌, ◌≤◌, ltb, length};
ghost use Rattle.lists.specs.Lists.{keep, map_if, without};
ghost use Rattle.protocol.specs.Bounds.{max_backpointers, max_partitions, max_records};
ghost use Rattle.protocol.specs.Deliver.{answer_to, backpointer_of, carry_out, deliver, deliver_oldest, is_exactly, land, receive, stage_after, verdict};
ghost use Rattle.protocol.specs.Answers.{accept};
ghost use Rattle.protocol.specs.Tables.{in_stage, partition, queue, record_bears, send};
ghost use Rattle.protocol.specs.declared.Reply.TheVariants.{None};
ghost use Rattle.protocol.specs.declared.Verdict.TheVariants.{AddsIt, DropsIt};
ghost use Rattle.tables.specs.View.{backpointers_of, pack_backpointers, pack_records, partition_at, queue_at, records_of, view};
ghost use Rattle.answers.specs.Called.{Ready, stored};
ghost use Rattle.answers.specs.Change.{Applies, applied, exchanges_with};
ghost use Rattle.deliveries.specs.Taken.{Answers, Lands, OneExactly, Received, taken_from};

use answers::changes::{Change, apply};
use answers::here::Here;
use answers::{Answered, is_there, refused};
use protocol::{Backpointer, Body, Kind, Message, Refusal, Stage, Verdict};
use tables::{Backpointers, Partition, Records, Tables, reads, writes};

// What is received gives a change of the tables, in which the message x still stands in the queue.

// ---- a request, at the object's partition

fn answer_to(x: Message, body: Body) -> Message
    ensures { result ≡ answer_to x body }
{
    Message { body, ..x }
}

fn backpointer_of(s: u8, x: Message) -> Backpointer
    ensures { result ≡ backpointer_of s x }
{
    Backpointer {
        object: x.object,
        parent: s,
        directory: x.directory,
        name: x.name,
        number: x.number,
    }
}

// Without the back-pointer that a request to remove is about, if it is there.
fn without_exactly(mut l: Backpointers, s: u8, x: Message) -> Backpointers
    requires { (pack_backpointers (backpointers_of l) ≡ l) × (l.count ≤ max_backpointers) × (length (keep (is_exactly s x) (backpointers_of l)) ≤ 1) }
    ensures { result ≡ pack_backpointers (without (is_exactly s x) (backpointers_of l)) }
{
    if let Some(i) = reads::find_exactly(&l, s, &x) {
        writes::remove(&mut l, i);
    }
    l
}

// The request x, the oldest message from partition `from` to the one that is here; there is room for an answer.
#[derive(Clone, Copy)]
struct Request<'a> {
    to: Here<'a>,
    from: usize,
    x: Message,
    ghost answers: { Answers to.tables.now from to.at },
    ghost exactly: { OneExactly to.tables.now from to.at x },
}

impl Request<'_> {
    // It is taken, and the answer to it sent; the partition is then y.
    fn take_and_say(self, y: Partition, body: Body) -> Change
        ensures { result ≡ exchanges_with self.entry.to.at self.entry.from y self.entry.x.number true (Some (answer_to self.entry.x body)) }
    {
        let answer = Some(answer_to(self.x, body));
        self.to.exchanges(self.from, y, self.x.number, true, answer)
    }

    fn say(self, body: Body) -> Change
        ensures result_value { let t = self.entry.to.tables.now in let s = self.entry.from in let r = self.entry.to.at in let x = self.entry.x in applied t result ≡ stored t (accept x.number None (send (taken_from t s r) r s (answer_to x body))) }
        ensures applies { Applies self.entry.to.tables.now result }
    {
        self.take_and_say(*self.to.own(), body)
    }

    fn add(self) -> Change
        requires { AddsIt ≡ verdict (partition (view self.to.tables.now) self.to.at) self.from self.x }
        ensures result_value { let t = self.entry.to.tables.now in let s = self.entry.from in let r = self.entry.to.at in let x = self.entry.x in applied t result ≡ stored t (accept x.number None (carry_out (taken_from t s r) s r x AddsIt)) }
        ensures applies { Applies self.entry.to.tables.now result }
    {
        let mut own = *self.to.own();
        let item = backpointer_of(self.from as u8, self.x);
        writes::add(&mut own.backpointers, item);
        self.take_and_say(own, Body::Yes)
    }

    fn remove(self) -> Change
        ensures result_value { let t = self.entry.to.tables.now in let s = self.entry.from in let r = self.entry.to.at in let x = self.entry.x in applied t result ≡ stored t (accept x.number None (carry_out (taken_from t s r) s r x DropsIt)) }
        ensures applies { Applies self.entry.to.tables.now result }
    {
        let mut own = *self.to.own();
        own.backpointers = without_exactly(own.backpointers, self.from as u8, self.x);
        self.take_and_say(own, Body::Yes)
    }

    fn carry_out(self, v: Verdict) -> Change
        requires { v ≡ verdict (partition (view self.to.tables.now) self.to.at) self.from self.x }
        ensures result_value { let t = self.entry.to.tables.now in let s = self.entry.from in let r = self.entry.to.at in let x = self.entry.x in applied t result ≡ stored t (accept x.number None (carry_out (taken_from t s r) s r x v)) }
        ensures applies { Applies self.entry.to.tables.now result }
    {
        match v {
            Verdict::SaysOnly(body) => self.say(body),
            Verdict::AddsIt => self.add(),
            Verdict::DropsIt => self.remove(),
        }
    }

    fn answer(self) -> Change
        ensures result_value { let t = self.entry.to.tables.now in let s = self.entry.from in let r = self.entry.to.at in let x = self.entry.x in applied t result ≡ stored t (accept x.number None (carry_out (taken_from t s r) s r x (verdict (partition (view t) r) s x))) }
        ensures applies { Applies self.entry.to.tables.now result }
    {
        let v = verdicts::verdict(&self.to.own().backpointers, self.from as u8, self.x);
        self.carry_out(v)
    }
}

// ---- an answer, at the record's partition

fn stage_after(kind: Kind, body: Body) -> Stage
    ensures { result ≡ stage_after kind body }
{
    match (kind, body) {
        (Kind::Unlink, _) => Stage::Cleared,
        (_, Body::Request | Body::No) => Stage::Ready,
        (_, Body::Yes) => Stage::Held,
        (_, Body::NoBecause(why)) => Stage::Refused(why),
    }
}

// The record under the number in another stage, if it is there.
fn with_stage(mut l: Records, number: u32, stage: Stage) -> Records
    requires { (pack_records (records_of l) ≡ l) × (l.count ≤ max_records) × (length (keep (record_bears number) (records_of l)) ≤ 1) }
    ensures { result ≡ pack_records (map_if (record_bears number) (in_stage stage) (records_of l)) }
{
    if let Some(i) = reads::find_record(&l, number) {
        let item = advances::in_stage(stage, l.items[i]);
        writes::change(&mut l, i, item);
    }
    l
}

fn land(to: Here, from: usize, x: Message) -> Change
    requires { Lands to.tables.now from to.at x }
    ensures result_value { let t = to.entry.tables.now in let r = to.entry.at in applied t result ≡ stored t (accept x.number None (land (taken_from t from r) r x)) }
    ensures applies { Applies to.entry.tables.now result }
{
    let mut own = *to.own();
    let stage = stage_after(x.kind, x.body);
    own.records = with_stage(own.records, x.number, stage);
    to.exchanges(from, own, x.number, true, None)
}

// ---- the event: the partition that is here receives the oldest message from another

// The message is x.
fn receive(to: Here, from: usize, x: Message) -> Change
    requires { Received to.tables.now from to.at x }
    ensures result_value { let t = to.entry.tables.now in let r = to.entry.at in applied t result ≡ stored t (accept x.number None (receive x.body (taken_from t from r) from r x)) }
    ensures applies { Applies to.entry.tables.now result }
{
    match x.body {
        Body::Request => Request { to, from, x }.answer(),
        Body::Yes | Body::No | Body::NoBecause(_) => land(to, from, x),
    }
}

fn deliver_oldest(to: Here, from: usize) -> Change
    requires { (from < to.tables.now.count) × (from < max_partitions) }
    ensures result_value { let t = to.entry.tables.now in let r = to.entry.at in applied t result ≡ stored t (deliver_oldest (view t) from r (queue (view t) from r)) }
    ensures applies { Applies to.entry.tables.now result }
{
    let waiting = to.queue_from(from);
    if waiting.count == 0 {
        return to.keeps(Refusal::QueueEmpty);
    }
    receive(to, from, waiting.items[0])
}

// The sender is there too.
pub fn deliver_change(to: Here, from: usize) -> Change
    requires { (from < to.tables.now.count) × (from < max_partitions) }
    ensures result_value { let t = to.entry.tables.now in applied t result ≡ stored t (deliver (view t) from to.entry.at) }
    ensures applies { Applies to.entry.tables.now result }
{
    if !to.own().up {
        return to.keeps(Refusal::Down);
    }
    deliver_oldest(to, from)
}

pub fn deliver_there(to: Here, from: usize) -> Answered
    requires { (from < to.tables.now.count) × (from < max_partitions) }
    ensures { let t = to.entry.tables.now in result ≡ stored t (deliver (view t) from to.entry.at) }
{
    apply(*to.tables, deliver_change(to, from))
}

// Whether sender and receiver are among n.
pub fn are_there(n: usize, s: u32, r: u32) -> bool
    ensures { result ≡ (ltb s n && ltb r n) }
{
    is_there(n, s) && is_there(n, r)
}

pub fn deliver_in_order(t: Tables, s: u32, r: u32) -> Answered
    requires { Ready t }
    ensures { result ≡ stored t (deliver (view t) s r) }
{
    if !are_there(t.count, s, r) {
        return refused(t, Refusal::OutOfRange);
    }
    let to = Here {
        tables: &t,
        at: r as usize,
    };
    deliver_there(to, s as usize)
}
