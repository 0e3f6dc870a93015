// Advance: the next step of one open record (document 01, 'The nine events', 4).
#![tactic(auto)]

ghost use Rattle.std.specs.Prelude.{◌≡◌, ◌<◌, get_or, [], ◌∷◌};
ghost use Rattle.lists.specs.Lists.{keep};
ghost use Rattle.protocol.specs.Advance.{advance, advance_found, next, perform};
ghost use Rattle.protocol.specs.Answers.{accept};
ghost use Rattle.protocol.specs.Bounds.{max_partitions, max_records};
ghost use Rattle.protocol.specs.Tables.{entry_of, in_stage, message_of, partition, record_bears, send, set_stage, turned};
ghost use Rattle.protocol.specs.declared.Body.TheVariants.{Request};
ghost use Rattle.protocol.specs.declared.Next.TheVariants.{Closes, Enters, Sends, Stays, TakesOut, Turns};
ghost use Rattle.protocol.specs.declared.Reply.TheVariants.{None};
ghost use Rattle.protocol.specs.declared.Stage.TheVariants.{Sent};
ghost use Rattle.tables.specs.Slots.{no_record};
ghost use Rattle.tables.specs.View.{partition_at, view};
ghost use Rattle.answers.specs.Called.{Ready, stored};
ghost use Rattle.answers.specs.Change.{Applies, applied};
ghost use Rattle.advances.specs.Opened.{OpenAt, SendsTo};

use answers::changes::{Change, apply};
use answers::here::Here;
use answers::{Answered, is_there, refused};
use protocol::{Body, Entry, Kind, Message, Next, Record, Refusal, Reply, Stage};
use tables::{Tables, reads, writes};

mod next;

// ---- what is made of a record: what a step reads off it, so no conversion that protocol could have

pub fn in_stage(stage: Stage, r: Record) -> Record
    ensures { result ≡ in_stage stage r }
{
    Record { stage, ..r }
}

fn turned(r: Record) -> Record
    ensures { result ≡ turned r }
{
    Record {
        kind: Kind::Unlink,
        stage: Stage::Ready,
        ..r
    }
}

fn request_of(r: Record) -> Message
    ensures { result ≡ message_of Request r }
{
    Message {
        body: Body::Request,
        kind: r.kind,
        directory: r.directory,
        name: r.name,
        partition: r.partition,
        object: r.object,
        number: r.number,
    }
}

fn entry_of(r: Record) -> Entry
    ensures { result ≡ entry_of r }
{
    Entry {
        directory: r.directory,
        name: r.name,
        partition: r.partition,
        object: r.object,
        number: r.number,
    }
}

// ---- the steps of an open record

// The record stands at this place in the log of the partition that is here.
#[derive(Clone, Copy)]
struct Open<'a> {
    here: Here<'a>,
    place: usize,
    r: Record,
    ghost open: { OpenAt here.tables.now here.at place r },
}

impl Open<'_> {
    fn close(self, reply: Reply) -> Change
        ensures result_value { let t = self.entry.here.tables.now in applied t result ≡ stored t (perform (view t) self.entry.here.at self.entry.r (Closes reply)) }
        ensures applies { Applies self.entry.here.tables.now result }
    {
        let mut own = *self.here.own();
        writes::remove(&mut own.records, self.place);
        self.here.changes(own, self.r.number, reply)
    }

    fn turn(self) -> Change
        ensures result_value { let t = self.entry.here.tables.now in applied t result ≡ stored t (perform (view t) self.entry.here.at self.entry.r Turns) }
        ensures applies { Applies self.entry.here.tables.now result }
    {
        let mut own = *self.here.own();
        writes::change(&mut own.records, self.place, turned(self.r));
        self.here.changes(own, self.r.number, Reply::NameTaken)
    }

    fn enter(self) -> Change
        requires { Enters ≡ next (partition (view self.here.tables.now) self.here.at) self.r }
        ensures result_value { let t = self.entry.here.tables.now in applied t result ≡ stored t (perform (view t) self.entry.here.at self.entry.r Enters) }
        ensures applies { Applies self.entry.here.tables.now result }
    {
        let mut own = *self.here.own();
        writes::add(&mut own.entries, entry_of(self.r));
        self.here.changes(own, self.r.number, Reply::Done)
    }

    fn take_out(self) -> Change
        requires { TakesOut ≡ next (partition (view self.here.tables.now) self.here.at) self.r }
        ensures result_value { let t = self.entry.here.tables.now in applied t result ≡ stored t (perform (view t) self.entry.here.at self.entry.r TakesOut) }
        ensures applies { Applies self.entry.here.tables.now result }
    {
        let mut own = *self.here.own();
        let Some(i) = reads::find_entry(&own.entries, self.r.number) else {
            // not met: the step is to take out an entry that stands
            return self.here.keeps(Refusal::OutOfOrder);
        };
        writes::remove(&mut own.entries, i);
        self.here.changes(own, self.r.number, Reply::Done)
    }

    // The object's partition q is up.
    fn send_request(self, q: usize) -> Change
        requires { SendsTo self.here.tables.now self.here.at self.r q }
        ensures result_value { let t = self.entry.here.tables.now in let p = self.entry.here.at in let r = self.entry.r in applied t result ≡ stored t (accept r.number None (send (set_stage (view t) p r.number Sent) p r.partition (message_of Request r))) }
        ensures applies { Applies self.entry.here.tables.now result }
    {
        let mut own = *self.here.own();
        let r = self.r;
        writes::change(&mut own.records, self.place, in_stage(Stage::Sent, r));
        self.here
            .exchanges(q, own, r.number, false, Some(request_of(r)))
    }

    fn send(self) -> Change
        requires { Sends ≡ next (partition (view self.here.tables.now) self.here.at) self.r }
        ensures result_value { let t = self.entry.here.tables.now in applied t result ≡ stored t (perform (view t) self.entry.here.at self.entry.r Sends) }
        ensures applies { Applies self.entry.here.tables.now result }
    {
        let q = self.r.partition as usize;
        if !is_up(self.here.tables, q) {
            return self.here.keeps(Refusal::TowardsDown);
        }
        self.send_request(q)
    }

    fn perform(self, step: Next) -> Change
        requires { step ≡ next (partition (view self.here.tables.now) self.here.at) self.r }
        ensures result_value { let t = self.entry.here.tables.now in applied t result ≡ stored t (perform (view t) self.entry.here.at self.entry.r step) }
        ensures applies { Applies self.entry.here.tables.now result }
    {
        match step {
            Next::Closes(reply) => self.close(reply),
            Next::Sends => self.send(),
            Next::Enters => self.enter(),
            Next::Turns => self.turn(),
            Next::TakesOut => self.take_out(),
            Next::Stays(why) => self.here.keeps(why),
        }
    }
}

// Whether partition q is up.
pub fn is_up(t: &Tables, q: usize) -> bool
    requires { q < max_partitions }
    ensures { result ≡ (partition_at t.now q).up }
{
    t.partitions[q].up
}

// ---- the event: the partition's record under this number

fn advance_record(here: Here, place: usize) -> Change
    requires { (place < (partition_at here.tables.now here.at).records.count) × (place < max_records) }
    ensures result_value { let t = here.entry.tables.now in let p = here.entry.at in applied t result ≡ stored t (advance_found (view t) p (get_or (partition_at t p).records.items place no_record ∷ [])) }
    ensures applies { Applies here.entry.tables.now result }
{
    let own = here.own();
    let r = own.records.items[place];
    let step = next::next_step(&own.entries, r);
    Open { here, place, r }.perform(step)
}

fn advance_up(here: Here, number: u32) -> Change
    ensures result_value { let t = here.entry.tables.now in let p = here.entry.at in applied t result ≡ stored t (advance_found (view t) p (keep (record_bears number) (partition (view t) p).records)) }
    ensures applies { Applies here.entry.tables.now result }
{
    let own = here.own();
    match reads::find_record(&own.records, number) {
        Some(i) => advance_record(here, i),
        None => here.keeps(Refusal::NoRecord),
    }
}

// What the advance does: it is for who stores it.
pub fn advance_change(here: Here, number: u32) -> Change
    ensures result_value { let t = here.entry.tables.now in applied t result ≡ stored t (advance (view t) here.entry.at number) }
    ensures applies { Applies here.entry.tables.now result }
{
    let own = here.own();
    if !own.up {
        return here.keeps(Refusal::Down);
    }
    advance_up(here, number)
}

pub fn advance_there(here: Here, number: u32) -> Answered
    ensures { let t = here.entry.tables.now in result ≡ stored t (advance (view t) here.entry.at number) }
{
    apply(*here.tables, advance_change(here, number))
}

pub fn advance_in_order(t: Tables, p: u32, number: u32) -> Answered
    requires { Ready t }
    ensures { result ≡ stored t (advance (view t) p number) }
{
    if !is_there(t.count, p) {
        return refused(t, Refusal::OutOfRange);
    }
    let here = Here {
        tables: &t,
        at: p as usize,
    };
    advance_there(here, number)
}
