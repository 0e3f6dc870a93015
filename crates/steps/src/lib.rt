// The first accepted step: advances by partition, then record order; then deliveries by sender, then receiver.
#![tactic(auto)]

ghost use Rattle.std.specs.Prelude.{[], ◌∷◌, ◌≡◌, ◌<◌};
ghost use Rattle.protocol.specs.Answers.{accepted};
ghost use Rattle.protocol.specs.Bounds.{max_partitions};
ghost use Rattle.protocol.specs.Deliver.{deliver};
ghost use Rattle.protocol.specs.Events.{advancing, delivering, bare};
ghost use Rattle.protocol.specs.Settle.{advances, candidates, deliveries, first_accepted};
ghost use Rattle.tables.specs.View.{view};
ghost use Rattle.answers.specs.Called.{Ready};
ghost use Rattle.steps.specs.Stepped.{advances_of, deliveries_from, step_of, tried};

use answers::Answered;
use answers::here::Here;
use protocol::Reply;
use tables::Tables;

// What an accepted step gives: its reply, and the tables after it.
#[derive(Clone, Copy)]
pub struct Step {
    pub reply: Reply,
    pub tables: Tables,
}

// What was tried, if it was accepted.
fn tried(a: Answered) -> Option<Step>
    ensures { result ≡ tried a }
{
    if !numbers::accepted(a.answer.refusal) {
        return None;
    }
    Some(Step {
        reply: a.answer.reply,
        tables: a.tables,
    })
}

fn try_advance(here: Here, number: u32) -> Option<Step>
    ensures { let t = here.entry.tables.now in result ≡ step_of t (first_accepted bare (view t) (advancing here.entry.at number ∷ [])) }
{
    tried(advances::advance_there(here, number))
}

// Of the records of the partition that is here, in their order.
fn first_advance_of(here: Here) -> Option<Step>
    ensures { let t = here.entry.tables.now in result ≡ step_of t (first_accepted bare (view t) (advances_of (view t) here.entry.at)) }
{
    let log = here.own().records.listed();
    for r in log {
        let step = try_advance(here, r.number);
        if step.is_some() {
            return step;
        }
    }
    None
}

// A loop of its own, as first_delivery has: one function of both would take closures whose clauses are longer than the loops.
fn first_advance(t: Tables) -> Option<Step>
    requires { Ready t }
    ensures { result ≡ step_of t (first_accepted bare (view t) (advances (view t))) }
{
    for p in 0..t.count {
        let here = Here { tables: &t, at: p };
        let step = first_advance_of(here);
        if step.is_some() {
            return step;
        }
    }
    None
}

// Whether a message from s waits, and the receiver is up. Most do not: so nothing is tried that would be refused.
fn awaits(to: Here, s: usize) -> bool
    requires { (s < to.tables.now.count) × (s < max_partitions) }
    ensures { result ≡ accepted (deliver (view to.entry.tables.now) s to.entry.at) }
{
    to.own().up && to.queue_from(s).count != 0
}

fn take_delivery(to: Here, s: usize) -> Option<Step>
    requires { (s < to.tables.now.count) × (s < max_partitions) }
    ensures { let t = to.entry.tables.now in result ≡ step_of t (first_accepted bare (view t) (delivering s to.entry.at ∷ [])) }
{
    tried(deliveries::deliver_there(to, s))
}

fn first_delivery_from(t: Tables, s: usize) -> Option<Step>
    requires { Ready t × (s < t.count) × (s < max_partitions) }
    ensures { result ≡ step_of t (first_accepted bare (view t) (deliveries_from (view t) s)) }
{
    for r in 0..t.count {
        let to = Here { tables: &t, at: r };
        if awaits(to, s) {
            return take_delivery(to, s);
        }
    }
    None
}

fn first_delivery(t: Tables) -> Option<Step>
    requires { Ready t }
    ensures { result ≡ step_of t (first_accepted bare (view t) (deliveries (view t))) }
{
    for s in 0..t.count {
        let step = first_delivery_from(t, s);
        if step.is_some() {
            return step;
        }
    }
    None
}

pub fn first_step(t: Tables) -> Option<Step>
    requires { Ready t }
    ensures { result ≡ step_of t (first_accepted bare (view t) (candidates (view t))) }
{
    let step = first_advance(t);
    if step.is_some() {
        return step;
    }
    first_delivery(t)
}
