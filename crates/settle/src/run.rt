// A settling run: steps until none is accepted or n are taken, each brought into the tally.
ghost use Rattle.std.specs.Prelude.{◌≡◌, ◌+◌, ◌≤◌};
ghost use Rattle.protocol.specs.Bounds.{largest_number};
ghost use Rattle.protocol.specs.Events.{bare};
ghost use Rattle.protocol.specs.Settle.{plus_if, settle_by, tallied, zero_tally};
ghost use Rattle.tables.specs.View.{view};
ghost use Rattle.answers.specs.Called.{Ready};
ghost use Rattle.settle.specs.Settled.{Counts, reported, settled, settled_on};

use crate::Settled;
use answers::Answered;
use protocol::{Answer, Refusal, Reply, Tally};
use tables::Tables;

pub fn zero_tally() -> Tally
    ensures { result ≡ zero_tally }
{
    Tally {
        steps: 0,
        ones: 0,
        others: 0,
    }
}

fn plus_if(b: bool, n: u32) -> u32
    requires { n + 1 ≤ largest_number }
    ensures { result ≡ plus_if b n }
{
    if b { n + 1 } else { n }
}

fn tallied(reply: Reply, y: Tally) -> Tally
    requires { Counts y }
    ensures { result ≡ tallied reply y }
{
    Tally {
        steps: y.steps + 1,
        ones: plus_if(numbers::is_one(reply), y.ones),
        others: plus_if(numbers::is_other(reply), y.others),
    }
}

// The order has been tested; it is kept, so that no step tests it again.
fn run(t: Tables, n: u32) -> Settled
    requires { Ready t }
    ensures { result ≡ settled_on t (settle_by bare n zero_tally (view t)) }
{
    let mut tables = t;
    let mut tally = zero_tally();
    for _taken in 0..n {
        let Some(step) = steps::first_step(tables) else {
            break;
        };
        tally = tallied(step.reply, tally);
        tables = step.tables;
    }
    Settled {
        refusal: Refusal::Accepted,
        tally,
        tables,
    }
}

// With the tally y, which a refusal gives back as it was.
pub fn settle_by_value(t: Tables, n: u32, y: Tally) -> Settled
    ensures { result ≡ settled t n y }
{
    if !order::in_order(t) {
        return Settled {
            refusal: Refusal::OutOfOrder,
            tally: y,
            tables: t,
        };
    }
    run(t, n)
}

// The steps are those of a run that was accepted; one that was refused reports 0.
pub fn report(s: Settled) -> Answered
    ensures { result ≡ reported s }
{
    let number = if numbers::accepted(s.refusal) {
        s.tally.steps
    } else {
        0
    };
    let answer = Answer {
        refusal: s.refusal,
        number,
        reply: Reply::None,
    };
    Answered {
        answer,
        tables: s.tables,
    }
}
