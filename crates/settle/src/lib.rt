// Settle n: settling steps on the tables by value, each the first accepted one, and the tally that the caller lends
// (document 01, 'Settle n').
#![tactic(auto)]

ghost use Rattle.std.specs.Prelude.{◌≡◌};
ghost use Rattle.protocol.specs.Settle.{zero_tally};
ghost use Rattle.settle.specs.Settled.{reported, settled};

use answers::Answered;
use protocol::{Refusal, Tally};
use tables::Tables;

pub mod run; // steps until none is accepted, counted

// What a settling run gives. No Result: a refused run gives back its tally and its tables too (`settled`).
#[derive(Clone, Copy)]
pub struct Settled {
    pub refusal: Refusal,
    pub tally: Tally,
    pub tables: Tables,
}

// Takes at most n settling steps and reports how many; the tally is lent, and a refusal leaves it as it was.
pub fn settle(t: Tables, n: u32, tally: &mut Tally) -> Answered
    ensures { (result ≡ reported (settled t n tally.old)) × (tally.new ≡ (settled t n tally.old).tally) }
{
    let s = run::settle_by_value(t, n, *tally);
    *tally = s.tally;
    run::report(s)
}

// The same with a tally of its own, for callers that lend none.
pub fn settle_alone(t: Tables, n: u32) -> Settled
    ensures { result ≡ settled t n zero_tally }
{
    let mut tally = run::zero_tally();
    let a = settle(t, n, &mut tally);
    Settled {
        refusal: a.answer.refusal,
        tally,
        tables: a.tables,
    }
}
