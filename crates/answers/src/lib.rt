// What a call on the tables by value gives: a refusal, with the tables as they were lent, or an acceptance.
#![tactic(auto)]

ghost use Rattle.std.specs.Prelude.{◌≡◌, ◌<◌, ltb};
ghost use Rattle.answers.specs.Called.{acceptance, accepted_with, refusal_with, refused_with};

use protocol::{Answer, Refusal, Reply};
use tables::Tables;

pub mod changes;
pub mod here;
pub mod queues;

// What a call answers, and the tables after it.
#[derive(Clone, Copy)]
pub struct Answered {
    pub answer: Answer,
    pub tables: Tables,
}

// A number that is in range, as the tables hold it: what is asked is that it is, so there is nothing that `TryFrom` could refuse.
pub fn small(x: u32) -> u8
    requires { x < 256 }
    ensures { result ≡ x }
{
    x as u8
}

// Whether partition p is one of n.
pub fn is_there(n: usize, p: u32) -> bool
    ensures { result ≡ ltb p n }
{
    (p as usize) < n
}

// The answer of a call that is refused.
pub fn refusing(refusal: Refusal) -> Answer
    ensures { result ≡ refusal_with refusal }
{
    Answer {
        refusal,
        number: 0,
        reply: Reply::None,
    }
}

pub fn refused(tables: Tables, why: Refusal) -> Answered
    ensures { result ≡ refused_with tables why }
{
    Answered {
        answer: refusing(why),
        tables,
    }
}

// The answer of a call that is accepted.
pub fn accepting(number: u32, reply: Reply) -> Answer
    ensures { result ≡ acceptance number reply }
{
    Answer {
        refusal: Refusal::Accepted,
        number,
        reply,
    }
}

pub fn accepted(tables: Tables, number: u32, reply: Reply) -> Answered
    ensures { result ≡ accepted_with tables number reply }
{
    Answered {
        answer: accepting(number, reply),
        tables,
    }
}
