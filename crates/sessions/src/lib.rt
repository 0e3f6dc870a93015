// What a command answers, and the session after it, by the public events and by settle.
#![tactic(auto)]

ghost use Rattle.std.specs.Prelude.{[], ◌∷◌, ◌≡◌};
ghost use Rattle.protocol.specs.Elements.{refusal_number};
ghost use Rattle.protocol.specs.Settle.{zero_tally};
ghost use Rattle.protocol.specs.declared.Refusal.TheVariants.{NotUnderstood as LineNotUnderstood};
ghost use Rattle.tables.specs.View.{view};
ghost use Rattle.settle.specs.Settled.{settled};
ghost use Rattle.rehearsal.specs.Answers.{stored};
ghost use Rattle.rehearsal.specs.Rehearsal.{answer_numbers, square, total_numbers};
ghost use Rattle.sessions.specs.Claims.{Sessions};
ghost use Rattle.sessions.specs.Session.{after_event, after_open, after_settle, closed_session, holding, not_read, opened_by, responded, responded_to};

use answers::Answered;
use protocol::{Answer, Refusal};
use rehearsal::{Command, Numbers, Verb};
use settle::{Settled, run};
use tables::Tables;
use texts::answer;

// Between two lines. Before the first accepted `P` it is not open, and its tables are nobody's. A flag and no Option: the tables stay
// a plain variable of who answers line after line, since to hand them on out of an Option copies them for every line.
#[derive(Clone, Copy)]
pub struct Session {
    pub open: bool,
    pub tables: Tables,
}

// What a command answers, and the session after it.
#[derive(Clone, Copy)]
pub struct Response {
    pub numbers: Numbers,
    pub session: Session,
}

// Before the first line.
pub fn closed() -> Session
    ensures { result ≡ closed_session }
{
    Session {
        open: false,
        tables: tables::fresh::fresh(0),
    }
}

// ---- numbers, and the session after them

fn holding(numbers: Numbers, tables: Tables) -> Response
    ensures { result ≡ record { numbers = numbers; session = holding tables } }
{
    Response {
        numbers,
        session: Session { open: true, tables },
    }
}

// What is said of a line that is not read.
pub fn unread() -> Numbers
    ensures { result ≡ stored (refusal_number LineNotUnderstood ∷ 0 ∷ 0 ∷ []) }
{
    answer::answered(numbers::refusal_number(Refusal::NotUnderstood), 0, 0)
}

fn not_read(session: Session) -> Response
    ensures { result ≡ not_read session }
{
    Response {
        numbers: unread(),
        session,
    }
}

pub fn numbers_of(a: Answer) -> Numbers
    ensures { result ≡ stored (answer_numbers a) }
{
    let refusal = numbers::refusal_number(a.refusal);
    let reply = numbers::reply_number(a.reply);
    answer::answered(refusal, a.number, reply)
}

fn after_event(a: Answered) -> Response
    ensures { result ≡ after_event a }
{
    holding(numbers_of(a.answer), a.tables)
}

fn after_open(a: Answered) -> Response
    ensures { result ≡ after_open a }
{
    Response {
        numbers: numbers_of(a.answer),
        session: Session {
            open: numbers::accepted(a.answer.refusal),
            tables: a.tables,
        },
    }
}

// The number is the steps, and the reply 0.
fn after_settle(s: Settled) -> Response
    ensures { result ≡ after_settle s }
{
    let refusal = numbers::refusal_number(s.refusal);
    holding(answer::answered(refusal, s.tally.steps, 0), s.tables)
}

// ---- the commands, once the tables are open

fn on_settle(t: Tables, n: u32) -> Response
    ensures { result ≡ after_settle (settled t n zero_tally) }
{
    after_settle(run::settle_by_value(t, n, run::zero_tally()))
}

fn on_unread(t: Tables) -> Response
    ensures { result ≡ not_read (holding t) }
{
    not_read(Session {
        open: true,
        tables: t,
    })
}

pub fn totals(t: Tables) -> Numbers
    ensures { result ≡ stored (total_numbers (view t)) }
{
    let sums = counts::totals_of(t);
    answer::totals(sums.entries, sums.backpointers, sums.records, sums.messages)
}

pub fn square(t: Tables) -> Numbers
    ensures { result ≡ stored (refusal_number Refusal.Accepted ∷ square (view t)) }
{
    answer::square(counts::lengths_of(t), t.count)
}

// An answer with its tables is long: one variable for all the events, and a function for each of the other arms. Its frame has room for
// any of them, so it stays out of line: who answers line after line does not pay for it where it is not called.
#[inline(never)]
fn respond_to(c: Command, t: Tables) -> Response
    ensures { result ≡ responded_to c.verb c t }
{
    let [first, second, _, fourth, fifth] = c.numbers;
    let event = match c.verb {
        Verb::Link => events::link(t, first, second, c.name, fourth, fifth),
        Verb::Create => events::create(t, first, second, c.name, fourth, fifth),
        Verb::Unlink => events::unlink(t, first, second, c.name),
        Verb::Advance => events::advance(t, first, second),
        Verb::Deliver => events::deliver(t, first, second),
        Verb::Cut => events::cut(t, first, second),
        Verb::Crash => events::crash(t, first),
        Verb::Recover => events::recover(t, first),
        Verb::Settle => return on_settle(t, first),
        Verb::Totals => return holding(totals(t), t),
        Verb::Square => return holding(square(t), t),
        Verb::Open | Verb::NotUnderstood => return on_unread(t),
    };
    after_event(event)
}

// ---- before the first accepted `P`

fn open(s: Session, c: Command) -> Response
    ensures { result ≡ opened_by s c }
{
    if !matches!(c.verb, Verb::Open) {
        return not_read(s);
    }
    after_open(events::open(s.tables, c.numbers[0]))
}

pub fn respond(s: Session, c: Command) -> Response
    ensures { result ≡ responded s c }
{
    if !s.open {
        return open(s, c);
    }
    respond_to(c, s.tables)
}

// What is proved of sessions: the contract states it, and the function does nothing.
pub fn claims()
    ensures { Sessions }
{}
