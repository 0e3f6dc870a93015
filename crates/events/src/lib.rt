// The nine events by document 01's names, on the tables by value. Each answers any tables and any numbers exactly as its definition
// does, and gives back the tables as they were where it refuses.
#![tactic(auto)]

ghost use Rattle.std.specs.Prelude.{false, ◌&&◌, ◌≡◌};
ghost use Rattle.protocol.specs.Events.{advancing, crashing, creating, cutting, delivering, linking, opening, recovering, unlinking};
ghost use Rattle.protocol.specs.Order.{in_order};
ghost use Rattle.protocol.specs.declared.Refusal.TheVariants.{OutOfOrder};
ghost use Rattle.tables.specs.View.{shaped, view};
ghost use Rattle.answers.specs.Called.{Ready, called, refused_with};

use answers::{Answered, accepted, refused};
use names::Name;
use protocol::{Kind, Refusal, Reply};
use tables::Tables;

// What an event does to tables that are in order; others are refused.
fn tested<F: FnOnce(Tables) -> Answered>(t: Tables, event: F) -> Answered
    requires { Ready t → F.pre event t }
    ensures passed { Ready t → F.post event t result }
    ensures refused { (shaped t && in_order (view t)) ≡ false → result ≡ refused_with t OutOfOrder }
{
    if !order::in_order(t) {
        return refused(t, Refusal::OutOfOrder);
    }
    event(t)
}

pub fn link(t: Tables, p: u32, d: u32, name: Name, q: u32, o: u32) -> Answered
    ensures { result ≡ called t (linking p d name q o) }
{
    asks::ask(Kind::Link, t, p, d, name, q, o)
}

pub fn create(t: Tables, p: u32, d: u32, name: Name, q: u32, o: u32) -> Answered
    ensures { result ≡ called t (creating p d name q o) }
{
    asks::ask(Kind::Create, t, p, d, name, q, o)
}

pub fn unlink(t: Tables, p: u32, d: u32, name: Name) -> Answered
    ensures { result ≡ called t (unlinking p d name) }
{
    tested(t, |t| asks::unlink_in_order(t, p, d, name))
}

pub fn advance(t: Tables, p: u32, number: u32) -> Answered
    ensures { result ≡ called t (advancing p number) }
{
    tested(t, |t| advances::advance_in_order(t, p, number))
}

pub fn deliver(t: Tables, s: u32, r: u32) -> Answered
    ensures { result ≡ called t (delivering s r) }
{
    tested(t, |t| deliveries::deliver_in_order(t, s, r))
}

pub fn cut(t: Tables, a: u32, b: u32) -> Answered
    ensures { result ≡ called t (cutting a b) }
{
    tested(t, |t| faults::cut_in_order(t, a, b))
}

pub fn crash(t: Tables, p: u32) -> Answered
    ensures { result ≡ called t (crashing p) }
{
    tested(t, |t| faults::crash_in_order(t, p))
}

pub fn recover(t: Tables, p: u32) -> Answered
    ensures { result ≡ called t (recovering p) }
{
    tested(t, |t| faults::recover_in_order(t, p))
}

// There are no tables to test: those that are lent come back where the count is refused.
pub fn open(t: Tables, k: u32) -> Answered
    ensures { result ≡ called t (opening k) }
{
    if !faults::is_count(k) {
        return refused(t, Refusal::OutOfRange);
    }
    accepted(tables::fresh::fresh(k as usize), 0, Reply::None)
}
