// What a command does where it changes one partition only (link, create, unlink, advance, deliver and recover), loses something
// (cut and crash) or only says something. The tables are lent, and not given back: who holds them stores what is done where they stand.
#![tactic(auto)]

ghost use Rattle.std.specs.Prelude.{IfSome, MatchOption, false, true, ltb, ◌≡◌};
ghost use Rattle.protocol.specs.Ask.{ask};
ghost use Rattle.tables.specs.View.{Sized, view};
ghost use Rattle.answers.specs.Called.{Ready, refused_with, tested};
ghost use Rattle.faults.specs.Suffered.{suffered};
ghost use Rattle.rehearsal.specs.Rehearsal.{argument};
ghost use Rattle.rehearsal.specs.declared.Verb.TheVariants.{Advance, Crash, Cut, Deliver, Recover, Unlink};
ghost use Rattle.deeds.specs.Deeds.{Does, numbers_said};
ghost use Rattle.sessions.specs.Session.{after_event, responded, responded_to};

use answers::changes::{Change, keeps};
use answers::here::Here;
use answers::is_there;
use asks::Naming;
use losses::Loss;
use protocol::{Kind, Refusal};
use rehearsal::{Command, Numbers, Verb};
use sessions::numbers_of;
use tables::Tables;
use texts::answer;

// What a command does: a change is stored, something is lost, or nothing is done and this is said.
#[derive(Clone, Copy)]
pub enum Deed {
    Changes(Change),
    Loses(Loss),
    Says(Numbers),
}

// What is said of it: what is lost is lost with no number and no reply.
pub fn numbers_said(d: Deed) -> Numbers
    ensures { result ≡ numbers_said d }
{
    match d {
        Deed::Changes(change) => numbers_of(change.answer),
        Deed::Loses(_) => answer::answered(0, 0, 0),
        Deed::Says(numbers) => numbers,
    }
}

// Tables that are in order, lent: a `Here` is one of their partitions.
#[derive(Clone, Copy)]
struct Ordered<'a> {
    tables: &'a Tables,
    ghost sized: { Sized tables.now },
    ghost ready: { Ready tables.now },
}

impl<'a> Ordered<'a> {
    // Partition p of them, if it is there.
    fn here(self, p: u32) -> Option<Here<'a>>
        ensures { let t = self.entry.tables.now in MatchOption result (ltb p t.count ≡ false) (λ here. (here.tables.now ≡ t) × (here.at ≡ p)) }
    {
        if !is_there(self.tables.count, p) {
            return None;
        }
        Some(Here {
            tables: self.tables,
            at: p as usize,
        })
    }

    // A refusal changes nothing: the first partition is stored as it is.
    fn refused(self, why: Refusal) -> Deed
        ensures { let t = self.entry.tables.now in Does result t (after_event (refused_with t why)) }
    {
        Deed::Changes(keeps(0, self.tables.partitions[0], why))
    }

    // A link or a create.
    fn ask(self, kind: Kind, c: Command) -> Deed
        ensures { let t = self.entry.tables.now in Does result t (after_event (tested t (ask kind (view t) (argument c 0) (argument c 1) c.name (argument c 3) (argument c 4)))) }
    {
        let [p, directory, _, partition, object] = c.numbers;
        let Some(here) = self.here(p) else {
            return self.refused(Refusal::OutOfRange);
        };
        let naming = Naming {
            kind,
            directory,
            name: c.name,
            partition,
            object,
        };
        Deed::Changes(asks::ask_change(here, naming))
    }

    fn unlink(self, c: Command) -> Deed
        ensures { let t = self.entry.tables.now in Does result t (responded_to Unlink c t) }
    {
        let [p, directory, _, _, _] = c.numbers;
        let Some(here) = self.here(p) else {
            return self.refused(Refusal::OutOfRange);
        };
        Deed::Changes(asks::unlink_change(here, directory, c.name))
    }

    fn advance(self, c: Command) -> Deed
        ensures { let t = self.entry.tables.now in Does result t (responded_to Advance c t) }
    {
        let [p, number, _, _, _] = c.numbers;
        let Some(here) = self.here(p) else {
            return self.refused(Refusal::OutOfRange);
        };
        Deed::Changes(advances::advance_change(here, number))
    }

    fn deliver(self, c: Command) -> Deed
        ensures { let t = self.entry.tables.now in Does result t (responded_to Deliver c t) }
    {
        let [s, r, _, _, _] = c.numbers;
        let (Some(from), Some(to)) = (self.here(s), self.here(r)) else {
            return self.refused(Refusal::OutOfRange);
        };
        Deed::Changes(deliveries::deliver_change(to, from.at))
    }

    fn recover(self, c: Command) -> Deed
        ensures { let t = self.entry.tables.now in Does result t (responded_to Recover c t) }
    {
        let Some(here) = self.here(c.numbers[0]) else {
            return self.refused(Refusal::OutOfRange);
        };
        Deed::Changes(faults::recover_change(here))
    }

    // ---- cut and crash

    fn with_fault(self, fault: Result<Loss, Refusal>) -> Deed
        ensures { let t = self.entry.tables.now in Does result t (after_event (suffered t fault)) }
    {
        match fault {
            Ok(loss) => Deed::Loses(loss),
            Err(why) => self.refused(why),
        }
    }

    fn cut(self, c: Command) -> Deed
        ensures { let t = self.entry.tables.now in Does result t (responded_to Cut c t) }
    {
        self.with_fault(faults::cut_fault(self.tables, c.numbers[0], c.numbers[1]))
    }

    fn crash(self, c: Command) -> Deed
        ensures { let t = self.entry.tables.now in Does result t (responded_to Crash c t) }
    {
        self.with_fault(faults::crash_fault(self.tables, c.numbers[0]))
    }

    // ---- any command

    fn done_to(self, c: Command) -> Option<Deed>
        ensures { let t = self.entry.tables.now in IfSome result (λ d. Does d t (responded_to c.verb c t)) }
    {
        let deed = match c.verb {
            Verb::Link => self.ask(Kind::Link, c),
            Verb::Create => self.ask(Kind::Create, c),
            Verb::Unlink => self.unlink(c),
            Verb::Advance => self.advance(c),
            Verb::Deliver => self.deliver(c),
            Verb::Cut => self.cut(c),
            Verb::Crash => self.crash(c),
            Verb::Recover => self.recover(c),
            _ => return None,
        };
        Some(deed)
    }
}

// What an event does: the order is tested for the events only.
fn event_deed(t: &Tables, c: Command) -> Option<Deed>
    ensures { IfSome result (λ d. Does d t.now (responded_to c.verb c t.now)) }
{
    if !order::lent_in_order(t) {
        return None;
    }
    Ordered { tables: t }.done_to(c)
}

// What a command does to tables, if they are open and it is known here: a settling run is not, whose steps `respond` takes.
pub fn deed_of(running: bool, t: &Tables, c: Command) -> Option<Deed>
    ensures { IfSome result (λ d. (running ≡ true) × Does d t.now (responded (record { «open» = running; tables = t.now }) c)) }
{
    if !running {
        return None;
    }
    match c.verb {
        Verb::Open => Some(Deed::Says(sessions::unread())),
        Verb::NotUnderstood => Some(Deed::Says(sessions::unread())),
        Verb::Totals => Some(Deed::Says(sessions::totals(*t))),
        Verb::Square => Some(Deed::Says(sessions::square(*t))),
        Verb::Settle => None,
        _ => event_deed(t, c),
    }
}
