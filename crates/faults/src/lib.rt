// Cut, crash, recover and open (document 01, 'The nine events', 6 to 9).
#![tactic(auto)]

ghost use Rattle.std.specs.Prelude.{MatchResult, false, true, ◌&&◌, ◌≡◌, ◌<◌, leb, ltb};
ghost use Rattle.protocol.specs.Bounds.{max_partitions};
ghost use Rattle.protocol.specs.Faults.{crash, cut, recover};
ghost use Rattle.protocol.specs.declared.Refusal.TheVariants.{Down, OutOfRange};
ghost use Rattle.tables.specs.View.{partition_at, view};
ghost use Rattle.answers.specs.Called.{Ready, stored};
ghost use Rattle.answers.specs.Change.{Applies, applied};
ghost use Rattle.faults.specs.Suffered.{suffered};

use advances::is_up;
use answers::changes::{Change, apply};
use answers::here::Here;
use answers::{Answered, accepted, is_there, refused};
use losses::Loss;
use protocol::{Refusal, Reply};
use tables::{MAX_PARTITIONS, Partition, Tables, reads};

// ---- cut and crash: what is lost, or why it is refused

fn suffer(t: Tables, fault: Result<Loss, Refusal>) -> Answered
    requires { Ready t }
    ensures { result ≡ suffered t fault }
{
    match fault {
        Err(why) => refused(t, why),
        Ok(loss) => accepted(losses::lose(loss, t), 0, Reply::None),
    }
}

// Where partition p stands.
fn there(t: &Tables, p: u32) -> Result<usize, Refusal>
    ensures { MatchResult result (λ i. (i ≡ p) × (ltb p t.now.count ≡ true)) (λ why. (why ≡ OutOfRange) × (ltb p t.now.count ≡ false)) }
{
    if !is_there(t.count, p) {
        return Err(Refusal::OutOfRange);
    }
    Ok(p as usize)
}

// Partition p has to be up.
fn up(t: &Tables, p: usize) -> Result<(), Refusal>
    requires { p < max_partitions }
    ensures { MatchResult result (λ _. (partition_at t.now p).up ≡ true) (λ why. (why ≡ Down) × ((partition_at t.now p).up ≡ false)) }
{
    if !is_up(t, p) {
        return Err(Refusal::Down);
    }
    Ok(())
}

// What the cut does: it is for who stores it.
pub fn cut_fault(t: &Tables, a: u32, b: u32) -> Result<Loss, Refusal>
    requires { Ready t.now }
    ensures { suffered t.now result ≡ stored t.now (cut (view t.now) a b) }
{
    reads::are_sized(*t);
    let from = there(t, a)?;
    let to = there(t, b)?;
    if from == to {
        return Err(Refusal::CutFromItself);
    }
    up(t, from)?;
    up(t, to)?;
    Ok(Loss::Cut(from, to))
}

pub fn cut_in_order(t: Tables, a: u32, b: u32) -> Answered
    requires { Ready t }
    ensures { result ≡ stored t (cut (view t) a b) }
{
    suffer(t, cut_fault(&t, a, b))
}

// What the crash does: it is for who stores it.
pub fn crash_fault(t: &Tables, p: u32) -> Result<Loss, Refusal>
    requires { Ready t.now }
    ensures { suffered t.now result ≡ stored t.now (crash (view t.now) p) }
{
    reads::are_sized(*t);
    let at = there(t, p)?;
    up(t, at)?;
    Ok(Loss::Crash(at))
}

pub fn crash_in_order(t: Tables, p: u32) -> Answered
    requires { Ready t }
    ensures { result ≡ stored t (crash (view t) p) }
{
    suffer(t, crash_fault(&t, p))
}

// ---- recover

// What the recovery does: it is for who stores it.
pub fn recover_change(here: Here) -> Change
    ensures result_value { let t = here.entry.tables.now in applied t result ≡ stored t (recover (view t) here.entry.at) }
    ensures applies { Applies here.entry.tables.now result }
{
    let mut own = *here.own();
    if own.up {
        return here.keeps(Refusal::IsUp);
    }
    own.up = true;
    here.changes(own, 0, Reply::None)
}

pub fn recover_in_order(t: Tables, p: u32) -> Answered
    requires { Ready t }
    ensures { result ≡ stored t (recover (view t) p) }
{
    if !is_there(t.count, p) {
        return refused(t, Refusal::OutOfRange);
    }
    let here = Here {
        tables: &t,
        at: p as usize,
    };
    apply(t, recover_change(here))
}

// ---- open

// Whether there may be k partitions.
pub fn is_count(k: u32) -> bool
    ensures { result ≡ (leb 1 k && leb k max_partitions) }
{
    1 <= k && k <= MAX_PARTITIONS as u32
}
