// The next step of an open record (document 01, 'The nine events', 4).
ghost use Rattle.std.specs.Prelude.{◌≡◌};
ghost use Rattle.lists.specs.Lists.{is_some, keep};
ghost use Rattle.protocol.specs.Advance.{next_to_add, next_to_remove, next_of};
ghost use Rattle.protocol.specs.Tables.{entry_bears, stands_under};
ghost use Rattle.tables.specs.View.{entries_of};

use protocol::{Kind, Next, Record, Refusal, Reply, Stage};
use tables::{Entries, reads};

pub fn next_to_add(stage: Stage, entered: bool, taken: bool) -> Next
    ensures { result ≡ next_to_add stage entered taken }
{
    match (stage, entered) {
        (Stage::Sent, _) => Next::Stays(Refusal::RecordSent),
        (Stage::Cleared, _) => Next::Stays(Refusal::OutOfOrder),
        (_, true) => Next::Closes(Reply::None),
        (Stage::Ready, false) => Next::Sends,
        (Stage::Held, false) if taken => Next::Turns,
        (Stage::Held, false) => Next::Enters,
        (Stage::Refused(why), false) => Next::Closes(Reply::Because(why)),
    }
}

pub fn next_to_remove(stage: Stage, entered: bool) -> Next
    ensures { result ≡ next_to_remove stage entered }
{
    match stage {
        Stage::Ready if entered => Next::TakesOut,
        Stage::Ready => Next::Sends,
        Stage::Sent => Next::Stays(Refusal::RecordSent),
        Stage::Held | Stage::Refused(_) => Next::Stays(Refusal::OutOfOrder),
        Stage::Cleared => Next::Closes(Reply::None),
    }
}

pub fn next_of(kind: Kind, stage: Stage, entered: bool, taken: bool) -> Next
    ensures { result ≡ next_of kind stage entered taken }
{
    match kind {
        Kind::Link | Kind::Create => next_to_add(stage, entered, taken),
        Kind::Unlink => next_to_remove(stage, entered),
    }
}

pub fn next_step(l: &Entries, r: Record) -> Next
    ensures { result ≡ next_of r.kind r.stage (is_some (keep (entry_bears r.number) (entries_of l.now))) (is_some (keep (stands_under r.directory r.name) (entries_of l.now))) }
{
    let entered = reads::find_entry(l, r.number).is_some();
    let taken = reads::find_name(l, r.directory, r.name).is_some();
    next_of(r.kind, r.stage, entered, taken)
}
