// The numbers of refusals and replies, as document 01, 'Numbers returned', has them, and what is asked of them.
#![tactic(auto)]

ghost use Rattle.std.specs.Prelude.{◌≡◌};
ghost use Rattle.protocol.specs.Elements.{is_accepted, is_one, is_other, reason_number, refusal_number, reply_number};

use protocol::{Reason, Refusal, Reply};

// Not a `From`: the number is the document's, asked for by its name, and the match would be the same.
pub fn refusal_number(r: Refusal) -> u32
    ensures { result ≡ refusal_number r }
{
    match r {
        Refusal::Accepted => 0,
        Refusal::OutOfRange => 1,
        Refusal::BadName => 2,
        Refusal::CutFromItself => 3,
        Refusal::Down => 4,
        Refusal::IsUp => 5,
        Refusal::NameExists => 6,
        Refusal::NameAbsent => 7,
        Refusal::RecordOpen => 8,
        Refusal::LogFull => 9,
        Refusal::EntriesFull => 10,
        Refusal::NumbersSpent => 11,
        Refusal::NoRecord => 12,
        Refusal::RecordSent => 13,
        Refusal::TowardsDown => 14,
        Refusal::QueueEmpty => 15,
        Refusal::OutOfOrder => 16,
        Refusal::EndsEarly => 17,
        Refusal::MarkNotAllowed => 18,
        Refusal::FieldOutOfRange => 19,
        Refusal::CountWrong => 20,
        Refusal::BytesAfterClose => 21,
        Refusal::RoomTooShort => 22,
        Refusal::NotUnderstood => 23,
    }
}

pub fn accepted(r: Refusal) -> bool
    ensures { result ≡ is_accepted r }
{
    r == Refusal::Accepted
}

fn reason_number(why: Reason) -> u32
    ensures { result ≡ reason_number why }
{
    match why {
        Reason::PlaceTaken => 3,
        Reason::ObjectIdle => 4,
        Reason::ObjectInUse => 5,
        Reason::BackpointersFull => 6,
    }
}

pub fn reply_number(r: Reply) -> u32
    ensures { result ≡ reply_number r }
{
    match r {
        Reply::None => 0,
        Reply::Done => 1,
        Reply::NameTaken => 2,
        Reply::Because(why) => reason_number(why),
    }
}

pub fn is_one(r: Reply) -> bool
    ensures { result ≡ is_one r }
{
    r == Reply::Done
}

// Replies 2 to 6.
pub fn is_other(r: Reply) -> bool
    ensures { result ≡ is_other r }
{
    matches!(r, Reply::NameTaken | Reply::Because(_))
}
