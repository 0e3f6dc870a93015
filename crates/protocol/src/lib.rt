// The service's elements, as document 01, 'The tables' and 'Numbers returned', names them, and what is proved of the
// definitions in specs/: the contract of `claims` states it, and the function does nothing.
#![tactic(auto)]

ghost use Rattle.protocol.specs.Claims.{OrderKept, Safety, Settles, Settling, RefusalsKeep, OneOutcome, FailuresLast, Cases, Room};

use names::Name;

#[derive(Clone, Copy, PartialEq, Eq, Default)]
pub enum Kind {
    #[default]
    Link,
    Create,
    Unlink,
}

// Why a request to add is answered no: replies 3 to 6.
#[derive(Clone, Copy, PartialEq, Eq)]
pub enum Reason {
    PlaceTaken,
    ObjectIdle,
    ObjectInUse,
    BackpointersFull,
}

// Where a record stands: ready, sent, held or refused for link and create; ready, sent or cleared for unlink.
#[derive(Clone, Copy, PartialEq, Eq, Default)]
pub enum Stage {
    #[default]
    Ready,
    Sent,
    Held,
    Refused(Reason),
    Cleared,
}

// What a message says: a request, or the answer to one. A no to a request to add has its reason.
#[derive(Clone, Copy, PartialEq, Eq, Default)]
pub enum Body {
    #[default]
    Request,
    Yes,
    No,
    NoBecause(Reason),
}

// The number of a partition, and the object's number there, say which object a name means.
#[derive(Clone, Copy, PartialEq, Eq, Default)]
pub struct Entry {
    pub directory: u8,
    pub name: Name,
    pub partition: u8,
    pub object: u8,
    pub number: u32,
}

#[derive(Clone, Copy, PartialEq, Eq, Default)]
pub struct Backpointer {
    pub object: u8,
    pub parent: u8,
    pub directory: u8,
    pub name: Name,
    pub number: u32,
}

#[derive(Clone, Copy, PartialEq, Eq, Default)]
pub struct Record {
    pub kind: Kind,
    pub directory: u8,
    pub name: Name,
    pub partition: u8,
    pub object: u8,
    pub number: u32,
    pub stage: Stage,
}

#[derive(Clone, Copy, PartialEq, Eq, Default)]
pub struct Message {
    pub body: Body,
    pub kind: Kind,
    pub directory: u8,
    pub name: Name,
    pub partition: u8,
    pub object: u8,
    pub number: u32,
}

// What an advance tells the asker.
#[derive(Clone, Copy, PartialEq, Eq, Default)]
pub enum Reply {
    #[default]
    None,
    Done,
    NameTaken,
    Because(Reason),
}

// The next step of an open record.
#[derive(Clone, Copy, PartialEq, Eq)]
pub enum Next {
    Closes(Reply),
    Sends,
    Enters,
    Turns,
    TakesOut,
    Stays(Refusal),
}

// What the object's partition does with a request: it only says something, or says yes and adds or drops the back-pointer.
#[derive(Clone, Copy, PartialEq, Eq)]
pub enum Verdict {
    SaysOnly(Body),
    AddsIt,
    DropsIt,
}

// Why a call is refused: 0, accepted, to 23, in the order of document 01's table.
#[derive(Clone, Copy, PartialEq, Eq)]
pub enum Refusal {
    Accepted,
    OutOfRange,
    BadName,
    CutFromItself,
    Down,
    IsUp,
    NameExists,
    NameAbsent,
    RecordOpen,
    LogFull,
    EntriesFull,
    NumbersSpent,
    NoRecord,
    RecordSent,
    TowardsDown,
    QueueEmpty,
    OutOfOrder,
    EndsEarly,
    MarkNotAllowed,
    FieldOutOfRange,
    CountWrong,
    BytesAfterClose,
    RoomTooShort,
    NotUnderstood,
}

// What a call answers: the refusal, the transaction number concerned, the reply. No Result: a refusal gives all three, and they are
// told as they are (`OneOutcome` and the definitions of Answers speak of the three).
#[derive(Clone, Copy, PartialEq, Eq)]
pub struct Answer {
    pub refusal: Refusal,
    pub number: u32,
    pub reply: Reply,
}

// What a settling run counts: its steps, its replies 1 and its other replies.
#[derive(Clone, Copy, PartialEq, Eq, Default)]
pub struct Tally {
    pub steps: u32,
    pub ones: u32,
    pub others: u32,
}

pub fn claims()
    ensures { OrderKept × Safety × Settles × Settling × RefusalsKeep × OneOutcome × FailuresLast × Cases × Room }
{}
