// What a request is answered at the object's partition, by the back-pointers there (document 01, 'The nine events', 5).
#![tactic(auto)]

ghost use Rattle.std.specs.Prelude.{◌≡◌, ◌≤◌, eqb, leb, length};
ghost use Rattle.lists.specs.Lists.{is_none, keep, pick};
ghost use Rattle.protocol.specs.Bounds.{max_backpointers};
ghost use Rattle.protocol.specs.Deliver.{add_verdict, drop_verdict, is_exactly, of_object, to_add, unless_full, verdict_of};
ghost use Rattle.protocol.specs.declared.Body.TheVariants.{NoBecause, Yes};
ghost use Rattle.protocol.specs.declared.Reason.TheVariants.{PlaceTaken};
ghost use Rattle.protocol.specs.declared.Verdict.TheVariants.{SaysOnly};
ghost use Rattle.tables.specs.View.{backpointers_of};

use protocol::{Backpointer, Body, Kind, Message, Reason, Verdict};
use tables::{Backpointers, MAX_BACKPOINTERS, reads};

// Whether the object has no back-pointer.
fn is_idle(l: &Backpointers, object: u8) -> bool
    ensures { result ≡ is_none (keep (of_object object) (backpointers_of l.now)) }
{
    reads::find_object(l, object).is_none()
}

fn is_full(l: &Backpointers) -> bool
    ensures { result ≡ leb max_backpointers (length (backpointers_of l.now)) }
{
    MAX_BACKPOINTERS <= l.listed().len()
}

fn unless_full(full: bool) -> Verdict
    ensures { result ≡ unless_full full }
{
    if full {
        return Verdict::SaysOnly(Body::NoBecause(Reason::BackpointersFull));
    }
    Verdict::AddsIt
}

// Nothing stands in the place of the request.
fn add_verdict(kind: Kind, l: &Backpointers, object: u8) -> Verdict
    ensures { result ≡ add_verdict kind (keep (of_object object) (backpointers_of l.now)) (leb max_backpointers (length (backpointers_of l.now))) }
{
    let idle = is_idle(l, object);
    match kind {
        Kind::Link if idle => Verdict::SaysOnly(Body::NoBecause(Reason::ObjectIdle)),
        Kind::Create if !idle => Verdict::SaysOnly(Body::NoBecause(Reason::ObjectInUse)),
        Kind::Link | Kind::Create => unless_full(is_full(l)),
        // not asked: an unlink asks to remove
        Kind::Unlink => Verdict::SaysOnly(Body::No),
    }
}

// The back-pointer b stands in the place of the request x.
fn held_verdict(b: Backpointer, x: Message) -> Verdict
    ensures { result ≡ pick (eqb b.number x.number) (SaysOnly Yes) (SaysOnly (NoBecause PlaceTaken)) }
{
    if b.number == x.number {
        return Verdict::SaysOnly(Body::Yes);
    }
    Verdict::SaysOnly(Body::NoBecause(Reason::PlaceTaken))
}

fn to_add(kind: Kind, l: &Backpointers, s: u8, x: Message) -> Verdict
    requires { l.now.count ≤ max_backpointers }
    ensures { result ≡ to_add kind (backpointers_of l.now) s x }
{
    match reads::find_place(l, x.object, s, x.directory, x.name) {
        Some(i) => held_verdict(l.items[i], x),
        None => add_verdict(kind, l, x.object),
    }
}

fn to_remove(l: &Backpointers, s: u8, x: Message) -> Verdict
    ensures { result ≡ drop_verdict (keep (is_exactly s x) (backpointers_of l.now)) }
{
    if reads::find_exactly(l, s, &x).is_some() {
        return Verdict::DropsIt;
    }
    Verdict::SaysOnly(Body::No)
}

// The request x came from partition s.
pub fn verdict(l: &Backpointers, s: u8, x: Message) -> Verdict
    requires { l.now.count ≤ max_backpointers }
    ensures { result ≡ verdict_of x.kind (backpointers_of l.now) s x }
{
    match x.kind {
        Kind::Link | Kind::Create => to_add(x.kind, l, s, x),
        Kind::Unlink => to_remove(l, s, x),
    }
}
