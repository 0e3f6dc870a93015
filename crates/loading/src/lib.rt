// A picture put into a partition that is down, on any tables and any bytes, exactly as document 01's definition says. `load`, at
// the end, is for others; what stands before it is its own.
#![tactic(auto)]

ghost use Rattle.std.specs.Prelude.{◌&&◌, ◌≡◌, ◌<◌, eqb};
ghost use Rattle.protocol.specs.Bounds.{max_partitions};
ghost use Rattle.protocol.specs.Tables.{set_partition};
ghost use Rattle.tables.specs.View.{pack, pack_partition, Stored, view, view_partition};
ghost use Rattle.answers.specs.Called.{stored};
ghost use Rattle.picture.specs.Picture.{first, read};
ghost use Rattle.picture.specs.Store.{load_read, load_tables};
ghost use Rattle.loading.specs.Loaded.{loaded, replaced, shown_by};

use answers::here::Here;
use answers::{Answered, accepted, is_there, refused};
use picture::{Head, Picture};
use protocol::{Refusal, Reply};
use reading::read_picture;
use tables::{Partition, Tables};

// Whether a header is that of partition p of so many.
fn is_for(head: Head, p: usize, count: usize) -> bool
    ensures { result ≡ (eqb head.partition p && eqb head.count count) }
{
    usize::from(head.partition) == p && usize::from(head.count) == count
}

// The whole of partition p.
fn with_partition(mut t: Tables, p: usize, x: Partition) -> Tables
    requires { Stored t p × (p < max_partitions) × (pack_partition (view_partition x) ≡ x) }
    ensures { result ≡ pack (set_partition (view t) p (view_partition x)) }
{
    t.partitions[p] = x;
    t
}

// The tables x take the place of the partition's that is here, if what comes of it is in order.
fn replace(here: Here, x: Partition) -> Answered
    requires { pack_partition (view_partition x) ≡ x }
    ensures { let t = here.entry.tables.now in result ≡ stored t (replaced (view t) (set_partition (view t) here.entry.at (view_partition x))) }
{
    let next = with_partition(*here.tables, here.at, x);
    if !order::in_order(next) {
        return refused(*here.tables, Refusal::OutOfOrder);
    }
    accepted(next, 0, Reply::None)
}

// A picture that was read.
fn load_shown(here: Here, shown: Picture) -> Answered
    requires { pack_partition (view_partition shown.tables) ≡ shown.tables }
    ensures { let t = here.entry.tables.now in result ≡ stored t (load_tables (view t) here.entry.at (shown_by shown.head shown.tables)) }
{
    if !is_for(shown.head, here.at, here.tables.count) {
        return refused(*here.tables, Refusal::FieldOutOfRange);
    }
    if here.own().up {
        return refused(*here.tables, Refusal::IsUp);
    }
    replace(here, shown.tables)
}

// The partition is there.
fn load_there(here: Here, bytes: &[u8]) -> Answered
    ensures { let t = here.entry.tables.now in result ≡ stored t (load_read (view t) here.entry.at (read first bytes.now)) }
{
    match read_picture(bytes) {
        Ok(shown) => load_shown(here, shown),
        Err(why) => refused(*here.tables, why),
    }
}

// The bytes into partition p; its number is 0 and its reply none. A refusal gives back the tables as they were.
pub fn load(t: Tables, p: u32, bytes: &[u8]) -> Answered
    ensures { result ≡ loaded t p bytes.now }
{
    if !order::in_order(t) {
        return refused(t, Refusal::OutOfOrder);
    }
    if !is_there(t.count, p) {
        return refused(t, Refusal::OutOfRange);
    }
    let here = Here {
        tables: &t,
        at: p as usize,
    };
    load_there(here, bytes)
}
