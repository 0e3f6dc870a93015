// A partition's picture at the start of lent room: its size, its header, and all of it.
ghost use Rattle.std.specs.Prelude.{◌≡◌, ◌<◌, ◌≤◌, length};
ghost use Rattle.codec.specs.Over.{over};
ghost use Rattle.protocol.specs.Bounds.{max_partitions};
ghost use Rattle.tables.specs.View.{view, Ranged};
ghost use Rattle.picture.specs.Picture.{first, picture_of, put, write};
ghost use Rattle.picture.specs.Answers.{items_in};
ghost use Rattle.picture.specs.Store.{written_into};
ghost use Rattle.picture.proofs.Lengths.{sized};
ghost use Rattle.writing.specs.Written.{after};

use crate::encode::{put_all, put_close, put_head};
use answers::here::Here;
use picture::{BACKPOINTER_SIZE, CLOSE_SIZE, ENTRY_SIZE, HEAD_SIZE, Head, RECORD_SIZE};
use protocol::Refusal;
use tables::Partition;

// How many bytes the picture of a partition has.
pub fn size_of(x: Partition) -> usize
    requires { Ranged x }
    ensures { result ≡ sized x.entries.count x.backpointers.count x.records.count }
{
    let entries = ENTRY_SIZE * x.entries.count;
    let backpointers = BACKPOINTER_SIZE * x.backpointers.count;
    let records = RECORD_SIZE * x.records.count;
    HEAD_SIZE + (entries + (backpointers + (records + CLOSE_SIZE)))
}

// The header of partition p of so many.
pub fn head_of(p: usize, count: usize, last: u32) -> Head
    requires { (p < max_partitions) × (count ≤ max_partitions) }
    ensures { (result.partition ≡ p) × (result.count ≡ count) × (result.last ≡ last) }
{
    Head {
        partition: p as u8,
        count: count as u8,
        last,
    }
}

// Header, entries, back-pointers, records and close, one behind another.
pub fn put_picture(buf: &mut [u8], head: Head, x: Partition)
    requires { Ranged x × (sized x.entries.count x.backpointers.count x.records.count ≤ length buf.old) }
    ensures { buf.new ≡ over buf.old 0 (put first head (items_in x)) }
{
    put_head(buf, head);
    let a = put_all(buf, HEAD_SIZE, x.entries.listed());
    let b = put_all(buf, a, x.backpointers.listed());
    let c = put_all(buf, b, x.records.listed());
    let n = x.entries.count + x.backpointers.count + x.records.count;
    put_close(buf, c, n as u16);
}

// The picture of the partition that is here.
pub fn write_there(here: Here, room: &mut [u8]) -> Result<usize, Refusal>
    ensures { let t = here.entry.tables.now in after result room.new ≡ written_into (write first (picture_of (view t) here.entry.at)) room.old }
{
    let x = *here.own();
    let size = size_of(x);
    if room.len() < size {
        return Err(Refusal::RoomTooShort);
    }
    put_picture(room, head_of(here.at, here.tables.count, x.last), x);
    Ok(size)
}
