// A whole picture, read: header, sections, close.
ghost use Rattle.std.specs.Prelude.{◌≡◌, ◌+◌, ◌≤◌, length, drop, IfOk};
ghost use Rattle.tables.specs.View.{Ranged};
ghost use Rattle.picture.specs.Rows.{read_table};
ghost use Rattle.picture.specs.Picture.{first, head_size, sections, closing};
ghost use Rattle.picture.specs.Answers.{tabled, Tabled, told_close, Pictured};

use crate::sections::read_all;
use decoding::bytes;
use picture::{CLOSE_MARK, CLOSE_SIZE, HEAD_SIZE, Head, Picture, Sections};
use protocol::{Backpointer, Entry, Record, Refusal};
use tables::{MAX_BACKPOINTERS, MAX_ENTRIES, MAX_RECORDS, Partition};

// The sections behind the header.
pub fn read_sections(s: &[u8], head: Head) -> Result<Sections, Refusal>
    requires { head_size ≤ length s.now }
    ensures reading { tabled s.now result ≡ read_table (sections first) head (drop head_size s.now) }
    ensures stored { IfOk result (λ t. Tabled head s.now t) }
{
    let entries = read_all::<Entry, MAX_ENTRIES>(s, HEAD_SIZE, head)?;
    let backpointers = read_all::<Backpointer, MAX_BACKPOINTERS>(s, entries.end, head)?;
    let records = read_all::<Record, MAX_RECORDS>(s, backpointers.end, head)?;
    let tables = Partition {
        up: false,
        last: head.last,
        entries: entries.list,
        backpointers: backpointers.list,
        records: records.list,
    };
    Ok(Sections {
        tables,
        end: records.end,
    })
}

// The close at a place, of a picture of n records. Not `decode`: it has its count to agree with, and nothing may follow.
pub fn close_at(s: &[u8], at: usize, n: u32) -> Result<(), Refusal>
    requires { at ≤ length s.now }
    ensures { told_close n result ≡ closing n (drop at s.now) }
{
    let left = s.len() - at;
    if left < CLOSE_MARK.len() {
        return Err(Refusal::EndsEarly);
    }
    if !bytes::begins_with(s, at, CLOSE_MARK) {
        return Err(Refusal::MarkNotAllowed);
    }
    if left < CLOSE_SIZE {
        return Err(Refusal::EndsEarly);
    }
    if u32::from(bytes::get_u16(s, at + 2)) != n {
        return Err(Refusal::CountWrong);
    }
    if CLOSE_SIZE < left {
        return Err(Refusal::BytesAfterClose);
    }
    Ok(())
}

// How many records there are together.
pub fn total(x: &Partition) -> u32
    requires { Ranged x.now }
    ensures { result ≡ x.now.entries.count + x.now.backpointers.count + x.now.records.count }
{
    (x.entries.count + x.backpointers.count + x.records.count) as u32
}

// What the bytes show, record by record, or the refusal of the first record that is refused.
pub fn read_picture(s: &[u8]) -> Result<Picture, Refusal>
    ensures { Pictured s.now result }
{
    let head = decoding::read_head(s)?;
    let Sections { tables, end } = read_sections(s, head)?;
    close_at(s, end, total(&tables))?;
    Ok(Picture { head, tables })
}
