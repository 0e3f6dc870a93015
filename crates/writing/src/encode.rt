// One record of each kind, and all of a kind, put at a place of lent bytes; numbers with the most significant byte first.
ghost use Rattle.std.specs.Prelude.{◌≡◌, ◌+◌, ◌*◌, ◌≤◌, length};
ghost use Rattle.codec.specs.Over.{over};
ghost use Rattle.picture.specs.Rows.{put_row};
ghost use Rattle.picture.specs.Picture.{first, name_form, item_form, hd, ed};
ghost use Rattle.picture.specs.Answers.{item_of, Put, PutAll};

use names::Name;
use picture::{BACKPOINTER_SIZE, CLOSE_MARK, ENTRY_SIZE, HEAD_MARK, Head, Item, RECORD_SIZE, Row};
use protocol::{Backpointer, Entry, Record};
use tables::elements;

// No other byte is touched.
fn put_bytes(buf: &mut [u8], at: usize, bytes: &[u8])
    requires { at + length bytes.now ≤ length buf.old }
    ensures { buf.new ≡ over buf.old at bytes.now }
{
    buf[at..at + bytes.len()].copy_from_slice(bytes);
}

fn put_name(buf: &mut [u8], at: usize, n: Name)
    requires { at + 9 ≤ length buf.old }
    ensures { buf.new ≡ over buf.old at ((name_form first).put n) }
{
    put_bytes(buf, at, &[n.len]);
    put_bytes(buf, at + 1, &n.bytes);
}

fn put_item(buf: &mut [u8], at: usize, i: Item)
    requires { at + 16 ≤ length buf.old }
    ensures { buf.new ≡ over buf.old at ((item_form first).put (item_of i)) }
{
    put_bytes(buf, at, &[i.a, i.b, i.c]);
    put_name(buf, at + 3, i.name);
    put_bytes(buf, at + 12, &i.number.to_be_bytes());
}

pub fn put_head(buf: &mut [u8], h: Head)
    requires { 8 ≤ length buf.old }
    ensures { buf.new ≡ over buf.old 0 (put_row (hd first) h) }
{
    put_bytes(buf, 0, &HEAD_MARK);
    put_bytes(buf, 2, &[h.partition, h.count]);
    put_bytes(buf, 4, &h.last.to_be_bytes());
}

pub fn put_close(buf: &mut [u8], at: usize, n: u16)
    requires { at + 4 ≤ length buf.old }
    ensures { buf.new ≡ over buf.old at (put_row ed n) }
{
    put_bytes(buf, at, &CLOSE_MARK);
    put_bytes(buf, at + 2, &n.to_be_bytes());
}

// A kind of record that is put with its mark. The place behind it is answered.
pub trait ToBytes: Row {
    fn put(self, buf: &mut [u8], at: usize) -> usize
        requires { at + Self.SIZE ≤ length buf.old }
        ensures { Put Self.layout Self.SIZE buf.old at self result buf.new };
}

impl ToBytes for Entry {
    fn put(self, buf: &mut [u8], at: usize) -> usize {
        put_bytes(buf, at, &Entry::MARK);
        put_item(buf, at + 2, Item::from(self));
        at + ENTRY_SIZE
    }
}

impl ToBytes for Backpointer {
    fn put(self, buf: &mut [u8], at: usize) -> usize {
        put_bytes(buf, at, &Backpointer::MARK);
        put_item(buf, at + 2, Item::from(self));
        at + BACKPOINTER_SIZE
    }
}

impl ToBytes for Record {
    fn put(self, buf: &mut [u8], at: usize) -> usize {
        put_bytes(buf, at, &Record::MARK);
        put_bytes(buf, at + 2, &[elements::kind_number(self.kind)]);
        put_item(buf, at + 3, Item::from(self));
        at + RECORD_SIZE
    }
}

// The place behind them is answered.
pub fn put_all<T: ToBytes>(buf: &mut [u8], from: usize, records: &[T]) -> usize
    requires { from + T.SIZE * length records.now ≤ length buf.old }
    ensures { PutAll T.layout T.SIZE buf.old from records.now result buf.new }
{
    let mut at = from;
    for record in records {
        at = record.put(buf, at);
    }
    at
}
