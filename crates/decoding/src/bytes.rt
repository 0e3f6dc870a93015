// Numbers, the most significant byte first, names and marks, at a place of a slice.
ghost use Rattle.std.specs.Prelude.{◌≡◌, ◌+◌, ◌≤◌, length, drop, slice_index};
ghost use Rattle.codec.specs.Codec.{got, get2, get4};
ghost use Rattle.picture.specs.Rows.{begins};
ghost use Rattle.picture.specs.Picture.{first, name_form, item_form};
ghost use Rattle.picture.specs.Answers.{item_of};

use names::{NAME_BYTES, Name};
use picture::Item;

pub fn get_u16(s: &[u8], at: usize) -> u16
    requires { at + 2 ≤ length s.now }
    ensures { get2 (drop at s.now) ≡ got result (drop (at + 2) s.now) }
{
    u16::from_be_bytes([s[at], s[at + 1]])
}

pub fn get_u32(s: &[u8], at: usize) -> u32
    requires { at + 4 ≤ length s.now }
    ensures { get4 (drop at s.now) ≡ got result (drop (at + 4) s.now) }
{
    u32::from_be_bytes([s[at], s[at + 1], s[at + 2], s[at + 3]])
}

fn name_at(s: &[u8], at: usize) -> Name
    requires { at + 9 ≤ length s.now }
    ensures { (name_form first).get (drop at s.now) ≡ got result (drop (at + 9) s.now) }
{
    let len = s[at];
    let mut bytes = [0; NAME_BYTES];
    bytes.copy_from_slice(&s[at + 1..at + 1 + NAME_BYTES]);
    Name { len, bytes }
}

pub fn item_at(s: &[u8], at: usize) -> Item
    requires { at + 16 ≤ length s.now }
    ensures { (item_form first).get (drop at s.now) ≡ got (item_of result) (drop (at + 16) s.now) }
{
    Item {
        a: s[at],
        b: s[at + 1],
        c: s[at + 2],
        name: name_at(s, at + 3),
        number: get_u32(s, at + 12),
    }
}

// Whether the bytes from a place on begin with this mark.
pub fn begins_with(s: &[u8], at: usize, mark: [u8; 2]) -> bool
    requires { at ≤ length s.now }
    ensures { result ≡ begins (slice_index mark 0) (slice_index mark 1) (drop at s.now) }
{
    s[at..].starts_with(&mark)
}
