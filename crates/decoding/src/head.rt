// The header, with which a picture begins.
ghost use Rattle.std.specs.Prelude.{◌≡◌, ◌≤◌, length, drop};
ghost use Rattle.codec.specs.Codec.{got};
ghost use Rattle.protocol.specs.declared.Refusal.TheVariants.{FieldOutOfRange};
ghost use Rattle.picture.specs.Rows.{one};
ghost use Rattle.picture.specs.Picture.{first, hd, head_fits};
ghost use Rattle.picture.specs.Answers.{told};

use crate::bytes;
use picture::{HEAD_MARK, HEAD_SIZE, Head};
use protocol::Refusal;
use tables::MAX_PARTITIONS;

fn fits(h: Head) -> bool
    ensures { result ≡ head_fits h }
{
    1 <= h.count && usize::from(h.count) <= MAX_PARTITIONS && h.partition < h.count
}

fn head_at(s: &[u8]) -> Head
    requires { 8 ≤ length s.now }
    ensures { (hd first).form.get (drop 2 s.now) ≡ got result (drop 8 s.now) }
{
    Head {
        partition: s[2],
        count: s[3],
        last: bytes::get_u32(s, 4),
    }
}

// Not `decode`: a header stands under no other, and its mark is asked for.
pub fn read_head(s: &[u8]) -> Result<Head, Refusal>
    ensures { told 8 s.now result ≡ one (hd first) FieldOutOfRange head_fits s.now }
{
    if s.len() < HEAD_MARK.len() {
        return Err(Refusal::EndsEarly);
    }
    if !bytes::begins_with(s, 0, HEAD_MARK) {
        return Err(Refusal::MarkNotAllowed);
    }
    if s.len() < HEAD_SIZE {
        return Err(Refusal::EndsEarly);
    }
    let head = head_at(s);
    if !fits(head) {
        return Err(Refusal::FieldOutOfRange);
    }
    Ok(head)
}
