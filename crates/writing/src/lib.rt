// A partition's picture written into lent room, on any tables and any room, exactly as document 01's definition says.
#![tactic(auto)]

ghost use Rattle.std.specs.Prelude.{◌≡◌};
ghost use Rattle.writing.specs.Written.{after, written_from};

use answers::here::Here;
use answers::is_there;
use protocol::Refusal;
use tables::Tables;

mod encode; // one record of each kind, and all of a kind
mod whole; // a partition's picture, from header to close

// The picture of partition p, at the start of the room: how many bytes it has, or refusal 16, 1 or 22. A refusal leaves every byte
// of the room as it was, and so does an accepted call the bytes behind those that it reports.
pub fn write_picture(t: Tables, p: u32, room: &mut [u8]) -> Result<usize, Refusal>
    ensures { after result room.new ≡ written_from t p room.old }
{
    if !order::in_order(t) {
        return Err(Refusal::OutOfOrder);
    }
    if !is_there(t.count, p) {
        return Err(Refusal::OutOfRange);
    }
    let here = Here {
        tables: &t,
        at: p as usize,
    };
    whole::write_there(here, room)
}
