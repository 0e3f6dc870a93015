// The check of a lone picture: what the reader says of it, and then what its tables show alone.
ghost use Rattle.std.specs.Prelude.{◌≡◌};
ghost use Rattle.tables.specs.View.{view_partition};
ghost use Rattle.picture.specs.Lone.{order_alone, checked};

use crate::read_picture;
use partitions::{are_apart, has_room};
use protocol::Refusal;
use tables::Partition;

// O2, O3, O5 and the first half of O4.
fn order_alone(x: &Partition) -> bool
    ensures { result ≡ order_alone (view_partition x.now) }
{
    are_apart(x.entries.listed())
        && are_apart(x.records.listed())
        && has_room(&x.entries, &x.records)
        && are_apart(x.backpointers.listed())
}

pub fn check(bytes: &[u8]) -> Result<(), Refusal>
    ensures { result ≡ checked bytes.now }
{
    let picture = read_picture(bytes)?;
    if !order_alone(&picture.tables) {
        return Err(Refusal::OutOfOrder);
    }
    Ok(())
}
