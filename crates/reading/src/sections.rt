// All records of one kind, from a place of a picture on. Each is handed on to its decoder as a part of the picture.
ghost use Rattle.std.specs.Prelude.{[], ◌≡◌, ◌≤◌, length, drop, IfOk};
ghost use Rattle.picture.specs.Rows.{many};
ghost use Rattle.picture.specs.Answers.{gathered, Kept};

use decoding::FromBytes;
use picture::{Gathered, Head};
use protocol::Refusal;
use tables::fresh::none;
use tables::writes::add;

pub fn read_all<T: FromBytes, const N: usize>(
    s: &[u8],
    from: usize,
    head: Head,
) -> Result<Gathered<T, N>, Refusal>
    requires { from ≤ length s.now }
    ensures reading { gathered s.now result ≡ many T.layout (λ earlier. T.fits head) N [] (drop from s.now) }
    ensures kept { IfOk result (λ g. Kept T.zero s.now g) }
{
    let mut list = none();
    let mut end = from;
    // The bytes say whether there is one more, and each turn takes some of them: no iterator has them.
    while decoding::is_marked::<T>(s, end) {
        let x = decoding::one_more::<T, N>(&s[end..], head, list.count)?;
        add(&mut list, x);
        end += T::SIZE;
    }
    Ok(Gathered { list, end })
}
