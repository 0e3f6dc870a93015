// Writes of one list: a new element goes last, a removed one closes the gap, one is changed in place. What is written is the
// stored form of the list that it then means.
ghost use Rattle.std.specs.Prelude.{◌<◌, ◌≤◌, ◌++◌, ◌∷◌, [], ◌≡◌, set};
ghost use Rattle.lists.specs.Lists.{remove_at};
ghost use Rattle.tables.specs.View.{list_of, pack_list};

use crate::elements::Slot;
use lists::Bounded;

pub fn add<T: Slot, const N: usize>(l: &mut Bounded<T, N>, item: T)
    requires { (pack_list N T.zero (list_of l.old) ≡ l.old) × (l.old.count < N) }
    ensures { l.new ≡ pack_list N T.zero (list_of l.old ++ item ∷ []) }
{
    l.items[l.count] = item;
    l.count += 1;
}

pub fn remove<T: Slot, const N: usize>(l: &mut Bounded<T, N>, at: usize)
    requires { (pack_list N T.zero (list_of l.old) ≡ l.old) × (at < l.old.count) × (l.old.count ≤ N) }
    ensures { l.new ≡ pack_list N T.zero (remove_at at (list_of l.old)) }
{
    let last = l.count - 1;
    l.items.copy_within(at + 1..l.count, at);
    l.items[last] = T::zero();
    l.count = last;
}

pub fn change<T: Slot, const N: usize>(l: &mut Bounded<T, N>, at: usize, item: T)
    requires { (pack_list N T.zero (list_of l.old) ≡ l.old) × (at < l.old.count) × (l.old.count ≤ N) }
    ensures { l.new ≡ pack_list N T.zero (set (list_of l.old) at item) }
{
    l.items[at] = item;
}
