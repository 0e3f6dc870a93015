// What each kind of record has in its item, and an entry and a back-pointer of one.
ghost use Rattle.std.specs.Prelude.{◌≡◌};
ghost use Rattle.picture.specs.Items.{entry_from, backpointer_from, entry_item, backpointer_item, record_item};

use crate::Item;
use protocol::{Backpointer, Entry, Record};

impl From<Item> for Entry {
    ghost from_gives = { λ i e. e ≡ entry_from i };

    fn from(i: Item) -> Entry {
        Entry {
            directory: i.a,
            partition: i.b,
            object: i.c,
            name: i.name,
            number: i.number,
        }
    }
}

impl From<Entry> for Item {
    ghost from_gives = { λ e i. i ≡ entry_item e };

    fn from(e: Entry) -> Item {
        Item {
            a: e.directory,
            b: e.partition,
            c: e.object,
            name: e.name,
            number: e.number,
        }
    }
}

impl From<Item> for Backpointer {
    ghost from_gives = { λ i b. b ≡ backpointer_from i };

    fn from(i: Item) -> Backpointer {
        Backpointer {
            object: i.a,
            parent: i.b,
            directory: i.c,
            name: i.name,
            number: i.number,
        }
    }
}

impl From<Backpointer> for Item {
    ghost from_gives = { λ b i. i ≡ backpointer_item b };

    fn from(b: Backpointer) -> Item {
        Item {
            a: b.object,
            b: b.parent,
            c: b.directory,
            name: b.name,
            number: b.number,
        }
    }
}

// Its kind stands before the item.
impl From<Record> for Item {
    ghost from_gives = { λ r i. i ≡ record_item r };

    fn from(r: Record) -> Item {
        Item {
            a: r.directory,
            b: r.partition,
            c: r.object,
            name: r.name,
            number: r.number,
        }
    }
}
