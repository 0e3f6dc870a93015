// A kind of record that stands between header and close: its mark, its size, and when its fields are in their ranges.
ghost use Rattle.std.specs.Prelude.{◌≡◌, Bool, ℕ, List, [], ◌∷◌};
ghost use Rattle.picture.specs.declared.Head.{Head};
ghost use Rattle.picture.specs.declared.Part.{Part};
ghost use Rattle.picture.specs.declared.Part.TheVariants.{Entry as EntryPart, Backpointer as BackpointerPart, Record as RecordPart};
ghost use Rattle.picture.specs.Rows.{Row as RowOf};
ghost use Rattle.picture.specs.Picture.{first, en, bp, lg, entry_fits, backpointer_fits, record_fits};
ghost use Rattle.picture.specs.Kinds.{RowLaws, entry_laws, backpointer_laws, record_laws};

use crate::{BACKPOINTER_SIZE, ENTRY_SIZE, Head, Part, RECORD_SIZE};
use partitions::{Element, is_given};
use protocol::{Backpointer, Entry, Record};

pub trait Row: Element {
    // Its mark and form, and the test of its fields under a header.
    ghost layout: { RowOf Self };

    ghost fits: { Head → Self → Bool };

    // What a reader hands out of it.
    ghost part: { Self → Part };

    ghost MARK: { List ℕ };

    ghost SIZE: { ℕ };

    const MARK: [u8; 2];

    // How many bytes it has, its mark among them.
    const SIZE: usize;

    fn fits(&self, head: Head) -> bool
        ensures { result ≡ fits head self.now };

    fn part(self) -> Part
        ensures { result ≡ part self };

    ghost laws: { RowLaws layout MARK SIZE };
}

impl Row for Entry {
    ghost layout = { en first };

    ghost fits = { entry_fits };

    ghost part = { EntryPart };

    ghost MARK = { 69 ∷ 78 ∷ [] };

    ghost SIZE = { 18 };

    ghost laws = { entry_laws };

    const MARK: [u8; 2] = [b'E', b'N'];

    const SIZE: usize = ENTRY_SIZE;

    #[tactic(auto, unfolding(crate::specs::Picture::entry_fits))]
    fn fits(&self, head: Head) -> bool {
        self.is_among(usize::from(head.count)) && is_given(head.last, self.number)
    }

    fn part(self) -> Part {
        Part::Entry(self)
    }
}

impl Row for Backpointer {
    ghost layout = { bp first };

    ghost fits = { backpointer_fits };

    ghost part = { BackpointerPart };

    ghost MARK = { 66 ∷ 80 ∷ [] };

    ghost SIZE = { 18 };

    ghost laws = { backpointer_laws };

    const MARK: [u8; 2] = [b'B', b'P'];

    const SIZE: usize = BACKPOINTER_SIZE;

    #[tactic(auto, unfolding(crate::specs::Picture::backpointer_fits))]
    fn fits(&self, head: Head) -> bool {
        self.is_among(usize::from(head.count)) && 1 <= self.number
    }

    fn part(self) -> Part {
        Part::Backpointer(self)
    }
}

impl Row for Record {
    ghost layout = { lg first };

    ghost fits = { record_fits };

    ghost part = { RecordPart };

    ghost MARK = { 76 ∷ 71 ∷ [] };

    ghost SIZE = { 19 };

    ghost laws = { record_laws };

    const MARK: [u8; 2] = [b'L', b'G'];

    const SIZE: usize = RECORD_SIZE;

    #[tactic(auto, unfolding(crate::specs::Picture::record_fits))]
    fn fits(&self, head: Head) -> bool {
        self.is_among(usize::from(head.count)) && is_given(head.last, self.number)
    }

    fn part(self) -> Part {
        Part::Record(self)
    }
}
