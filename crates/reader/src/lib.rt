// A reader that stands on a lent picture and hands out one record at a time, staying at the close or a refusal.
#![tactic(auto)]

ghost use Rattle.std.specs.Prelude.{◌≡◌};
ghost use Rattle.picture.specs.Standing.{handed_at};
ghost use Rattle.reader.specs.Walk.{WalkReads};

use picture::Handed;

// A picture, and the place in it where the reader stands.
#[derive(Clone, Copy)]
pub struct Reader<'a> {
    pub src: &'a [u8],
    pub at: usize,
}

impl<'a> Reader<'a> {
    // At the picture's start.
    pub fn new(src: &'a [u8]) -> Reader<'a>
        ensures { (result.src ≡ src.entry) × (result.at ≡ 0) }
    {
        Reader { src, at: 0 }
    }

    // The record at which the reader stands.
    pub fn item(self) -> Handed
        ensures { result ≡ handed_at self.entry.src.now self.entry.at }
    {
        standing::record_at(self.src, self.at)
    }

    // The reader past that record. It stays at the close and at a refusal.
    pub fn next(self) -> Reader<'a>
        ensures { (result.src ≡ self.entry.src) × (result.at ≡ (handed_at self.entry.src.now self.entry.at).next) }
    {
        Reader {
            at: self.item().next,
            ..self
        }
    }

    // Hands out the record at which the reader stands, and moves it past that record.
    pub fn take(&mut self) -> Handed
        ensures { (result ≡ handed_at self.old.src.now self.old.at)
            × (self.new.src ≡ self.old.src)
            × (self.new.at ≡ (handed_at self.old.src.now self.old.at).next) }
    {
        let handed = self.item();
        self.at = handed.next;
        handed
    }
}

// The record behind a picture's header: the form in which whoever has plain parameters uses the reader.
pub fn second(s: &[u8]) -> Handed
    ensures { result ≡ handed_at s.now (handed_at s.now 0).next }
{
    Reader::new(s).next().item()
}

// What is proved of a reader that is run to its end: the contract states it, and the function does nothing.
pub fn claims()
    ensures { WalkReads }
{}
