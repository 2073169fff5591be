// A reader over one sheet: it holds the lent bytes and its own position.
#![tactic(auto)]

ghost use Rattle.std.specs.Prelude.{◌≡◌, ◌↔◌, ◌+◌, ◌≤◌, ◌<◌, IsTrue, IfSome, length, drop};
ghost use Rattle.records.specs.Lengths.{whole_length};
ghost use Rattle.reader.specs.Reading.{found_at, after_at, nth_at};

use records::whole_length;

// Document 01's walker.
#[derive(Clone, Copy, Debug)]
pub struct Reader<'a> {
    pub bytes: &'a [u8],
    pub at: usize,
}

// What stands at a position: a whole record, with its first byte and its length; bytes that are none; the end.
#[derive(Clone, Copy, PartialEq, Eq, Debug)]
pub enum Found {
    Record { start: usize, len: usize },
    Broken { start: usize },
    End,
}

impl<'a> Reader<'a> {
    // At a sheet's first byte.
    pub fn new(bytes: &'a [u8]) -> Self
        ensures bytes { result.bytes ≡ bytes.entry }
        ensures at { result.at ≡ 0 }
    {
        Reader { bytes, at: 0 }
    }

    // The length of the record where the reader is, if a whole one stands there.
    fn length(&self) -> Option<usize>
        ensures length { result ≡ whole_length (drop self.now.at self.now.bytes.now) }
        ensures fits { IfSome result (λ n. (0 < n) × (self.now.at + n ≤ length self.now.bytes.now)) }
    {
        whole_length(self.bytes.get(self.at..)?)
    }

    // What stands where the reader is.
    #[tactic(auto, unfolding(crate::specs::Reading::found_at))]
    pub fn read(&self) -> Found
        ensures { result ≡ found_at self.now.bytes.now self.now.at }
    {
        let start = self.at;
        if self.bytes.len() <= start {
            return Found::End;
        }
        match self.length() {
            Some(len) => Found::Record { start, len },
            None => Found::Broken { start },
        }
    }

    // Goes past the record where it is and stays where no whole record stands; answers whether it moved.
    pub fn advance(&mut self) -> bool
        ensures bytes { self.new.bytes ≡ self.old.bytes }
        ensures at { self.new.at ≡ after_at self.old.bytes.now self.old.at }
        ensures moved { IsTrue result ↔ (self.old.at < self.new.at) }
    {
        let Some(len) = self.length() else {
            return false;
        };
        self.at += len;
        true
    }
}

// Record n of a sheet, counted from 0, or what stands after its last whole record.
pub fn nth(sheet: &[u8], n: usize) -> Found
    ensures { result ≡ found_at sheet.now (nth_at sheet.now n) }
{
    let mut reader = Reader::new(sheet);
    for _ in 0..n {
        if !reader.advance() {
            break;
        }
    }
    reader.read()
}
