// Text put into a lent buffer, one part after another. Where the buffer ends nothing more is written, but the places go on.
#![tactic(auto)]

ghost use Rattle.std.specs.Prelude.{◌≡◌, [], ◌∷◌, ◌≤◌, ◌<◌, length};
ghost use Rattle.text.specs.Text.{decimal};
ghost use Rattle.text.specs.Written.{Writes};

use copying::copy;

/// A lent buffer, and the place at which its text goes on.
#[derive(Drop)]
pub struct Writer<'a> {
    out: &'a mut [u8],
    at: usize,
}

impl<'a> Writer<'a> {
    /// Begins at the buffer's start.
    pub fn new(out: &'a mut [u8]) -> Writer<'a>
        ensures same_reference { result.out.ghost_name ≡ out.entry.ghost_name }
        ensures bytes { result.out.now ≡ out.old }
        ensures place { result.at ≡ 0 }
    {
        Writer::starting_at(out, 0)
    }

    /// Begins at a place, which may lie past the buffer's end.
    pub fn starting_at(out: &'a mut [u8], at: usize) -> Writer<'a>
        ensures same_reference { result.out.ghost_name ≡ out.entry.ghost_name }
        ensures bytes { result.out.now ≡ out.old }
        ensures place { result.at ≡ at }
    {
        Writer { out, at }
    }

    /// The place after what was put, also where the buffer ends before it.
    pub fn at(&self) -> usize
        ensures { result ≡ self.now.at }
    {
        self.at
    }

    /// Puts one byte.
    #[tactic(auto, unfolding(crate::specs::Text::put_all))]
    pub fn put(&mut self, byte: u8)
        requires { self.old.at < 1000000 }
        ensures { Writes self.old (byte ∷ []) self.new }
    {
        if self.at < self.out.len() {
            self.out[self.at] = byte;
        }
        self.at += 1;
    }

    /// Puts some bytes, of which as many are copied as there is room for.
    pub fn put_bytes(&mut self, bytes: &[u8])
        requires { (self.old.at < 900000) × (length bytes.now ≤ 65536) }
        ensures { Writes self.old bytes.now self.new }
    {
        let after = self.at + bytes.len();
        let from = self.at.min(self.out.len());
        let to = after.min(self.out.len());
        copy(&mut self.out[from..to], &bytes[..to - from]);
        self.at = after;
    }

    /// Puts a number in decimal.
    pub fn put_number(&mut self, x: usize)
        requires { self.old.at < 900000 }
        ensures { Writes self.old (decimal x) self.new }
    {
        if x < 10 {
            self.put(b'0' + x as u8);
            return;
        }
        self.put_number(x / 10);
        self.put(b'0' + (x % 10) as u8);
    }
}
