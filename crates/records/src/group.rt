ghost use Rattle.std.specs.Prelude.{◌≡◌, ◌<◌, ◌^◌, length};
ghost use Rattle.spec.specs.Lists.{any};
ghost use Rattle.spec.specs.Record.{is_kind, class_name};
ghost use Rattle.spec.specs.Sheet.{records_of, class_record, of_kind};
ghost use Rattle.records.specs.Kinds.{Lined, OneClass, kind_number, head_of};

use crate::kind::Kind;
use crate::record::{Head, Record, head_in};
use crate::{NAME_AT, word_in};
use std::marker::Model;

/// Records end to end, of which those that are left are still to come.
#[derive(Drop)]
pub struct Records<'a> {
    rest: &'a [u8],
}

impl<'a> Model for Records<'a> {
    ghost use Rattle.std.specs.Prelude.{List, ℕ};
    ghost use Rattle.spec.specs.Sheet.{records_of};
    ghost use Rattle.records.specs.Kinds.{Lined};

    ghost Value = { List (List ℕ) };

    ghost view = { λ r. records_of r.rest.now };

    ghost invariant = { λ r. Lined r.rest.now };
}

impl<'a> Records<'a> {
    /// The records that some bytes are.
    pub fn new(bytes: &'a [u8]) -> Records<'a>
        requires { Lined bytes.now }
        ensures records { result ≡ records_of bytes.now }
        ensures few { length (records_of bytes.now) < 2 ^ 63 }
    {
        Records { rest: bytes }
    }

    // How many of them are of the kind with a number.
    pub(crate) fn of_kind(self, number: u16) -> usize
        requires { length self < 2 ^ 63 }
        ensures { result ≡ length (of_kind number self.entry) }
    {
        self.filter(|record| record.has_number(number)).count()
    }
}

impl<'a> Iterator for Records<'a> {
    ghost use Rattle.std.specs.Iterator.{YieldsFirst, item_count};

    type Item = Record<'a>;

    ghost next_gives = { YieldsFirst (λ rs. rs) };

    ghost remaining = { item_count (λ rs. rs) };

    fn next(&mut self) -> Option<Record<'a>> {
        if self.rest.is_empty() {
            return None;
        }
        let len = usize::from(word_in(self.rest, 0));
        let (bytes, rest) = self.rest.split_at(len);
        self.rest = rest;
        Some(Record { bytes })
    }
}

/// The records of one class, its CLASS record first.
#[derive(Drop)]
pub struct Group<'a> {
    bytes: &'a [u8],
}

impl<'a> Model for Group<'a> {
    ghost use Rattle.std.specs.Prelude.{List, ℕ};
    ghost use Rattle.spec.specs.Sheet.{records_of};
    ghost use Rattle.records.specs.Kinds.{OneClass};

    ghost Value = { List (List ℕ) };

    ghost view = { λ g. records_of g.bytes.now };

    ghost invariant = { λ g. OneClass g.bytes.now };
}

impl<'a> Group<'a> {
    /// The records that some bytes are.
    pub fn new(bytes: &'a [u8]) -> Group<'a>
        requires { OneClass bytes.now }
        ensures { result ≡ records_of bytes.now }
    {
        Group { bytes }
    }

    /// The records in their order.
    pub fn records(&self) -> Records<'a>
        ensures records { result ≡ self.now }
        ensures few { length self.now < 2 ^ 63 }
    {
        Records { rest: self.bytes }
    }

    /// What the CLASS record says.
    pub fn head(&self) -> Head
        ensures { result ≡ head_of (class_record self.now) }
    {
        head_in(self.bytes)
    }

    /// The class's name.
    pub fn name(&self) -> &'a [u8]
        ensures { result.now ≡ class_name (class_record self.now) }
    {
        let len = usize::from(word_in(self.bytes, 0));
        &self.bytes[NAME_AT..len]
    }

    /// How many records are of a kind.
    pub fn count(&self, kind: Kind) -> usize
        ensures { result ≡ length (of_kind (kind_number kind) self.now) }
    {
        self.records().of_kind(kind.number())
    }

    /// Whether some record is of a kind.
    pub fn has(&self, kind: Kind) -> bool
        ensures { result ≡ any (is_kind (kind_number kind)) self.now }
    {
        self.records().any(|record| record.is(kind))
    }
}
