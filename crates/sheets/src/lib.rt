// The library sheet beside a user sheet, both through the first pass: each class is handed out as its records. The user sheet need not be written yet.
#![tactic(auto)]

ghost use Rattle.std.specs.Prelude.{◌≡◌, ◌≤◌, ◌<◌};
ghost use Rattle.spec.specs.Sheet.{class_count};
ghost use Rattle.records.specs.Records.{Carries};
ghost use Rattle.groups.specs.Groups.{start_of, end_of, sheet_number, Indexed};
ghost use Rattle.refusals.specs.Refusals.{sheet_number as side_number};
ghost use Rattle.sheets.specs.Sheets.{Passed, count, groups, library_count};

pub mod formed;

use records::CLASS_LIMIT;
use records::group::Group;
use refusals::Side;
use std::marker::Model;
use view::Draft;

/// How many classes the library has, and both sheets together.
#[derive(Clone, Copy)]
pub struct Classes {
    pub library: usize,
    pub all: usize,
}

/// Where the classes of two sheets begin, and how many there are.
#[derive(Clone, Copy)]
pub struct Index {
    pub starts: [u16; CLASS_LIMIT],
    pub classes: Classes,
}

/// The two sheets.
#[derive(Drop)]
pub struct Sheets<'a> {
    library: &'a [u8],
    user: Draft<'a>,
    index: &'a Index,
}

impl<'a> Model for Sheets<'a> {
    ghost use Rattle.groups.specs.Groups.{Indexed};
    ghost use Rattle.sheets.specs.Sheets.{Pair};

    ghost Value = { Pair };

    ghost view = { λ s. record { library = s.library.now; user = s.user } };

    ghost invariant = { λ s. Indexed s.library.now s.user s.index.now.classes.library s.index.now.classes.all s.index.now.starts };
}

impl<'a> Sheets<'a> {
    /// A library sheet and a user sheet.
    pub fn new(library: &'a [u8], user: Draft<'a>, index: &'a Index) -> Sheets<'a>
        requires { Indexed library.now user index.now.classes.library index.now.classes.all index.now.starts }
        ensures { result ≡ record { library = library.now; user = user.entry } }
    {
        Sheets {
            library,
            user,
            index,
        }
    }

    /// How many classes the library has.
    pub fn library_count(&self) -> usize
        ensures count { result ≡ library_count self.now }
        ensures passed { Passed self.now }
    {
        self.index.classes.library
    }

    /// How many classes both sheets have.
    pub fn count(&self) -> usize
        ensures count { result ≡ count self.now }
        ensures passed { Passed self.now }
    {
        self.index.classes.all
    }

    /// How many classes the user sheet has.
    pub fn user_count(&self) -> usize
        ensures { result ≡ class_count self.now.user }
    {
        self.index.classes.all - self.index.classes.library
    }

    /// The sheet that holds class c.
    pub fn side(&self, c: usize) -> Side
        ensures { side_number result ≡ sheet_number (library_count self.now) c }
    {
        if c < self.index.classes.library {
            Side::Library
        } else {
            Side::User
        }
    }

    /// The byte where the group of class c begins in its sheet.
    pub fn start(&self, c: usize) -> usize
        requires { c < count self.now }
        ensures { result ≡ start_of self.now.library self.now.user c }
    {
        let starts = &self.index.starts;
        usize::from(starts[c])
    }

    /// The byte after that group: where the next one of its sheet begins, or the sheet's end.
    pub fn end(&self, c: usize) -> usize
        requires { c < count self.now }
        ensures { result ≡ end_of self.now.library self.now.user c }
    {
        let Index { starts, classes } = self.index;
        let next = c + 1;
        if next == classes.library {
            return self.library.len();
        }
        if next == classes.all {
            return self.user.len();
        }
        usize::from(starts[next])
    }

    /// The bytes of class c: its records end to end.
    pub fn bytes(&self, c: usize) -> &'a [u8]
        requires { c < count self.now }
        ensures { Carries result.now (groups self.now c) }
    {
        let start = self.start(c);
        let end = self.end(c);
        match self.side(c) {
            Side::Library => &self.library[start..end],
            Side::User => self.user.part(start, end),
        }
    }

    /// The records of class c.
    pub fn group(&self, c: usize) -> Group<'a>
        requires { c < count self.now }
        ensures { result ≡ groups self.now c }
    {
        Group::new(self.bytes(c))
    }
}
