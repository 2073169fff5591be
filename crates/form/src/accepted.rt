ghost use Rattle.std.specs.Prelude.{◌≡◌, ◌≤◌, ◌-◌, None, replicate};
ghost use Rattle.sheets.specs.Sheets.{groups, library_count};
ghost use Rattle.overlay.specs.Memo.{memo_of};

use records::CLASS_LIMIT;
use sheets::formed::Formed;
use sheets::{Classes, Index, Sheets};
use view::Draft;

/// What acceptance finds of two sheets, in the caller's memory: where the classes begin, and the markers of the library's classes.
#[derive(Clone, Copy)]
pub struct Found {
    pub index: Index,
    pub memo: [Option<u8>; CLASS_LIMIT],
}

impl Found {
    /// Nothing is found yet.
    pub fn new() -> Found
        ensures { result.memo ≡ replicate 256 None }
    {
        Found {
            index: Index {
                starts: [0; CLASS_LIMIT],
                classes: Classes { library: 0, all: 0 },
            },
            memo: [None; CLASS_LIMIT],
        }
    }

    /// How many classes the user sheet has.
    pub fn user_count(&self) -> usize
        requires { self.now.index.classes.library ≤ self.now.index.classes.all }
        ensures { result ≡ self.now.index.classes.all - self.now.index.classes.library }
    {
        self.index.classes.all - self.index.classes.library
    }
}

/// Two sheets that passed both passes, with what was found of them.
#[derive(Drop)]
pub struct Accepted<'a> {
    pub formed: Formed<'a>,
    memo: &'a [Option<u8>; CLASS_LIMIT],
    pub ghost known: { memo.now ≡ memo_of (groups formed.sheets) (library_count formed.sheets) },
}

impl<'a> Accepted<'a> {
    ghost use Rattle.form.specs.Accepting.{FoundIn};

    /// The two sheets, the user sheet written.
    pub fn new(library: &'a [u8], user: &'a [u8], found: &'a Found) -> Accepted<'a>
        requires { FoundIn (record { library = library.now; user = user.now }) found.now }
        ensures { result.formed.sheets ≡ record { library = library.now; user = user.now } }
    {
        Accepted {
            formed: Formed {
                sheets: Sheets::new(library, Draft::written(user), &found.index),
            },
            memo: &found.memo,
        }
    }

    /// The memo that knows the markers of the library's classes, as it is lent.
    pub fn lent_memo(&self) -> &'a [Option<u8>; CLASS_LIMIT]
        ensures { result.now ≡ memo_of (groups self.now.formed.sheets) (library_count self.now.formed.sheets) }
    {
        self.memo
    }

    /// A memo that knows the markers of the library's classes.
    pub fn memo(&self) -> [Option<u8>; CLASS_LIMIT]
        ensures { result ≡ memo_of (groups self.now.formed.sheets) (library_count self.now.formed.sheets) }
    {
        *self.memo
    }
}
