// The tests of a record, in their order: what it names is there, and of the right sort.
ghost use Rattle.std.specs.Prelude.{◌≡◌, ℕ, ◌<◌, T, length};
ghost use Rattle.spec.specs.Record.{is_class};
ghost use Rattle.spec.specs.Sheet.{class_record, of_kind};
ghost use Rattle.spec.specs.Refusals.{name_met};
ghost use Rattle.records.specs.Kinds.{kind_number};
ghost use Rattle.sheets.specs.Sheets.{count, groups};
ghost use Rattle.second.specs.Second.{Enclosing, indexed_kind, first_met, number_of, form_number};
ghost use Rattle.second.specs.Second.{absent, superclass_ok, encloser_ok, class_tests, target_tests, type_tests};
ghost use Rattle.second.specs.Second.{implements_tests, field_tests, index_tests, uses_tests};

use crate::register::Register;
use records::kind::Kind;
use records::record::{Body, Head, Record, Ty};
use records::{CLASS_LIMIT, INNER, STATIC, has_flag};
use refusals::{Reason, Side};

impl<'a> Register<'a> {
    // Whether the name of class c is that of a class below it.
    fn name_met(&self, c: usize) -> bool
        requires { c < count self.now.sheets.now }
        ensures { result ≡ name_met (groups self.now.sheets.now) c (class_record (groups self.now.sheets.now c)) }
    {
        self.met[c]
    }

    // Whether a class is named that isn't there.
    fn absent(&self, class: Option<usize>) -> bool
        ensures { result ≡ absent self.now.sheets.now class }
    {
        let n = self.sheets.count();
        class.is_some_and(|d| n <= d)
    }

    // Whether class c, which begins so, has such a superclass as it must.
    fn superclass_fits(&self, c: usize, head: Head) -> bool
        requires { c < count self.now.sheets.now }
        ensures { result ≡ superclass_ok self.now.sheets.now c head.flags head.superclass }
    {
        let bare = c == 0 || head.is_interface();
        match head.superclass {
            Some(up) => !bare && up < c && !self.asked[up].interface,
            None => bare,
        }
    }

    // Whether class c, which begins so, has such an encloser as it may.
    fn encloser_fits(&self, c: usize, head: Head) -> bool
        ensures { result ≡ encloser_ok self.now.sheets.now c head.flags head.encloser }
    {
        let first = self.sheets.library_count();
        match head.encloser {
            Some(outer) => first <= c && first <= outer && outer < c,
            None => !has_flag(head.flags, INNER),
        }
    }

    // The CLASS record of class c.
    fn class_fits(&self, c: usize, head: Head) -> Result<(), Reason>
        requires { c < count self.now.sheets.now }
        ensures { number_of result
            ≡ first_met (class_tests self.now.sheets.now c head (class_record (groups self.now.sheets.now c))) }
    {
        let missing = self.absent(head.superclass) || self.absent(head.encloser);
        Reason::NotThere.unless(!missing)?;
        Reason::WrongSort.unless(c != 0 || !head.is_interface())?;
        Reason::WrongSort.unless(self.superclass_fits(c, head))?;
        Reason::WrongSort.unless(self.encloser_fits(c, head))?;
        Reason::NameTwice.unless(!self.name_met(c))
    }

    // A class that must be there.
    fn there(&self, class: usize) -> Result<(), Reason>
        ensures { number_of result ≡ first_met (target_tests self.now.sheets.now class) }
    {
        Reason::NotThere.unless(class < self.sheets.count())
    }

    // The class of a type, if it is of a class.
    fn type_there(&self, ty: Ty) -> Result<(), Reason>
        ensures { number_of result ≡ first_met (type_tests self.now.sheets.now ty) }
    {
        Reason::NotThere.unless(!self.absent(ty.class()))
    }

    // An IMPLEMENTS of class c.
    fn implements_fits(&self, c: usize, class: usize) -> Result<(), Reason>
        requires { c < count self.now.sheets.now }
        ensures { number_of result ≡ first_met (implements_tests self.now.sheets.now c class) }
    {
        self.there(class)?;
        Reason::WrongSort.unless(class < c && self.asked[class].interface)
    }

    // A FIELD of class c.
    fn field_fits(&self, c: usize, flags: u16, ty: Ty) -> Result<(), Reason>
        requires { c < count self.now.sheets.now }
        ensures { number_of result ≡ first_met (field_tests self.now.sheets.now c flags ty) }
    {
        self.type_there(ty)?;
        Reason::WrongSort.unless(has_flag(flags, STATIC) || !self.asked[c].interface)
    }

    // How many records of class `class` others name by an index: MEMBERs of a library class, LOCALs of a user class.
    fn indexed(&self, side: Side, class: usize) -> usize
        requires { class < count self.now.sheets.now }
        ensures { result ≡ length (of_kind (kind_number (indexed_kind side)) (groups self.now.sheets.now class)) }
    {
        if self.sheets.side(class) == side {
            usize::from(self.asked[class].indexed)
        } else {
            0
        }
    }

    // A record that is named by its index, in a class of that sheet.
    fn index_there(&self, side: Side, class: usize, index: usize) -> Result<(), Reason>
        ensures { number_of result
            ≡ first_met (index_tests self.now.sheets.now (kind_number (indexed_kind side)) class index) }
    {
        self.there(class)?;
        Reason::NotThere.unless(index < self.indexed(side, class))
    }

    // A USES of class c; the marks are those of the class and its enclosers.
    fn uses_fits(
        &self,
        marks: &[bool; CLASS_LIMIT],
        class: usize,
        index: usize,
    ) -> Result<(), Reason>
        ensures { (c : ℕ) → Enclosing self.now.sheets.now c marks.now
            → number_of result ≡ first_met (uses_tests self.now.sheets.now c class index) }
    {
        self.index_there(Side::User, class, index)?;
        Reason::WrongSort.unless(marks[class])
    }

    /// A record of class c; the marks are those of the class and its enclosers.
    pub fn record_fits(
        &self,
        c: usize,
        marks: &[bool; CLASS_LIMIT],
        record: &Record,
    ) -> Result<(), Reason>
        requires there { c < count self.now.sheets.now }
        requires marked { Enclosing self.now.sheets.now c marks.now }
        requires first { T (is_class «record».now) → «record».now ≡ class_record (groups self.now.sheets.now c) }
        ensures { number_of result
            ≡ form_number self.now.sheets.now c «record».now }
    {
        // A MEMBER names no class; most records of a library are such.
        if record.is(Kind::Member) {
            return Ok(());
        }
        match record.body() {
            Body::Class(head) => self.class_fits(c, head),
            Body::Implements(class) => self.implements_fits(c, class),
            Body::Field { flags, ty } => self.field_fits(c, flags, ty),
            Body::Local(ty) => self.type_there(ty),
            Body::Uses { class, index } => self.uses_fits(marks, class, index),
            Body::Builds(class) => self.there(class),
            Body::Member { .. } => Ok(()),
            Body::Refers { class, index } => self.index_there(Side::Library, class, index),
        }
    }
}
