ghost use Rattle.std.specs.Prelude.{◌≡◌, true, ◌+◌, ◌≤◌, ◌<◌, length, option_to_list};
ghost use Rattle.spec.specs.Record.{kind, is_kind, bit, ty_at, ty_references, target, index};
ghost use Rattle.records.specs.Kinds.{Reads, kind_number, optional, ty_of, spec_ty, head_of};

use crate::kind::Kind;
use crate::{
    CODE_AT, ENCLOSER_AT, FIELD_TYPE_AT, FLAGS_AT, INDEX_AT, INTERFACE, KIND_AT, LOCAL_TYPE_AT,
    MARKERS_AT, NAME_AT, SUPERCLASS_AT, TARGET_AT, TYPE_CLASS_AT, has_flag, word_in,
};
use std::marker::Model;

/// A type: an array of `dims` dimensions over a class (code 0) or a primitive.
#[derive(Clone, Copy)]
pub struct Ty {
    pub dims: u8,
    pub code: u8,
    pub class: usize,
}

impl Ty {
    /// The class that the type names, unless it is a primitive.
    pub fn class(self) -> Option<usize>
        ensures { option_to_list result ≡ ty_references (spec_ty self) }
    {
        (self.code == 0).then_some(self.class)
    }
}

/// What a CLASS record says of its class, but for the name.
#[derive(Clone, Copy)]
pub struct Head {
    pub flags: u16,
    pub markers: u8,
    pub superclass: Option<usize>,
    pub encloser: Option<usize>,
}

impl Head {
    /// Whether the class is an interface.
    pub fn is_interface(self) -> bool
        ensures { result ≡ bit 0 self.flags }
    {
        has_flag(self.flags, INTERFACE)
    }
}

/// What a record says, but for its name, by its kind.
#[derive(Clone, Copy)]
pub enum Body {
    Class(Head),
    Implements(usize),
    Field { flags: u16, ty: Ty },
    Local(Ty),
    Uses { class: usize, index: usize },
    Builds(usize),
    Member { flags: u16 },
    Refers { class: usize, index: usize },
}

/// One whole record, of a kind that there is and of a length that its kind can have.
#[derive(Drop)]
pub struct Record<'a> {
    pub(crate) bytes: &'a [u8],
}

impl<'a> Model for Record<'a> {
    ghost use Rattle.std.specs.Prelude.{List, ℕ};
    ghost use Rattle.records.specs.Kinds.{Fits};

    ghost Value = { List ℕ };

    ghost view = { λ r. r.bytes.now };

    ghost invariant = { λ r. Fits r.bytes.now };
}

/// The class of a number that may stand for none.
fn class_of(number: u16) -> Option<usize>
    ensures { result ≡ optional number }
{
    if number == 65535 {
        return None;
    }
    Some(usize::from(number))
}

// The type that begins at a byte.
fn ty_in(bytes: &[u8], at: usize) -> Ty
    requires { at + 3 < length bytes.now }
    ensures { result ≡ ty_of (ty_at bytes.now at) }
{
    Ty {
        dims: bytes[at],
        code: bytes[at + CODE_AT],
        class: usize::from(word_in(bytes, at + TYPE_CLASS_AT)),
    }
}

// What a CLASS record says.
pub(crate) fn head_in(bytes: &[u8]) -> Head
    requires { 12 ≤ length bytes.now }
    ensures { result ≡ head_of bytes.now }
{
    Head {
        flags: word_in(bytes, FLAGS_AT),
        markers: bytes[MARKERS_AT],
        superclass: class_of(word_in(bytes, SUPERCLASS_AT)),
        encloser: class_of(word_in(bytes, ENCLOSER_AT)),
    }
}

// The class that a record names.
fn target_in(bytes: &[u8]) -> usize
    requires { 6 ≤ length bytes.now }
    ensures { result ≡ target bytes.now }
{
    usize::from(word_in(bytes, TARGET_AT))
}

// The index that a record names in that class.
fn index_in(bytes: &[u8]) -> usize
    requires { 8 ≤ length bytes.now }
    ensures { result ≡ index bytes.now }
{
    usize::from(word_in(bytes, INDEX_AT))
}

impl<'a> Record<'a> {
    /// How many bytes the record has.
    pub fn len(&self) -> usize
        ensures { result ≡ length self.now }
    {
        self.bytes.len()
    }

    /// The bytes that the record is.
    pub fn bytes(&self) -> &'a [u8]
        ensures { result.now ≡ self.now }
    {
        self.bytes
    }

    /// The record's kind. There is one: with a default, which is never taken, a caller that asks for one kind makes one comparison.
    pub fn kind(&self) -> Kind
        ensures { kind_number result ≡ kind self.now }
    {
        Kind::try_from(word_in(self.bytes, KIND_AT)).unwrap_or(Kind::Refers)
    }

    /// Whether the record's kind has that number: never so of a number that no kind has.
    pub fn has_number(&self, number: u16) -> bool
        ensures { result ≡ is_kind number self.now }
    {
        word_in(self.bytes, KIND_AT) == number
    }

    /// Whether the record is of a kind.
    pub fn is(&self, kind: Kind) -> bool
        ensures { result ≡ is_kind (kind_number kind) self.now }
    {
        self.has_number(kind.number())
    }

    /// What the record says.
    pub fn body(&self) -> Body
        ensures { Reads self.now result }
    {
        let bytes = self.bytes;
        match self.kind() {
            Kind::Class => Body::Class(head_in(bytes)),
            Kind::Implements => Body::Implements(target_in(bytes)),
            Kind::Field => Body::Field {
                flags: word_in(bytes, FLAGS_AT),
                ty: ty_in(bytes, FIELD_TYPE_AT),
            },
            Kind::Local => Body::Local(ty_in(bytes, LOCAL_TYPE_AT)),
            Kind::Uses => Body::Uses {
                class: target_in(bytes),
                index: index_in(bytes),
            },
            Kind::Builds => Body::Builds(target_in(bytes)),
            Kind::Member => Body::Member {
                flags: word_in(bytes, FLAGS_AT),
            },
            Kind::Refers => Body::Refers {
                class: target_in(bytes),
                index: index_in(bytes),
            },
        }
    }
}
