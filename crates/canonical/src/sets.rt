ghost use Rattle.std.specs.Prelude.{◌≡◌, ◌+◌, ◌*◌, ◌<◌};
ghost use Rattle.records.specs.Kinds.{kind_number};
ghost use Rattle.meaning.proofs.Shaped.{Shaped};
ghost use Rattle.canonical.specs.Sets.{set_number, number_in};

use records::kind::Kind;
use records::record::{Body, Record};

// What a class counts for in a record's number.
const CLASS_WEIGHT: u32 = 65536;

// The number of a class and an index: class before index.
fn number(class: usize, index: usize) -> u32
    requires { (class < 65536) × (index < 65536) }
    ensures { result ≡ 65536 * class + index }
{
    CLASS_WEIGHT * class as u32 + index as u32
}

/// The kinds whose records are a set.
#[derive(Clone, Copy)]
pub(crate) enum Set {
    Implements,
    Uses,
    Builds,
    Refers,
}

impl Set {
    /// The kind of the set's records.
    pub(crate) fn kind(self) -> Kind
        ensures { kind_number result ≡ set_number self }
    {
        match self {
            Set::Implements => Kind::Implements,
            Set::Uses => Kind::Uses,
            Set::Builds => Kind::Builds,
            Set::Refers => Kind::Refers,
        }
    }

    /// The number of a record, if it is of the set.
    pub(crate) fn number_of(self, record: &Record) -> Option<u32>
        requires { Shaped record.now }
        ensures { result ≡ number_in (set_number self) record.now }
    {
        // Most records are of another kind, which is told without reading what they say.
        if !record.is(self.kind()) {
            return None;
        }
        match (self, record.body()) {
            (Set::Implements, Body::Implements(class)) => Some(number(class, 0)),
            (Set::Uses, Body::Uses { class, index }) => Some(number(class, index)),
            (Set::Builds, Body::Builds(class)) => Some(number(class, 0)),
            (Set::Refers, Body::Refers { class, index }) => Some(number(class, index)),
            _ => None,
        }
    }
}
