ghost use Rattle.std.specs.Prelude.{◌≡◌};
ghost use Rattle.records.specs.Kinds.{Numbers, kind_number};

/// The kinds of records, in the order of their numbers.
#[derive(Clone, Copy, PartialEq, Eq, PartialOrd, Ord, Debug)]
pub enum Kind {
    Class,
    Implements,
    Field,
    Local,
    Uses,
    Builds,
    Member,
    Refers,
}

/// A number that no kind has.
#[derive(Clone, Copy, PartialEq, Eq, Debug)]
pub struct UnknownKind(pub u16);

impl TryFrom<u16> for Kind {
    type Error = UnknownKind;

    ghost try_from_gives = { Numbers };

    fn try_from(number: u16) -> Result<Self, UnknownKind> {
        match number {
            1 => Ok(Kind::Class),
            2 => Ok(Kind::Implements),
            3 => Ok(Kind::Field),
            4 => Ok(Kind::Local),
            5 => Ok(Kind::Uses),
            6 => Ok(Kind::Builds),
            7 => Ok(Kind::Member),
            8 => Ok(Kind::Refers),
            _ => Err(UnknownKind(number)),
        }
    }
}

impl Kind {
    /// The number that stands for the kind.
    pub fn number(self) -> u16
        ensures { result ≡ kind_number self }
    {
        // A table: with these numbers as discriminants the first pass takes a fifth more instructions.
        match self {
            Kind::Class => 1,
            Kind::Implements => 2,
            Kind::Field => 3,
            Kind::Local => 4,
            Kind::Uses => 5,
            Kind::Builds => 6,
            Kind::Member => 7,
            Kind::Refers => 8,
        }
    }
}
