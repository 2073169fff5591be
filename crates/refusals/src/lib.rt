// Why a call is refused: a reason, and the sheet and the byte that it blames.
#![tactic(auto)]

ghost use Rattle.std.specs.Prelude.{◌≡◌};
ghost use Rattle.refusals.specs.Refusals.{reason_number, sheet_number, unless};

/// A sheet of the two.
#[derive(Clone, Copy, PartialEq, Eq, Debug)]
pub enum Side {
    Library = 0,
    User = 1,
}

impl Side {
    /// The number that stands for the sheet.
    pub fn number(self) -> u8
        ensures { result ≡ sheet_number self }
    {
        self as u8
    }
}

/// What is wrong.
#[derive(Clone, Copy, PartialEq, Eq, Debug)]
pub enum Reason {
    /// A sheet is too long, or the used length passes the buffer.
    TooLong = 1,
    /// The bytes end within a record.
    Torn = 2,
    /// A kind that is unknown, or belongs in the other sheet.
    WrongKind = 3,
    /// A length that the kind cannot have.
    WrongLength = 4,
    /// A flag, a type or a name byte that is not defined.
    WrongBody = 5,
    /// A record before the first class.
    NoClassYet = 6,
    /// Too many classes or records, or a library without classes.
    WrongCount = 7,
    /// A superclass, encloser, interface or variable that is not of the right sort.
    WrongSort = 8,
    /// A class, variable or member that is not there.
    NotThere = 9,
    /// A class name that was there before.
    NameTwice = 10,
    /// Library markers that contradict each other, or a marked class 0.
    Deemed = 11,
    /// A verdict row, a scratch or a row of places that is too short.
    TooShort = 12,
    /// No such class, by its number or its name.
    NoSuchClass = 13,
    /// A group that is not one class with its records.
    NoGroup = 14,
    /// No room for what is to be written.
    NoRoom = 15,
    /// A record of a lower kind than the one before it.
    OutOfOrder = 16,
    /// Another class names the one that would be withdrawn.
    Named = 17,
}

impl Reason {
    /// The number that stands for the reason.
    pub fn number(self) -> u8
        ensures { result ≡ reason_number self }
    {
        self as u8
    }

    /// Refuses for the reason unless something holds.
    #[inline(always)]
    pub fn unless(self, holds: bool) -> Result<(), Reason>
        ensures { result ≡ unless self holds }
    {
        if holds { Ok(()) } else { Err(self) }
    }
}

/// A refusal: the reason, and where the record begins that it blames.
#[derive(Clone, Copy, PartialEq, Eq, Debug)]
pub struct Refusal {
    pub reason: Reason,
    pub sheet: Side,
    pub byte: usize,
}

/// A refusal that is no record's.
impl From<Reason> for Refusal {
    ghost use Rattle.refusals.specs.Refusals.{plain};

    ghost from_gives = { λ reason refusal. refusal ≡ plain reason };

    fn from(reason: Reason) -> Refusal {
        Refusal {
            reason,
            sheet: Side::Library,
            byte: 0,
        }
    }
}
