ghost use Rattle.std.specs.Prelude.{◌≡◌};
ghost use Rattle.breaks.specs.Breaking.{number_of};

use slots::Late;

/// The ten rules: what an object may not do, and the four that ask slots.
#[derive(Clone, Copy, PartialEq, Eq, Debug)]
pub enum Rule {
    Classes,
    Members,
    Reserved,
    Clash,
    Statics,
    LetsOut,
    Late(Late),
}

/// All of them, in the order of their numbers.
pub const RULES: [Rule; 10] = [
    Rule::Classes,
    Rule::Members,
    Rule::Reserved,
    Rule::Clash,
    Rule::Statics,
    Rule::LetsOut,
    Rule::Late(Late::Immutable),
    Rule::Late(Late::Powerless),
    Rule::Late(Late::Selfless),
    Rule::Late(Late::DeepSelfless),
];

impl Rule {
    /// The rule's number.
    pub fn number(self) -> u8
        ensures { result ≡ number_of self }
    {
        match self {
            Rule::Classes => 1,
            Rule::Members => 2,
            Rule::Reserved => 3,
            Rule::Clash => 4,
            Rule::Statics => 5,
            Rule::LetsOut => 6,
            Rule::Late(late) => late.number(),
        }
    }
}
