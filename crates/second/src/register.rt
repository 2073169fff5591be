// What the second pass asks of classes: it stands in rows, so that no sheet is read for it again.
ghost use Rattle.std.specs.Prelude.{◌≡◌, ◌<◌, false, drop, replicate};
ghost use Rattle.std.proofs.Props.{props};
ghost use Rattle.laws.proofs.All.{all_prop};
ghost use Rattle.sheets.specs.Sheets.{Passed, count, groups};
ghost use Rattle.names.specs.Names.{met_before};
ghost use Rattle.second.specs.Second.{Heads, Enclosing, indexed_kind, asked_of};

use records::CLASS_LIMIT;
use records::kind::Kind;
use refusals::Side;
use sheets::Sheets;

/// What records ask of a class: whether it is an interface, and how many records it has that others name by an index.
#[derive(Clone, Copy)]
pub struct Asked {
    pub interface: bool,
    pub indexed: u8,
}

impl Asked {
    pub const NOTHING: Asked = Asked {
        interface: false,
        indexed: 0,
    };
}

/// Both sheets, with whether each class's name was met before and what records ask of each class.
#[derive(Drop)]
pub struct Register<'a> {
    pub sheets: &'a Sheets<'a>,
    pub met: &'a [bool; CLASS_LIMIT],
    pub asked: &'a [Asked; CLASS_LIMIT],
    pub ghost passed: { Passed sheets.now } by { Prim.hlevel (all_prop, props) },
    pub ghost named: { met.now ≡ met_before (groups sheets.now) (count sheets.now) },
    pub ghost heads: { Heads sheets.now asked.now },
}

// The kind of the records that others name by an index: MEMBER in the library, LOCAL in the user sheet.
fn indexed_kind(side: Side) -> Kind
    ensures { result ≡ indexed_kind side }
{
    match side {
        Side::Library => Kind::Member,
        Side::User => Kind::Local,
    }
}

// What records ask of class c.
fn asked_of(sheets: &Sheets, c: usize) -> Asked
    requires passed { Passed sheets.now }
    requires there { c < count sheets.now }
    ensures { result ≡ asked_of sheets.now c }
{
    let group = sheets.group(c);
    Asked {
        interface: group.head().is_interface(),
        indexed: group.count(indexed_kind(sheets.side(c))) as u8,
    }
}

/// Notes of each class what records ask of it; the row's end stays.
pub fn note_asked(sheets: &Sheets, asked: &mut [Asked; CLASS_LIMIT])
    ensures heads { Heads sheets.now asked.new }
    ensures rest { drop (count sheets.now) asked.new ≡ drop (count sheets.now) asked.old }
{
    for (c, entry) in asked[..sheets.count()].iter_mut().enumerate() {
        *entry = asked_of(sheets, c);
    }
}

impl<'a> Register<'a> {
    /// Marks class c and its enclosers in a row of its caller, so that a USES asks by one look.
    pub fn mark_enclosing(&self, c: usize, marks: &mut [bool; CLASS_LIMIT])
        requires there { c < count self.now.sheets.now }
        requires unmarked { marks.old ≡ replicate 256 false }
        ensures { Enclosing self.now.sheets.now c marks.new }
    {
        let sheets = self.sheets;
        let n = sheets.count();
        marks[c] = true;
        let mut at = c;
        for _ in 0..c + 1 {
            match sheets.group(at).head().encloser {
                Some(up) if up < n => {
                    marks[up] = true;
                    at = up;
                }
                _ => break,
            }
        }
    }
}
