// Captured variables: for each class and marker, the first that it captures and whose type lacks the marker.
#![tactic(auto)]

ghost use Rattle.std.specs.Prelude.{◌≡◌, [], ◌^◌, ◌<◌, length, get_or};
ghost use Rattle.spec.specs.Record.{LOCAL, local_ty};
ghost use Rattle.spec.specs.Sheet.{of_kind};
ghost use Rattle.records.specs.Kinds.{spec_ty};
ghost use Rattle.sheets.specs.Sheets.{count, groups};
ghost use Rattle.lanes.specs.Lanes.{words, entry_at};
ghost use Rattle.overlay.specs.Types.{Known};
ghost use Rattle.captured.specs.Captured.{lane_marker, lane_place, variable_of, Shown};
ghost use Rattle.captured.specs.Seeds.{Lowering, InLane, Offered, ByClass, ByClasses};

use lanes::{EMPTY, ENTRY_BYTES, LANE, entry, put};
use markers::{DEEP_SELFLESS, IMMUTABLE, POWERLESS, has};
use named::Along;
use overlay::type_markers;
use reach::{Nest, close, note_outers};
use records::CLASS_LIMIT;
use records::group::Group;
use records::kind::Kind;
use records::record::{Body, Ty};
use sheets::formed::Formed;

/// The markers whose captured variables are asked, a lane of entries each.
#[derive(Clone, Copy, PartialEq, Eq, Debug)]
pub enum Lane {
    Immutable = 0,
    Powerless = 1,
    DeepSelfless = 2,
}

/// All of them, as they lie in a row.
pub const LANES: [Lane; 3] = [Lane::Immutable, Lane::Powerless, Lane::DeepSelfless];

/// All lanes, as bytes.
pub const ROW_BYTES: usize = LANES.len() * LANE * ENTRY_BYTES;

impl Lane {
    /// The lane's marker, as a set of its own.
    pub fn set(self) -> u8
        ensures { (result ≡ 2 ^ lane_marker self) × (0 < result) }
    {
        match self {
            Lane::Immutable => IMMUTABLE,
            Lane::Powerless => POWERLESS,
            Lane::DeepSelfless => DEEP_SELFLESS,
        }
    }

    /// Its place among the lanes of a row.
    pub fn place(self) -> usize
        ensures { result ≡ lane_place self }
    {
        self as usize
    }
}

// The type of variable i of a class.
fn variable_type(group: &Group, i: usize) -> Ty
    requires { i < length (of_kind LOCAL group.now) }
    ensures { spec_ty result ≡ local_ty (get_or (of_kind LOCAL group.now) i []) }
{
    group
        .records()
        .filter_map(|record| match record.body() {
            Body::Local(ty) => Some(ty),
            _ => None,
        })
        .nth(i)
        .unwrap()
}

// A lane of class m is lowered to the entry y if its marker is lacking.
fn lower_lane(set: u8, lane: Lane, m: usize, y: u16, row: &mut [u8; ROW_BYTES])
    requires { m < 256 }
    ensures { Lowering (InLane set m y lane) (words row.old) (words row.new) }
{
    if has(set, lane.set()) {
        return;
    }
    let at = lane.place() * LANE + m;
    let low = entry(row, at).min(y);
    put(row, at, low);
}

// So are all lanes, if the entry's owner encloses m.
fn offer(marks: &[bool; CLASS_LIMIT], set: u8, m: usize, y: u16, row: &mut [u8; ROW_BYTES])
    requires { m < 256 }
    ensures { Lowering (Offered marks.now set m y) (words row.old) (words row.new) }
{
    if !marks[usize::from(y / 256)] {
        return;
    }
    for lane in LANES {
        lower_lane(set, lane, m, y, row);
    }
}

// Sheets with their classes' enclosers, and the row of the classes' markers.
#[derive(Drop)]
struct MarkedSheets<'a> {
    nest: &'a Nest<'a>,
    markers: &'a [u8],
    ghost known: { Known (groups nest.now.formed.now.sheets) markers.now },
}

impl<'a> MarkedSheets<'a> {
    // What the records of class m use.
    fn seed_records(&self, m: usize, row: &mut [u8; ROW_BYTES])
        requires { m < count self.now.nest.now.formed.now.sheets }
        ensures { Lowering (ByClass (groups self.now.nest.now.formed.now.sheets) m) (words row.old) (words row.new) }
    {
        let sheets = &self.nest.formed.sheets;
        let group = sheets.group(m);
        let mut marks = [false; CLASS_LIMIT];
        self.nest.mark_enclosers(m, &mut marks);
        for record in group.records() {
            if let Body::Uses { class, index } = record.body() {
                let ty = variable_type(&sheets.group(class), index);
                let y = (LANE * class + index) as u16;
                offer(&marks, type_markers(ty, self.markers), m, y, row);
            }
        }
    }

    // What class m itself uses. Most classes use nothing.
    fn seed_class(&self, m: usize, row: &mut [u8; ROW_BYTES])
        requires { m < count self.now.nest.now.formed.now.sheets }
        ensures { Lowering (ByClass (groups self.now.nest.now.formed.now.sheets) m) (words row.old) (words row.new) }
    {
        if self.nest.formed.sheets.group(m).has(Kind::Uses) {
            self.seed_records(m, row);
        }
    }

    // What each class itself uses. No library class uses a variable.
    fn seed(&self, row: &mut [u8; ROW_BYTES])
        ensures { Lowering (ByClasses (groups self.now.nest.now.formed.now.sheets) (count self.now.nest.now.formed.now.sheets))
            (words row.old) (words row.new) }
    {
        let sheets = &self.nest.formed.sheets;
        for m in sheets.library_count()..sheets.count() {
            self.seed_class(m, row);
        }
    }
}

/// Fills three lanes; the variables are found along BUILDS.
pub fn captures(formed: &Formed, markers: &[u8], row: &mut [u8; ROW_BYTES])
    requires { Known (groups formed.now.sheets) markers.now }
    ensures { Shown (groups formed.now.sheets) (count formed.now.sheets) row.new }
{
    row.fill(u8::MAX);
    let mut outer = [0; CLASS_LIMIT];
    note_outers(formed, &mut outer);
    let nest = Nest {
        formed,
        outer: &outer,
    };
    MarkedSheets {
        nest: &nest,
        markers,
    }
    .seed(row);
    close(&nest, Along::Builds, LANES.len(), row);
}

/// A variable of class `owner`, by its index among that class's LOCALs.
#[derive(Clone, Copy)]
pub struct Variable {
    pub owner: usize,
    pub index: usize,
}

/// The first variable that class l captures and whose type lacks the lane's marker.
pub fn first_lacking(row: &[u8; ROW_BYTES], lane: Lane, l: usize) -> Option<Variable>
    requires { l < 256 }
    ensures { result ≡ variable_of (entry_at (words row.now) (lane_place lane) l) }
{
    match entry(row, lane.place() * LANE + l) {
        EMPTY => None,
        y => Some(Variable {
            owner: usize::from(y / 256),
            index: usize::from(y % 256),
        }),
    }
}
