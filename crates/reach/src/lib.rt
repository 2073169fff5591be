// The search along what the records of both sheets name: each class draws the least entry that reaches it, until nothing changes.
#![tactic(auto)]

ghost use Rattle.std.specs.Prelude.{◌≡◌, true, false, [], ◌≤◌, ◌<◌, map, replicate};
ghost use Rattle.spec.specs.Lists.{any, span};
ghost use Rattle.spec.specs.Verdicts.{depends_on};
ghost use Rattle.sheets.specs.Sheets.{count, groups};
ghost use Rattle.lanes.specs.Lanes.{words, Room, Enclosers, SeedsFit};
ghost use Rattle.named.specs.Named.{named_by};
ghost use Rattle.reach.specs.Reach.{named_in, steps_of, outer_of, nearest, Outers, DrawnFrom, offers, Visited, Swept, Closed};

use lanes::{ENTRY_BYTES, Extent, LANE, draw_lanes, entry, put, swept};
use named::{Along, named_along};
use records::CLASS_LIMIT;
use records::group::Group;
use records::kind::Kind;
use records::record::Record;
use sheets::Sheets;
use sheets::formed::Formed;

// The encloser of class c, or c itself: where there is none, or one whose number is not lower.
fn nearest(sheets: &Sheets, c: usize) -> usize
    requires { (c < count sheets.now) × (c ≤ 256) }
    ensures { result ≡ nearest (groups sheets.now) c }
{
    match sheets.group(c).head().encloser {
        Some(e) => e.min(c),
        None => c,
    }
}

/// Notes each class's encloser in a row of the caller's.
pub fn note_outers(formed: &Formed, outer: &mut [u8; CLASS_LIMIT])
    ensures { Outers formed.now.sheets outer.new }
{
    let sheets = &formed.sheets;
    for (c, above) in outer[..sheets.count()].iter_mut().enumerate() {
        *above = nearest(sheets, c) as u8;
    }
}

/// Formed sheets, and the encloser of each class: a row, since a search climbs it again and again. A class without one has itself.
#[derive(Drop)]
pub struct Nest<'a> {
    pub formed: &'a Formed<'a>,
    pub outer: &'a [u8; CLASS_LIMIT],
    pub ghost read: { Outers formed.now.sheets outer.now },
}

impl<'a> Nest<'a> {
    /// Marks each encloser of class m in a row of the caller's.
    pub fn mark_enclosers(&self, m: usize, marks: &mut [bool; CLASS_LIMIT])
        requires there { m < count self.now.formed.now.sheets }
        requires unmarked { marks.old ≡ replicate 256 false }
        ensures { Enclosers (outer_of (groups self.now.formed.now.sheets)) m marks.new }
    {
        let mut c = m;
        while usize::from(self.outer[c]) < c {
            c = usize::from(self.outer[c]);
            marks[c] = true;
        }
    }

    /// The same row, handed out.
    pub fn enclosers(&self, m: usize) -> [bool; CLASS_LIMIT]
        requires { m < count self.now.formed.now.sheets }
        ensures { Enclosers (outer_of (groups self.now.formed.now.sheets)) m result }
    {
        let mut marks = [false; CLASS_LIMIT];
        self.mark_enclosers(m, &mut marks);
        marks
    }
}

// Class m draws along one record.
fn draw_record(
    record: &Record,
    marks: &[bool; CLASS_LIMIT],
    along: Along,
    extent: Extent,
    m: usize,
    row: &mut [u8],
) -> bool
    requires room { Room extent.classes extent.lanes row.old }
    requires there { m < extent.classes }
    ensures { DrawnFrom (named_by along record.now) marks.now extent.classes extent.lanes m (words row.old) (words row.new) result }
{
    let mut added = false;
    for t in named_along(record, along) {
        added |= draw_lanes(marks, extent, m, t, row);
    }
    added
}

// Class m, whose records these are, draws along all that they name, in a single lane until it has 0. The row of marks holds its enclosers.
fn scan(
    group: &Group,
    marks: &[bool; CLASS_LIMIT],
    along: Along,
    extent: Extent,
    m: usize,
    row: &mut [u8],
) -> bool
    requires room { Room extent.classes extent.lanes row.old }
    requires there { m < extent.classes }
    ensures { DrawnFrom (named_in along group.now) marks.now extent.classes extent.lanes m (words row.old) (words row.new) result }
{
    let mut added = false;
    for record in group.records() {
        added |= draw_record(&record, marks, along, extent, m, row);
        if extent.lanes == 1 && entry(row, m) == 0 {
            return added;
        }
    }
    added
}

// Whether class t has in some lane a lower entry than m. A class that is not there has none.
fn has_lower(row: &[u8], extent: Extent, m: usize, t: usize) -> bool
    requires room { Room extent.classes extent.lanes row.now }
    requires there { m < extent.classes }
    ensures { result ≡ offers (words row.now) extent.classes extent.lanes m t }
{
    t < extent.classes
        && (0..extent.lanes).any(|k| entry(row, k * LANE + t) < entry(row, k * LANE + m))
}

// Whether a record names a class that has in some lane a lower entry than m.
fn names_lower(record: &Record, along: Along, extent: Extent, m: usize, row: &[u8]) -> bool
    requires room { Room extent.classes extent.lanes row.now }
    requires there { m < extent.classes }
    ensures { result ≡ any (offers (words row.now) extent.classes extent.lanes m) (named_by along record.now) }
{
    named_along(record, along).any(|t| has_lower(row, extent, m, t))
}

// Whether class m, whose records these are, names a class that has in some lane a lower entry.
fn wants(group: &Group, along: Along, extent: Extent, m: usize, row: &[u8]) -> bool
    requires room { Room extent.classes extent.lanes row.now }
    requires there { m < extent.classes }
    ensures { result ≡ any (offers (words row.now) extent.classes extent.lanes m) (named_in along group.now) }
{
    group
        .records()
        .any(|record| names_lower(&record, along, extent, m, row))
}

// Told true, class m has no step: along BUILDS a class that builds nothing. No library class builds, so those are not read.
fn steps_nowhere(sheets: &Sheets, along: Along, m: usize) -> bool
    requires { m < count sheets.now }
    ensures { result ≡ true → steps_of (groups sheets.now) along m ≡ [] }
{
    match along {
        Along::Every => false,
        Along::Builds => m < sheets.library_count() || !sheets.group(m).has(Kind::Builds),
    }
}

// Class m draws along all that its records name, unless there is nothing to draw: in a single lane nothing is lower than 0; a class may have no step;
// or nothing named has a lower entry. Only then its enclosers are looked up.
fn visit(nest: &Nest, along: Along, extent: Extent, m: usize, row: &mut [u8]) -> bool
    requires count { extent.classes ≡ count nest.now.formed.now.sheets }
    requires room { Room extent.classes extent.lanes row.old }
    requires there { m < extent.classes }
    ensures { Visited nest.now.formed.now.sheets along extent.classes extent.lanes m (words row.old) (words row.new) result }
{
    if extent.lanes == 1 && entry(row, m) == 0 {
        return false;
    }
    if steps_nowhere(&nest.formed.sheets, along, m) {
        return false;
    }
    let group = nest.formed.sheets.group(m);
    if !wants(&group, along, extent, m, row) {
        return false;
    }
    let mut marks = [false; CLASS_LIMIT];
    nest.mark_enclosers(m, &mut marks);
    scan(&group, &marks, along, extent, m, row)
}

// Each class draws once, in rising or in falling order.
fn sweep(nest: &Nest, along: Along, extent: Extent, up: bool, row: &mut [u8]) -> bool
    requires count { extent.classes ≡ count nest.now.formed.now.sheets }
    requires room { Room extent.classes extent.lanes row.old }
    ensures { Swept nest.now.formed.now.sheets along extent.classes extent.lanes (words row.old) (words row.new) result }
{
    let mut added = false;
    for i in 0..extent.classes {
        let m = swept(up, extent.classes, i);
        added |= visit(nest, along, extent, m, row);
    }
    added
}

/// Sweeps to and fro until nothing changes.
pub fn close(nest: &Nest, along: Along, lanes: usize, row: &mut [u8])
    requires room { Room (count nest.now.formed.now.sheets) lanes row.old }
    requires seeds_fit { SeedsFit (outer_of (groups nest.now.formed.now.sheets)) (count nest.now.formed.now.sheets) lanes (words row.old) }
    ensures { Closed nest.now.formed.now.sheets along lanes (words row.old) (words row.new) }
{
    let classes = nest.formed.sheets.count();
    let extent = Extent { classes, lanes };
    let mut up = true;
    while sweep(nest, along, extent, up, row) {
        up = !up;
    }
}

/// Marks each class that depends on d, and no other, in a row of the caller's. Its own rows are not to lie in the frame of the judging that comes after it.
#[inline(never)]
pub fn mark_dependents(formed: &Formed, d: usize, marks: &mut [bool; CLASS_LIMIT])
    requires { d < count formed.now.sheets }
    ensures { marks.new ≡ map (depends_on formed.now.sheets.library formed.now.sheets.user d) (span 0 256) }
{
    let mut row = [u8::MAX; LANE * ENTRY_BYTES];
    put(&mut row, d, 0);
    let mut outer = [0; CLASS_LIMIT];
    note_outers(formed, &mut outer);
    let nest = Nest {
        formed,
        outer: &outer,
    };
    close(&nest, Along::Every, 1, &mut row);
    for (c, mark) in marks.iter_mut().enumerate() {
        *mark = entry(&row, c) == 0;
    }
}

/// The same row, handed out.
pub fn dependents(formed: &Formed, d: usize) -> [bool; CLASS_LIMIT]
    requires { d < count formed.now.sheets }
    ensures { result ≡ map (depends_on formed.now.sheets.library formed.now.sheets.user d) (span 0 256) }
{
    let mut marks = [false; CLASS_LIMIT];
    mark_dependents(formed, d, &mut marks);
    marks
}
