// Overlay markers: a class asks its superclass and its interfaces, and each interface asks those it extends. A memo row keeps what is known.
// Classes are asked in rising order, so that a class finds its supertypes there: each is computed once, and no call is deep.
#![tactic(auto)]

ghost use Rattle.std.specs.Prelude.{◌≡◌, Some, ◌+◌, ◌<◌, max, get_or, set};
ghost use Rattle.std.proofs.Props.{props};
ghost use Rattle.spec.specs.Classes.{overlay as overlay_of};
ghost use Rattle.laws.proofs.All.{all_prop};
ghost use Rattle.theory.proofs.Falls.{Falls};
ghost use Rattle.records.specs.Kinds.{spec_ty};
ghost use Rattle.sheets.specs.Sheets.{Passed, count, groups, library_count};
ghost use Rattle.overlay.specs.Memo.{raw, with_interfaces, memo_of, Knows};
ghost use Rattle.overlay.specs.Types.{Known, row_markers};

use markers::{ALL, closure, union};
use records::CLASS_LIMIT;
use records::record::{Body, Ty};
use sheets::Sheets;

/// Two sheets whose classes have lower numbers above them: each superclass, encloser and interface stands before what names it.
#[derive(Drop)]
pub struct Falling<'a> {
    pub sheets: &'a Sheets<'a>,
    pub ghost passed: { Passed sheets.now } by { Prim.hlevel (all_prop, props) },
    pub ghost falls: { Falls (groups sheets.now) },
}

// The own markers of class c and of all its supertypes, unless the memo has them.
#[cycle(supertypes)]
fn gathered(falling: &Falling, c: usize, memo: &mut [Option<u8>]) -> u8
    requires there { c < count falling.now.sheets.now }
    requires knows { Knows (groups falling.now.sheets.now) c memo.old }
    ensures markers { result ≡ raw (groups falling.now.sheets.now) c }
    ensures memo { memo.new ≡ set memo.old c (Some (raw (groups falling.now.sheets.now) c)) }
{
    if let Some(known) = memo[c] {
        return known;
    }
    let head = falling.sheets.group(c).head();
    let mut mine = head.markers;
    if let Some(above) = head.superclass {
        mine = union(mine, gathered(falling, above, memo));
    }
    let markers = interfaces(falling, c, mine, memo);
    memo[c] = Some(markers);
    markers
}

// The set `mine` joined with what is gathered for the interfaces that class c lists.
#[cycle(supertypes)]
fn interfaces(falling: &Falling, c: usize, mine: u8, memo: &mut [Option<u8>]) -> u8
    requires there { c < count falling.now.sheets.now }
    requires knows { Knows (groups falling.now.sheets.now) c memo.old }
    ensures markers { result ≡ with_interfaces (groups falling.now.sheets.now) c mine }
    ensures memo { memo.new ≡ memo.old }
{
    let mut markers = mine;
    for record in falling.sheets.group(c).records() {
        if let Body::Implements(interface) = record.body() {
            markers = union(markers, gathered(falling, interface, memo));
        }
    }
    markers
}

/// The overlay markers of class c.
pub fn overlay(falling: &Falling, c: usize, memo: &mut [Option<u8>]) -> u8
    requires there { c < count falling.now.sheets.now }
    requires knows { Knows (groups falling.now.sheets.now) c memo.old }
    ensures markers { result ≡ overlay_of (groups falling.now.sheets.now) c }
    ensures memo { memo.new ≡ set memo.old c (Some (raw (groups falling.now.sheets.now) c)) }
{
    let open = gathered(falling, c, memo);
    closure(open)
}

/// The overlay markers of class c, where the memo knows the library classes. The user classes below c are asked first, so that each finds its supertypes
/// in the memo and no call is deep.
pub fn overlay_in_turn(falling: &Falling, c: usize, memo: &mut [Option<u8>]) -> u8
    requires there { c < count falling.now.sheets.now }
    requires memo { memo.old ≡ memo_of (groups falling.now.sheets.now) (library_count falling.now.sheets.now) }
    ensures markers { result ≡ overlay_of (groups falling.now.sheets.now) c }
    ensures memo { memo.new ≡ memo_of (groups falling.now.sheets.now) (max (library_count falling.now.sheets.now) (c + 1)) }
{
    let first = falling.sheets.library_count();
    for below in first..c {
        gathered(falling, below, memo);
    }
    overlay(falling, c, memo)
}

/// Writes the overlay markers of each class, 0 past the last one.
pub fn overlays(falling: &Falling, memo: &mut [Option<u8>], row: &mut [u8; CLASS_LIMIT])
    requires memo { memo.old ≡ memo_of (groups falling.now.sheets.now) (library_count falling.now.sheets.now) }
    ensures row { Known (groups falling.now.sheets.now) row.new }
    ensures memo { memo.new ≡ memo_of (groups falling.now.sheets.now) (count falling.now.sheets.now) }
{
    let (there, past) = row.split_at_mut(falling.sheets.count());
    for (c, markers) in there.iter_mut().enumerate() {
        *markers = overlay(falling, c, memo);
    }
    past.fill(0);
}

/// The set that the row holds for class c.
pub fn known(row: &[u8], c: usize) -> u8
    ensures { result ≡ get_or row.now c 0 }
{
    row.get(c).copied().unwrap_or(0)
}

/// The markers that a type satisfies, by the row of all classes' markers: those of its class, all if it is primitive, none if it is an array.
pub fn type_markers(ty: Ty, row: &[u8]) -> u8
    ensures { result ≡ row_markers row.now (spec_ty ty) }
{
    match (ty.dims, ty.code) {
        (0, 0) => known(row, ty.class),
        (0, _) => ALL,
        _ => 0,
    }
}
