// Rows of entries, 256 a lane, and how a class draws an entry from one other class. Dependents and captured variables are both found so.
#![tactic(auto)]

ghost use Rattle.std.specs.Prelude.{◌≡◌, ◌+◌, ◌*◌, ◌≤◌, ◌<◌, length, get_or, set};
ghost use Rattle.lanes.specs.Lanes.{words, Room, fits_row, lowers, drawn, drawn_lanes, drew_lanes, lanes_of, swept_of};

// The entries of a lane, one a class.
pub const LANE: usize = 256;

pub const ENTRY_BYTES: usize = 2;

// What an entry is where there is nothing to be drawn. Any other is 256 times an owner plus an index.
pub const EMPTY: u16 = 65535;

/// How much of a row counts: the classes of each lane, and the lanes.
#[derive(Clone, Copy)]
pub struct Extent {
    pub classes: usize,
    pub lanes: usize,
}

/// The entry at i.
pub fn entry(row: &[u8], i: usize) -> u16
    requires { 2 * i + 1 < length row.now }
    ensures { result ≡ get_or (words row.now) i 65535 }
{
    u16::from_le_bytes([row[ENTRY_BYTES * i], row[ENTRY_BYTES * i + 1]])
}

/// Writes the entry at i.
pub fn put(row: &mut [u8], i: usize, y: u16)
    requires { 2 * i + 1 < length row.old }
    ensures { words row.new ≡ set (words row.old) i y }
{
    let [low, high] = y.to_le_bytes();
    row[ENTRY_BYTES * i] = low;
    row[ENTRY_BYTES * i + 1] = high;
}

// 0 needs no mark: it only says that a class is reached, and any class may be.
#[tactic(auto, unfolding(crate::specs::Lanes::fits_row))]
fn fits(marks: &[bool], y: u16) -> bool
    requires { 256 ≤ length marks.now }
    ensures { result ≡ fits_row marks.now y }
{
    y == 0 || marks[usize::from(y / 256)]
}

// Class m takes in lane k what t has there, if that is lower and fits m. Answers whether anything changes, so that a search knows when to end.
#[tactic(auto, unfolding(crate::specs::Lanes::lowers, crate::specs::Lanes::drawn))]
fn draw(marks: &[bool], k: usize, m: usize, t: usize, row: &mut [u8]) -> bool
    requires long { 256 ≤ length marks.now }
    requires there { (2 * (k * 256 + m) + 1 < length row.old) × (2 * (k * 256 + t) + 1 < length row.old) }
    ensures row { words row.new ≡ drawn marks.now m t k (words row.old) }
    ensures answer { result ≡ lowers marks.now m t k (words row.old) }
{
    let offered = entry(row, k * LANE + t);
    if entry(row, k * LANE + m) <= offered || !fits(marks, offered) {
        return false;
    }
    put(row, k * LANE + m, offered);
    true
}

// The same in each lane. A record may name a class that is not there: nothing is drawn from it.
#[tactic(auto, unfolding(crate::specs::Lanes::lanes_of, crate::specs::Lanes::drawn_lanes, crate::specs::Lanes::drew_lanes))]
pub fn draw_lanes(marks: &[bool], extent: Extent, m: usize, t: usize, row: &mut [u8]) -> bool
    requires long { 256 ≤ length marks.now }
    requires room { Room extent.classes extent.lanes row.old }
    requires there { m < extent.classes }
    ensures row { words row.new ≡ drawn_lanes marks.now m t (lanes_of extent.classes extent.lanes t) (words row.old) }
    ensures answer { result ≡ drew_lanes marks.now m t (lanes_of extent.classes extent.lanes t) (words row.old) }
{
    if extent.classes <= t {
        return false;
    }
    let mut added = false;
    for k in 0..extent.lanes {
        added |= draw(marks, k, m, t, row);
    }
    added
}

// The i-th class of a sweep. A sweep upwards follows a whole chain of steps to lower classes but one step to a higher class, so sweeps go up and down by turns.
#[tactic(auto, unfolding(crate::specs::Lanes::swept_of))]
pub fn swept(up: bool, n: usize, i: usize) -> usize
    requires { i < n }
    ensures { (result ≡ swept_of up n i) × (result < n) }
{
    if up { i } else { n - 1 - i }
}
