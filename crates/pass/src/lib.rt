// The first pass over a sheet, or over whole groups of one: each record by itself and beside the one before it, refusals 2 to 7 and 16.
// On the way it fills the row of the bytes where the groups begin.
#![tactic(auto)]

ghost use Rattle.std.specs.Prelude.{◌≡◌, ◌+◌, ◌≤◌, length};
ghost use Rattle.spec.specs.Sheet.{class_count};
ghost use Rattle.refusals.specs.Refusals.{sheet_number, Answers};
ghost use Rattle.pass.specs.Pass.{pass_refusal, shifted, Filled};

mod candidate;
mod name;
mod place;

use place::Place;
use refusals::{Refusal, Side};

/// The first pass of some bytes of a sheet, where `base` classes stand before them and the first is byte `from` of the sheet: the number of classes after them.
pub fn first_pass(
    bytes: &[u8],
    side: Side,
    base: usize,
    from: usize,
    starts: &mut [u16],
) -> Result<usize, Refusal>
    requires part { from + length bytes.now ≤ 32768 }
    requires bounds { (base ≤ 256) × (256 ≤ length starts.old) }
    ensures answer { Answers (shifted from (pass_refusal (sheet_number side) base bytes.now)) result (λ n. n ≡ base + class_count bytes.now) }
    ensures starts { Filled (pass_refusal (sheet_number side) base bytes.now) base from bytes.now starts.old starts.new }
{
    let mut place = Place::start(side, from, base);
    let mut rest = bytes;
    while !rest.is_empty() {
        let record = place.next(rest)?;
        if record.is_class() {
            starts[place.classes] = place.byte as u16;
            place = place.opened(&record);
        } else {
            place = place.joined(&record);
        }
        rest = &rest[record.bytes.len()..];
    }
    Ok(place.classes)
}
