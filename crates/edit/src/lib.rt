// Writing a new user sheet in place: later groups move, the group is copied in, freed bytes become zero.
#![tactic(auto)]

ghost use Rattle.std.specs.Prelude.{◌≡◌, ◌+◌, ◌≤◌, length, drop};
ghost use Rattle.std.proofs.Math.Seq.{paste};
ghost use Rattle.spec.specs.Promises.{buffer_with};
ghost use Rattle.view.specs.View.{Fits, spliced};

use copying::copy;
use view::Cut;

// Moves n bytes to a place that is not below: the last byte first, so that none is overwritten before it is read.
fn move_up(buffer: &mut [u8], from: usize, to: usize, n: usize)
    requires { (from ≤ to) × (to + n ≤ length buffer.old) }
    ensures { buffer.new ≡ paste buffer.old to (drop from buffer.old) n }
{
    for done in 0..n {
        let i = n - 1 - done;
        buffer[to + i] = buffer[from + i];
    }
}

// Moves n bytes to a place that is not above: the first byte first.
fn move_down(buffer: &mut [u8], from: usize, to: usize, n: usize)
    requires { (to ≤ from) × (from + n ≤ length buffer.old) }
    ensures { buffer.new ≡ paste buffer.old to (drop from buffer.old) n }
{
    for i in 0..n {
        buffer[to + i] = buffer[from + i];
    }
}

// Moves n bytes from one place to another. A group of the old one's length moves nothing.
fn shift(buffer: &mut [u8], from: usize, to: usize, n: usize)
    requires { (from + n ≤ length buffer.old) × (to + n ≤ length buffer.old) }
    ensures { buffer.new ≡ paste buffer.old to (drop from buffer.old) n }
{
    if from == to {
        return;
    }
    if from < to {
        move_up(buffer, from, to, n);
    } else {
        move_down(buffer, from, to, n);
    }
}

// Makes the buffer hold the sheet that the cut and the group stand for.
pub fn write(user: &mut [u8], group: &[u8], cut: Cut)
    requires fits { Fits cut user.old group.now }
    requires room { length (spliced user.old group.now cut) ≤ length user.old }
    ensures { user.new ≡ buffer_with (spliced user.old group.now cut) user.old cut.used }
{
    let later = cut.from + group.len();
    let end = later + (cut.used - cut.to);
    shift(user, cut.to, later, cut.used - cut.to);
    copy(&mut user[cut.from..later], group);
    if end < cut.used {
        user[end..cut.used].fill(0);
    }
}
