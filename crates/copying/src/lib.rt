// Copies that are loops, so that the archive for C asks its host for no other function than memset.
#![tactic(auto)]

ghost use Rattle.std.specs.Prelude.{◌≡◌, length};

/// Copies a row over another of its length. Where it is inlined, the compiler may take the loop for a copy again.
#[inline(never)]
pub fn copy<T: Copy>(to: &mut [T], from: &[T])
    requires { length to.old ≡ length from.now }
    ensures { to.new ≡ from.now }
{
    for i in 0..from.len() {
        to[i] = from[i];
    }
}
