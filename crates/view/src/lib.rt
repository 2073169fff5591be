// A user sheet that need not be written yet: the user buffer with the bytes from `from` to `to` taken out and a group put there, up to the used length.
// Everything above speaks of the list of bytes that it stands for, `spliced`. No buffer is copied.
#![tactic(auto)]

ghost use Rattle.std.specs.Prelude.{◌≡◌, ◌-◌, length, take, drop};
ghost use Rattle.view.specs.View.{Fits, Parted, Spans, spliced};

use std::marker::Model;

/// Where the buffer is cut.
#[derive(Clone, Copy)]
pub struct Cut {
    pub from: usize,
    pub to: usize,
    pub used: usize,
}

impl Cut {
    /// At the end of the used bytes: nothing is taken out.
    pub fn at_end(used: usize) -> Cut
        ensures { result ≡ record { from = used; to = used; used = used } }
    {
        Cut {
            from: used,
            to: used,
            used,
        }
    }
}

/// A user sheet as a buffer, a group and a cut: one list of bytes.
#[derive(Drop)]
pub struct Draft<'a> {
    user: &'a [u8],
    group: &'a [u8],
    cut: Cut,
}

impl<'a> Model for Draft<'a> {
    ghost use Rattle.std.specs.Prelude.{List, ℕ};
    ghost use Rattle.view.specs.View.{Fits, spliced};

    ghost Value = { List ℕ };

    ghost view = { λ d. spliced d.user.now d.group.now d.cut };

    ghost invariant = { λ d. Fits d.cut d.user.now d.group.now };
}

/// The slices that a draft's bytes lie in, end to end.
#[derive(Clone, Copy)]
pub struct Parts<'a> {
    pub head: &'a [u8],
    pub group: &'a [u8],
    pub tail: &'a [u8],
}

impl<'a> Draft<'a> {
    /// The buffer's used bytes with the group in the place of what the cut takes out.
    pub fn new(user: &'a [u8], group: &'a [u8], cut: Cut) -> Draft<'a>
        requires { Fits cut user.now group.now }
        ensures { result ≡ spliced user.now group.now cut }
    {
        Draft { user, group, cut }
    }

    /// A sheet that stands written: all of the slice.
    pub fn written(user: &'a [u8]) -> Draft<'a>
        ensures { result ≡ user.now }
    {
        Draft {
            user,
            group: &user[0..0],
            cut: Cut::at_end(user.len()),
        }
    }

    /// How many bytes it has.
    pub fn len(&self) -> usize
        ensures { result ≡ length self.now }
    {
        self.cut.from + self.group.len() + (self.cut.used - self.cut.to)
    }

    /// What stands before the cut, the group, and what stands after the cut.
    pub fn parts(&self) -> Parts<'a>
        ensures { Parted self.now result.head.now result.group.now result.tail.now }
    {
        Parts {
            head: &self.user[..self.cut.from],
            group: self.group,
            tail: &self.user[self.cut.to..self.cut.used],
        }
    }

    /// The bytes of a class. They lie in one slice: no group stands across a cut.
    pub fn part(&self, start: usize, end: usize) -> &'a [u8]
        requires { Spans self.now start end }
        ensures { result.now ≡ take (end - start) (drop start self.now) }
    {
        let Parts { head, group, tail } = self.parts();
        if end <= head.len() {
            return &head[start..end];
        }
        let next = head.len() + group.len();
        if start < next {
            return group;
        }
        &tail[start - next..end - next]
    }
}
