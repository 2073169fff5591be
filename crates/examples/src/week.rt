// The calls of a week: `add`, `replace` and `withdraw` on the user buffer, the used length and the kept row; the answer, and what the call left in the buffers.
use crate::case::{Case, Sheet};
use crate::judging::{
    KEPT, ROW, SCRATCH, is_clean, judging, lent, only, say_if_wrong, split_verdicts,
};
use crate::say;
use crate::sheet::spelled;
use arrayvec::ArrayVec;
use std::io;
use verifier::{Refusal, add, replace, withdraw};

// A group is handed in as a line gives it.
#[derive(Clone, Copy)]
pub(crate) enum Call<'a> {
    Add(&'a [u8]),
    Replace(usize, &'a [u8]),
    Withdraw,
}

// The kept row; how many lines it has by now, and how many of them are those of classes that are there.
#[derive(Drop)]
pub(crate) struct Week {
    row: [u8; ROW],
    lines: usize,
    classes: usize,
}

// The longest group of a case.
const GROUP: usize = 400;

// From the longer of both sheets on, the user buffer is as it was, and where the sheet has become shorter zero stands.
fn is_left(before: &[u8], after: &[u8], old: usize, used: usize) -> bool {
    let freed = after.get(used..old).unwrap_or(&[]);
    let kept = old.max(used);
    only(freed, 0) && before.get(kept..) == after.get(kept..)
}

// An accepted call clears the scratch; a withdrawal is lent none.
fn is_scratch_left(call: Call, accepted: bool, scratch: &[u8; SCRATCH]) -> bool {
    match call {
        Call::Add(_) | Call::Replace(..) if accepted => is_clean(scratch),
        _ => only(scratch, KEPT),
    }
}

impl Week {
    pub(crate) fn new() -> Self {
        Week {
            row: [KEPT; ROW],
            lines: 0,
            classes: 0,
        }
    }

    // A judging whose row is kept.
    pub(crate) fn open(&mut self, rt: &impl Print, case: &Case) -> io::Result<()> {
        self.row.fill(KEPT);
        self.lines = judging(rt, case, &mut self.row)?;
        self.classes = self.lines;
        Ok(())
    }

    // Makes the call, and writes its answer; whether it was accepted.
    fn make(
        &mut self,
        rt: &impl Print,
        case: &mut Case,
        used: &mut usize,
        call: Call,
        scratch: &mut [u8],
    ) -> io::Result<bool> {
        let row = lent(&mut self.row, case.row);
        match call {
            Call::Add(words) => {
                let group = group(words);
                let added = add(&case.library, &mut case.user, used, &group, row, scratch);
                say_changed(rt, ": class ", added)
            }
            Call::Replace(class, words) => {
                let group = group(words);
                let replaced = replace(
                    &case.library,
                    &mut case.user,
                    used,
                    class,
                    &group,
                    row,
                    scratch,
                );
                say_changed(rt, ": dependents ", replaced)
            }
            Call::Withdraw => {
                let withdrawn = withdraw(&case.library, &mut case.user, used, row);
                say_changed(rt, ": class ", withdrawn)
            }
        }
    }

    // An accepted addition has a class more, and the row a line for it; there is none past the row's end. The line of a withdrawn class stays and is clean.
    fn count(&mut self, call: Call) {
        match call {
            Call::Add(_) => {
                self.classes = self.classes.saturating_add(1).min(ROW);
                self.lines = self.lines.max(self.classes);
            }
            Call::Replace(..) => {}
            Call::Withdraw => self.classes = self.classes.saturating_sub(1),
        }
    }

    // With copies of what the call may write, to be compared.
    pub(crate) fn change(
        &mut self,
        rt: &impl Print,
        case: &mut Case,
        call: Call,
    ) -> io::Result<()> {
        let user = case.user.clone()?;
        let row = self.row;
        let mut used = case.used;
        let mut scratch = [KEPT; SCRATCH];
        let lent_scratch = lent(&mut scratch, case.scratch);
        let accepted = self.make(rt, case, &mut used, call, lent_scratch)?;
        let is_scratch_right = is_scratch_left(call, accepted, &scratch);
        if accepted {
            self.count(call);
            let (_, past) = split_verdicts(&self.row, self.lines);
            let is_right = only(past, KEPT) && is_left(&user, &case.user, case.used, used);
            case.used = used;
            return self.say_ended(rt, used, is_scratch_right && is_right);
        }
        let is_right = user == case.user && row == self.row && used == case.used;
        self.say_ended(rt, used, is_scratch_right && is_right)
    }

    fn say_ended(&self, rt: &impl Print, used: usize, is_right: bool) -> io::Result<()> {
        let (verdicts, _) = split_verdicts(&self.row, self.lines);
        print!(rt; " used {used}")?;
        say::row(rt, verdicts)?;
        say_if_wrong(rt, is_right)?;
        rt.write_all(b"\n")
    }
}

fn group(words: &[u8]) -> ArrayVec<u8, GROUP> {
    let mut group = ArrayVec::new();
    spelled(&mut group, words);
    group
}

fn say_changed(rt: &impl Print, text: &str, changed: Result<usize, Refusal>) -> io::Result<bool> {
    match changed {
        Ok(number) => {
            print!(rt; "{text}{number}")?;
            Ok(true)
        }
        Err(refusal) => {
            say::refused(rt, ": ", refusal)?;
            Ok(false)
        }
    }
}
