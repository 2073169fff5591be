// The verdict row as a slice of structs: the report over it, and a flat row's lines written into it.
#![tactic(auto)]

ghost use Rattle.std.specs.Prelude.{◌≡◌, min, length};
ghost use Rattle.verdicts.specs.Row.{is_faulted, faulted_in, shared, written, flat_faulted};

use records::{CLASS_LIMIT, VERDICT_BYTES};

// Document 01's line, and the class in which the fault sits (02, C-16).
#[derive(Clone, Copy, PartialEq, Eq, Debug)]
pub struct Verdict {
    pub rule: u8,
    pub record: u8,
    pub class: u8,
}

impl Verdict {
    pub const CLEAN: Verdict = Verdict {
        rule: 0,
        record: 0,
        class: 0,
    };

    pub fn is_faulted(&self) -> bool
        ensures { result ≡ is_faulted self.now }
    {
        self.rule != 0
    }
}

// How many of the first n verdicts are faulted; of all, if there are fewer.
pub fn report(row: &[Verdict], n: usize) -> usize
    ensures { result ≡ faulted_in row.now (min n (length row.now)) }
{
    row.iter().take(n).filter(|v| v.is_faulted()).count()
}

// Line i becomes line i of the flat row, for the first n lines as far as both rows have them; every other line stays.
pub fn write(row: &mut [Verdict], flat: &[u8], n: usize)
    ensures { row.new ≡ written flat.now row.old n }
{
    let (lines, _) = flat.as_chunks::<VERDICT_BYTES>();
    let end = n.min(row.len()).min(lines.len());
    for (i, verdict) in row[..end].iter_mut().enumerate() {
        let [rule, record, class] = lines[i];
        *verdict = Verdict {
            rule,
            record,
            class,
        };
    }
}

// How many of the first n lines of a flat row are faulted, counted through a row of 256 structs of the call's own. For
// callers with plain parameters.
pub fn faulted(flat: &[u8], n: usize) -> usize
    ensures { result ≡ flat_faulted flat.now (shared n 256 flat.now) }
{
    let mut row = [Verdict::CLEAN; CLASS_LIMIT];
    write(&mut row, flat, n);
    report(&row, CLASS_LIMIT)
}
