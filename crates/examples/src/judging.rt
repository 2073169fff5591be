// One judging: its answer, what it left in the buffers that it was lent, and whether the verdicts are those that were expected.
use crate::case::Case;
use crate::say;
use std::io;
use verifier::{Counts, Refusal, SCRATCH_BYTES, VERDICT_BYTES, judge};

// More than a judging needs, so that bytes past its need are lent and must be left as they are.
pub(crate) const ROW: usize = 900;

pub(crate) const SCRATCH: usize = 65600;

// What both buffers are filled with before a judging.
pub(crate) const KEPT: u8 = 165;

pub(crate) fn only(bytes: &[u8], byte: u8) -> bool {
    bytes.iter().all(|&b| b == byte)
}

// The first `n` bytes, or all where there are no more.
pub(crate) fn start(buffer: &[u8], n: usize) -> &[u8] {
    &buffer[..n.min(buffer.len())]
}

pub(crate) fn lent(buffer: &mut [u8], n: usize) -> &mut [u8] {
    let n = n.min(buffer.len());
    &mut buffer[..n]
}

// The verdicts of the first `classes` classes, all of the row where it has no more; and what lies past them.
pub(crate) fn split_verdicts(row: &[u8], classes: usize) -> (&[u8], &[u8]) {
    row.split_at(classes.saturating_mul(VERDICT_BYTES).min(row.len()))
}

// After an accepted judging the scratch is zero in the bytes that a judging takes and as it was past them.
pub(crate) fn is_clean(scratch: &[u8; SCRATCH]) -> bool {
    only(&scratch[..SCRATCH_BYTES], 0) && only(&scratch[SCRATCH_BYTES..], KEPT)
}

pub(crate) fn say_if_wrong(rt: &impl Print, is_right: bool) -> io::Result<()> {
    if is_right {
        return Ok(());
    }
    rt.write_all(b"; buffers wrong")
}

// No expected verdicts: nothing is compared.
fn compare(rt: &impl Print, found: &[u8], expected: &[u8]) -> io::Result<()> {
    if expected.is_empty() {
        return Ok(());
    }
    if found == expected {
        return rt.write_all(b"; as expected");
    }
    rt.write_all(b"; EXPECTED")?;
    say::row(rt, expected)
}

// How many user classes were judged. The row is as it was past the verdicts; a refused judging leaves both buffers as they were.
fn say_judged(
    rt: &impl Print,
    judged: Result<Counts, Refusal>,
    row: &[u8],
    scratch: &[u8; SCRATCH],
    expected: &[u8],
) -> io::Result<usize> {
    match judged {
        Ok(Counts { classes, faulted }) => {
            let (verdicts, past) = split_verdicts(row, classes);
            print!(rt; ": classes {classes} faulted {faulted}")?;
            say::row(rt, verdicts)?;
            say_if_wrong(rt, is_clean(scratch) && only(past, KEPT))?;
            compare(rt, verdicts, expected)?;
            Ok(classes)
        }
        Err(refusal) => {
            say::refused(rt, ": ", refusal)?;
            say_if_wrong(rt, only(row, KEPT) && only(scratch, KEPT))?;
            compare(rt, b"", expected)?;
            Ok(0)
        }
    }
}

// The row is filled before it.
pub(crate) fn judging(rt: &impl Print, case: &Case, row: &mut [u8; ROW]) -> io::Result<usize> {
    let mut scratch = [KEPT; SCRATCH];
    let judged = judge(
        &case.library,
        &case.user,
        case.used,
        lent(row, case.row),
        lent(&mut scratch, case.scratch),
    );
    let classes = say_judged(rt, judged, row, &scratch, &case.expected)?;
    rt.write_all(b"\n")?;
    Ok(classes)
}
