// What is written: the answers of `marks`, `name_place` and `name` on one line, what a reader finds, how many classes are faulted, and a row of verdicts.
use crate::case::Case;
use reader::{Found, nth};
use std::io;
use verdicts::faulted;
use verifier::{Place, Refusal, VERDICT_BYTES, judge, marks, name, name_place};

pub(crate) fn refused(rt: &impl Print, text: &str, refusal: Refusal) -> io::Result<()> {
    let number = refusal.reason.number();
    let sheet = refusal.sheet.number();
    let byte = refusal.byte;
    print!(rt; "{text}refused {number} sheet {sheet} byte {byte}")
}

fn say_marks(rt: &impl Print, case: &Case, class: usize) -> io::Result<()> {
    match marks(&case.library, &case.user, case.used, class) {
        Ok(set) => print!(rt; ": markers {set}"),
        Err(refusal) => refused(rt, ": ", refusal),
    }
}

fn say_place(rt: &impl Print, case: &Case, class: usize) -> io::Result<()> {
    match name_place(&case.library, &case.user, case.used, class) {
        Ok(Place { sheet, start, len }) => {
            let sheet = sheet.number();
            print!(rt; "; name in sheet {sheet} at {start}, bytes {len}")
        }
        Err(refusal) => refused(rt, "; name ", refusal),
    }
}

fn say_name(rt: &impl Print, case: &Case, class: usize) -> io::Result<()> {
    rt.write_all(b"; <")?;
    rt.write_all(name(&case.library, &case.user, case.used, class))?;
    rt.write_all(b">\n")
}

// What is answered of a class.
pub(crate) fn answers(rt: &impl Print, case: &Case, class: usize) -> io::Result<()> {
    say_marks(rt, case, class)?;
    say_place(rt, case, class)?;
    say_name(rt, case, class)
}

// Record n of a sheet.
pub(crate) fn record(rt: &impl Print, sheet: &[u8], n: usize) -> io::Result<()> {
    match nth(sheet, n) {
        Found::Record { start, len } => println!(rt; ": record at {start}, bytes {len}"),
        Found::Broken { start } => println!(rt; ": broken at {start}"),
        Found::End => println!(rt; ": end"),
    }
}

// How many user classes are faulted, counted through a row of structs; none where judging refuses.
pub(crate) fn structs(rt: &impl Print, case: &Case) -> io::Result<()> {
    let mut row = [0u8; 256 * VERDICT_BYTES];
    let mut scratch = [0u8; 65536];
    let judged = judge(&case.library, &case.user, case.used, &mut row, &mut scratch);
    let classes = judged.map_or(0, |counts| counts.classes);
    println!(rt; ": faulted {}", faulted(&row, classes))
}

// A byte of a row stands after a colon, a space or a bar: a bar stands between two classes' verdicts.
pub(crate) fn row(rt: &impl Print, verdicts: &[u8]) -> io::Result<()> {
    for (i, byte) in verdicts.iter().enumerate() {
        let mark = if i == 0 {
            ": "
        } else if i % VERDICT_BYTES == 0 {
            " | "
        } else {
            " "
        };
        print!(rt; "{mark}{byte}")?;
    }
    Ok(())
}
