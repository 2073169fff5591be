// The commands of a file of cases, one a line. A blank line and one that begins with # are skipped.
//
//   title TEXT         begins a case and its line of output; lends enough row and scratch again, expects nothing
//   library BYTES      the library sheet; BYTES are pairs of digits to the base 16, with spaces and commas between them
//   user BYTES         the user buffer, all of it used
//   more BYTES         appended to the sheet that was last begun
//   repeat N BYTES     appended N times; n, x and y in BYTES stand for the number of times left and its digits as letters
//   used N             the used length, where it is not the whole user buffer
//   row N              how many bytes of the row are lent
//   scratch N          how many bytes of scratch are lent
//   places N           how many places of a row of class numbers are lent
//   expect R K C | ..  the verdicts that the case must have
//   ask C              writes what `marks`, `name_place` and `name` answer of class C
//   record N           writes what a reader of the user sheet finds as record N
//   structs            writes how many user classes are faulted, counted through a row of structs
//   judge              writes what `judge` answers, and whether the buffers and the verdicts are as they must be
//   open               as judge, and begins a week: its row is kept
//   add BYTES          writes what `add` answers of that group, the used length and the kept row after it
//   replace C BYTES    writes the same of `replace` in the place of class C
//   withdraw           writes the same of `withdraw`
//   index              writes what `index` answers, and each taken place with its class
//   lookup BYTES       writes the same of `lookup` of that name
//   fingerprint BYTES  writes the fingerprint of those bytes
use crate::case::Case;
use crate::judging::{KEPT, ROW, judging, start};
use crate::line::{number, split_word};
use crate::sheet::{repeated, spelled};
use crate::week::{Call, Week};
use crate::{by_name, say};
use std::io;

// A judging from nothing: its row is its own.
fn judge_apart(rt: &impl Print, case: &Case) -> io::Result<()> {
    let mut row = [KEPT; ROW];
    judging(rt, case, &mut row)?;
    Ok(())
}

// It appends nothing, and as after all that is appended all of the user buffer is used.
fn unknown(rt: &impl Print, verb: &[u8], case: &mut Case) -> io::Result<()> {
    case.append(b"", spelled);
    rt.write_all(b"unknown command ")?;
    rt.write_all(verb)?;
    rt.write_all(b"\n")
}

// The commands that write.
fn said(
    rt: &impl Print,
    verb: &[u8],
    words: &[u8],
    case: &mut Case,
    week: &mut Week,
) -> io::Result<()> {
    match verb {
        b"ask" => say::answers(rt, case, number(words)),
        b"record" => {
            case.fill_buffer();
            say::record(rt, start(&case.buffer, case.used), number(words))
        }
        b"structs" => say::structs(rt, case),
        b"judge" => judge_apart(rt, case),
        b"open" => week.open(rt, case),
        b"add" => week.change(rt, case, Call::Add(words)),
        b"replace" => {
            let (class, group) = split_word(words);
            week.change(rt, case, Call::Replace(number(class), group))
        }
        b"withdraw" => week.change(rt, case, Call::Withdraw),
        b"index" => by_name::say_index(rt, case),
        b"lookup" => by_name::say_lookup(rt, case, words),
        b"fingerprint" => by_name::say_fingerprint(rt, words),
        _ => unknown(rt, verb, case),
    }
}

fn command(rt: &impl Print, line: &[u8], case: &mut Case, week: &mut Week) -> io::Result<()> {
    let (verb, words) = split_word(line);
    match verb {
        b"title" => {
            rt.write_all(words)?;
            case.begin();
        }
        b"library" => case.begin_library(words),
        b"user" => case.begin_user(words),
        b"more" => case.append(words, spelled),
        b"repeat" => case.append(words, repeated),
        b"used" => case.used = number(words),
        b"row" => case.row = number(words),
        b"scratch" => case.scratch = number(words),
        b"places" => case.places = number(words),
        b"expect" => case.expect(words),
        _ => said(rt, verb, words, case, week)?,
    }
    Ok(())
}

pub(crate) fn run(rt: &impl Print, text: &[u8]) -> io::Result<()> {
    let mut case = Case::new();
    let mut week = Week::new();
    for line in text.split(|&byte| byte == b'\n') {
        match line.first() {
            None | Some(b'#') => {}
            Some(_) => command(rt, line, &mut case, &mut week)?,
        }
    }
    Ok(())
}
