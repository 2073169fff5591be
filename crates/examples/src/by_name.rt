// Class names: the index of them in a row of places, a class that is looked up by its name, and what either call leaves in the row.
use crate::case::Case;
use crate::judging::say_if_wrong;
use crate::say;
use crate::sheet::spelled;
use arrayvec::ArrayVec;
use std::io;
use verifier::{INDEX_PLACES, Refusal, fingerprint, index, lookup};

// More than an index needs, so that places past it are lent and must be left as they are.
pub(crate) const PLACES: usize = 600;

// What the row is filled with before a call; no class has this number.
const KEPT: u16 = 43981;

// What an empty place holds.
const EMPTY: u16 = 65535;

// The longest name of a case.
const NAME: usize = 200;

fn untouched(places: &[u16]) -> bool {
    places.iter().all(|&entry| entry == KEPT)
}

// Each place that is taken, with its class.
fn say_taken(rt: &impl Print, places: &[u16]) -> io::Result<()> {
    rt.write_all(b"; at")?;
    for (place, &entry) in places.iter().enumerate() {
        if entry != EMPTY {
            print!(rt; " {place} class {entry}")?;
        }
    }
    Ok(())
}

// An accepted call leaves an index in front and the places past it as they were, a refused one the whole row.
fn say_called(
    rt: &impl Print,
    text: &str,
    called: Result<usize, Refusal>,
    row: &[u16],
) -> io::Result<()> {
    match called {
        Ok(number) => {
            let (places, past) = row.split_at(INDEX_PLACES.min(row.len()));
            print!(rt; "{text}{number}")?;
            say_taken(rt, places)?;
            say_if_wrong(rt, untouched(past))?;
        }
        Err(refusal) => {
            say::refused(rt, ": ", refusal)?;
            say_if_wrong(rt, untouched(row))?;
        }
    }
    rt.write_all(b"\n")
}

fn name(words: &[u8]) -> ArrayVec<u8, NAME> {
    let mut name = ArrayVec::new();
    spelled(&mut name, words);
    name
}

pub(crate) fn say_index(rt: &impl Print, case: &Case) -> io::Result<()> {
    let mut row = [KEPT; PLACES];
    let lent = case.places.min(PLACES);
    let indexed = index(&case.library, &case.user, case.used, &mut row[..lent]);
    say_called(rt, ": entered ", indexed, &row)
}

pub(crate) fn say_lookup(rt: &impl Print, case: &Case, words: &[u8]) -> io::Result<()> {
    let mut row = [KEPT; PLACES];
    let lent = case.places.min(PLACES);
    let name = name(words);
    let found = lookup(
        &case.library,
        &case.user,
        case.used,
        &name,
        &mut row[..lent],
    );
    say_called(rt, ": class ", found, &row)
}

pub(crate) fn say_fingerprint(rt: &impl Print, words: &[u8]) -> io::Result<()> {
    println!(rt; ": fingerprint {}", fingerprint(&name(words)))
}
