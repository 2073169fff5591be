// Runs the interface on real bytes. The cases are in the files of data/, a command a line: script.rt says which commands there are.
#![tactic(auto)]

mod by_name;
mod case;
mod judging;
mod line;
mod say;
mod script;
mod sheet;
mod week;

use files::read_full;
use std::rt::Files;
use std::{fs, io};

// A file that cannot be opened is named and passed over. One that fills the buffer may go on after it, so it is not run. What fails
// later, a read or a write, ends the program with that error.
fn run<R: Files + Print + Eprint>(rt: &R, path: &str) -> io::Result<()> {
    let mut file = match fs::open(rt, path) {
        Ok(file) => file,
        Err(error) => return eprintln!(rt; "{path}: {error}"),
    };
    let mut text = [0u8; 65536];
    let n = read_full(&mut file, &mut text)?;
    if n == text.len() {
        return println!(rt; "a file of 65536 bytes or more");
    }
    script::run(rt, &text[..n])
}

const FILES: [&str; 7] = [
    "questions.txt",
    "judgings.txt",
    "limits.txt",
    "week.txt",
    "interfaces.txt",
    "papers.txt",
    "names.txt",
];

fn main(rt: HostRuntime) -> io::Result<()> {
    for path in FILES {
        run(&rt, path)?;
    }
    Ok(())
}
