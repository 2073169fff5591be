// Lists the verdicts of `user.sheet` beside `library.sheet`, both in the current folder.
#![tactic(auto)]

ghost use Rattle.std.specs.Io.{ReadsAtMost};

use files::read_full;
use listing_text::listing_text;
use std::rt::Files;
use std::{fs, io};

// Puts a file into the buffer and answers how many bytes came. A file that cannot be opened counts as empty; of one that is too long
// for a sheet enough comes to be refused. One that can be opened and then not read to its end is an error, so that no part of a sheet
// is listed as if it were all of it.
fn read<R: Files>(rt: &R, path: &str, buffer: &mut [u8]) -> io::Result<usize>
    ensures { ReadsAtMost result buffer.new }
{
    match fs::open(rt, path) {
        Ok(mut file) => read_full(&mut file, buffer),
        Err(_) => Ok(0),
    }
}

fn main(rt: HostRuntime) -> io::Result<()> {
    let mut library = [0u8; 65536];
    let mut user = [0u8; 65536];
    let mut scratch = [0u8; 65536];
    let mut out = [0u8; 65536];
    let first = read(&rt, "library.sheet", &mut library)?;
    let second = read(&rt, "user.sheet", &mut user)?;
    let size = listing_text(&library[..first], &user, second, &mut scratch, &mut out);
    if size <= out.len() {
        rt.write_all(&out[..size])?;
    }
    Ok(())
}
