// Classes by their names: the index of all names in a row that the caller lends, and the class of one name.

ghost use Rattle.std.specs.Prelude.{◌≡◌, ◌≤◌, length, take, replicate, None};
ghost use Rattle.spec.specs.Refusals.{index_refusal};
ghost use Rattle.spec.specs.Promises.{Indexes, Finds};
ghost use Rattle.refusals.specs.Refusals.{Answers, answer_in};

use copying::copy;
use form::accept;
use form::accepted::{Accepted, Found};
use names::{PLACES, fill, find};
use refusals::{Reason, Refusal};

// The accepted sheets, if the row has room for the index.
fn with_room<'a>(
    library: &'a [u8],
    user: &'a [u8],
    used: usize,
    row: &[u16],
    found: &'a mut Found,
) -> Result<Accepted<'a>, Refusal>
    requires fresh { found.old.memo ≡ replicate 256 None }
    ensures { Answers (index_refusal library.now user.now used (length row.now)) result
        (λ a. (a.formed.sheets ≡ record { library = library.now; user = take used user.now }) × (512 ≤ length row.now)) }
{
    let accepted = accept(library, user, used, found)?;
    Reason::TooShort.unless(PLACES <= row.len())?;
    Ok(accepted)
}

/// Fills the row with the index of the names of both sheets' classes, and says how many entered; places past the index stay.
pub fn index(library: &[u8], user: &[u8], used: usize, row: &mut [u16]) -> Result<usize, Refusal>
    ensures { Indexes library.now user.now used row.old (answer_in (λ n. n) result) row.new }
{
    let mut found = Found::new();
    let sheets = with_room(library, user, used, row, &mut found)?
        .formed
        .sheets;
    fill(&sheets, &mut row[..PLACES]);
    Ok(sheets.count())
}

/// The class of a name, and the index in the row. The row is written only once a class is found.
pub fn lookup(
    library: &[u8],
    user: &[u8],
    used: usize,
    name: &[u8],
    row: &mut [u16],
) -> Result<usize, Refusal>
    ensures { Finds library.now user.now used name.now row.old (answer_in (λ n. n) result) row.new }
{
    let mut found = Found::new();
    let sheets = with_room(library, user, used, row, &mut found)?
        .formed
        .sheets;
    let mut places = [0; PLACES];
    fill(&sheets, &mut places);
    let class = find(&sheets, &places, name).ok_or(Reason::NoSuchClass)?;
    copy(&mut row[..PLACES], &places);
    Ok(class)
}
