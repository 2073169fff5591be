// What is asked of accepted sheets: a class's overlay markers, its name, and in `index` the classes by their names.
#![tactic(auto)]

pub mod index;

ghost use Rattle.std.specs.Prelude.{◌≡◌, ◌<◌, take, replicate, None};
ghost use Rattle.spec.specs.Refusals.{query_refusal};
ghost use Rattle.spec.specs.Promises.{Marks, Places, Names};
ghost use Rattle.theory.specs.Claims.{sheet_of};
ghost use Rattle.refusals.specs.Refusals.{Answers, answer_in, sheet_number};
ghost use Rattle.sheets.specs.Sheets.{count};
ghost use Rattle.queries.specs.Answers.{part_of};

use copying::copy;
use form::accept;
use form::accepted::{Accepted, Found};
use overlay::{Falling, overlay_in_turn};
use records::{CLASS_LIMIT, NAME_AT};
use refusals::{Reason, Refusal, Side};

/// Where a name stands: its sheet, the byte where it begins, and how long it is.
#[derive(Clone, Copy, PartialEq, Eq, Debug)]
pub struct Place {
    pub sheet: Side,
    pub start: usize,
    pub len: usize,
}

// The accepted sheets, if the class that is asked for is among theirs.
fn asked<'a>(
    library: &'a [u8],
    user: &'a [u8],
    used: usize,
    class: usize,
    found: &'a mut Found,
) -> Result<Accepted<'a>, Refusal>
    requires fresh { found.old.memo ≡ replicate 256 None }
    ensures { Answers (query_refusal library.now user.now used class) result
        (λ a. (a.formed.sheets ≡ record { library = library.now; user = take used user.now }) × (class < count a.formed.sheets)) }
{
    let accepted = accept(library, user, used, found)?;
    Reason::NoSuchClass.unless(class < accepted.formed.sheets.count())?;
    Ok(accepted)
}

/// The overlay markers of a class of either sheet; `used` bytes of the user buffer are its sheet.
pub fn marks(library: &[u8], user: &[u8], used: usize, class: usize) -> Result<u8, Refusal>
    ensures { Marks library.now user.now used class (answer_in (λ m. m) result) }
{
    let mut found = Found::new();
    let accepted = asked(library, user, used, class, &mut found)?;
    let falling = Falling {
        sheets: &accepted.formed.sheets,
    };
    let mut memo = [None; CLASS_LIMIT];
    copy(&mut memo, accepted.lent_memo());
    Ok(overlay_in_turn(&falling, class, &mut memo))
}

/// Where a class's name stands: for a caller that wants the refusal, or cannot be handed a part of a slice.
pub fn name_place(library: &[u8], user: &[u8], used: usize, class: usize) -> Result<Place, Refusal>
    ensures { Places library.now user.now used class (answer_in part_of result) }
{
    let mut found = Found::new();
    let sheets = asked(library, user, used, class, &mut found)?.formed.sheets;
    Ok(Place {
        sheet: sheets.side(class),
        start: sheets.start(class) + NAME_AT,
        len: sheets.group(class).name().len(),
    })
}

// The bytes of a sheet.
fn bytes_of<'a>(side: Side, library: &'a [u8], user: &'a [u8]) -> &'a [u8]
    ensures { result.now ≡ sheet_of library.now user.now (sheet_number side) }
{
    match side {
        Side::Library => library,
        Side::User => user,
    }
}

/// The name as the part of the sheet that holds it; an empty part of the library sheet where `name_place` refuses.
pub fn name<'a>(library: &'a [u8], user: &'a [u8], used: usize, class: usize) -> &'a [u8]
    ensures { Names library.now user.now used class result.now }
{
    let Ok(place) = name_place(library, user, used, class) else {
        return &library[0..0];
    };
    let sheet = bytes_of(place.sheet, library, user);
    &sheet[place.start..place.start + place.len]
}
