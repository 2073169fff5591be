// Acceptance: all of 1 to 11 and 16 of a library sheet and a user sheet that need not be written yet.
#![tactic(auto)]

pub mod accepted;
mod passes;

ghost use Rattle.std.specs.Prelude.{◌≡◌, ◌+◌, ◌≤◌, min, length, take, replicate, None};
ghost use Rattle.spec.specs.Refusals.{deemed_refusal, size_refusal, sheet_refusal, present_refusal};
ghost use Rattle.sheets.specs.Sheets.{groups, library_count};
ghost use Rattle.refusals.specs.Refusals.{Answers};
ghost use Rattle.overlay.specs.Memo.{memo_of};
ghost use Rattle.form.specs.Form.{deemed_breaks, first_deemed};
ghost use Rattle.form.specs.Accepting.{FoundIn, Asked};

use accepted::{Accepted, Found};
use markers::clash;
use overlay::{Falling, overlay};
use passes::both_passes;
use records::SHEET_LIMIT;
use refusals::{Reason, Refusal, Side};
use second::second_pass;
use sheets::Sheets;
use sheets::formed::Formed;
use view::Draft;

// Whether the deemed markers of class c are refused: they clash, or class 0 has any.
fn deemed_breaks(c: usize, markers: u8) -> bool
    ensures { result ≡ deemed_breaks c markers }
{
    clash(markers) || c == 0 && markers != 0
}

// The deemed markers of the library's classes: 11. The memo is left with what was asked.
fn deemed(formed: &Formed, memo: &mut [Option<u8>]) -> Result<(), Refusal>
    requires memo { memo.old ≡ replicate 256 None }
    ensures answer { Answers (deemed_refusal formed.now.sheets.library formed.now.sheets.user) result
        (λ _. memo.new ≡ memo_of (groups formed.now.sheets) (library_count formed.now.sheets)) }
    ensures memo { let g = groups formed.now.sheets in let n = library_count formed.now.sheets in memo.new ≡ memo_of g (min n (first_deemed g n + 1)) }
{
    let falling = Falling {
        sheets: &formed.sheets,
    };
    for c in 0..formed.sheets.library_count() {
        if deemed_breaks(c, overlay(&falling, c, memo)) {
            return Err(Refusal {
                reason: Reason::Deemed,
                sheet: Side::Library,
                byte: formed.sheets.start(c),
            });
        }
    }
    Ok(())
}

/// All of 2 to 11 and 16 of a library sheet and a user sheet that need not be written yet.
pub fn check(library: &[u8], user: Draft, found: &mut Found) -> Result<(), Refusal>
    requires short { (length library.now ≤ 32768) × (length user ≤ 32768) }
    requires fresh { found.old.memo ≡ replicate 256 None }
    ensures answer { Answers (sheet_refusal library.now user.entry) result (λ _. FoundIn (record { library = library.now; user = user.entry }) found.new) }
    ensures memo { Asked (record { library = library.now; user = user.entry }) found.new }
{
    both_passes(library, &user, &mut found.index)?;
    let sheets = Sheets::new(library, user, &found.index);
    second_pass(&sheets)?;
    let formed = Formed { sheets };
    deemed(&formed, &mut found.memo)?;
    Ok(())
}

// The sheets' lengths: 1.
fn lengths(library: &[u8], user: &[u8], used: usize) -> Result<(), Refusal>
    ensures { Answers (size_refusal library.now user.now used) result (λ _. Unit {0}) }
{
    let sheet = if SHEET_LIMIT < library.len() {
        Side::Library
    } else if user.len().min(SHEET_LIMIT) < used {
        Side::User
    } else {
        return Ok(());
    };
    Err(Refusal {
        reason: Reason::TooLong,
        sheet,
        byte: 0,
    })
}

/// All of 1 to 11 and 16 of a library sheet and the used bytes of the user buffer.
pub fn present(library: &[u8], user: &[u8], used: usize, found: &mut Found) -> Result<(), Refusal>
    requires fresh { found.old.memo ≡ replicate 256 None }
    ensures answer { Answers (present_refusal library.now user.now used) result
        (λ _. FoundIn (record { library = library.now; user = take used user.now }) found.new) }
    ensures memo { Asked (record { library = library.now; user = take used user.now }) found.new }
{
    lengths(library, user, used)?;
    check(library, Draft::written(&user[..used]), found)
}

/// The library sheet and the used bytes of the user buffer, if none of 1 to 11 and 16 refuses them.
pub fn accept<'a>(
    library: &'a [u8],
    user: &'a [u8],
    used: usize,
    found: &'a mut Found,
) -> Result<Accepted<'a>, Refusal>
    requires fresh { found.old.memo ≡ replicate 256 None }
    ensures { Answers (present_refusal library.now user.now used) result
        (λ a. a.formed.sheets ≡ record { library = library.now; user = take used user.now }) }
{
    present(library, user, used, found)?;
    Ok(Accepted::new(library, &user[..used], found))
}
