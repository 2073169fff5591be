// The second pass over both sheets, class by class: each record by what it names. Refusals 9, 8 and 10.
#![tactic(auto)]

ghost use Rattle.std.specs.Prelude.{◌≤◌, ◌<◌};
ghost use Rattle.spec.specs.Refusals.{form_refusal};
ghost use Rattle.refusals.specs.Refusals.{Answers};
ghost use Rattle.sheets.specs.Sheets.{Passed, count};
ghost use Rattle.second.specs.Second.{class_refusal, classes_refusal, side_refusal};

mod fits;
mod register;

use names::mark_met;
use records::CLASS_LIMIT;
use refusals::{Refusal, Side};
use register::{Asked, Register, note_asked};
use sheets::Sheets;

// The records of class c.
fn class_pass(register: &Register, c: usize) -> Result<(), Refusal>
    requires { c < count register.now.sheets.now }
    ensures { Answers (class_refusal register.now.sheets.now c) result (λ _. Unit {0}) }
{
    let sheets = register.sheets;
    let mut marks = [false; CLASS_LIMIT];
    register.mark_enclosing(c, &mut marks);
    let mut byte = sheets.start(c);
    for record in sheets.group(c).records() {
        if let Err(reason) = register.record_fits(c, &marks, &record) {
            return Err(Refusal {
                reason,
                sheet: sheets.side(c),
                byte,
            });
        }
        byte += record.len();
    }
    Ok(())
}

// The records of the classes from `first` on, up to class `past`.
fn classes_pass(sheets: &Sheets, first: usize, past: usize) -> Result<(), Refusal>
    requires passed { Passed sheets.now }
    requires there { past ≤ count sheets.now }
    ensures { Answers (classes_refusal sheets.now first past) result (λ _. Unit {0}) }
{
    let mut met = [false; CLASS_LIMIT];
    mark_met(sheets, &mut met);
    let mut asked = [Asked::NOTHING; CLASS_LIMIT];
    note_asked(sheets, &mut asked);
    let register = Register {
        sheets,
        met: &met,
        asked: &asked,
    };
    for c in first..past {
        class_pass(&register, c)?;
    }
    Ok(())
}

/// The second pass over both sheets: refusals 9, 8 and 10.
pub fn second_pass(sheets: &Sheets) -> Result<(), Refusal>
    ensures { Answers (form_refusal sheets.now.library sheets.now.user) result (λ _. Unit {0}) }
{
    let n = sheets.count();
    classes_pass(sheets, 0, n)
}

/// The second pass over one of the sheets, whatever it would say of the other.
pub fn sheet_pass(sheets: &Sheets, side: Side) -> Result<(), Refusal>
    ensures { Answers (side_refusal sheets.now side) result (λ _. Unit {0}) }
{
    let nlib = sheets.library_count();
    let n = sheets.count();
    match side {
        Side::Library => classes_pass(sheets, 0, nlib),
        Side::User => classes_pass(sheets, nlib, n),
    }
}
