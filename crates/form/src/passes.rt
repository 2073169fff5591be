// The first pass of both sheets.
ghost use Rattle.std.specs.Prelude.{◌≡◌, ◌+◌, ◌≤◌, length};
ghost use Rattle.spec.specs.Sheet.{class_count};
ghost use Rattle.groups.specs.Groups.{Indexed};
ghost use Rattle.refusals.specs.Refusals.{Answers};
ghost use Rattle.pass.specs.Pass.{pass_refusal, Filled};
ghost use Rattle.form.specs.Form.{passes_refusal};

use pass::first_pass;
use refusals::{Reason, Refusal, Side};
use sheets::{Classes, Index};
use view::{Draft, Parts};

// The first pass of a user sheet, where `base` classes stand before it: part after part, each a plain slice.
fn user_pass(user: &Draft, base: usize, starts: &mut [u16]) -> Result<usize, Refusal>
    requires short { length user.now ≤ 32768 }
    requires bounds { (base ≤ 256) × (256 ≤ length starts.old) }
    ensures answer { Answers (pass_refusal 1 base user.now) result (λ n. n ≡ base + class_count user.now) }
    ensures starts { Filled (pass_refusal 1 base user.now) base 0 user.now starts.old starts.new }
{
    let Parts { head, group, tail } = user.parts();
    let before = first_pass(head, Side::User, base, 0, starts)?;
    let within = first_pass(group, Side::User, before, head.len(), starts)?;
    first_pass(tail, Side::User, within, head.len() + group.len(), starts)
}

// 2 to 7 and 16. Where the classes begin is left in the index.
pub(crate) fn both_passes(library: &[u8], user: &Draft, index: &mut Index) -> Result<(), Refusal>
    requires short { (length library.now ≤ 32768) × (length user.now ≤ 32768) }
    ensures { Answers (passes_refusal library.now user.now) result
        (λ _. Indexed library.now user.now index.new.classes.library index.new.classes.all index.new.starts) }
{
    let first = first_pass(library, Side::Library, 0, 0, &mut index.starts)?;
    if first == 0 {
        return Err(Refusal {
            reason: Reason::WrongCount,
            sheet: Side::Library,
            byte: library.len(),
        });
    }
    let all = user_pass(user, first, &mut index.starts)?;
    index.classes = Classes {
        library: first,
        all,
    };
    Ok(())
}
