// Whether a group may be put into the user sheet: 14, 15, then 3 to 11 and 16 of the sheet that it makes, read through the view, then 12.
#![tactic(auto)]

ghost use Rattle.std.specs.Prelude.{◌≡◌, not, ◌||◌, ◌≤◌, ltb, length, replicate, None};
ghost use Rattle.spec.specs.Verdicts.{flat_lines};
ghost use Rattle.spec.specs.Refusals.{scratch_length};
ghost use Rattle.view.specs.View.{Sits, spliced};
ghost use Rattle.refusals.specs.Refusals.{Answers};
ghost use Rattle.form.specs.Accepting.{FoundIn, Asked};
ghost use Rattle.admit.specs.Admitting.{admit_refusal, Plain};

use form::accepted::Found;
use form::check;
use records::{SCRATCH_BYTES, SHEET_LIMIT, VERDICT_BYTES};
use refusals::{Reason, Refusal};
use view::{Cut, Draft};
use whole::whole_group;

/// How many verdicts the row takes, and the scratch's length: the two are handed over by their sizes, since nothing is written here.
#[derive(Clone, Copy)]
pub struct Room {
    pub lines: usize,
    pub scratch: usize,
}

impl Room {
    /// Of a row and a scratch.
    #[tactic(auto, unfolding(spec::specs::Verdicts::flat_lines))]
    pub fn of(verdicts: &[u8], scratch: &[u8]) -> Room
        ensures { result ≡ record { lines = flat_lines verdicts.now; scratch = length scratch.now } }
    {
        Room {
            lines: verdicts.len() / VERDICT_BYTES,
            scratch: scratch.len(),
        }
    }

    /// Not 12: the row has a line for each user class, and the scratch is long enough.
    pub fn holds(self, own: usize) -> bool
        ensures { result ≡ not (ltb self.lines own || ltb self.scratch scratch_length) }
    {
        own <= self.lines && SCRATCH_BYTES <= self.scratch
    }
}

/// How long the sheet becomes, and what is found of it is left; or why the group is turned away.
pub fn admit(
    library: &[u8],
    user: &[u8],
    group: &[u8],
    cut: Cut,
    room: Room,
    found: &mut Found,
) -> Result<usize, Refusal>
    requires sits { Sits cut user.now }
    requires short { length library.now ≤ 32768 }
    requires plain { Plain library.now group.now (spliced user.now group.now cut) }
    requires fresh { found.old.memo ≡ replicate 256 None }
    ensures answer { Answers (admit_refusal library.now user.now group.now (spliced user.now group.now cut) room.lines room.scratch) result
        (λ n. (n ≡ length (spliced user.now group.now cut)) × FoundIn (record { library = library.now; user = spliced user.now group.now cut }) found.new) }
    ensures memo { Asked (record { library = library.now; user = spliced user.now group.now cut }) found.new }
{
    Reason::NoGroup.unless(whole_group(group))?;
    let draft = Draft::new(user, group, cut);
    let size = draft.len();
    Reason::NoRoom.unless(size <= user.len().min(SHEET_LIMIT))?;
    check(library, draft, found)?;
    Reason::TooShort.unless(room.holds(found.user_count()))?;
    Ok(size)
}
