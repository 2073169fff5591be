// The operations over flat rows of numbers: the public interface.
#![tactic(auto)]

ghost use Rattle.std.specs.Prelude.{◌≡◌, ◌<◌, [], ◌∷◌, false, length, map, replicate, take};
ghost use Rattle.spec.specs.Lists.{first_of, span};
ghost use Rattle.spec.specs.Sheet.{total};
ghost use Rattle.spec.specs.Promises.{Judges, Adds, Replaces, Makes};
ghost use Rattle.spec.specs.Verdicts.{flat};
ghost use Rattle.spec.specs.Refusals.{present_refusal, no_user_refusal};
ghost use Rattle.refusals.specs.Refusals.{Answers, answer_in};
ghost use Rattle.sheets.specs.Sheets.{count};
ghost use Rattle.verifier.specs.Answers.{counts_in};
ghost use Rattle.verifier.specs.Changing.{Puts, cut_at, putting, touches};

use admit::{Room, admit};
pub use canonical::canonical;
use edit::write;
pub use fingerprints::fingerprint;
use flat::{faulted, marked, rejudge};
use form::accept;
use form::accepted::{Accepted, Found};
pub use names::PLACES as INDEX_PLACES;
pub use queries::index::{index, lookup};
pub use queries::{Place, marks, name, name_place};
use reach::mark_dependents;
use records::CLASS_LIMIT;
pub use records::{SCRATCH_BYTES, VERDICT_BYTES};
pub use refusals::{Reason, Refusal, Side};
use sheets::formed::Formed;
use view::Cut;
pub use withdraw::withdraw;

/// How many user classes there are, and how many are faulted.
#[derive(Clone, Copy, PartialEq, Eq, Debug)]
pub struct Counts {
    pub classes: usize,
    pub faulted: usize,
}

/// A verdict for each user class in the row: rule, record and the class where the fault sits; three zeros where it is clean.
pub fn judge<'a>(
    library: &'a [u8],
    user: &'a [u8],
    used: usize,
    verdicts: &mut [u8],
    scratch: &mut [u8],
) -> Result<Counts, Refusal>
    ensures { Judges flat library.now user.now used verdicts.old scratch.old (answer_in counts_in result) verdicts.new scratch.new }
{
    let mut found = Found::new();
    let accepted = accept(library, user, used, &mut found)?;
    let classes = accepted.formed.sheets.user_count();
    Reason::TooShort.unless(Room::of(verdicts, scratch).holds(classes))?;
    rejudge(&accepted, &[true; CLASS_LIMIT], verdicts, scratch);
    Ok(Counts {
        classes,
        faulted: faulted(verdicts, classes),
    })
}

// ---- operations that change the user sheet

// Marks the classes that an edit touches: an addition, which takes nothing out, touches its class alone; a replacement the classes that depend on it.
fn touch(formed: &Formed, cut: Cut, class: usize, marks: &mut [bool; CLASS_LIMIT])
    requires there { class < count formed.now.sheets }
    requires unmarked { marks.old ≡ replicate 256 false }
    ensures { marks.new ≡ map (touches formed.now.sheets.library formed.now.sheets.user cut class) (span 0 256) }
{
    if cut.from != cut.used {
        mark_dependents(formed, class, marks);
        return;
    }
    marks[class] = true;
}

// The frame of an operation that puts a group in: nothing is written until it is admitted; then the sheet is, and the classes that this touches are
// judged in the buffer. The answer is how many those are.
fn change<'a>(
    library: &'a [u8],
    user: &mut [u8],
    used: &mut usize,
    group: &'a [u8],
    cut: Cut,
    class: usize,
    verdicts: &mut [u8],
    scratch: &mut [u8],
) -> Result<usize, Refusal>
    requires { Puts library.now user.old used.old group.now cut class }
    ensures { Makes flat
        (putting library.now (record { user = user.old; used = used.old; verdicts = verdicts.old }) group.now cut class (length scratch.old))
        (record { user = user.old; used = used.old; verdicts = verdicts.old }) scratch.old (answer_in (λ n. n) result)
        (record { user = user.new; used = used.new; verdicts = verdicts.new }) scratch.new }
{
    let room = Room::of(verdicts, scratch);
    let mut found = Found::new();
    let size = admit(library, user, group, cut, room, &mut found)?;
    write(user, group, cut);
    *used = size;
    let accepted = Accepted::new(library, &user[..size], &found);
    let mut marks = [false; CLASS_LIMIT];
    touch(&accepted.formed, cut, class, &mut marks);
    rejudge(&accepted, &marks, verdicts, scratch);
    Ok(marked(&marks, accepted.formed.sheets.count()))
}

// The number that the next class gets.
#[inline(never)]
fn next_class(library: &[u8], user: &[u8], used: usize) -> Result<usize, Refusal>
    ensures { Answers (present_refusal library.now user.now used) result (λ n. n ≡ total library.now (take used user.now)) }
{
    let mut found = Found::new();
    let accepted = accept(library, user, used, &mut found)?;
    Ok(accepted.formed.sheets.count())
}

/// Puts a group after the user sheet's used bytes; the new class's verdict is written, and its number answered.
pub fn add<'a>(
    library: &'a [u8],
    user: &mut [u8],
    used: &mut usize,
    group: &'a [u8],
    verdicts: &mut [u8],
    scratch: &mut [u8],
) -> Result<usize, Refusal>
    ensures { Adds flat library.now group.now
        (record { user = user.old; used = used.old; verdicts = verdicts.old }) scratch.old (answer_in (λ n. n) result)
        (record { user = user.new; used = used.new; verdicts = verdicts.new }) scratch.new }
{
    let size = *used;
    let class = next_class(library, user, size)?;
    let cut = Cut::at_end(size);
    change(library, user, used, group, cut, class, verdicts, scratch)?;
    Ok(class)
}

// Where the group of a user class stands in the present sheets, as the cut that takes it out; or the refusal.
#[inline(never)]
fn cut_of(library: &[u8], user: &[u8], used: usize, class: usize) -> Result<Cut, Refusal>
    ensures { Answers (first_of (present_refusal library.now user.now used ∷ no_user_refusal library.now (take used user.now) class ∷ [])) result
        (λ cut. cut ≡ cut_at library.now (take used user.now) used class) }
{
    let mut found = Found::new();
    let accepted = accept(library, user, used, &mut found)?;
    let sheets = &accepted.formed.sheets;
    let first = sheets.library_count();
    let end = sheets.count();
    Reason::NoSuchClass.unless(first <= class && class < end)?;
    Ok(Cut {
        from: sheets.start(class),
        to: sheets.end(class),
        used,
    })
}

/// Puts a group in the place of a user class's; the verdicts of the classes that depend on it are rewritten, and how many those are is answered.
pub fn replace<'a>(
    library: &'a [u8],
    user: &mut [u8],
    used: &mut usize,
    class: usize,
    group: &'a [u8],
    verdicts: &mut [u8],
    scratch: &mut [u8],
) -> Result<usize, Refusal>
    ensures { Replaces flat library.now class group.now
        (record { user = user.old; used = used.old; verdicts = verdicts.old }) scratch.old (answer_in (λ n. n) result)
        (record { user = user.new; used = used.new; verdicts = verdicts.new }) scratch.new }
{
    let cut = cut_of(library, user, *used, class)?;
    change(library, user, used, group, cut, class, verdicts, scratch)
}
