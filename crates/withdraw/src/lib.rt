// Taking the last user class back out. No other class names it, so no other verdict changes.
#![tactic(auto)]

ghost use Rattle.std.specs.Prelude.{◌≡◌, ◌<◌, ℕ, take};
ghost use Rattle.spec.specs.Lists.{any, elem, span};
ghost use Rattle.spec.specs.Sheet.{group_references};
ghost use Rattle.spec.specs.Refusals.{withdraw_refusal};
ghost use Rattle.spec.specs.Verdicts.{flat};
ghost use Rattle.spec.specs.Promises.{Withdraws};
ghost use Rattle.refusals.specs.Refusals.{Answers, answer_in};
ghost use Rattle.sheets.specs.Sheets.{count, groups};
ghost use Rattle.withdraw.specs.Last.{IsLast};

use form::accept;
use form::accepted::Found;
use named::names;
use records::VERDICT_BYTES;
use records::group::Group;
use refusals::{Reason, Refusal};
use sheets::Sheets;

// The last class: its number, the byte where its group begins, and its line of the verdict row.
#[derive(Clone, Copy)]
struct Last {
    class: usize,
    start: usize,
    line: usize,
}

// Whether a class names class t.
fn class_names(group: &Group, t: usize) -> bool
    ensures { result ≡ elem t (group_references group.now) }
{
    group.records().any(|record| names(&record, t))
}

// Whether a class below the last names it: all others are below.
fn last_named(sheets: &Sheets, last: usize) -> bool
    requires { last < count sheets.now }
    ensures { result ≡ any (λ c. elem last (group_references (groups sheets.now c))) (span 0 last) }
{
    (0..last).any(
        |class|
            requires { class < count sheets.now }
        { class_names(&sheets.group(class), last) },
    )
}

// The last class of accepted sheets, if it may go and a row of so many lines has its own.
fn removable(library: &[u8], user: &[u8], used: usize, lines: usize) -> Result<Last, Refusal>
    ensures { Answers (withdraw_refusal library.now user.now used lines) result (IsLast library.now (take used user.now)) }
{
    let mut found = Found::new();
    let accepted = accept(library, user, used, &mut found)?;
    let sheets = &accepted.formed.sheets;
    let own = sheets.user_count();
    Reason::NoSuchClass.unless(0 < own)?;
    let class = sheets.count() - 1;
    Reason::Named.unless(!last_named(sheets, class))?;
    Reason::TooShort.unless(own <= lines)?;
    Ok(Last {
        class,
        start: sheets.start(class),
        line: own - 1,
    })
}

/// Makes the last user class's bytes zero and its verdict clean; the used length falls to where it began. The class's number is answered.
pub fn withdraw(
    library: &[u8],
    user: &mut [u8],
    used: &mut usize,
    verdicts: &mut [u8],
) -> Result<usize, Refusal>
    ensures { Withdraws flat library.now
        (record { user = user.old; used = used.old; verdicts = verdicts.old }) (answer_in (λ n. n) result)
        (record { user = user.new; used = used.new; verdicts = verdicts.new }) }
{
    let lines = verdicts.len() / VERDICT_BYTES;
    let last = removable(library, user, *used, lines)?;
    user[last.start..*used].fill(0);
    *used = last.start;
    let line = VERDICT_BYTES * last.line;
    verdicts[line..line + VERDICT_BYTES].fill(0);
    Ok(last.class)
}
