// The listing of two sheets as text in a lent buffer.
#![tactic(auto)]

ghost use Rattle.std.specs.Prelude.{◌≡◌, [], ◌++◌, ◌+◌, ◌*◌, ◌≤◌, ◌<◌, length, get_or};
ghost use Rattle.std.proofs.Math.Option.{none};
ghost use Rattle.spec.specs.Lists.{gather, span};
ghost use Rattle.spec.specs.Record.{class_name};
ghost use Rattle.spec.specs.Sheet.{groups_of, class_count, group_start, class_record};
ghost use Rattle.spec.specs.Verdicts.{verdict_bytes, flat_at};
ghost use Rattle.spec.specs.Refusals.{present_refusal, judge_refusal};
ghost use Rattle.spec.specs.Promises.{afterwards, cleared};
ghost use Rattle.groups.specs.Sheets.{UserSheet};
ghost use Rattle.refusals.specs.Refusals.{refusal_of};
ghost use Rattle.text.specs.Text.{decimal, overlaid};
ghost use Rattle.text.specs.Written.{Writes};
ghost use Rattle.listing_text.specs.Listing.{counts_text, refusal_text, line_of, line_text, listed_lines, listing_text, space, newline};
ghost use Rattle.listing_text.specs.Rows.{RowHolds};

use groups::group_length;
use records::kind::Kind;
use records::{CLASS_LIMIT, NAME_AT, VERDICT_BYTES, count_in, word_in};
use refusals::Refusal;
use text::Writer;
use verifier::{Counts, judge};

// The line of a refusal.
#[tactic(auto, using(text::proofs::Digits::decimal_length))]
fn refusal_line(writer: &mut Writer, refusal: Refusal)
    requires { writer.old.at < 800000 }
    ensures { Writes writer.old (refusal_text (refusal_of refusal)) writer.new }
{
    writer.put_bytes(b"refused ");
    writer.put_number(usize::from(refusal.reason.number()));
    writer.put_bytes(b" sheet ");
    writer.put_number(usize::from(refusal.sheet.number()));
    writer.put_bytes(b" byte ");
    writer.put_number(refusal.byte);
    writer.put(b'\n');
}

// The line of the counts.
#[tactic(auto, using(text::proofs::Digits::decimal_length))]
fn counts_line(writer: &mut Writer, classes: usize, faulted: usize)
    requires { writer.old.at < 800000 }
    ensures { Writes writer.old (counts_text (record { classes = classes; faulted = faulted })) writer.new }
{
    writer.put_bytes(b"classes ");
    writer.put_number(classes);
    writer.put_bytes(b" faulted ");
    writer.put_number(faulted);
    writer.put(b'\n');
}

// The end of a class's line: rule, place, class.
#[tactic(auto, using(text::proofs::Digits::decimal_length))]
fn put_verdict(writer: &mut Writer, rule: usize, place: usize, class: usize)
    requires { writer.old.at < 800000 }
    ensures { Writes writer.old (decimal rule ++ (space ++ (decimal place ++ (space ++ (decimal class ++ newline))))) writer.new }
{
    writer.put_number(rule);
    writer.put(b' ');
    writer.put_number(place);
    writer.put(b' ');
    writer.put_number(class);
    writer.put(b'\n');
}

// The line of the i-th user class, whose group begins at `start`: number, name, rule, place, class.
#[tactic(auto, using(text::proofs::Digits::decimal_length))]
fn class_line(
    sheet: &[u8],
    start: usize,
    nlib: usize,
    verdicts: &[u8],
    i: usize,
    writer: &mut Writer,
)
    requires user_sheet { UserSheet nlib sheet.now }
    requires group { (i < class_count sheet.now) × (start ≡ group_start sheet.now i) }
    requires line { (verdict_bytes * i + 2 < length verdicts.now) × (writer.old.at < 700000) }
    ensures { Writes writer.old
        (line_of (nlib + i) (class_name (class_record (get_or (groups_of sheet.now) i []))) (flat_at verdicts.now i))
        writer.new }
{
    let end = start + usize::from(word_in(sheet, start));
    let name = &sheet[start + NAME_AT..end];
    let rule = usize::from(verdicts[VERDICT_BYTES * i]);
    let place = usize::from(verdicts[VERDICT_BYTES * i + 1]);
    let class = usize::from(verdicts[VERDICT_BYTES * i + 2]);
    writer.put_number(nlib + i);
    writer.put(b' ');
    writer.put_bytes(name);
    writer.put(b' ');
    put_verdict(writer, rule, place, class);
}

// The lines of all user classes; `start` runs along from one group to the next, up to the sheet's end.
fn class_lines(library: &[u8], sheet: &[u8], verdicts: &[u8], writer: &mut Writer)
    requires accepted { present_refusal library.now sheet.now (length sheet.now) ≡ none }
    requires row_holds { RowHolds library.now sheet.now verdicts.now }
    requires room { writer.old.at < 1000 }
    ensures { Writes writer.old
        (gather (line_text library.now sheet.now) (span 0 (class_count sheet.now))) writer.new }
{
    let nlib = count_in(library, Kind::Class.number());
    let mut i = 0;
    let mut start = 0;
    while start < sheet.len() {
        class_line(sheet, start, nlib, verdicts, i, writer);
        start += group_length(&sheet[start..]);
        i += 1;
    }
}

// Judges the sheets and writes the listing from the buffer's start, as far as it fits; answers how long the listing is.
pub fn listing_text<'a>(
    library: &'a [u8],
    user: &'a [u8],
    used: usize,
    scratch: &mut [u8],
    out: &mut [u8],
) -> usize
    ensures answer { result ≡ length (listing_text library.now user.now used (length scratch.old)) }
    ensures out { out.new
        ≡ overlaid (listing_text library.now user.now used (length scratch.old)) out.old }
    ensures scratch { scratch.new
        ≡ afterwards (judge_refusal library.now user.now used listed_lines (length scratch.old))
        scratch.old (cleared scratch.old) }
{
    let mut verdicts = [0u8; CLASS_LIMIT * VERDICT_BYTES];
    let mut writer = Writer::new(out);
    match judge(library, user, used, &mut verdicts, scratch) {
        Err(refusal) => refusal_line(&mut writer, refusal),
        Ok(Counts { classes, faulted }) => {
            counts_line(&mut writer, classes, faulted);
            class_lines(library, &user[..used], &verdicts, &mut writer);
        }
    }
    writer.at()
}
