// The flat verdict row, a few bytes a user class: verdicts written where they change, faulted ones counted.
#![tactic(auto)]

ghost use Rattle.std.specs.Prelude.{◌≡◌, ◌-◌, ◌≤◌, ◌<◌, min, length};
ghost use Rattle.spec.specs.Refusals.{scratch_length};
ghost use Rattle.spec.specs.Promises.{cleared};
ghost use Rattle.spec.specs.Verdicts.{user_verdict, flat_lines, flat_rewritten, bytes_of};
ghost use Rattle.sheets.specs.Sheets.{count, groups, library_count};
ghost use Rattle.overlay.specs.Memo.{memo_of};
ghost use Rattle.rules.specs.Line.{line_of};
ghost use Rattle.flat.specs.Row.{put_at, chosen, faulted_in, marked_in};

use breaks::bans::{NOTHING, note_bans};
use breaks::judging::Judging;
use captured::{ROW_BYTES, captures};
use copying::copy;
use form::accepted::Accepted;
use overlay::{Falling, overlays};
use records::{CLASS_LIMIT, SCRATCH_BYTES, VERDICT_BYTES};
use rules::{Fault, Walk};
use survey::{Survey, passes};

// ---- writing

// A line of the row: rule, record and class; three zeros are clean.
#[tactic(auto, unfolding(spec::specs::Verdicts::bytes_of))]
fn line(fault: Option<Fault>) -> [u8; VERDICT_BYTES]
    ensures { result ≡ bytes_of (line_of fault) }
{
    match fault {
        Some(fault) => [fault.rule.number(), fault.site.number, fault.site.class],
        None => [0, 0, 0],
    }
}

// Writes line i of the row.
fn put(verdicts: &mut [u8], i: usize, fault: Option<Fault>)
    requires { i < flat_lines verdicts.old }
    ensures { verdicts.new ≡ put_at i (line_of fault) verdicts.old }
{
    let at = VERDICT_BYTES * i;
    copy(&mut verdicts[at..at + VERDICT_BYTES], &line(fault));
}

// Writes the verdict of each marked user class. A clean class needs no walk over the rules.
fn rewrite(survey: &Survey, marks: &[bool], verdicts: &mut [u8])
    requires long { 256 ≤ length marks.now }
    requires lines { count survey.now.judging.formed.now.sheets - library_count survey.now.judging.formed.now.sheets ≤ flat_lines verdicts.old }
    ensures { verdicts.new ≡ flat_rewritten (chosen (library_count survey.now.judging.formed.now.sheets) (count survey.now.judging.formed.now.sheets) marks.now)
        (user_verdict survey.now.judging.formed.now.sheets.library survey.now.judging.formed.now.sheets.user) verdicts.old }
{
    let sheets = &survey.judging.formed.sheets;
    let first = sheets.library_count();
    let mut walk = Walk::new(&survey.judging);
    for c in first..sheets.count() {
        if marks[c] {
            let fault = if survey.clean(c) {
                None
            } else {
                walk.verdict_of(c)
            };
            put(verdicts, c - first, fault);
        }
    }
}

/// Judges each marked user class, from nothing but the sheets; the scratch is left clean. The caller's memo, which knows the markers of the library's
/// classes, knows those of all classes then.
pub fn rejudge_with_memo(
    accepted: &Accepted,
    memo: &mut [Option<u8>],
    marks: &[bool],
    verdicts: &mut [u8],
    scratch: &mut [u8],
)
    requires memo { memo.old ≡ memo_of (groups accepted.now.formed.sheets) (library_count accepted.now.formed.sheets) }
    requires long { 256 ≤ length marks.now }
    requires lines { count accepted.now.formed.sheets - library_count accepted.now.formed.sheets ≤ flat_lines verdicts.old }
    requires scratch { scratch_length ≤ length scratch.old }
    ensures memo { memo.new ≡ memo_of (groups accepted.now.formed.sheets) (count accepted.now.formed.sheets) }
    ensures verdicts { verdicts.new ≡ flat_rewritten (chosen (library_count accepted.now.formed.sheets) (count accepted.now.formed.sheets) marks.now)
        (user_verdict accepted.now.formed.sheets.library accepted.now.formed.sheets.user) verdicts.old }
    ensures scratch { scratch.new ≡ cleared scratch.old }
{
    let formed = &accepted.formed;
    let mut markers = [0; CLASS_LIMIT];
    let falling = Falling {
        sheets: &formed.sheets,
    };
    overlays(&falling, memo, &mut markers);
    let lanes: &mut [u8; ROW_BYTES] = scratch.first_chunk_mut().unwrap();
    captures(formed, &markers, lanes);
    let mut bans = [NOTHING; CLASS_LIMIT];
    note_bans(&formed.sheets, &mut bans);
    let judging = Judging {
        formed,
        markers: &markers,
        bans: &bans,
        lanes,
    };
    let mut sets = [0; CLASS_LIMIT];
    passes(&judging, &mut sets);
    let survey = Survey {
        judging,
        sets: &sets,
    };
    rewrite(&survey, marks, verdicts);
    scratch[..SCRATCH_BYTES].fill(0);
}

/// Judges each marked user class, from nothing but the sheets; the scratch is left clean.
pub fn rejudge(
    accepted: &Accepted,
    marks: &[bool; CLASS_LIMIT],
    verdicts: &mut [u8],
    scratch: &mut [u8],
)
    requires lines { count accepted.now.formed.sheets - library_count accepted.now.formed.sheets ≤ flat_lines verdicts.old }
    requires scratch { scratch_length ≤ length scratch.old }
    ensures verdicts { verdicts.new ≡ flat_rewritten (chosen (library_count accepted.now.formed.sheets) (count accepted.now.formed.sheets) marks.now)
        (user_verdict accepted.now.formed.sheets.library accepted.now.formed.sheets.user) verdicts.old }
    ensures scratch { scratch.new ≡ cleared scratch.old }
{
    let mut memo = [None; CLASS_LIMIT];
    copy(&mut memo, accepted.lent_memo());
    rejudge_with_memo(accepted, &mut memo, marks, verdicts, scratch);
}

// ---- counting

/// How many of the first n verdicts of the row are faulted; of all, if there are fewer.
pub fn faulted(verdicts: &[u8], n: usize) -> usize
    ensures { result ≡ faulted_in verdicts.now (min n (flat_lines verdicts.now)) }
{
    let (lines, _) = verdicts.as_chunks::<VERDICT_BYTES>();
    lines
        .iter()
        .take(n)
        .filter(|[rule, _, _]| *rule != 0)
        .count()
}

/// How many of the first n classes are marked.
pub fn marked(marks: &[bool; CLASS_LIMIT], n: usize) -> usize
    ensures { result ≡ marked_in marks.now n }
{
    marks.iter().take(n).filter(|mark| **mark).count()
}
