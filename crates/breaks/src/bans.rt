// What is not allowed of the library's classes, as a row that records are asked by.
ghost use Rattle.std.specs.Prelude.{◌≡◌, ℕ, get_or, replicate};
ghost use Rattle.spec.specs.Rules.{forbidden};
ghost use Rattle.spec.specs.Sheet.{Group};
ghost use Rattle.sheets.specs.Sheets.{groups, library_count};
ghost use Rattle.breaks.specs.Bans.{closed_member, ban_of, nothing, Bans, Partial};

use records::group::Group;
use records::record::{Body, Record};
use records::{ALLOWED, CLASS_LIMIT, MEMBER_ALLOWED, has_flag};
use sheets::Sheets;

/// What is not allowed of a class: the class itself, or some member of it.
#[derive(Clone, Copy)]
pub struct Ban {
    pub closed: bool,
    pub partly: bool,
}

/// All of the class is allowed.
pub const NOTHING: Ban = Ban {
    closed: false,
    partly: false,
};

// Whether the record is a MEMBER that is not allowed.
fn closed_member(record: &Record) -> bool
    ensures { result ≡ closed_member record.now }
{
    match record.body() {
        Body::Member { flags } => !has_flag(flags, MEMBER_ALLOWED),
        _ => false,
    }
}

impl Ban {
    // Of a library class with these records.
    fn of(group: &Group) -> Ban
        ensures { result ≡ ban_of group.now }
    {
        Ban {
            closed: !has_flag(group.head().flags, ALLOWED),
            partly: group.records().any(|record| closed_member(&record)),
        }
    }
}

/// Notes in a row of the caller's what is not allowed of each library class, so that a record is asked by the row.
pub fn note_bans(sheets: &Sheets, row: &mut [Ban; CLASS_LIMIT])
    requires fresh { row.old ≡ replicate 256 nothing }
    ensures { Bans (library_count sheets.now) (groups sheets.now) row.new }
{
    for (d, ban) in row[..sheets.library_count()].iter_mut().enumerate() {
        *ban = Ban::of(&sheets.group(d));
    }
}

/// The same row, handed out.
pub fn bans(sheets: &Sheets) -> [Ban; CLASS_LIMIT]
    ensures { Bans (library_count sheets.now) (groups sheets.now) result }
{
    let mut row = [NOTHING; CLASS_LIMIT];
    note_bans(sheets, &mut row);
    row
}

// What is not allowed of a class by the row: nothing, if it is not the library's.
fn banned(row: &[Ban], d: usize) -> Ban
    ensures { result ≡ get_or row.now d nothing }
{
    row.get(d).copied().unwrap_or(NOTHING)
}

// Whether a class is one of the library's that is not allowed.
pub(crate) fn is_closed(row: &[Ban], d: usize) -> bool
    ensures { (nlib : ℕ) (g : ℕ → Group) → Bans nlib g row.now → result ≡ forbidden nlib g d }
{
    banned(row, d).closed
}

// Whether a member of class d may be one that is not allowed: those of an open library class are not looked up.
pub(crate) fn partial(nlib: usize, row: &[Ban], d: usize) -> bool
    ensures { Partial nlib row.now d result }
{
    d >= nlib || banned(row, d).partly
}
