// Rules 1 to 6.
ghost use Rattle.std.specs.Prelude.{◌≡◌, not, ◌&&◌, ◌||◌, ℕ, [], get_or};
ghost use Rattle.spec.specs.Record.{bit, is_kind, MEMBER, REFERS, flags, target, index};
ghost use Rattle.spec.specs.Sheet.{Group, of_kind};
ghost use Rattle.spec.specs.Markers.{Token, Throwable, Enum};
ghost use Rattle.spec.specs.Rules.{member_allowed, static_breaks};
ghost use Rattle.sheets.specs.Sheets.{count, groups, library_count};
ghost use Rattle.overlay.specs.Types.{Known};
ghost use Rattle.breaks.specs.Bans.{Bans, NamesForbidden, Refers};

use crate::bans::{Ban, is_closed, partial};
use markers::{ENUM, POWERLESS, THROWABLE, TOKEN, has};
use named::named;
use overlay::type_markers;
use records::group::Group;
use records::record::{Body, Record};
use records::{
    CALLS_OWN_METHOD, CONSTRUCTS_INNER, FINAL, LETS_THIS_OUT, MEMBER_ALLOWED, STATIC, has_flag,
};
use sheets::Sheets;

/// Rule 1: the record names a class that is not allowed.
pub fn names_forbidden(record: &Record, banned: &[Ban]) -> bool
    ensures { NamesForbidden banned.now record.now result }
{
    named(record).any(|d| is_closed(banned, d))
}

// Whether member i of a class is allowed.
fn member_allowed(group: &Group, i: usize) -> bool
    ensures { result ≡ bit 0 (flags (get_or (of_kind MEMBER group.now) i [])) }
{
    group
        .records()
        .filter_map(|record| match record.body() {
            Body::Member { flags } => Some(has_flag(flags, MEMBER_ALLOWED)),
            _ => None,
        })
        .nth(i)
        .unwrap_or(false)
}

/// Rule 2: the record refers to a member that is not allowed.
pub fn refers_forbidden(sheets: &Sheets, banned: &[Ban], record: &Record) -> bool
    requires refers { Refers (count sheets.now) (groups sheets.now) record.now }
    requires bans { Bans (library_count sheets.now) (groups sheets.now) banned.now }
    ensures { result ≡ (is_kind REFERS record.now && not (member_allowed (groups sheets.now) (target record.now) (index record.now))) }
{
    let Body::Refers { class, index } = record.body() else {
        return false;
    };
    if !partial(sheets.library_count(), banned, class) {
        return false;
    }
    !member_allowed(&sheets.group(class), index)
}

/// Rule 3: Token, Throwable or Enum among own markers.
pub fn reserved(markers: u8) -> bool
    ensures { result ≡ (bit Token markers || bit Throwable markers || bit Enum markers) }
{
    has(markers, TOKEN) || has(markers, THROWABLE) || has(markers, ENUM)
}

/// Rule 5: a static field that is not final or not of a Powerless type.
pub fn static_breaks(record: &Record, markers: &[u8]) -> bool
    ensures { (g : ℕ → Group) → Known g markers.now → result ≡ static_breaks g record.now }
{
    let Body::Field { flags, ty } = record.body() else {
        return false;
    };
    if !has_flag(flags, STATIC) {
        return false;
    }
    !has_flag(flags, FINAL) || !has(type_markers(ty, markers), POWERLESS)
}

/// Rule 6: an initialization flag, 5 to 7.
pub fn lets_out(flags: u16) -> bool
    ensures { result ≡ (bit 5 flags || bit 6 flags || bit 7 flags) }
{
    has_flag(flags, CALLS_OWN_METHOD)
        || has_flag(flags, CONSTRUCTS_INNER)
        || has_flag(flags, LETS_THIS_OUT)
}
