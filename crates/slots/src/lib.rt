// Slots against rules 7 to 10: for a slot the set of the markers whose rules it passes, 1 Immutable, 2 Powerless, 4 Selfless, 128 DeepSelfless.
// Markers and captured variables stand in their rows.
#![tactic(auto)]

ghost use Rattle.std.specs.Prelude.{◌≡◌, ◌^◌, ◌≤◌, ◌<◌, ◌&&◌, not};
ghost use Rattle.spec.specs.Record.{bit};
ghost use Rattle.slots.specs.Slots.{rule_number, rule_marker, number_marker, Passes, slot_by, FieldSet, FieldsSet, RootSet};
ghost use Rattle.slots.specs.Slots.{encloser_by, lane_by, captured_by, HeadSet, base_by};

use captured::{LANES, Lane, ROW_BYTES, first_lacking};
use markers::{ALL, DEEP_SELFLESS, IMMUTABLE, POWERLESS, SELFLESS, common, has, union};
use overlay::{known, type_markers};
use records::group::Records;
use records::record::{Body, Head, Ty};
use records::{
    CALLS_SUPER_EQUALS, FINAL, INNER, OVERRIDES_EQUALS, OVERRIDES_HASH_CODE, STATIC, TRANSIENT,
    has_flag,
};

/// The rules that ask slots, each of the classes that have its marker.
#[derive(Clone, Copy, PartialEq, Eq, Debug)]
pub enum Late {
    Immutable = 7,
    Powerless = 8,
    Selfless = 9,
    DeepSelfless = 10,
}

impl Late {
    /// The rule's number.
    pub fn number(self) -> u8
        ensures { result ≡ rule_number self }
    {
        self as u8
    }

    /// Its marker, as a set of its own.
    pub fn set(self) -> u8
        ensures { (result ≡ 2 ^ rule_marker self) × (0 < result) }
    {
        match self {
            Late::Immutable => IMMUTABLE,
            Late::Powerless => POWERLESS,
            Late::Selfless => SELFLESS,
            Late::DeepSelfless => DEEP_SELFLESS,
        }
    }
}

/// The marker of a rule by its number, as a set of its own; a number past 10 is asked as 10.
pub fn rule_set(rule: u8) -> u8
    requires { 7 ≤ rule }
    ensures { (result ≡ 2 ^ number_marker rule) × (0 < result) }
{
    match rule {
        7 => Late::Immutable.set(),
        8 => Late::Powerless.set(),
        9 => Late::Selfless.set(),
        _ => Late::DeepSelfless.set(),
    }
}

// What a field that changes can pass, and a transient one.
const CHANGING: u8 = POWERLESS + DEEP_SELFLESS;

const LASTING: u8 = ALL - SELFLESS;

// By the flags of a field and the markers of its type. One that is not final passes neither rule 7 nor rule 9, a transient one not rule 9.
fn slot_set(flags: u16, m: u8) -> u8
    ensures { Passes (slot_by flags m) result }
{
    if !has_flag(flags, FINAL) {
        return common(m, CHANGING);
    }
    if has_flag(flags, TRANSIENT) {
        return common(m, LASTING);
    }
    union(m, SELFLESS)
}

/// Those that a field passes; a static field has no slot.
pub fn field_set(flags: u16, ty: Ty, markers: &[u8]) -> u8
    ensures { FieldSet markers.now flags ty result }
{
    if has_flag(flags, STATIC) {
        return ALL;
    }
    slot_set(flags, type_markers(ty, markers))
}

/// Those that all fields among some records pass.
pub fn fields_set(records: Records<'_>, markers: &[u8]) -> u8
    ensures { FieldsSet markers.now records.entry result }
{
    let mut set = ALL;
    for record in records {
        if let Body::Field { flags, ty } = record.body() {
            set = common(set, field_set(flags, ty, markers));
        }
    }
    set
}

// Those that a library class passes as a root; class 0 passes all.
fn root_set(markers: &[u8], d: usize) -> u8
    ensures { RootSet markers.now d result }
{
    if d == 0 {
        return ALL;
    }
    union(known(markers, d), SELFLESS)
}

// The number that stands for no class. A row is asked by it as by any other: past its end there is no marker.
const NO_CLASS: usize = 65535;

// Those that the encloser of an inner class passes.
fn encloser_set(head: &Head, markers: &[u8]) -> u8
    ensures { Passes (encloser_by head.now markers.now) result }
{
    if !has_flag(head.flags, INNER) {
        return ALL;
    }
    let e = head.encloser.unwrap_or(NO_CLASS);
    union(known(markers, e), SELFLESS)
}

// Those that the captured variables of class t pass by one lane: all, or all but the lane's marker.
fn lane_set(row: &[u8; ROW_BYTES], lane: Lane, t: usize) -> u8
    requires { t < 256 }
    ensures { result ≡ lane_by row.now t lane }
{
    if first_lacking(row, lane, t).is_some() {
        ALL - lane.set()
    } else {
        ALL
    }
}

/// Those that the captured variables of class t pass.
pub fn captured_set(row: &[u8; ROW_BYTES], t: usize) -> u8
    requires { t < 256 }
    ensures { Passes (captured_by row.now t) result }
{
    let mut set = ALL;
    for lane in LANES {
        set = common(set, lane_set(row, lane, t));
    }
    set
}

/// Those that record 0 of class t passes, whose head this is: as a root, or by its encloser.
pub fn head_set(head: &Head, markers: &[u8], nlib: usize, t: usize) -> u8
    ensures { HeadSet markers.now head.now nlib t result }
{
    if t < nlib {
        return root_set(markers, t);
    }
    encloser_set(head, markers)
}

// A class has an equals and a hashCode of its own that do not ask Object's.
fn has_own_equals(flags: u16) -> bool
    ensures { result ≡ (bit 2 flags && bit 3 flags && not (bit 4 flags)) }
{
    has_flag(flags, OVERRIDES_EQUALS)
        && has_flag(flags, OVERRIDES_HASH_CODE)
        && !has_flag(flags, CALLS_SUPER_EQUALS)
}

/// Rule 9's second part: the superclass is not Selfless, nor class 0 with two flags.
pub fn base_breaks(head: &Head, markers: &[u8]) -> bool
    ensures { result ≡ base_by head.now markers.now }
{
    let s = head.superclass.unwrap_or(NO_CLASS);
    if has(known(markers, s), SELFLESS) {
        return false;
    }
    s != 0 || !has_own_equals(head.flags)
}
