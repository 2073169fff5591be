// Whether a class is clean, in one look at each record: a clean class needs no walk over the rules.
#![tactic(auto)]

ghost use Rattle.std.specs.Prelude.{◌≡◌, not, ◌&&◌, ◌||◌, ◌≤◌, ◌<◌, drop};
ghost use Rattle.spec.specs.Lists.{any};
ghost use Rattle.spec.specs.Record.{bit};
ghost use Rattle.spec.specs.Rules.{verdict_of};
ghost use Rattle.laws.proofs.All.{All};
ghost use Rattle.sheets.specs.Sheets.{count, groups, library_count};
ghost use Rattle.slots.specs.Slots.{base_by, rule_marker};
ghost use Rattle.breaks.specs.Bans.{Refers};
ghost use Rattle.survey.specs.Survey.{is_clean, head_by, any_late, record_breaks, ClassSet, Passing};

use breaks::early::{lets_out, names_forbidden, refers_forbidden, reserved, static_breaks};
use breaks::judging::Judging;
use markers::{SELFLESS, clash, common, has};
use records::CLASS_LIMIT;
use records::group::Group;
use records::record::{Head, Record};
use slots::{Late, base_breaks, captured_set, fields_set, head_set};

// The rules that ask slots.
const LATE: [Late; 4] = [
    Late::Immutable,
    Late::Powerless,
    Late::Selfless,
    Late::DeepSelfless,
];

/// A judging, and for each class the set of the markers whose rules its slots and its superclasses' pass.
#[derive(Drop)]
pub struct Survey<'a> {
    pub judging: Judging<'a>,
    pub sets: &'a [u8; CLASS_LIMIT],
    pub ghost passing: { Passing (library_count judging.formed.now.sheets) (count judging.formed.now.sheets) (groups judging.formed.now.sheets) sets.now },
}

// ---- rules 7 to 10

// The markers whose rules class t and its superclasses up to the root pass, by the sets of lower classes. An interface has no slots.
fn class_set(judging: &Judging, sets: &[u8], t: usize) -> u8
    requires there { t < count judging.now.formed.now.sheets }
    requires passing { Passing (library_count judging.now.formed.now.sheets) t (groups judging.now.formed.now.sheets) sets.now }
    ensures { ClassSet (library_count judging.now.formed.now.sheets) (groups judging.now.formed.now.sheets) t result }
{
    let nlib = judging.formed.sheets.library_count();
    let group = judging.formed.sheets.group(t);
    let head = group.head();
    let markers = judging.markers;
    let first = head_set(&head, markers, nlib, t);
    if t < nlib {
        return first;
    }
    if head.is_interface() {
        return 0;
    }
    let Some(above) = head.superclass else {
        unreachable!()
    };
    let fixed = common(first, captured_set(judging.lanes, t));
    let own = common(fixed, fields_set(group.records(), markers));
    common(own, sets[above])
}

/// Writes the set of each class to a row of the caller's, whose end stays.
pub fn passes(judging: &Judging, sets: &mut [u8; CLASS_LIMIT])
    ensures sets { Passing (library_count judging.now.formed.now.sheets) (count judging.now.formed.now.sheets) (groups judging.now.formed.now.sheets) sets.new }
    ensures rest { drop (count judging.now.formed.now.sheets) sets.new ≡ drop (count judging.now.formed.now.sheets) sets.old }
{
    for c in 0..judging.formed.sheets.count() {
        sets[c] = class_set(judging, sets, c);
    }
}

// The set has each of the four markers that a class with the markers m has.
fn covers(m: u8, set: u8) -> bool
    ensures { result ≡ not (any_late m (λ rule. not (bit (rule_marker rule) set))) }
{
    !LATE
        .iter()
        .any(|rule| has(m, rule.set()) && !has(set, rule.set()))
}

// Rule 9's second part, for a class with the markers m.
fn base_lacks(m: u8, head: &Head, markers: &[u8]) -> bool
    ensures { result ≡ (bit 2 m && base_by head.now markers.now) }
{
    has(m, SELFLESS) && base_breaks(head, markers)
}

// A class with the markers m and this set breaks none of rules 7 to 10, which do not ask an interface.
fn late_fine(m: u8, set: u8, head: &Head, markers: &[u8]) -> bool
    ensures { result ≡ (bit 0 head.now.flags
        || not ((bit 2 m && base_by head.now markers.now) || any_late m (λ rule. not (bit (rule_marker rule) set)))) }
{
    head.is_interface() || !base_lacks(m, head, markers) && covers(m, set)
}

// ---- rules 1 to 6

// The record breaks rule 1, 2 or 5. The two tests that ask one kind of record alone come first.
fn breaks(judging: &Judging, record: &Record) -> bool
    requires { Refers (count judging.now.formed.now.sheets) (groups judging.now.formed.now.sheets) record.now }
    ensures { result ≡ record_breaks (library_count judging.now.formed.now.sheets) (groups judging.now.formed.now.sheets) record.now }
{
    let markers = judging.markers;
    let bans = judging.bans;
    static_breaks(record, markers)
        || refers_forbidden(&judging.formed.sheets, bans, record)
        || names_forbidden(record, bans)
}

// No record of the class breaks one of them.
fn records_fine(judging: &Judging, group: &Group) -> bool
    requires { All (Refers (count judging.now.formed.now.sheets) (groups judging.now.formed.now.sheets)) group.now }
    ensures { result ≡ not (any (record_breaks (library_count judging.now.formed.now.sheets) (groups judging.now.formed.now.sheets)) group.now) }
{
    !group.records().any(
        |record|
            requires { Refers (count judging.now.formed.now.sheets) (groups judging.now.formed.now.sheets) «record» }
        { breaks(judging, &record) },
    )
}

// The CLASS record breaks none of rules 3, 4 and 6, where m are the class's overlay markers.
fn head_fine(head: &Head, m: u8) -> bool
    ensures { result ≡ not (head_by head.now.flags head.now.markers m) }
{
    !(reserved(head.markers) || clash(m) || lets_out(head.flags))
}

// The class breaks none of them.
fn early_fine(judging: &Judging, group: &Group, head: &Head, m: u8) -> bool
    requires { All (Refers (count judging.now.formed.now.sheets) (groups judging.now.formed.now.sheets)) group.now }
    ensures { result ≡ not (head_by head.now.flags head.now.markers m
        || any (record_breaks (library_count judging.now.formed.now.sheets) (groups judging.now.formed.now.sheets)) group.now) }
{
    head_fine(head, m) && records_fine(judging, group)
}

// ---- all ten

impl<'a> Survey<'a> {
    /// Whether user class c breaks no rule.
    pub fn clean(&self, c: usize) -> bool
        requires user_class { (library_count self.now.judging.formed.now.sheets ≤ c) × (c < count self.now.judging.formed.now.sheets) }
        ensures { result ≡ is_clean (verdict_of (library_count self.now.judging.formed.now.sheets) (groups self.now.judging.formed.now.sheets) c) }
    {
        let judging = &self.judging;
        let markers = judging.markers;
        let group = judging.formed.sheets.group(c);
        let head = group.head();
        let m = markers[c];
        early_fine(judging, &group, &head, m) && late_fine(m, self.sets[c], &head, markers)
    }
}
