// The verdict of one class: the first broken rule and, of its faults, the first in the walk.
#![tactic(auto)]

ghost use Rattle.std.specs.Prelude.{◌≡◌, Some, [], ◌≤◌, ◌<◌};
ghost use Rattle.spec.specs.Rules.{verdict_of};
ghost use Rattle.sheets.specs.Sheets.{count, groups, library_count};
ghost use Rattle.rules.specs.Line.{line_of};
ghost use Rattle.rules.specs.Walk.{Kept, Cleared, applies, found, from_class, next_class, only_first, sound};

use breaks::beyond::Site;
use breaks::breaking::Step;
use breaks::judging::Judging;
use breaks::rule::{RULES, Rule};
use markers::{has, union};
use overlay::known;
use records::CLASS_LIMIT;
use records::group::Group;
use slots::Late;

/// A rule that a class breaks, and where the first of its faults sits.
#[derive(Clone, Copy, PartialEq, Eq, Debug)]
pub struct Fault {
    pub rule: Rule,
    pub site: Site,
}

/// The walks over the classes of one judging, and what they found: of each class, under which of rules 7 to 10 nothing, as a set of their markers; and under
/// which nothing in the class and above it.
#[derive(Drop)]
pub struct Walk<'a> {
    pub judging: &'a Judging<'a>,
    kept: [u8; CLASS_LIMIT],
    cleared: [u8; CLASS_LIMIT],
    pub ghost is_kept: { Kept (library_count judging.now.formed.now.sheets) (groups judging.now.formed.now.sheets) kept },
    pub ghost is_cleared: { Cleared (library_count judging.now.formed.now.sheets) (groups judging.now.formed.now.sheets) cleared },
}

// Whether the rule asks class c: rules 7 to 10 ask a class that has their marker and is no interface.
fn applies(judging: &Judging, rule: Rule, c: usize) -> bool
    requires { c < count judging.now.formed.now.sheets }
    ensures { result ≡ applies (groups judging.now.formed.now.sheets) rule c }
{
    let markers = judging.markers;
    match rule {
        Rule::Late(late) => {
            has(known(markers, c), late.set())
                && !judging.formed.sheets.group(c).head().is_interface()
        }
        _ => true,
    }
}

// The class after t: under rules 7 to 10 its superclass, up to the root.
fn next_class(nlib: usize, rule: Rule, t: usize, group: &Group) -> Option<usize>
    ensures { result ≡ next_class nlib rule t group.now }
{
    match rule {
        Rule::Late(_) => {
            if t < nlib {
                None
            } else {
                group.head().superclass
            }
        }
        _ => None,
    }
}

// Whether the CLASS record alone is asked: of the root, and by rules 3, 4 and 6.
fn first_only(nlib: usize, rule: Rule, t: usize) -> bool
    ensures { result ≡ only_first nlib rule t }
{
    match rule {
        Rule::Reserved | Rule::Clash | Rule::LetsOut => true,
        _ => t < nlib,
    }
}

impl<'a> Walk<'a> {
    /// Nothing is kept yet.
    pub fn new(judging: &'a Judging<'a>) -> Walk<'a>
        ensures { result.judging ≡ judging.entry }
    {
        Walk {
            judging,
            kept: [0; CLASS_LIMIT],
            cleared: [0; CLASS_LIMIT],
        }
    }

    // Whether an earlier walk found nothing in class t under the rule.
    fn sound(&self, rule: Rule, t: usize) -> bool
        requires { t < 256 }
        ensures { result ≡ sound self.now.kept rule t }
    {
        match rule {
            Rule::Late(late) => has(self.kept[t], late.set()),
            _ => false,
        }
    }

    // Keeps in mind that one of rules 7 to 10 finds nothing in class t.
    fn keep(&mut self, rule: Rule, t: usize)
        requires { (t < 256) × (found (library_count self.old.judging.now.formed.now.sheets) (groups self.old.judging.now.formed.now.sheets) rule t ≡ []) }
        ensures { self.new.judging ≡ self.old.judging }
    {
        if let Rule::Late(late) = rule {
            self.kept[t] = union(self.kept[t], late.set());
        }
    }

    // Whether an earlier walk found nothing in class t and above it under the rule.
    fn clear(&self, rule: Rule, t: usize) -> bool
        requires { t < 256 }
        ensures { result ≡ sound self.now.cleared rule t }
    {
        match rule {
            Rule::Late(late) => has(self.cleared[t], late.set()),
            _ => false,
        }
    }

    // Keeps in mind that one of rules 7 to 10 finds nothing in class t and above it, so that a later walk ends there.
    fn keep_above(&mut self, rule: Rule, t: usize)
        requires { (t < 256) × (from_class (library_count self.old.judging.now.formed.now.sheets) (groups self.old.judging.now.formed.now.sheets) rule (Some t) ≡ []) }
        ensures { self.new.judging ≡ self.old.judging }
    {
        if let Rule::Late(late) = rule {
            self.cleared[t] = union(self.cleared[t], late.set());
        }
    }

    /// The first rule that user class c breaks, and its first fault: in the class itself, then upward; in each its records, then its captured variables;
    /// at last rule 9's second part. None if it is clean. Where nothing is found is kept, so that no superclass's records are asked again and again.
    pub fn verdict_of(&mut self, c: usize) -> Option<Fault>
        requires user_class { library_count self.old.judging.now.formed.now.sheets ≤ c }
        requires there { c < count self.old.judging.now.formed.now.sheets }
        ensures verdict { line_of result ≡ verdict_of (library_count self.old.judging.now.formed.now.sheets) (groups self.old.judging.now.formed.now.sheets) c }
        ensures judging { self.new.judging ≡ self.old.judging }
    {
        let judging = self.judging;
        let sheets = &judging.formed.sheets;
        let nlib = sheets.library_count();
        // The form that document 01 names: loops from rule 1 on, left from inside by a label.
        'judged: {
            for rule in RULES {
                if !applies(judging, rule, c) {
                    continue;
                }
                let mut next = Some(c);
                while let Some(t) = next {
                    if self.clear(rule, t) {
                        next = None;
                        continue;
                    }
                    let group = sheets.group(t);
                    next = next_class(nlib, rule, t, &group);
                    if self.sound(rule, t) {
                        continue;
                    }
                    let alone = first_only(nlib, rule, t);
                    for (number, record) in group.records().enumerate() {
                        let step = Step {
                            rule,
                            asked: t,
                            number,
                        };
                        if judging.breaks(step, &record) {
                            break 'judged Some(Fault {
                                rule,
                                site: Site {
                                    class: t as u8,
                                    number: number as u8,
                                },
                            });
                        }
                        if alone {
                            break;
                        }
                    }
                    if let Some(site) = judging.captured_site(rule, t) {
                        break 'judged Some(Fault { rule, site });
                    }
                    self.keep(rule, t);
                }
                self.keep_above(rule, c);
                if judging.breaks_base(rule, c) {
                    break 'judged Some(Fault {
                        rule,
                        site: Site {
                            class: c as u8,
                            number: 0,
                        },
                    });
                }
            }
            None
        }
    }
}
