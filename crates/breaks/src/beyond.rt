// What breaks rules 7 to 10 beyond the records of a class that is asked: its captured variables, and at last rule 9's second part.
ghost use Rattle.std.specs.Prelude.{◌≡◌, ◌<◌, [], length, get_or};
ghost use Rattle.std.specs.Option.{option_map};
ghost use Rattle.spec.specs.Classes.{locals};
ghost use Rattle.sheets.specs.Sheets.{count, groups, library_count};
ghost use Rattle.breaks.specs.Beyond.{base_at, captured_at, fault_at, first_fault, lane_of};

use crate::judging::Judging;
use crate::rule::Rule;
use captured::{Lane, first_lacking};
use records::group::Group;
use records::record::Body;
use slots::{Late, base_breaks};

/// Where a fault sits: a class and the number of its record.
#[derive(Clone, Copy, PartialEq, Eq, Debug)]
pub struct Site {
    pub class: u8,
    pub number: u8,
}

// The lane that the rule asks.
fn lane(rule: Rule) -> Option<Lane>
    ensures { result ≡ lane_of rule }
{
    match rule {
        Rule::Late(Late::Immutable) => Some(Lane::Immutable),
        Rule::Late(Late::Powerless) => Some(Lane::Powerless),
        Rule::Late(Late::DeepSelfless) => Some(Lane::DeepSelfless),
        _ => None,
    }
}

// The record number of a group's i-th LOCAL.
fn local_number(group: &Group, i: usize) -> usize
    requires { i < length (locals group.now) }
    ensures { result ≡ (get_or (locals group.now) i (0, [])).0 }
{
    group
        .records()
        .enumerate()
        .filter_map(|(number, record)| match record.body() {
            Body::Local(_) => Some(number),
            _ => None,
        })
        .nth(i)
        .unwrap()
}

impl<'a> Judging<'a> {
    /// The first captured variable of class t that breaks the rule: its LOCAL in its owner. A root is asked for none.
    pub fn captured_site(&self, rule: Rule, t: usize) -> Option<Site>
        requires { t < count self.now.formed.now.sheets }
        ensures { option_map fault_at result ≡ first_fault (captured_at (library_count self.now.formed.now.sheets) (groups self.now.formed.now.sheets) rule t) }
    {
        let sheets = &self.formed.sheets;
        let lane = lane(rule)?;
        if t < sheets.library_count() {
            return None;
        }
        let variable = first_lacking(self.lanes, lane, t)?;
        let number = local_number(&sheets.group(variable.owner), variable.index);
        Some(Site {
            class: variable.owner as u8,
            number: number as u8,
        })
    }

    /// Rule 9's second part, of class c.
    pub fn breaks_base(&self, rule: Rule, c: usize) -> bool
        requires { c < count self.now.formed.now.sheets }
        ensures { result ≡ base_at (groups self.now.formed.now.sheets) rule c }
    {
        let markers = self.markers;
        match rule {
            Rule::Late(Late::Selfless) => {
                // Class 0 and an interface have no superclass to ask.
                let head = self.formed.sheets.group(c).head();
                head.superclass.is_some() && base_breaks(&head, markers)
            }
            _ => false,
        }
    }
}
