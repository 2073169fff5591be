// All ten rules, of one record of a class that is asked.
ghost use Rattle.std.specs.Prelude.{◌≡◌, ◌<◌};
ghost use Rattle.spec.specs.Sheet.{class_record};
ghost use Rattle.records.specs.Kinds.{head_of};
ghost use Rattle.sheets.specs.Sheets.{count, groups, library_count};
ghost use Rattle.slots.specs.Slots.{head_breaks};
ghost use Rattle.breaks.specs.Breaking.{breaks_at};
ghost use Rattle.breaks.specs.Steps.{AtStep};

use crate::early::{lets_out, names_forbidden, refers_forbidden, reserved, static_breaks};
use crate::judging::Judging;
use crate::rule::Rule;
use markers::{clash, has};
use overlay::known;
use records::record::{Body, Head, Record};
use slots::{Late, field_set, head_set};

/// Where the walk over rules, classes and records stands: the rule, the class that is asked, and the number of its record.
#[derive(Clone, Copy)]
pub struct Step {
    pub rule: Rule,
    pub asked: usize,
    pub number: usize,
}

impl<'a> Judging<'a> {
    // Rules 7 to 10, of record 0 of class t.
    fn head_breaks(&self, rule: Late, t: usize, head: &Head) -> bool
        requires there { t < count self.now.formed.now.sheets }
        requires head { head.now ≡ head_of (class_record (groups self.now.formed.now.sheets t)) }
        ensures { result ≡ head_breaks (library_count self.now.formed.now.sheets) (groups self.now.formed.now.sheets) rule t }
    {
        let nlib = self.formed.sheets.library_count();
        let markers = self.markers;
        !has(head_set(head, markers, nlib, t), rule.set())
    }

    // Rules 7 to 10, of any record.
    fn late_breaks(&self, rule: Late, step: Step, record: &Record) -> bool
        requires { AtStep self.now.formed.now.sheets step record.now }
        ensures { result ≡ breaks_at (library_count self.now.formed.now.sheets) (groups self.now.formed.now.sheets)
            (Rule.Late rule) step.asked step.number record.now }
    {
        let markers = self.markers;
        match record.body() {
            Body::Class(head) => self.head_breaks(rule, step.asked, &head),
            Body::Field { flags, ty } => !has(field_set(flags, ty, markers), rule.set()),
            _ => false,
        }
    }

    /// Whether the record breaks the rule.
    pub fn breaks(&self, step: Step, record: &Record) -> bool
        requires { AtStep self.now.formed.now.sheets step record.now }
        ensures { result ≡ breaks_at (library_count self.now.formed.now.sheets) (groups self.now.formed.now.sheets)
            step.rule step.asked step.number record.now }
    {
        let markers = self.markers;
        let bans = self.bans;
        match step.rule {
            Rule::Classes => names_forbidden(record, bans),
            Rule::Members => refers_forbidden(&self.formed.sheets, bans, record),
            Rule::Reserved => match record.body() {
                Body::Class(head) => reserved(head.markers),
                _ => false,
            },
            Rule::Clash => clash(known(markers, step.asked)),
            Rule::Statics => static_breaks(record, markers),
            Rule::LetsOut => match record.body() {
                Body::Class(head) => lets_out(head.flags),
                _ => false,
            },
            Rule::Late(late) => self.late_breaks(late, step, record),
        }
    }
}
