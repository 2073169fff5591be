ghost use Rattle.std.specs.Prelude.{◌≤◌};

use crate::candidate::Candidate;
use records::kind::Kind;
use records::{CLASS_LIMIT, RECORD_LIMIT};
use refusals::{Reason, Refusal, Side};

/// The open group: how many records it has so far, and the kind of the last.
#[derive(Clone, Copy)]
pub(crate) struct OpenGroup {
    pub(crate) records: usize,
    pub(crate) last: Kind,
    ghost bounds: { (1 ≤ records) × (records ≤ 255) },
}

/// Where a record begins: its sheet and byte, how many classes begin before it, and the group that is open there.
#[derive(Clone, Copy)]
pub(crate) struct Place {
    pub(crate) side: Side,
    pub(crate) byte: usize,
    pub(crate) classes: usize,
    pub(crate) group: Option<OpenGroup>,
    ghost few: { classes ≤ 256 },
}

#[tactic(auto, unfolding(spec::specs::Refusals::record_tests, crate::specs::Pass::place, crate::specs::Pass::located, crate::specs::Pass::first_met))]
impl Place {
    ghost use Rattle.std.specs.Prelude.{◌≡◌, true, false, not, ◌||◌, ◌+◌, ◌<◌, ◌^◌, leb, ltb, length, IfOk, IfErr};
    ghost use Rattle.std.proofs.Math.Option.{none, some};
    ghost use Rattle.spec.specs.Record.{kind as kind_of, is_class};
    ghost use Rattle.spec.specs.Refusals.{record_tests};
    ghost use Rattle.refusals.specs.Refusals.{reason_number};
    ghost use Rattle.pass.specs.Pass.{located, first_met, refused_at, Meets, Passes, Blames, Follows};

    /// The place where the first of some bytes stands, after so many classes.
    pub(crate) fn start(side: Side, byte: usize, classes: usize) -> Place
        requires { classes ≤ 256 }
        ensures place { (result.side ≡ side) × (result.byte ≡ byte) × (result.classes ≡ classes) }
        ensures group { result.group ≡ None }
    {
        Place {
            side,
            byte,
            classes,
            group: None,
        }
    }

    /// Whether the record has a group here, or opens one.
    fn has_group(self, candidate: &Candidate) -> bool
        ensures { result ≡ (located self candidate.now.bytes.now).grouped }
    {
        candidate.is_class() || self.group.is_some()
    }

    /// Whether the record is neither a class nor a record of a group too many.
    fn has_room(self, candidate: &Candidate) -> bool
        ensures { let l = located self candidate.now.bytes.now in result ≡ not (leb 256 l.class || leb 255 l.record_number) }
    {
        if candidate.is_class() {
            return self.classes < CLASS_LIMIT;
        }
        self.group.is_none_or(|group| group.records < RECORD_LIMIT)
    }

    /// Whether the record is of no lower kind than the one before it in its group.
    fn keeps_order(self, candidate: &Candidate) -> bool
        ensures { result ≡ not (ltb (kind_of candidate.now.bytes.now) (located self candidate.now.bytes.now).before) }
    {
        if candidate.is_class() {
            return true;
        }
        match self.group {
            Some(group) => group.last <= candidate.kind,
            None => true,
        }
    }

    /// What is wrong with the record here.
    #[inline(always)]
    fn test(self, candidate: &Candidate) -> Result<(), Reason>
        ensures { Meets (record_tests (located self candidate.now.bytes.now)) result }
    {
        Reason::WrongKind.unless(candidate.has_home(self.side))?;
        Reason::WrongLength.unless(candidate.has_length())?;
        Reason::NoClassYet.unless(self.has_group(candidate))?;
        Reason::WrongBody.unless(candidate.has_body(self.side))?;
        Reason::WrongCount.unless(self.has_room(candidate))?;
        Reason::OutOfOrder.unless(self.keeps_order(candidate))
    }

    // The same. The kind is a constant in each call, so that the compiler keeps only the tests of that kind.
    fn test_by_kind(self, candidate: &Candidate) -> Result<(), Reason>
        ensures { Meets (record_tests (located self candidate.now.bytes.now)) result }
    {
        let bytes = candidate.bytes;
        match candidate.kind {
            Kind::Class => self.test(&Candidate {
                bytes,
                kind: Kind::Class,
            }),
            Kind::Implements => self.test(&Candidate {
                bytes,
                kind: Kind::Implements,
            }),
            Kind::Field => self.test(&Candidate {
                bytes,
                kind: Kind::Field,
            }),
            Kind::Local => self.test(&Candidate {
                bytes,
                kind: Kind::Local,
            }),
            Kind::Uses => self.test(&Candidate {
                bytes,
                kind: Kind::Uses,
            }),
            Kind::Builds => self.test(&Candidate {
                bytes,
                kind: Kind::Builds,
            }),
            Kind::Member => self.test(&Candidate {
                bytes,
                kind: Kind::Member,
            }),
            Kind::Refers => self.test(&Candidate {
                bytes,
                kind: Kind::Refers,
            }),
        }
    }

    /// The refusal that blames the record here.
    fn blame(self, reason: Reason) -> Refusal
        ensures { result ≡ record { reason = reason; sheet = self.side; byte = self.byte } }
    {
        Refusal {
            reason,
            sheet: self.side,
            byte: self.byte,
        }
    }

    /// The first record of the bytes from here on, or what is wrong with it.
    fn tested(self, rest: &[u8]) -> Result<Candidate<'_>, Reason>
        ensures passes { IfOk result (λ r. Passes self rest.now r.bytes.now) }
        ensures refused { IfErr result (λ e. refused_at self rest.now ≡ some (reason_number e)) }
    {
        let candidate = Candidate::first(rest)?;
        self.test_by_kind(&candidate)?;
        Ok(candidate)
    }

    /// The same, or the refusal that blames it.
    pub(crate) fn next(self, rest: &[u8]) -> Result<Candidate<'_>, Refusal>
        ensures passes { IfOk result (λ r. Passes self rest.now r.bytes.now) }
        ensures blames { IfErr result (λ e. Blames self rest.now e) }
    {
        self.tested(rest).map_err(|reason| self.blame(reason))
    }

    /// The place after a CLASS record with which nothing is wrong: it opens a group.
    pub(crate) fn opened(self, candidate: &Candidate) -> Place
        requires passes { first_met (record_tests (located self candidate.now.bytes.now)) ≡ none }
        requires class { is_class candidate.now.bytes.now ≡ true }
        requires fits { self.byte + length candidate.now.bytes.now < 2 ^ 64 }
        ensures { Follows self candidate.now.bytes.now result }
    {
        let group = OpenGroup {
            records: 1,
            last: candidate.kind,
        };
        Place {
            side: self.side,
            byte: self.byte + candidate.bytes.len(),
            classes: self.classes + 1,
            group: Some(group),
        }
    }

    /// The place after another record with which nothing is wrong: it joins the open group.
    pub(crate) fn joined(self, candidate: &Candidate) -> Place
        requires passes { first_met (record_tests (located self candidate.now.bytes.now)) ≡ none }
        requires other { is_class candidate.now.bytes.now ≡ false }
        requires fits { self.byte + length candidate.now.bytes.now < 2 ^ 64 }
        ensures { Follows self candidate.now.bytes.now result }
    {
        let open = self.group.unwrap();
        let last = candidate.kind;
        let group = OpenGroup {
            records: open.records + 1,
            last,
        };
        Place {
            side: self.side,
            byte: self.byte + candidate.bytes.len(),
            classes: self.classes,
            group: Some(group),
        }
    }
}
