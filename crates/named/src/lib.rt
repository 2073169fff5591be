// The classes that a record names: along BUILDS alone, or along every record.
#![tactic(auto)]

ghost use Rattle.std.specs.Prelude.{◌≡◌, [], ◌∷◌, option_to_list};
ghost use Rattle.spec.specs.Lists.{elem, only_if};
ghost use Rattle.spec.specs.Record.{is_kind, BUILDS, target, references};
ghost use Rattle.named.specs.Named.{named_by};

use records::record::{Body, Record};
use std::marker::Model;

/// The classes that a record names, at most two: they come in their order.
#[derive(Drop)]
pub struct Targets {
    first: Option<usize>,
    second: Option<usize>,
}

impl Model for Targets {
    ghost use Rattle.std.specs.Prelude.{List, ℕ, ◌++◌, option_to_list};

    ghost Value = { List ℕ };

    ghost view = { λ t. option_to_list t.first ++ option_to_list t.second };
}

impl Targets {
    // One class, or none.
    fn alone(class: Option<usize>) -> Targets
        ensures { result ≡ option_to_list class }
    {
        Targets {
            first: class,
            second: None,
        }
    }
}

impl Iterator for Targets {
    ghost use Rattle.std.specs.Iterator.{YieldsFirst, item_count};

    type Item = usize;

    ghost next_gives = { YieldsFirst (λ ts. ts) };

    ghost remaining = { item_count (λ ts. ts) };

    fn next(&mut self) -> Option<usize> {
        match self.first.take() {
            Some(class) => Some(class),
            None => self.second.take(),
        }
    }
}

/// The records that a search goes along.
#[derive(Clone, Copy, PartialEq, Eq, Debug)]
pub enum Along {
    Builds,
    Every,
}

// The class that a BUILDS record builds.
fn built(record: &Record) -> Option<usize>
    ensures { option_to_list result ≡ only_if (is_kind BUILDS record.now) (target record.now ∷ []) }
{
    match record.body() {
        Body::Builds(class) => Some(class),
        _ => None,
    }
}

/// The classes that the record names.
pub fn named(record: &Record) -> Targets
    ensures { result ≡ references record.now }
{
    match record.body() {
        Body::Class(head) => Targets {
            first: head.superclass,
            second: head.encloser,
        },
        Body::Implements(class) => Targets::alone(Some(class)),
        Body::Field { ty, .. } => Targets::alone(ty.class()),
        Body::Local(ty) => Targets::alone(ty.class()),
        Body::Uses { class, .. } => Targets::alone(Some(class)),
        Body::Builds(class) => Targets::alone(Some(class)),
        Body::Member { .. } => Targets::alone(None),
        Body::Refers { class, .. } => Targets::alone(Some(class)),
    }
}

/// The same, of a search: along BUILDS no other record names any.
pub fn named_along(record: &Record, along: Along) -> Targets
    ensures { result ≡ named_by along record.now }
{
    match along {
        Along::Every => named(record),
        Along::Builds => Targets::alone(built(record)),
    }
}

/// Whether the record names class t.
pub fn names(record: &Record, t: usize) -> bool
    ensures { result ≡ elem t (references record.now) }
{
    named(record).any(|class| class == t)
}
