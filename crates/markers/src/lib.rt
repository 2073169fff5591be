// Sets of markers: the closure as a table, unions, intersections, and which sets clash.
#![tactic(auto)]

ghost use Rattle.std.specs.Prelude.{◌≡◌, ◌&&◌, ℕ, ◌/◌, ◌%◌, ◌<◌, eqb};
ghost use Rattle.spec.specs.Record.{bit};
ghost use Rattle.spec.specs.Markers.{closure as closure_of, union as union_of, clash as clash_of};

// The markers, each as a set of its own, and all of them. A set is a byte, since rows of bytes hold sets.
pub const IMMUTABLE: u8 = 1;

pub const POWERLESS: u8 = 2;

pub const SELFLESS: u8 = 4;

pub const EQUATABLE: u8 = 8;

pub const TOKEN: u8 = 16;

pub const THROWABLE: u8 = 32;

pub const ENUM: u8 = 64;

pub const DEEP_SELFLESS: u8 = 128;

pub const ALL: u8 = 255;

// For each set the least closed set that holds it.
const CLOSURES: [u8; 256] = [
    0, 1, 3, 3, 4, 5, 7, 7, 8, 9, 11, 11, 12, 13, 15, 15, 25, 25, 27, 27, 29, 29, 31, 31, 25, 25,
    27, 27, 29, 29, 31, 31, 35, 35, 35, 35, 39, 39, 39, 39, 43, 43, 43, 43, 47, 47, 47, 47, 59, 59,
    59, 59, 63, 63, 63, 63, 59, 59, 59, 59, 63, 63, 63, 63, 72, 73, 75, 75, 76, 77, 79, 79, 72, 73,
    75, 75, 76, 77, 79, 79, 89, 89, 91, 91, 93, 93, 95, 95, 89, 89, 91, 91, 93, 93, 95, 95, 107,
    107, 107, 107, 111, 111, 111, 111, 107, 107, 107, 107, 111, 111, 111, 111, 123, 123, 123, 123,
    127, 127, 127, 127, 123, 123, 123, 123, 127, 127, 127, 127, 132, 133, 135, 135, 132, 133, 135,
    135, 140, 141, 143, 143, 140, 141, 143, 143, 157, 157, 159, 159, 157, 157, 159, 159, 157, 157,
    159, 159, 157, 157, 159, 159, 167, 167, 167, 167, 167, 167, 167, 167, 175, 175, 175, 175, 175,
    175, 175, 175, 191, 191, 191, 191, 191, 191, 191, 191, 191, 191, 191, 191, 191, 191, 191, 191,
    204, 205, 207, 207, 204, 205, 207, 207, 204, 205, 207, 207, 204, 205, 207, 207, 221, 221, 223,
    223, 221, 221, 223, 223, 221, 221, 223, 223, 221, 221, 223, 223, 239, 239, 239, 239, 239, 239,
    239, 239, 239, 239, 239, 239, 239, 239, 239, 239, 255, 255, 255, 255, 255, 255, 255, 255, 255,
    255, 255, 255, 255, 255, 255, 255,
];

#[tactic(auto, unfolding(spec::specs::Markers::closure, spec::specs::Markers::closures))]
pub fn closure(m: u8) -> u8
    ensures { result ≡ closure_of m }
{
    CLOSURES[usize::from(m)]
}

// The markers of both sets.
#[tactic(auto, unfolding(spec::specs::Markers::union))]
pub fn union(a: u8, b: u8) -> u8
    ensures { result ≡ union_of a b }
{
    a | b
}

// The markers that both sets have.
pub fn common(a: u8, b: u8) -> u8
    ensures { (k : ℕ) → bit k result ≡ (bit k a && bit k b) }
{
    a & b
}

// Powerless with Token, Selfless with Equatable.
#[tactic(auto, unfolding(spec::specs::Markers::clash, spec::specs::Record::bit))]
pub fn clash(m: u8) -> bool
    ensures { result ≡ clash_of m }
{
    has(m, POWERLESS) && has(m, TOKEN) || has(m, SELFLESS) && has(m, EQUATABLE)
}

// Whether a set holds a marker, given as the set of that marker alone.
pub fn has(set: u8, marker: u8) -> bool
    requires { 0 < marker }
    ensures { result ≡ eqb (set / marker % 2) 1 }
{
    set / marker % 2 == 1
}
