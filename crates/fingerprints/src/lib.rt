// Fingerprints of names: 32-bit FNV-1a.
#![tactic(auto)]

ghost use Rattle.std.specs.Prelude.{◌≡◌, ◌*◌, ◌%◌, ◌^◌};
ghost use Rattle.spec.specs.Index.{fingerprint_with, fingerprint};

const START: u32 = 2166136261;

const PRIME: u32 = 16777619;

// The product's low 32 bits.
fn times_prime(a: u32) -> u32
    ensures { result ≡ a * 16777619 % 2 ^ 32 }
{
    a.wrapping_mul(PRIME)
}

// The fingerprint after one byte more.
#[tactic(auto, unfolding(spec::specs::Index::fingerprint_with))]
fn fingerprint_with(print: u32, byte: u8) -> u32
    ensures { result ≡ fingerprint_with print byte }
{
    times_prime(print ^ u32::from(byte))
}

/// The fingerprint of a name, or of any bytes.
#[tactic(auto, unfolding(spec::specs::Index::fingerprint))]
pub fn fingerprint(name: &[u8]) -> u32
    ensures { result ≡ fingerprint name.now }
{
    name.iter()
        .fold(START, |print, byte| fingerprint_with(print, *byte))
}
