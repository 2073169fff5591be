// The records of a class: numbers in them, and walks over them. All later crates read a class's bytes as a plain slice.
#![tactic(auto)]

ghost use Rattle.std.specs.Prelude.{◌≡◌, ◌+◌, ◌≤◌, ◌<◌, length, IfSome};
ghost use Rattle.spec.specs.Record.{u16, bit};
ghost use Rattle.spec.specs.Sheet.{of_kind};
ghost use Rattle.records.specs.Lengths.{whole_length};
ghost use Rattle.records.specs.Records.{between, AtRecord, nth_byte};

pub mod group;
pub mod kind;
pub mod record;

use group::Records;

// The length and the kind that each record begins with.
pub const HEAD_BYTES: usize = 4;

// Where a record has its kind, and then its flags or the class that it names; and the index after that class.
pub const KIND_AT: usize = 2;

pub const FLAGS_AT: usize = 4;

pub const TARGET_AT: usize = 4;

pub const INDEX_AT: usize = 6;

// Where a FIELD and a LOCAL have their types.
pub const FIELD_TYPE_AT: usize = 6;

pub const LOCAL_TYPE_AT: usize = 4;

// Where a type has its code, and then its class.
pub const CODE_AT: usize = 1;

pub const TYPE_CLASS_AT: usize = 2;

// Where a CLASS record has its own markers, superclass, encloser and name.
pub const MARKERS_AT: usize = 6;

pub const SUPERCLASS_AT: usize = 8;

pub const ENCLOSER_AT: usize = 10;

pub const NAME_AT: usize = 12;

// Flags of a FIELD.
pub const FINAL: u32 = 0;

pub const TRANSIENT: u32 = 1;

pub const STATIC: u32 = 2;

// Flags of a CLASS; a MEMBER that is allowed has flag 0.
pub const INTERFACE: u32 = 0;

pub const INNER: u32 = 1;

pub const OVERRIDES_EQUALS: u32 = 2;

pub const OVERRIDES_HASH_CODE: u32 = 3;

pub const CALLS_SUPER_EQUALS: u32 = 4;

pub const CALLS_OWN_METHOD: u32 = 5;

pub const CONSTRUCTS_INNER: u32 = 6;

pub const LETS_THIS_OUT: u32 = 7;

pub const ALLOWED: u32 = 8;

pub const MEMBER_ALLOWED: u32 = 0;

// A sheet's longest length, the most classes of both sheets together, and the most records of a group.
pub const SHEET_LIMIT: usize = 32768;

pub const CLASS_LIMIT: usize = 256;

pub const RECORD_LIMIT: usize = 255;

// A verdict in the flat row, and the scratch that a call takes.
pub const VERDICT_BYTES: usize = 3;

pub const SCRATCH_BYTES: usize = 65536;

/// Whether flag number k is set.
pub fn has_flag(flags: u16, k: u32) -> bool
    requires { k < 16 }
    ensures { result ≡ bit k flags }
{
    (flags >> k) % 2 == 1
}

// The little-endian number at i of a slice.
pub fn word_in(bytes: &[u8], i: usize) -> u16
    requires { i + 1 < length bytes.now }
    ensures { result ≡ u16 bytes.now i }
{
    u16::from_le_bytes([bytes[i], bytes[i + 1]])
}

// How many records some bytes are of the kind with that number; 0 for a number that no kind has.
pub fn count_in(bytes: &[u8], kind: u16) -> usize
    requires { AtRecord bytes.now (length bytes.now) 0 }
    ensures { result ≡ length (of_kind kind (between bytes.now 0 (length bytes.now))) }
{
    Records::new(bytes).of_kind(kind)
}

// Where record number i of the kind with that number begins in some bytes; their end if there is none.
pub fn nth_in(bytes: &[u8], kind: u16, i: usize) -> usize
    requires { AtRecord bytes.now (length bytes.now) 0 }
    ensures { result ≡ nth_byte kind i 0 (between bytes.now 0 (length bytes.now)) }
{
    let mut at = 0;
    let mut left = i;
    for record in Records::new(bytes) {
        if record.has_number(kind) {
            if left == 0 {
                return at;
            }
            left -= 1;
        }
        at += record.len();
    }
    at
}

// The length of the whole record that some bytes begin with, if one does.
#[tactic(auto, unfolding(crate::specs::Lengths::whole_length, spec::specs::Sheet::whole_first))]
pub fn whole_length(bytes: &[u8]) -> Option<usize>
    ensures length { result ≡ whole_length bytes.now }
    ensures fits { IfSome result (λ n. (4 ≤ n) × (n ≤ length bytes.now)) }
{
    if bytes.len() < HEAD_BYTES {
        return None;
    }
    let len = usize::from(word_in(bytes, 0));
    if len < HEAD_BYTES || bytes.len() < len {
        return None;
    }
    Some(len)
}
