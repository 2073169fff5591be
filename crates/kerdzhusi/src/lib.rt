// The C interface: the operations of `verifier` under C names, each answer as two numbers.
#![tactic(auto)]

ghost use Rattle.std.specs.Prelude.{◌≡◌, ◌+◌, ◌≤◌};
ghost use Rattle.spec.specs.Index.{fingerprint};
ghost use Rattle.spec.specs.Promises.{accepted, Judges, Adds, Replaces, Withdraws, Marks, Places, Indexes, Finds};
ghost use Rattle.spec.specs.Verdicts.{flat};
ghost use Rattle.meaning.specs.Canonical.{WritesCanonical};
ghost use Rattle.refusals.specs.Refusals.{answer_in, refusal_of};
ghost use Rattle.queries.specs.Answers.{part_of};
ghost use Rattle.verifier.specs.Answers.{counts_in};
ghost use Rattle.kerdzhusi.specs.Codes.{refusal_code, plain_value, counts_value, part_value, reply_of, Codable, Replies};

use verifier::{Counts, Place, Refusal};

// Status 0 and a value, or the refusal's status and 0.
#[repr(C)]
#[derive(Clone, Copy)]
pub struct Reply {
    pub status: u64,
    pub value: u64,
}

// number | sheet << 8 | byte << 16
#[tactic(auto, unfolding(crate::specs::Codes::refusal_code))]
fn refusal_code(refusal: Refusal) -> u64
    requires { refusal.byte ≤ 32768 }
    ensures { result ≡ refusal_code (refusal_of refusal) }
{
    let number = u64::from(refusal.reason.number());
    let sheet = u64::from(refusal.sheet.number());
    number + 256 * sheet + 65536 * (refusal.byte as u64)
}

// A class's number, a count, a length.
#[tactic(auto, unfolding(crate::specs::Codes::plain_value))]
fn plain_value(number: usize) -> u64
    ensures { result ≡ plain_value number }
{
    number as u64
}

// classes | faulted << 32
#[tactic(auto, unfolding(crate::specs::Codes::counts_value))]
fn counts_value(counts: Counts) -> u64
    requires { (counts.classes ≤ 256) × (counts.faulted ≤ 256) }
    ensures { result ≡ counts_value (counts_in counts) }
{
    counts.classes as u64 + 4294967296 * (counts.faulted as u64)
}

// sheet | start << 8 | length << 32
#[tactic(auto, unfolding(crate::specs::Codes::part_value))]
fn part_value(place: Place) -> u64
    requires { place.start + place.len ≤ 32768 }
    ensures { result ≡ part_value (part_of place) }
{
    let sheet = u64::from(place.sheet.number());
    sheet + 256 * (place.start as u64) + 4294967296 * (place.len as u64)
}

impl Reply {
    // For an answer whose value is its code already.
    #[tactic(auto, unfolding(crate::specs::Codes::plain_value, crate::specs::Codes::reply_of))]
    fn of(answer: Result<u64, Refusal>) -> Reply
        requires { Codable (answer_in (λ n. n) answer) }
        ensures { result ≡ reply_of plain_value (answer_in (λ n. n) answer) }
    {
        match answer {
            Ok(value) => Reply { status: 0, value },
            Err(refusal) => Reply {
                status: refusal_code(refusal),
                value: 0,
            },
        }
    }
}

#[unsafe(no_mangle)]
pub extern "C" fn kz_judge<'a>(
    library: &'a [u8],
    user: &'a [u8],
    used: usize,
    verdicts: &mut [u8],
    scratch: &mut [u8],
) -> Reply
    ensures { Replies counts_value (λ a. Judges flat library.now user.now used
        verdicts.old scratch.old a verdicts.new scratch.new) result }
{
    let answer = verifier::judge(library, user, used, verdicts, scratch);
    Reply::of(answer.map(counts_value))
}

#[unsafe(no_mangle)]
pub extern "C" fn kz_add<'a>(
    library: &'a [u8],
    user: &mut [u8],
    used: &mut usize,
    group: &'a [u8],
    verdicts: &mut [u8],
    scratch: &mut [u8],
) -> Reply
    ensures { Replies plain_value (λ a. Adds flat library.now group.now
        (record { user = user.old; used = used.old; verdicts = verdicts.old })
        scratch.old a (record { user = user.new; used = used.new; verdicts = verdicts.new }) scratch.new) result }
{
    let answer = verifier::add(library, user, used, group, verdicts, scratch);
    Reply::of(answer.map(plain_value))
}

#[unsafe(no_mangle)]
pub extern "C" fn kz_replace<'a>(
    library: &'a [u8],
    user: &mut [u8],
    used: &mut usize,
    class: usize,
    group: &'a [u8],
    verdicts: &mut [u8],
    scratch: &mut [u8],
) -> Reply
    ensures { Replies plain_value (λ a. Replaces flat library.now class group.now
        (record { user = user.old; used = used.old; verdicts = verdicts.old })
        scratch.old a (record { user = user.new; used = used.new; verdicts = verdicts.new }) scratch.new) result }
{
    let answer = verifier::replace(library, user, used, class, group, verdicts, scratch);
    Reply::of(answer.map(plain_value))
}

#[unsafe(no_mangle)]
pub extern "C" fn kz_withdraw<'a>(
    library: &'a [u8],
    user: &mut [u8],
    used: &mut usize,
    verdicts: &mut [u8],
) -> Reply
    ensures { Replies plain_value (λ a. Withdraws flat library.now
        (record { user = user.old; used = used.old; verdicts = verdicts.old }) a
        (record { user = user.new; used = used.new; verdicts = verdicts.new })) result }
{
    let answer = verifier::withdraw(library, user, used, verdicts);
    Reply::of(answer.map(plain_value))
}

#[unsafe(no_mangle)]
pub extern "C" fn kz_name<'a>(library: &'a [u8], user: &'a [u8], used: usize, class: usize) -> Reply
    ensures { Replies part_value (λ a. Places library.now user.now used class a) result }
{
    let answer = verifier::name_place(library, user, used, class);
    Reply::of(answer.map(part_value))
}

#[unsafe(no_mangle)]
pub extern "C" fn kz_marks<'a>(
    library: &'a [u8],
    user: &'a [u8],
    used: usize,
    class: usize,
) -> Reply
    ensures { Replies plain_value (λ a. Marks library.now user.now used class a) result }
{
    let answer = verifier::marks(library, user, used, class);
    Reply::of(answer.map(u64::from))
}

#[unsafe(no_mangle)]
pub extern "C" fn kz_canonical<'a>(
    library: &'a [u8],
    user: &'a [u8],
    used: usize,
    out: &mut [u8],
) -> Reply
    ensures { Replies plain_value (λ a. WritesCanonical library.now user.now used out.old a out.new) result }
{
    let answer = verifier::canonical(library, user, used, out);
    Reply::of(answer.map(plain_value))
}

#[unsafe(no_mangle)]
pub extern "C" fn kz_index<'a>(
    library: &'a [u8],
    user: &'a [u8],
    used: usize,
    places: &mut [u16],
) -> Reply
    ensures { Replies plain_value (λ a. Indexes library.now user.now used places.old a places.new) result }
{
    let answer = verifier::index(library, user, used, places);
    Reply::of(answer.map(plain_value))
}

#[unsafe(no_mangle)]
pub extern "C" fn kz_lookup<'a>(
    library: &'a [u8],
    user: &'a [u8],
    used: usize,
    name: &'a [u8],
    places: &mut [u16],
) -> Reply
    ensures { Replies plain_value (λ a. Finds library.now user.now used name.now places.old a places.new) result }
{
    let answer = verifier::lookup(library, user, used, name, places);
    Reply::of(answer.map(plain_value))
}

#[unsafe(no_mangle)]
pub extern "C" fn kz_fingerprint<'a>(name: &'a [u8]) -> Reply
    ensures { result ≡ reply_of plain_value (accepted (fingerprint name.now)) }
{
    let print = verifier::fingerprint(name);
    Reply::of(Ok(u64::from(print)))
}
