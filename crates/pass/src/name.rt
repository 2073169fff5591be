ghost use Rattle.std.specs.Prelude.{◌≡◌};
ghost use Rattle.spec.specs.Record.{name_fits};

// In each of eight bytes: the highest bit, 1, and 160.
const TOPS: u64 = 0x8080808080808080;

const ONES: u64 = 0x0101010101010101;

const LIMITS: u64 = 0xa0a0a0a0a0a0a0a0;

// Whether eight bytes may all stand in a name: none is over 127, none is 127, none is under 33. A byte that breaks the rule has its highest bit set in
// the number that is tested, and no other has.
fn eight_fit(bytes: &[u8; 8]) -> bool
    ensures { result ≡ name_fits bytes.now }
{
    let word = u64::from_le_bytes(*bytes);
    if word & TOPS != 0 {
        return false;
    }
    (word + ONES) & TOPS == 0 && (LIMITS - word) & TOPS == 0
}

/// Whether bytes may all stand in a name, eight at a time. Some of the last ones may be tested twice.
#[inline(never)]
pub(crate) fn name_fits(name: &[u8]) -> bool
    ensures { result ≡ name_fits name.now }
{
    if let Some(last) = name.last_chunk::<8>() {
        let (chunks, _) = name.as_chunks::<8>();
        return chunks.iter().all(eight_fit) && eight_fit(last);
    }
    if let (Some(first), Some(last)) = (name.first_chunk::<4>(), name.last_chunk::<4>()) {
        let [a, b, c, d] = *first;
        let [e, f, g, h] = *last;
        return eight_fit(&[a, b, c, d, e, f, g, h]);
    }
    name.iter().all(|byte| matches!(*byte, 33..=126))
}
