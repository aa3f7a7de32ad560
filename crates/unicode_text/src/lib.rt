// Unicode: which numbers are scalar values, and which bytes are well-formed UTF-8.
#![tactic(auto)]

ghost use Rattle.std.specs.Prelude.{◌≡◌, [], ◌∷◌, ◌-◌, cond, ◌≤◌, drop, replicate};
ghost use Rattle.unicode_text.specs.Unicode.{scalar, ◌to◌, tail, begins, first, table, well_formed};

// The bytes behind the first of a sequence, where nothing else is said of them.
const LOW: u8 = 0x80;

const HIGH: u8 = 0xBF;

// Whether a number is a Unicode scalar value.
#[tactic(auto, using(crate::proofs::Values::scalars))]
pub fn is_scalar(n: u32) -> bool
    ensures { result ≡ scalar n }
{
    matches!(n, 0..=0xD7FF | 0xE000..=0x10FFFF)
}

// Whether a byte of a part lies in a range.
#[tactic(auto, using(crate::proofs::Parts::missing, crate::proofs::Parts::there, std::proofs::lemmas::Grind::common_steps))]
fn has(part: &[u8], at: usize, low: u8, high: u8) -> bool
    ensures { result ≡ begins (low to high ∷ []) (drop at part.now) }
{
    part.get(at).is_some_and(|&b| low <= b && b <= high)
}

// N where a second byte in a range and then bytes of a tail follow the first; 0 otherwise.
#[tactic(auto, using(crate::proofs::Parts::behind))]
fn sequence<const N: usize>(part: &[u8], low: u8, high: u8) -> usize
    requires { 2 ≤ N }
    ensures { result ≡ cond (begins (low to high ∷ replicate (N - 2) tail) (drop 1 part.now)) N 0 }
{
    if !has(part, 1, low, high) {
        return 0;
    }
    for at in 2..N {
        if !has(part, at, LOW, HIGH) {
            return 0;
        }
    }
    N
}

// The width of a sequence that a byte from E0 to EF leads.
#[tactic(auto, using(crate::proofs::Leads::rows))]
fn led_by_e(part: &[u8], lead: u8) -> usize
    requires { (0xE0 ≤ lead) × (lead ≤ 0xEF) }
    ensures { result ≡ first table (lead ∷ drop 1 part.now) }
{
    match lead {
        0xE0 => sequence::<3>(part, 0xA0, HIGH),
        0xED => sequence::<3>(part, LOW, 0x9F),
        _ => sequence::<3>(part, LOW, HIGH),
    }
}

// The width of a sequence that a byte from F0 to F4 leads.
#[tactic(auto, using(crate::proofs::Leads::rows))]
fn led_by_f(part: &[u8], lead: u8) -> usize
    requires { (0xF0 ≤ lead) × (lead ≤ 0xF4) }
    ensures { result ≡ first table (lead ∷ drop 1 part.now) }
{
    match lead {
        0xF0 => sequence::<4>(part, 0x90, HIGH),
        0xF4 => sequence::<4>(part, LOW, 0x8F),
        _ => sequence::<4>(part, LOW, HIGH),
    }
}

// How many bytes the first sequence of a part takes, 0 where no row of the table fits.
// Not an arm for each row: that was a jump by a table, with 12.0 instructions for a character of one byte and not 7.0.
#[tactic(auto, using(crate::proofs::Leads::rows))]
fn width(part: &[u8]) -> usize
    ensures { result ≡ first table part.now }
{
    let Some(&lead) = part.first() else {
        return 0;
    };
    match lead {
        0x00..=0x7F => 1,
        0xC2..=0xDF => sequence::<2>(part, LOW, HIGH),
        0xE0..=0xEF => led_by_e(part, lead),
        0xF0..=0xF4 => led_by_f(part, lead),
        _ => 0,
    }
}

// Whether bytes are well-formed UTF-8.
pub fn is_well_formed(bytes: &[u8]) -> bool
    ensures { result ≡ well_formed bytes.now }
{
    let mut at = 0;
    // Not a `for`: each turn is as long as its sequence.
    while at < bytes.len() {
        let n = width(&bytes[at..]);
        if n == 0 {
            return false;
        }
        at += n;
    }
    true
}
