// Numbers as they stand in a stream, with their low byte first.
ghost use Rattle.std.specs.Prelude.{◌≡◌, ℕ, List, IsTrue, ◌↔◌, EachIndex, length, get_or};
ghost use Rattle.recorded.specs.Numbers.{byte, half, word, Holds};

// A number that stands in a stream.
pub trait Number: Copy + PartialEq {
    ghost at: { List ℕ → ℕ → Self };

    // The number with this index, where numbers of this type stand one behind the other; 0 behind the last.
    fn at(bytes: &[u8], i: usize) -> Self
        ensures { result ≡ at bytes.now i };
}

impl Number for u8 {
    ghost at = { byte };

    fn at(bytes: &[u8], i: usize) -> u8 {
        if i < bytes.len() { bytes[i] } else { 0 }
    }
}

impl Number for u16 {
    ghost at = { half };

    fn at(bytes: &[u8], i: usize) -> u16 {
        if i < bytes.len() / 2 {
            u16::from_le_bytes([bytes[2 * i], bytes[2 * i + 1]])
        } else {
            0
        }
    }
}

impl Number for u32 {
    ghost at = { word };

    fn at(bytes: &[u8], i: usize) -> u32 {
        if i < bytes.len() / 4 {
            u32::from_le_bytes([
                bytes[4 * i],
                bytes[4 * i + 1],
                bytes[4 * i + 2],
                bytes[4 * i + 3],
            ])
        } else {
            0
        }
    }
}

// Fills a slice with the numbers of the bytes, and with zeros behind them.
pub fn fill<T: Number>(slice: &mut [T], bytes: &[u8])
    ensures long { length slice.new ≡ length slice.old }
    ensures each { EachIndex slice.new (λ i. get_or slice.new i (T.at bytes.now i) ≡ T.at bytes.now i) }
{
    for (i, number) in slice.iter_mut().enumerate() {
        *number = T::at(bytes, i);
    }
}

// Whether a slice has the numbers of the bytes, and zeros behind them.
pub fn holds<T: Number>(slice: &[T], bytes: &[u8]) -> bool
    ensures { IsTrue result ↔ Holds T.eq (T.at bytes.now) slice.now }
{
    for (i, number) in slice.iter().enumerate() {
        if *number != T::at(bytes, i) {
            return false;
        }
    }
    true
}
