// A lent slice that is filled from the front, or from a place: bytes, and a number's digits, put behind what is there.
ghost use Rattle.std.specs.Prelude.{◌≡◌, [], ◌∷◌, length};
ghost use Rattle.lines.specs.Decimal.{decimal};
ghost use Rattle.json_values.specs.Puts.{Puts, Begins, BeginsAt};

use lines::DIGITS;
use refusals::Reason;

// Copies bytes over a slice: by a loop, of which the compiler makes no call of `memmove`, which whoever links the archive would have to bring.
#[inline(always)]
fn copy(to: &mut [u8], bytes: &[u8])
    requires { length to.old ≡ length bytes.now }
    ensures { to.new ≡ bytes.now }
{
    for i in 0..bytes.len() {
        to[i] = bytes[i];
    }
}

// The slice, and the place for its next byte, which is anywhere.
#[derive(Drop)]
pub struct Out<'a> {
    bytes: &'a mut [u8],
    at: usize,
}

impl<'a> Out<'a> {
    // Begins at the front of a slice.
    pub fn new(bytes: &'a mut [u8]) -> Out<'a>
        ensures { Begins bytes.entry result }
    {
        Out { bytes, at: 0 }
    }

    // Begins at a place of a slice. It may lie behind the end: there is room for no byte then.
    pub fn begin_at(bytes: &'a mut [u8], at: usize) -> Out<'a>
        ensures { BeginsAt bytes.entry at result }
    {
        Out { bytes, at }
    }

    // The place for the next byte: of a slice that was begun at the front, how many have been put.
    pub fn place(&self) -> usize
        ensures { result ≡ self.now.at }
    {
        self.at
    }

    // Puts a byte; none where there is no room.
    pub fn put_byte(&mut self, b: u8) -> Result<(), Reason>
        ensures { Puts (b ∷ []) self.old self.new result }
    {
        if self.bytes.len() <= self.at {
            return Err(Reason::TooShort);
        }
        self.bytes[self.at] = b;
        self.at += 1;
        Ok(())
    }

    // Puts bytes, as many as there is room for: at once where that is all of them.
    #[inline(always)]
    pub fn put_bytes(&mut self, bytes: &[u8]) -> Result<(), Reason>
        ensures { Puts bytes.now self.old self.new result }
    {
        if bytes.len() == 0 {
            return Ok(());
        }
        if self.at <= self.bytes.len() && bytes.len() <= self.bytes.len() - self.at {
            let end = self.at + bytes.len();
            copy(&mut self.bytes[self.at..end], bytes);
            self.at = end;
            return Ok(());
        }
        for &b in bytes {
            self.put_byte(b)?;
        }
        Ok(())
    }

    // Puts the decimal digits of a number.
    pub fn put_decimal(&mut self, n: u64) -> Result<(), Reason>
        ensures { Puts (decimal n) self.old self.new result }
    {
        let mut digits: [u8; DIGITS] = [0; DIGITS];
        let count = lines::number(n, &mut digits);
        self.put_bytes(&digits[..count])
    }
}
