// A byte of a JSON string: escaped where it must be, or as two hexadecimal digits.
ghost use Rattle.std.specs.Prelude.{◌≡◌, [], ◌∷◌, ◌++◌, ◌/◌, ◌%◌, ◌<◌, IsTrue};
ghost use Rattle.lines.specs.Lines.{letters};
ghost use Rattle.json_text.specs.Values.{hex, escape};
ghost use Rattle.json_values.specs.Puts.{Puts};

use crate::output::Out;
use refusals::Reason;

const BACKSLASH: u8 = b'\\';

// A hexadecimal digit, A to F in capitals.
fn digit(d: u8) -> u8
    requires { d < 16 }
    ensures { result ≡ hex d }
{
    match d {
        0..=9 => b'0' + d,
        _ => b'A' - 10 + d,
    }
}

// Whether a byte of a string stands as it is.
#[tactic(auto, using(crate::proofs::Plain::plain))]
pub fn is_plain(b: u8) -> bool
    ensures { IsTrue result → escape b ≡ b ∷ [] }
{
    !matches!(b, 0..0x20 | b'"' | BACKSLASH)
}

impl Out<'_> {
    // Puts the two digits of a byte.
    pub(crate) fn put_hex(&mut self, b: u8) -> Result<(), Reason>
        ensures { Puts (hex (b / 16) ∷ hex (b % 16) ∷ []) self.old self.new result }
    {
        self.put_byte(digit(b / 16))?;
        self.put_byte(digit(b % 16))
    }

    // Puts a backslash and a letter. It stands alone, as `put_long` does, which keeps `put_escape` short.
    #[inline(never)]
    fn put_short(&mut self, letter: u8) -> Result<(), Reason>
        ensures { Puts (0x5C ∷ letter ∷ []) self.old self.new result }
    {
        self.put_byte(BACKSLASH)?;
        self.put_byte(letter)
    }

    // Puts the escape of a byte by its number.
    #[inline(never)]
    fn put_long(&mut self, b: u8) -> Result<(), Reason>
        ensures { Puts (letters "\\u00" ++ (hex (b / 16) ∷ hex (b % 16) ∷ [])) self.old self.new result }
    {
        self.put_bytes(b"\\u00")?;
        self.put_hex(b)
    }

    // Puts a control character of a string: in the short form where it has one.
    fn put_control(&mut self, b: u8) -> Result<(), Reason>
        requires { b < 0x20 }
        ensures { Puts (escape b) self.old self.new result }
    {
        match b {
            0x08 => self.put_short(b'b'),
            0x09 => self.put_short(b't'),
            0x0A => self.put_short(b'n'),
            0x0C => self.put_short(b'f'),
            0x0D => self.put_short(b'r'),
            _ => self.put_long(b),
        }
    }

    // Puts a byte of a string.
    pub(crate) fn put_escape(&mut self, b: u8) -> Result<(), Reason>
        ensures { Puts (escape b) self.old self.new result }
    {
        match b {
            0..0x20 => self.put_control(b),
            b'"' | BACKSLASH => self.put_short(b),
            _ => self.put_byte(b),
        }
    }
}
