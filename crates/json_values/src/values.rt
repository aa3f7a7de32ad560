// The value of a payload by its class: a number, a character, or a text.
ghost use Rattle.std.specs.Prelude.{◌≡◌, ◌≤◌, take};
ghost use Rattle.fields.specs.Field.{number};
ghost use Rattle.json_text.specs.Values.{signed};
ghost use Rattle.json_values.specs.Puts.{Puts};
ghost use Rattle.json_values.specs.Valued.{character, valued};

use crate::output::Out;
use fields::Class;
use refusals::Reason;

// The classes whose value is no text as it stands. They are numbers here, since any byte may be passed for a class.
const INTEGER: u8 = Class::Integer as u8;

const STR: u8 = Class::Str as u8;

const FLOAT: u8 = Class::Float as u8;

const CHAR: u8 = Class::Char as u8;

// The number that at most so many bytes give, the high one first.
fn number_of(bytes: &[u8], most: usize) -> u64
    requires { most ≤ 8 }
    ensures { result ≡ number 0 (take most bytes.now) }
{
    let mut n: u64 = 0;
    for &b in &bytes[..most.min(bytes.len())] {
        n = n * 256 + b as u64;
    }
    n
}

// From here on 64 bits are a number below 0.
const SIGNED: u64 = 0x8000_0000_0000_0000;

impl Out<'_> {
    // Puts 64 bits as a signed number.
    fn put_signed(&mut self, n: u64) -> Result<(), Reason>
        ensures { Puts (signed n) self.old self.new result }
    {
        if n < SIGNED {
            return self.put_decimal(n);
        }
        self.put_byte(b'-')?;
        self.put_decimal(0xFFFF_FFFF_FFFF_FFFF - n + 1)
    }

    // Puts a character as a string, and nothing where the number is no scalar value.
    fn put_character(&mut self, c: u64) -> Result<(), Reason>
        ensures { Puts (character c) self.old self.new result }
    {
        if 0x10FFFF < c {
            return Ok(());
        }
        match char::from_u32(c as u32) {
            Some(sign) => self.put_quoted(sign.encode_utf8(&mut [0; 4]).as_bytes()),
            None => Ok(()),
        }
    }

    // Puts the value of a payload by its class.
    pub fn put_value(&mut self, class: u8, payload: &[u8]) -> Result<(), Reason>
        ensures { Puts (valued class payload.now) self.old self.new result }
    {
        match class {
            INTEGER => self.put_signed(number_of(payload, 8)),
            FLOAT => self.put_hexes(payload),
            CHAR => self.put_character(number_of(payload, 4)),
            STR => self.put_folded(payload),
            _ => self.put_quoted(payload),
        }
    }
}
