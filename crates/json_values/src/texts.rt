// JSON strings: of bytes, of bytes folded, and of their hexadecimal digits.
ghost use Rattle.text.specs.Fold.{folded};
ghost use Rattle.json_text.specs.Values.{hexes, quoted};
ghost use Rattle.json_values.specs.Puts.{Puts};

use crate::escapes::is_plain;
use crate::output::Out;
use refusals::Reason;

const QUOTE: u8 = b'"';

impl Out<'_> {
    // Puts bytes as a string: at once what stands as it is.
    pub fn put_quoted(&mut self, bytes: &[u8]) -> Result<(), Reason>
        ensures { Puts (quoted bytes.now) self.old self.new result }
    {
        self.put_byte(QUOTE)?;
        let mut start = 0;
        for (i, &b) in bytes.iter().enumerate() {
            if !is_plain(b) {
                self.put_bytes(&bytes[start..i])?;
                self.put_escape(b)?;
                start = i + 1;
            }
        }
        self.put_bytes(&bytes[start..])?;
        self.put_byte(QUOTE)
    }

    // Puts bytes as a string, each pair of backslashes as one. A turn goes on by a byte or two, so no iterator goes over the places.
    pub(crate) fn put_folded(&mut self, bytes: &[u8]) -> Result<(), Reason>
        ensures { Puts (quoted (folded bytes.now)) self.old self.new result }
    {
        self.put_byte(QUOTE)?;
        let mut start = 0;
        let mut i = 0;
        while i < bytes.len() {
            if is_plain(bytes[i]) {
                i += 1;
            } else {
                self.put_bytes(&bytes[start..i])?;
                self.put_escape(bytes[i])?;
                i += text::width(bytes, i);
                start = i;
            }
        }
        self.put_bytes(&bytes[start..])?;
        self.put_byte(QUOTE)
    }

    // Puts the digits of bytes as a string: none of them is escaped.
    pub(crate) fn put_hexes(&mut self, bytes: &[u8]) -> Result<(), Reason>
        ensures { Puts (quoted (hexes bytes.now)) self.old self.new result }
    {
        self.put_byte(QUOTE)?;
        for &b in bytes {
            self.put_hex(b)?;
        }
        self.put_byte(QUOTE)
    }
}
