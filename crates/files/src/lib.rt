// Token files: the fields of a file are read into a lent buffer of token words.
#![tactic(auto)]

ghost use Rattle.std.specs.Prelude.{◌≡◌, List, ◌++◌, ℕ, length, drop};
ghost use Rattle.files.specs.File.{read};
ghost use Rattle.files.specs.Entry.{content, file_answer, file_buffer};

use refusals::{Reason, Refusal};

// The most bytes of a file.
pub const MOST: usize = 60000;

// Reads the fields in order, their words into the front of the buffer as far as it goes: how many there are.
fn fill(bytes: &[u8], words: &mut [u16]) -> Result<usize, Refusal>
    ensures answer { result ≡ file_answer bytes.now (length words.old) }
    ensures front { (ws : List ℕ) → content bytes.now (length words.old) ≡ read ws
        → words.new ≡ ws ++ drop (length ws) words.old }
{
    if MOST < bytes.len() {
        return Err(Refusal::new(Reason::TooLong, 0));
    }
    // A turn goes on by the field's width, so no iterator goes over the places.
    let mut at = 0;
    let mut count = 0;
    while at < bytes.len() {
        let found = fields::first_field(&bytes[at..]);
        let field = found.map_err(|reason| Refusal::new(reason, count))?;
        if count < words.len() {
            words[count] = field.word;
        }
        at += field.width;
        count += 1;
    }
    if words.len() < count {
        return Err(Refusal::new(Reason::NoRoom, 0));
    }
    Ok(count)
}

// Reads a file into a buffer of token words, and how many fields it has: the words in front, zeros behind; all zeros after a refusal.
pub fn read(bytes: &[u8], words: &mut [u16]) -> Result<usize, Refusal>
    ensures answer { result ≡ file_answer bytes.now (length words.old) }
    ensures buffer { words.new ≡ file_buffer bytes.now (length words.old) }
{
    let answer = fill(bytes, words);
    let count = match answer {
        Ok(count) => count,
        Err(_) => 0,
    };
    words[count..].fill(0);
    answer
}
