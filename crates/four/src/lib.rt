// An answer as four words at the front of a slice, a refusal by its number, whatever number that is.
#![tactic(auto)]

ghost use Rattle.std.specs.Prelude.{◌≡◌, [], ◌∷◌};
ghost use Rattle.refusals.specs.Refusal.{counted};
ghost use Rattle.answer.specs.Answer.{numbers};
ghost use Rattle.four.specs.Answers.{over, checked_words, text_words};

use answer::Accepted;
use refusals::ByNumber;

// Writes four words into the front of a slice, as far as it goes.
pub fn put(words: &mut [u64], first: u32, second: usize, third: usize, fourth: usize)
    ensures { words.new ≡ over (first ∷ second ∷ third ∷ fourth ∷ []) words.old }
{
    let numbers = [first as u64, second as u64, third as u64, fourth as u64];
    let room = words.len().min(numbers.len());
    words[..room].copy_from_slice(&numbers[..room]);
}

// Writes an answer that counts something: the fields of a file, the bytes of a text, the tokens of a tree.
pub fn put_count(words: &mut [u64], outcome: Result<usize, ByNumber>)
    ensures { words.new ≡ over (counted outcome) words.old }
{
    match outcome {
        Ok(count) => put(words, 0, count, 0, 0),
        Err(refusal) => put(words, refusal.number(), refusal.place(), 0, 0),
    }
}

// Writes what a check answers.
pub fn put_checked(words: &mut [u64], checked: Result<(), ByNumber>)
    ensures { words.new ≡ over (checked_words checked) words.old }
{
    match checked {
        Ok(()) => put(words, 0, 0, 0, 0),
        Err(refusal) => put(words, refusal.number(), refusal.place(), 0, 0),
    }
}

// Writes what an entry answers.
pub fn put_answer(words: &mut [u64], outcome: Result<Accepted, ByNumber>)
    ensures { words.new ≡ over (numbers outcome) words.old }
{
    match outcome {
        Ok(Accepted { root, rows, place }) => put(words, 0, root as usize, rows, place),
        Err(refusal) => put(words, refusal.number(), refusal.place(), 0, 0),
    }
}

// Writes where the text of a string is, and how long.
pub fn put_text<'a>(words: &mut [u64], payload: &'a [u8], work: &'a [u8])
    ensures { words.new ≡ over (text_words payload.now work.now) words.old }
{
    let text = text::text(payload, work);
    let is_work = text.len() != payload.len();
    put(words, 0, text.len(), is_work as usize, 0);
}
