// The text of a string's payload: folding its pairs of backslashes, and handing back what to read.
#![tactic(auto)]

ghost use Rattle.std.specs.Prelude.{◌≡◌, ◌≤◌, length, drop};
ghost use Rattle.text.specs.Fold.{folded, width_of, written};
ghost use Rattle.text.specs.Entries.{fold_answer, fold_buffer, text_of};

use refusals::{Reason, Refusal};

const BACKSLASH: u8 = b'\\';

// How many bytes of the payload make the folded byte at `at`: 2 of a pair, 1 otherwise, and 0 behind the end.
pub fn width(payload: &[u8], at: usize) -> usize
    ensures { result ≡ width_of (drop at payload.now) }
{
    if payload.len() <= at {
        return 0;
    }
    match &payload[at..] {
        [BACKSLASH, BACKSLASH, ..] => 2,
        _ => 1,
    }
}

// The length of the folded text. Here and below a turn goes on by a byte or two, so no iterator goes over the places.
fn folded_length(payload: &[u8]) -> usize
    ensures { result ≡ length (folded payload.now) }
{
    let mut at = 0;
    let mut count = 0;
    while at < payload.len() {
        at += width(payload, at);
        count += 1;
    }
    count
}

// Writes the folded text to the front of a work buffer that has room for it.
fn write_folded(payload: &[u8], work: &mut [u8])
    requires { length (folded payload.now) ≤ length work.old }
    ensures { work.new ≡ written (folded payload.now) work.old }
{
    let mut at = 0;
    let mut count = 0;
    while at < payload.len() {
        work[count] = payload[at];
        at += width(payload, at);
        count += 1;
    }
}

// Folds the payload into the front of the work buffer, where it has a pair and the buffer has room: the length of the text.
pub fn fold(payload: &[u8], work: &mut [u8]) -> Result<usize, Refusal>
    ensures answer { result ≡ fold_answer payload.now work.old }
    ensures buffer { work.new ≡ fold_buffer payload.now work.old }
{
    let count = folded_length(payload);
    if count == payload.len() {
        return Ok(count);
    }
    if work.len() < count {
        return Err(Refusal::new(Reason::NoRoom, 0));
    }
    write_folded(payload, work);
    Ok(count)
}

// The text: the payload itself where it has no pair, otherwise the front of the work buffer that it was folded into.
pub fn text<'a>(payload: &'a [u8], work: &'a [u8]) -> &'a [u8]
    ensures { result.now ≡ text_of payload.now work.now }
{
    let count = folded_length(payload);
    if count == payload.len() {
        payload
    } else if count <= work.len() {
        &work[..count]
    } else {
        &[]
    }
}
