// The check of an array of token words.
ghost use Rattle.std.specs.Prelude.{◌≡◌, Err};
ghost use Rattle.grammar.specs.Script.{array_good};
ghost use Rattle.grammar.specs.Parsed.{BadArray};
ghost use Rattle.refusals.specs.Refusal.{refusal, checked};

use crate::places::EOF;
use refusals::{Reason, Refusal};
use tokens::is_valid;

// The refusal of a place.
fn bad(place: usize) -> Result<(), Refusal>
    ensures { result ≡ Err (refusal BadArray place) }
{
    Err(Refusal::new(Reason::BadArray, place))
}

// The most tokens of an array.
const LONGEST: usize = 32768;

// An array of 1 to 32,768 valid words with EOF last and nowhere else is good; another is refused at the first that is not.
pub fn check(tokens: &[u16]) -> Result<(), Refusal>
    ensures { result ≡ checked (array_good tokens.now) tt }
{
    if tokens.is_empty() || LONGEST < tokens.len() {
        return bad(0);
    }
    let last = tokens.len() - 1;
    for (at, &word) in tokens[..last].iter().enumerate() {
        if word == EOF || !is_valid(word) {
            return bad(at);
        }
    }
    if tokens[last] == EOF {
        Ok(())
    } else {
        bad(last)
    }
}
