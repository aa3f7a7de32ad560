// What readers and entries answer, and what an entry does before and after reading.
#![tactic(auto)]

ghost use Rattle.std.specs.Prelude.{◌≡◌, ltb, length};
ghost use Rattle.grammar.specs.Parsed.{need, BadStart};
ghost use Rattle.answer.specs.Answer.{accepted, checks, start_of, ended, ended_pool};

use refusals::{Reason, Refusal};
use words::Cursor;

// What a reader read: how many rows of its part it has filled, the reference of what it read (of a list its first, 0 for none) and the next cursor.
#[derive(Clone, Copy, Debug, PartialEq, Eq)]
pub struct Piece {
    pub rows: usize,
    pub head: u32,
    pub next: Cursor,
}

// What a reader answers.
pub type Read = Result<Piece, Refusal>;

// What an entry accepted: the root's reference, the rows used and the current place.
#[derive(Clone, Copy, Debug, PartialEq, Eq)]
pub struct Accepted {
    pub root: u32,
    pub rows: usize,
    pub place: usize,
}

// What an entry answers.
pub type Answer = Result<Accepted, Refusal>;

impl From<Piece> for Accepted {
    ghost from_gives = { λ t a. a ≡ accepted t.head t.rows t.next };

    fn from(t: Piece) -> Accepted {
        Accepted {
            root: t.head,
            rows: t.rows,
            place: t.next,
        }
    }
}

// The check of a start place.
fn of_place(tokens: &[u16], start: usize) -> Result<Cursor, Refusal>
    ensures { result ≡ start_of (need (ltb start (length tokens.now)) BadStart 0) start }
{
    if tokens.len() <= start {
        return Err(Refusal::new(Reason::BadStart, 0));
    }
    Ok(start)
}

// The check of an array and then that of a start place, where reading starts.
pub fn check(tokens: &[u16], start: usize) -> Result<Cursor, Refusal>
    ensures { result ≡ start_of (checks tokens.now start) start }
{
    words::check(tokens)?;
    of_place(tokens, start)
}

// The answer to what was read, with the pool zero again after a refusal, of whatever type that is: it is handed on.
pub fn finish<E>(pool: &mut [u32], r: Result<Piece, E>) -> Result<Accepted, E>
    ensures { (result ≡ ended r) × (pool.new ≡ ended_pool r pool.old) }
{
    match r {
        Ok(t) => Ok(Accepted::from(t)),
        Err(refusal) => {
            rows::clear(pool);
            Err(refusal)
        }
    }
}
