// What a piece of a row's form gives.
ghost use Rattle.std.specs.Prelude.{◌≡◌, ◌≤◌, ◌<◌, cond, [], ◌∷◌, eqb, get_or};
ghost use Rattle.tokens.specs.Tokens.{word};
ghost use Rattle.written.specs.Written.{bool_signs, infix_signs, prefix_signs, suffix_signs};
ghost use Rattle.writer.specs.Codes.{decoded};
ghost use Rattle.writer.specs.Walk.{does, done};

use crate::forms;
use tokens::{Keyword, Symbol, Token};

// What a piece does: a token is written with a place, nothing is written, or a word of the row leads to a slot.
#[derive(Clone, Copy, Debug, PartialEq, Eq)]
pub enum Act {
    Put(Token, u32),
    Skip,
    Slot(usize),
}

// The sign of a bool by its mark.
fn bool_sign(mark: usize) -> Token
    ensures { word result ≡ get_or bool_signs mark 0 }
{
    match mark {
        0 => Token::Keyword(Keyword::KFalse),
        1 => Token::Keyword(Keyword::KTrue),
        _ => Token::Invalid,
    }
}

// The sign of a suffix by its mark.
fn suffix_sign(mark: usize) -> Token
    ensures { word result ≡ get_or suffix_signs mark 0 }
{
    match mark {
        0 => Token::Operator(Symbol::SIncr),
        1 => Token::Operator(Symbol::SDecr),
        _ => Token::Invalid,
    }
}

// The sign of a prefix by its mark.
fn prefix_sign(mark: usize) -> Token
    ensures { word result ≡ get_or prefix_signs mark 0 }
{
    match mark {
        0 => Token::Operator(Symbol::SIncr),
        1 => Token::Operator(Symbol::SDecr),
        2 => Token::Operator(Symbol::SExcl),
        3 => Token::Operator(Symbol::SNeg),
        _ => Token::Invalid,
    }
}

// The sign of an infix operator by its mark.
#[tactic(auto, unfolding(written::specs::Written::infix_signs))]
fn infix_sign(mark: usize) -> Token
    ensures { word result ≡ get_or infix_signs mark 0 }
{
    Token::Operator(match mark {
        0 => Symbol::SPlus,
        1 => Symbol::SMinus,
        2 => Symbol::SMul,
        3 => Symbol::SDiv,
        4 => Symbol::SMod,
        5 => Symbol::SAnd,
        6 => Symbol::SOr,
        7 => Symbol::SEq,
        8 => Symbol::SEeq,
        9 => Symbol::SNe,
        10 => Symbol::SGte,
        11 => Symbol::SGt,
        12 => Symbol::SLte,
        13 => Symbol::SLt,
        14 => Symbol::SLOr,
        15 => Symbol::SLAnd,
        16 => Symbol::SPlusEq,
        17 => Symbol::SMinusEq,
        18 => Symbol::SMulEq,
        19 => Symbol::SDivEq,
        20 => Symbol::SAndEq,
        21 => Symbol::SOrEq,
        22 => Symbol::SModEq,
        _ => return Token::Invalid,
    })
}

// A piece that is there in each row of its kind: the payload, or the sign for the mark.
fn always(pool: &[u32], r: usize, b: u8) -> Act
    requires { (0 < b) × (b < 10) }
    ensures { done result ≡ does pool.now r (decoded b) }
{
    let mark = (rows::word(pool, r, rows::MARK) % 256) as usize;
    match b {
        1 => Act::Put(bool_sign(mark), 0),
        2 => Act::Put(infix_sign(mark), 0),
        8 => Act::Put(prefix_sign(mark), 0),
        9 => Act::Put(suffix_sign(mark), 0),
        _ => Act::Put(
            tokens::token_of(b as u16 * 256),
            rows::word(pool, r, rows::PLACE),
        ),
    }
}

// A sign where a number isn't 0.
fn where_some(x: u32, t: Token) -> Act
    ensures { done result ≡ (cond (eqb x 0) [] ((word t, 0) ∷ []), 0) }
{
    if x == 0 { Act::Skip } else { Act::Put(t, 0) }
}

// A sign that is there where the mark has a flag, or where a slot holds something.
fn sometimes(pool: &[u32], r: usize, b: u8) -> Act
    requires { (10 ≤ b) × (b < 16) }
    ensures { done result ≡ does pool.now r (decoded b) }
{
    let mark = rows::word(pool, r, rows::MARK);
    match b {
        10 => where_some(mark % 2, Token::Keyword(Keyword::KThread)),
        11 => where_some(mark / 2 % 2, Token::Keyword(Keyword::KAsync)),
        12 => where_some(mark % 2, Token::Operator(Symbol::SDot)),
        13 => where_some(
            rows::word(pool, r, rows::CHILD),
            Token::Operator(Symbol::SEq),
        ),
        14 => where_some(
            rows::word(pool, r, rows::CHILD + 2),
            Token::Keyword(Keyword::KElse),
        ),
        _ => where_some(
            rows::word(pool, r, rows::CHILD + 3),
            Token::Keyword(Keyword::KFinally),
        ),
    }
}

// What the piece with a number does in a row.
#[tactic(auto, using(crate::proofs::Spelling::sign_done, crate::proofs::Spelling::slot_done))]
pub fn piece(pool: &[u32], r: usize, b: u8) -> Act
    requires { 0 < b }
    ensures { done result ≡ does pool.now r (decoded b) }
{
    match b {
        0..10 => always(pool, r, b),
        10..16 => sometimes(pool, r, b),
        16..64 => Act::Slot(forms::word_for(b)),
        64.. => Act::Put(forms::sign(b), 0),
    }
}
