// The steps of the writer: from a row and one of its pieces to the next.
ghost use Rattle.std.specs.Prelude.{◌≡◌, ◌<◌, drop};
ghost use Rattle.writer.specs.Codes.{shape};
ghost use Rattle.writer.specs.Walk as w;

use crate::pieces::Act;
use crate::{forms, pieces};
use tokens::{Symbol, Token};

// The piece behind all others of a row: it and its list are written, and the way goes up.
const UPWARD: usize = 9;

// A step: a token that is written with a place, or none; and the row and the piece that come then. With row 0 all is written.
#[derive(Clone, Copy, Debug, PartialEq, Eq)]
pub enum Move {
    Put(Token, u32, usize, usize),
    Go(usize, usize),
}

// The kind by whose form a row is written: 0 for a root block.
#[tactic(auto, unfolding(crate::specs::Walk::shown))]
fn shown(pool: &[u32], root: usize, r: usize) -> usize
    ensures { result ≡ w.shown pool.now root r }
{
    let kind = rows::word(pool, r, rows::KIND) as usize;
    if r == root && kind == 46 { 0 } else { kind }
}

// A slot: down to its first row, or on where it is empty.
#[tactic(auto, unfolding(crate::specs::Walk::into))]
fn into(pool: &[u32], r: usize, j: usize, k: usize) -> Move
    requires { j < 100 }
    ensures { w.moved result ≡ w.into pool.now r j k }
{
    let c = rows::word(pool, r, k) as usize;
    if c == 0 {
        Move::Go(r, j + 1)
    } else {
        Move::Go(c, 0)
    }
}

// The end of a row: on to the next of its list, with the sign between, or up.
#[tactic(auto, unfolding(crate::specs::Walk::along, crate::specs::Walk::between))]
fn along(pool: &[u32], r: usize) -> Move
    ensures { w.moved result ≡ w.along pool.now r }
{
    let n = rows::word(pool, r, rows::NEXT) as usize;
    if n == 0 {
        return Move::Go(r, UPWARD);
    }
    let kind = rows::word(pool, r, rows::KIND);
    if kind == 18 {
        Move::Put(Token::Operator(Symbol::SDot), 0, n, 0)
    } else if kind < 20 {
        Move::Put(Token::Operator(Symbol::SComma), 0, n, 0)
    } else {
        Move::Go(n, 0)
    }
}

// Up from a row by its link: EOF behind the root, back in a list, or behind the slot in which its list stands.
#[tactic(auto, unfolding(crate::specs::Walk::up))]
#[inline(always)]
fn up(pool: &[u32], root: usize, owner: usize, word: usize) -> Move
    ensures { w.moved result ≡ w.up pool.now root owner word }
{
    match word {
        1 => Move::Put(Token::EOF, 0, 0, 0),
        rows::NEXT => Move::Go(owner, UPWARD),
        _ => Move::Go(owner, forms::behind(shown(pool, root, owner), word)),
    }
}

// What comes after a piece of a row.
#[tactic(auto, using(crate::proofs::Spelling::after_slot, crate::proofs::Spelling::after_last))]
#[inline(always)]
fn onward(pool: &[u32], root: usize, r: usize, j: usize) -> Move
    requires { j < 100 }
    ensures { w.moved result ≡ w.onward pool.now r j (drop j (shape (w.shown pool.now root r))) }
{
    let b = forms::piece_at(shown(pool, root, r), j);
    if b == 0 {
        return along(pool, r);
    }
    match pieces::piece(pool, r, b) {
        Act::Put(t, place) => Move::Put(t, place, r, j + 1),
        Act::Skip => Move::Go(r, j + 1),
        Act::Slot(k) => into(pool, r, j, k),
    }
}

// One step from a piece of a row, which a word of its owner leads to.
#[inline(always)]
pub fn next_move(pool: &[u32], root: usize, r: usize, j: usize, owner: usize, word: usize) -> Move
    requires { j < 100 }
    ensures { w.moved result ≡ w.move pool.now root r j owner word }
{
    if j == UPWARD {
        up(pool, root, owner, word)
    } else {
        onward(pool, root, r, j)
    }
}
