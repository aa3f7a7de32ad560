// The rows that readers end with. A part of the pool and how many rows come before it stay two parameters: in a struct, each call would lend a `&mut`
// behind a `&mut`.
ghost use Rattle.std.specs.Prelude.{◌≡◌, ℕ, ◌+◌, ◌*◌, ◌≤◌, ◌<◌, cond, not, ◌&&◌, List, eqb, length};
ghost use Rattle.grammar.specs.Words.{SRparen, next_is};
ghost use Rattle.grammar.specs.Tree.{width};
ghost use Rattle.grammar.specs.Tree as tree;
ghost use Rattle.grammar.specs.Parsed.{build};
ghost use Rattle.grammar.specs.Script.{largest};
ghost use Rattle.refusals.specs.Reasons.{number};
ghost use Rattle.tokens.specs.Tokens.{word};
ghost use Rattle.tokens.specs.declared.Token.TheVariants as token;
ghost use Rattle.answer.specs.Answer.{piece};
ghost use Rattle.reader.specs.Kinds.{code};
ghost use Rattle.reader.specs.Meets.{Ready, one};
ghost use Rattle.reader.specs.Promises.{Fresh, Follows, Ends};
ghost use Rattle.reader.specs.Promises as contract;

use super::kind::Kind;
use answer::{Piece, Read};
use refusals::{Reason, Refusal};
use rows::Row;
use tokens::Symbol;
use words::Cursor;

// Nothing read so far, at a cursor.
pub fn nothing(c: Cursor) -> Piece
    ensures { result ≡ piece 0 0 c }
{
    Piece {
        rows: 0,
        head: 0,
        next: c,
    }
}

// A row behind the first `rows` rows of a part, before which the pool has `first` rows. It ends at the current token.
// The words of the row stay parameters: as a struct they would be a literal of as many lines at each call.
pub fn put_row(
    pool: &mut [u32],
    first: usize,
    rows: usize,
    c: Cursor,
    kind: Kind,
    mark: u32,
    place: usize,
    c0: u32,
    c1: u32,
    c2: u32,
    c3: u32,
) -> Read
    requires { (width * first + length pool.old ≤ largest) × (place < 65536) × (c < 65536) }
    ensures { (ts : List ℕ) → c < length ts → Ends build ts c first rows (code kind) mark place c0 c1 c2 c3 result pool.old pool.new }
{
    let row = Row {
        kind: kind.code(),
        mark,
        place: place as u32,
        c0,
        c1,
        c2,
        c3,
        end: c as u32,
    };
    let k = rows::build(pool, rows, row, c)?;
    Ok(Piece {
        rows: k,
        head: (first + k) as u32,
        next: c,
    })
}

// A row without children, at the current token.
pub fn leaf(pool: &mut [u32], first: usize, c: Cursor, kind: Kind, mark: u32) -> Read
    requires { (width * first + length pool.old ≤ largest) × (c < 65536) }
    ensures { (ts : List ℕ) → c < length ts → Fresh one (λ at. build (tree.leaf (code kind) mark at) at) ts c first result pool.old pool.new }
{
    put_row(pool, first, 0, c, kind, mark, c, 0, 0, 0, 0)
}

// parse_suffix_expression, behind what it follows, by the mark of its operator.
pub fn suffix(pool: &mut [u32], first: usize, left: Piece, mark: u32) -> Read
    requires { (width * first + length pool.old ≤ largest) × (left.next < 65536) }
    ensures { (ts : List ℕ) → left.next < length ts → Follows (λ t at. build (tree.suffix mark at t) at) ts left.next first left.rows left.head result pool.old pool.new }
{
    put_row(
        pool,
        first,
        left.rows,
        left.next,
        Kind::Suffix,
        mark,
        left.next,
        left.head,
        0,
        0,
        0,
    )
}

// A row whose closing sign comes next, or else the refusal for `reason`.
pub fn closed(
    tokens: &[u16],
    pool: &mut [u32],
    first: usize,
    rows: usize,
    c: Cursor,
    close: Symbol,
    reason: Reason,
    kind: Kind,
    place: usize,
    c0: u32,
    c1: u32,
) -> Read
    requires { (Ready tokens.now pool.old first c) × (place < 65536) }
    ensures { Ends (contract.closed tokens.now (word (token.Operator close)) (number reason)) tokens.now c first rows (code kind) 0 place c0 c1 0 0 result pool.old pool.new }
{
    if words::next_symbol_is(tokens, c, close) {
        return put_row(
            pool,
            first,
            rows,
            words::iterate(tokens, c),
            kind,
            0,
            place,
            c0,
            c1,
            0,
            0,
        );
    }
    Err(Refusal::new(reason, c))
}

// Whether a list of expressions ends before its first; one of pairs doesn't.
pub fn is_empty(tokens: &[u16], c: Cursor, paired: bool) -> bool
    ensures { result ≡ not paired && next_is tokens.now c SRparen }
{
    !paired && words::next_symbol_is(tokens, c, Symbol::SRparen)
}

// The reference of a list's first member, once another is behind the first `rows` rows.
pub fn first_of(rows: usize, head: u32, next: u32) -> u32
    ensures { result ≡ cond (eqb rows 0) next head }
{
    if rows == 0 { next } else { head }
}
