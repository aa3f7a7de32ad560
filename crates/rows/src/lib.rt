// The rows of a pool, whose layout nothing else knows: a row is built behind those that are there, linked, marked and read.
#![tactic(auto)]

ghost use Rattle.std.specs.Prelude.{◌≡◌, ◌++◌, ◌*◌, ◌^◌, ◌≤◌, ◌<◌, length, drop, replicate};
ghost use Rattle.grammar.specs.Tree.{width, flag};
ghost use Rattle.grammar.specs.Script.{rows, seat};
ghost use Rattle.rows.specs.Rows.{words, Builds, is_row, linked, marked, bit, read};

use refusals::{Reason, Refusal};

// How many words a row takes.
pub const WIDTH: usize = 9;

// The most rows of a pool.
pub const MOST: usize = 65535;

// Where in its row its words stand: the kind, the mark, the place, the first of its four children, the next row of its list, and the end.
pub const KIND: usize = 0;

pub const MARK: usize = 1;

pub const PLACE: usize = 2;

pub const CHILD: usize = 3;

pub const NEXT: usize = 7;

const END: usize = 8;

// A row to build: its words but the one that says that no row is next.
#[derive(Clone, Copy, Debug, PartialEq, Eq)]
pub struct Row {
    pub kind: u32,
    pub mark: u32,
    pub place: u32,
    pub c0: u32,
    pub c1: u32,
    pub c2: u32,
    pub c3: u32,
    pub end: u32,
}

// What a mark can say besides its number: a call on a thread, one not waited for, a row in brackets.
#[derive(Clone, Copy, Debug, PartialEq, Eq)]
pub enum Flag {
    Thread,
    Async,
    Grouped,
}

// How many rows a pool of so many words has.
pub fn count(words: usize) -> u32
    ensures { result ≡ rows words }
{
    let n = words / WIDTH;
    if MOST < n { MOST as u32 } else { n as u32 }
}

// Where the first rows of a pool end, so many of them, and the part behind them begins.
pub fn end(rows: u32) -> usize
    ensures { result ≡ width * rows }
{
    WIDTH * rows as usize
}

// A row at the front of a part of the pool.
fn fill(part: &mut [u32], row: Row)
    requires { width ≤ length part.old }
    ensures { part.new ≡ words row ++ drop width part.old }
{
    part[KIND] = row.kind;
    part[MARK] = row.mark;
    part[PLACE] = row.place;
    part[CHILD] = row.c0;
    part[CHILD + 1] = row.c1;
    part[CHILD + 2] = row.c2;
    part[CHILD + 3] = row.c3;
    part[NEXT] = 0;
    part[END] = row.end;
}

// A row behind the first `rows` rows of the pool, and how many there are now; or a refusal at `place` where no row is free.
pub fn build(pool: &mut [u32], rows: usize, row: Row, place: usize) -> Result<usize, Refusal>
    ensures { Builds pool.old rows (words row) place result pool.new }
{
    if rows < pool.len() / WIDTH {
        let i = WIDTH * rows;
        fill(&mut pool[i..], row);
        return Ok(rows + 1);
    }
    Err(Refusal::new(Reason::NoRoom, place))
}

// Whether a reference is that of a row in so many words.
fn is_row(words: usize, reference: usize) -> bool
    ensures { result ≡ is_row words reference }
{
    0 < reference && reference <= words / WIDTH
}

// Where a word of the row with a reference stands.
fn seat_of(reference: usize, k: usize) -> usize
    requires { (0 < reference) × (seat reference k < 2 ^ 64) }
    ensures { result ≡ seat reference k }
{
    WIDTH * (reference - 1) + k
}

// The row with this reference gets a row behind it in its list; nothing changes where there is no such row.
pub fn link(pool: &mut [u32], reference: usize, next: u32)
    ensures { pool.new ≡ linked pool.old reference next }
{
    if is_row(pool.len(), reference) {
        let i = seat_of(reference, NEXT);
        pool[i] = next;
    }
}

// A mark with a flag in it, once.
fn with_flag(mark: u32, f: Flag) -> u32
    ensures { result ≡ flag (bit f) mark }
{
    let bit = match f {
        Flag::Thread => 1,
        Flag::Async => 2,
        Flag::Grouped => 256,
    };
    if mark / bit % 2 == 0 {
        mark + bit
    } else {
        mark
    }
}

// A flag goes into the mark of the row with this reference; nothing changes where there is no such row.
pub fn mark(pool: &mut [u32], reference: usize, f: Flag)
    ensures { pool.new ≡ marked pool.old reference f }
{
    if is_row(pool.len(), reference) {
        let i = seat_of(reference, MARK);
        pool[i] = with_flag(pool[i], f);
    }
}

// The k-th word of the row with this reference, 0 where there is no such row or word.
pub fn word(pool: &[u32], reference: usize, k: usize) -> u32
    ensures { result ≡ read pool.now reference k }
{
    if !is_row(pool.len(), reference) {
        return 0;
    }
    if WIDTH <= k {
        return 0;
    }
    let i = seat_of(reference, k);
    pool[i]
}

// Every word of the pool becomes 0.
pub fn clear(pool: &mut [u32])
    ensures { pool.new ≡ replicate (length pool.old) 0 }
{
    pool.fill(0);
}
