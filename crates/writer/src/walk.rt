// The walk through a checked tree: each token is put behind the others.
ghost use Rattle.std.specs.Prelude.{◌≡◌, ◌<◌, length, get_or, set, replicate};
ghost use Rattle.trees.specs.Pool.{count};
ghost use Rattle.writer.specs.Wrote.{Turned};
ghost use Rattle.writer.specs.Ready.{Ready, Walked};

use crate::moves;
use crate::moves::Move;
use trees::Links;

// The most steps that a row takes: its pieces, its end, and the way up from it.
const STEPS: u32 = 10;

// Where the writer is: a row, the next of its pieces, and how many tokens there are so far. With row 0 all is written.
#[derive(Clone, Copy, Debug, PartialEq, Eq)]
pub struct At {
    pub row: usize,
    pub piece: usize,
    pub count: usize,
}

// A number at a place of a slice, as far as it goes.
fn put_at<T: Copy>(xs: &mut [T], at: usize, x: T)
    ensures { xs.new ≡ set xs.old at x }
{
    if at < xs.len() {
        xs[at] = x;
    }
}

// One step, with its token put behind the others.
fn turn<const N: usize>(
    pool: &[u32],
    root: usize,
    links: &Links<N>,
    words: &mut [u16],
    places: &mut [u32],
    at: At,
) -> At
    requires row { at.row < N }
    requires few { (at.piece < 100) × (at.count < 1000000) }
    ensures { Turned pool.now root (get_or links.now.owners at.row 0) (get_or links.now.words at.row 0) at result words.old places.old words.new places.new }
{
    let count = at.count;
    let owner = links.owners[at.row] as usize;
    let word = links.words[at.row] as usize;
    match moves::next_move(pool, root, at.row, at.piece, owner, word) {
        Move::Put(token, place, row, piece) => {
            put_at(words, count, tokens::word_of(token));
            put_at(places, count, place);
            At {
                row,
                piece,
                count: count + 1,
            }
        }
        Move::Go(row, piece) => At { row, piece, count },
    }
}

// Writes the tree at the root into slices of zeros, as far as they go, and says how many tokens it has.
pub fn walk<const N: usize>(
    pool: &[u32],
    root: usize,
    links: &Links<N>,
    words: &mut [u16],
    places: &mut [u32],
) -> usize
    requires ready { Ready pool.now root links.now.owners links.now.words }
    requires wide { count pool.now < N }
    requires words_value { words.old ≡ replicate (length words.old) 0 }
    requires places_value { places.old ≡ replicate (length places.old) 0 }
    ensures { Walked pool.now root result words.old places.old words.new places.new }
{
    let mut at = At {
        row: root,
        piece: 0,
        count: 0,
    };
    for _ in 0..STEPS * rows::count(pool.len()) {
        if at.row == 0 {
            break;
        }
        at = turn(pool, root, links, words, places, at);
    }
    at.count
}
