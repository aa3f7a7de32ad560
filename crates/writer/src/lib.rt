// The writer: a tree of a pool as token words, and the places of their payloads.
#![tactic(auto)]

mod forms;
mod moves;
mod pieces;
mod walk;

ghost use Rattle.std.specs.Prelude.{◌≡◌, ◌<◌, length, replicate};
ghost use Rattle.trees.specs.Pool.{count};
ghost use Rattle.trees.specs.Leaves.{front, Leaves};
ghost use Rattle.writer.specs.Wrote.{Writes};

use refusals::{Reason, Refusal};
use trees::Links;
use walk::walk;

// Every word of both slices becomes 0. They stay two parameters: a caller lends two, and a struct over both would be taken apart at each store.
fn clear(words: &mut [u16], places: &mut [u32])
    ensures words { words.new ≡ replicate (length words.old) 0 }
    ensures places { places.new ≡ replicate (length places.old) 0 }
{
    words.fill(0);
    places.fill(0);
}

// Writes a tree by the check's answer and the links of its rows, and says how many tokens it has, EOF included. After a refusal both slices are zeros.
fn put<const N: usize>(
    pool: &[u32],
    root: usize,
    checked: Result<(), Refusal>,
    links: &Links<N>,
    words: &mut [u16],
    places: &mut [u32],
) -> Result<usize, Refusal>
    requires left { Leaves pool.now root N checked links.now.owners links.now.words links.now.queue }
    requires wide { count pool.now < N }
    ensures { Writes pool.now root (length words.old) (length places.old) result words.new places.new }
{
    clear(words, places);
    checked?;
    let count = walk(pool, root, links, words, places);
    if words.len() < count || places.len() < count {
        clear(words, places);
        return Err(Refusal::new(Reason::TooShort, 0));
    }
    Ok(count)
}

// Writes the tree at a root in the front of a pool, in 20 KiB.
#[tactic(auto, using(trees::proofs::Words::few_front))]
pub fn write_small(
    pool: &[u32],
    root: usize,
    words: &mut [u16],
    places: &mut [u32],
) -> Result<usize, Refusal>
    ensures { Writes (front pool.now) root (length words.old) (length places.old) result words.new places.new }
{
    let mut links = Links::new();
    let checked = trees::survey_small(pool, root, &mut links);
    put(trees::front(pool), root, checked, &links, words, places)
}

// Writes the tree at a root, in 320 KiB.
#[tactic(auto, using(trees::proofs::Words::most))]
pub fn write_large(
    pool: &[u32],
    root: usize,
    words: &mut [u16],
    places: &mut [u32],
) -> Result<usize, Refusal>
    ensures { Writes pool.now root (length words.old) (length places.old) result words.new places.new }
{
    let mut links = Links::new();
    let checked = trees::survey_large(pool, root, &mut links);
    put(pool, root, checked, &links, words, places)
}

// Writes the tree at a root as token words and the places of their payloads, in as much memory as the pool's rows need.
pub fn write(
    pool: &[u32],
    root: usize,
    words: &mut [u16],
    places: &mut [u32],
) -> Result<usize, Refusal>
    ensures { Writes pool.now root (length words.old) (length places.old) result words.new places.new }
{
    if pool.len() < rows::end(trees::SMALL as u32) {
        write_small(pool, root, words, places)
    } else {
        write_large(pool, root, words, places)
    }
}
