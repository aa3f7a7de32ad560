// The check that the rows which a root reaches in a pool are a tree.
#![tactic(auto)]

mod bad;
mod reach;

ghost use Rattle.std.specs.Prelude.{◌≡◌, suc, ◌≤◌, ◌<◌};
ghost use Rattle.grammar.specs.Script.{most_rows};
ghost use Rattle.trees.specs.Pool.{count};
ghost use Rattle.trees.specs.Verdict.{Verdict};
ghost use Rattle.trees.specs.Leaves.{few_rows, front, Cleared, Leaves};

use bad::first_bad;
use reach::walk;
use refusals::{Reason, Refusal};

// How many references a small pool has, and any pool: one more than rows, since 0 is none. Each size has functions by name, which ask nothing: a caller
// chooses by how much stack it has.
pub const SMALL: usize = 4097;

pub const LARGE: usize = 65536;

// The links of so many references: the row that leads to each and the word of it, and the queue of the walk over them. An array each, since one of
// structs would take six bytes for a reference in place of five.
#[derive(Drop)]
pub struct Links<const N: usize> {
    pub owners: [u16; N],
    pub words: [u8; N],
    pub queue: [u16; N],
}

impl<const N: usize> Links<N> {
    // No links: zeros.
    pub fn new() -> Links<N>
        ensures { Cleared N result.owners result.words result.queue }
    {
        Links {
            owners: [0; N],
            words: [0; N],
            queue: [0; N],
        }
    }

    // Every number becomes 0.
    fn clear(&mut self)
        ensures { Cleared N self.new.owners self.new.words self.new.queue }
    {
        self.owners.fill(0);
        self.words.fill(0);
        self.queue.fill(0);
    }
}

// The front of a pool that has no more rows than a small one, 4,096 and what is left over.
pub fn front(pool: &[u32]) -> &[u32]
    ensures { result.now ≡ front pool.now }
{
    let end = rows::end(SMALL as u32) - 1;
    &pool[..end.min(pool.len())]
}

// Whether the rows that the root reaches are a tree. Their links are left in the memory that is lent; zeros where there is no such root.
fn survey<const N: usize>(pool: &[u32], root: usize, links: &mut Links<N>) -> Result<(), Refusal>
    requires wide { count pool.now < N }
    requires few { N ≤ suc most_rows }
    ensures { Leaves pool.now root N result links.new.owners links.new.words links.new.queue }
{
    links.clear();
    if root == 0 || (rows::count(pool.len()) as usize) < root {
        return Err(Refusal::new(Reason::NoTree, 0));
    }
    walk(pool, root, links);
    let bad = first_bad(pool, root, &links.owners, &links.words, &mut links.queue);
    links.queue.fill(0);
    match bad {
        Some(row) => Err(Refusal::new(Reason::NoTree, row)),
        None => Ok(()),
    }
}

// Whether the rows that the root reaches are a tree, and how each is reached: by which word of which row.
#[tactic(auto, using(crate::proofs::Words::most))]
pub fn survey_large(pool: &[u32], root: usize, links: &mut Links<LARGE>) -> Result<(), Refusal>
    ensures { Leaves pool.now root (suc most_rows) result links.new.owners links.new.words links.new.queue }
{
    survey(pool, root, links)
}

// The same of the front of a pool.
#[tactic(auto, using(crate::proofs::Words::few_front))]
pub fn survey_small(pool: &[u32], root: usize, links: &mut Links<SMALL>) -> Result<(), Refusal>
    ensures { Leaves (front pool.now) root (suc few_rows) result links.new.owners links.new.words links.new.queue }
{
    survey(front(pool), root, links)
}

// Whether the rows that the root reaches in the front of a pool are a tree, in 20 KiB.
pub fn check_small(pool: &[u32], root: usize) -> Result<(), Refusal>
    ensures { Verdict (front pool.now) root result }
{
    survey_small(pool, root, &mut Links::new())
}

// Whether the rows that the root reaches are a tree, in 320 KiB.
pub fn check_large(pool: &[u32], root: usize) -> Result<(), Refusal>
    ensures { Verdict pool.now root result }
{
    survey_large(pool, root, &mut Links::new())
}

// Whether the rows that the root reaches are a tree, in as much as the pool's rows need.
#[tactic(auto, using(crate::proofs::Words::whole_front))]
pub fn check(pool: &[u32], root: usize) -> Result<(), Refusal>
    ensures { Verdict pool.now root result }
{
    if pool.len() < rows::end(SMALL as u32) {
        check_small(pool, root)
    } else {
        check_large(pool, root)
    }
}
