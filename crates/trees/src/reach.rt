// The walk from a root over the rows that it reaches: how each is reached.
ghost use Rattle.std.specs.Prelude.{suc, ◌≤◌, ◌<◌};
ghost use Rattle.grammar.specs.Script.{most_rows};
ghost use Rattle.trees.specs.Pool.{In, count};
ghost use Rattle.trees.specs.Survey.{Looked, Surveyed};
ghost use Rattle.trees.specs.Leaves.{Cleared};

use crate::Links;

// Looks at a word of a row: the row that it refers to gets its link, or the sign of a second, and is put into the queue where it is new.
#[tactic(auto, using(crate::proofs::Words::most, crate::proofs::Words::read_in))]
fn look<const N: usize>(
    pool: &[u32],
    links: &mut Links<N>,
    found: usize,
    r: usize,
    k: usize,
) -> usize
    requires fact { In pool.now r }
    requires k_bound { k ≤ 7 }
    requires wide { count pool.now < N }
    requires found_in_bounds { found < N }
    ensures { Looked pool.now links.old.owners links.old.words links.old.queue found r k links.new.owners links.new.words links.new.queue result }
{
    let t = rows::word(pool, r, k);
    if t == 0 || rows::count(pool.len()) < t {
        return found;
    }
    let i = t as usize;
    if links.words[i] == 0 {
        links.owners[i] = r as u16;
        links.words[i] = k as u8;
        links.queue[found] = t as u16;
        return found + 1;
    }
    links.owners[i] = 0;
    links.words[i] = 2;
    found
}

// Finds the rows that the root reaches, and how each is reached. A row of the queue has five words that refer to others, from the third on.
pub fn walk<const N: usize>(pool: &[u32], root: usize, links: &mut Links<N>)
    requires fact { In pool.now root }
    requires none { Cleared N links.old.owners links.old.words links.old.queue }
    requires wide { count pool.now < N }
    requires few { N ≤ suc most_rows }
    ensures { Surveyed pool.now root links.new.owners links.new.words }
{
    links.words[root] = 1;
    links.queue[0] = root as u16;
    let mut found: usize = 1;
    let mut j: usize = 0;
    // No `for`: the end moves with each row that is found.
    while j < 5 * found {
        let r = links.queue[j / 5] as usize;
        found = look(pool, links, found, r, rows::CHILD + j % 5);
        j += 1;
    }
}
