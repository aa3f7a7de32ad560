// The lowest row that stands too deep below a root.
ghost use Rattle.std.specs.Prelude.{◌<◌, length};
ghost use Rattle.trees.specs.Pool.{In, count};
ghost use Rattle.trees.specs.Verdict.{NoneBad};
ghost use Rattle.json_writer.specs.Deep.{FirstDeep, Tied, Begins, Within, FirstLinked, Clears};

use rows::{CHILD, NEXT};

// The most rows on a path from a root through children.
pub const MOST_DEEP: usize = 128;

// Clears the links of the rows of a list and of those below them, so many levels with their own.
fn clear_list(pool: &[u32], c: usize, left: usize, links: &mut [u8])
    requires begins { Begins pool.now c }
    requires pool_in_bounds { count pool.now < length links.old }
    ensures { Clears (Within pool.now c left) links.old links.new }
{
    if left == 0 {
        return;
    }
    let less = left - 1;
    let mut r = c;
    // Each row's word says which is next, so no iterator goes over the rows.
    while r != 0 {
        links[r] = 0;
        clear_list(pool, rows::word(pool, r, CHILD) as usize, less, links);
        clear_list(pool, rows::word(pool, r, CHILD + 1) as usize, less, links);
        clear_list(pool, rows::word(pool, r, CHILD + 2) as usize, less, links);
        clear_list(pool, rows::word(pool, r, CHILD + 3) as usize, less, links);
        r = rows::word(pool, r, NEXT) as usize;
    }
}

// The lowest row with a link.
fn first_linked(pool: &[u32], links: &[u8]) -> Option<usize>
    requires { count pool.now < length links.now }
    ensures { FirstLinked pool.now links.now result }
{
    let n = rows::count(pool.len()) as usize;
    for r in 1..=n {
        if links[r] != 0 {
            return Some(r);
        }
    }
    None
}

// The lowest row that is too deep. Leaves the links of the rows that are.
pub fn first_deep(pool: &[u32], root: usize, links: &mut [u8]) -> Option<usize>
    requires fact { In pool.now root }
    requires none_bad { NoneBad pool.now root }
    requires pool_in_bounds { count pool.now < length links.old }
    requires tied { Tied pool.now root links.old }
    ensures { FirstDeep pool.now root result }
{
    clear_list(pool, root, MOST_DEEP, links);
    first_linked(pool, links)
}
