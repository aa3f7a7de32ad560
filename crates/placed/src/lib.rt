// The check that the rows which a root reaches in a pool are a tree whose payloads are fields of a file.
#![tactic(auto)]

ghost use Rattle.std.specs.Prelude.{◌≡◌, suc, ◌<◌, length};
ghost use Rattle.grammar.specs.Script.{most_rows};
ghost use Rattle.payloads.specs.Needs.{needed};
ghost use Rattle.payloads.specs.Index.{held, laid};
ghost use Rattle.trees.specs.Pool as pools;
ghost use Rattle.trees.specs.Leaves.{few_rows, front};
ghost use Rattle.placed.specs.Steps.{placed_by, FirstMisplaced, lower, Answers};
ghost use Rattle.placed.specs.Left.{Left};

use fields::Class;
use payloads::Indexed;
use refusals::{Reason, Refusal};
use trees::{LARGE, Links, SMALL};

// The class of the field that a kind's place has to name, of a kind with a payload.
#[tactic(auto, unfolding(payloads::specs::Needs::needs))]
pub fn needs(kind: u32) -> Option<Class>
    ensures { result ≡ needed kind }
{
    match kind {
        2 | 18 | 34 | 35 | 40 => Some(Class::Identifier),
        3 => Some(Class::Integer),
        4 => Some(Class::Float),
        5 => Some(Class::Char),
        6 => Some(Class::Str),
        _ => None,
    }
}

// Whether the place of a row is the number of a field of the class that its kind needs, by the file's index.
fn is_placed(pool: &[u32], r: usize, indexed: Indexed) -> bool
    requires { pools.In pool.now r }
    ensures { result ≡ placed_by pool.now indexed.entry.file.now indexed.entry.starts.now indexed.entry.count r }
{
    match needs(rows::word(pool, r, rows::KIND)) {
        Some(class) => {
            let place = rows::word(pool, r, rows::PLACE) as usize;
            indexed.class_at(place) == u8::from(class)
        }
        None => true,
    }
}

// The lowest row with a link whose place isn't such a number.
fn first_misplaced(pool: &[u32], words: &[u8], indexed: Indexed) -> Option<usize>
    requires { pools.count pool.now < length words.now }
    ensures { FirstMisplaced pool.now words.now indexed.entry.file.now indexed.entry.starts.now indexed.entry.count result }
{
    let n = rows::count(pool.len()) as usize;
    for r in 1..n + 1 {
        if words[r] != 0 && !is_placed(pool, r, indexed) {
            return Some(r);
        }
    }
    None
}

// The answer by that of the trees' check and the first misplaced row of so many fields: the lower of two rows decides.
#[tactic(auto, unfolding(crate::specs::Steps::lower))]
fn verdict(
    checked: Result<(), Refusal>,
    misplaced: Option<usize>,
    count: usize,
) -> Result<usize, Refusal>
    ensures { result ≡ lower checked misplaced count }
{
    match (checked, misplaced) {
        (Ok(()), None) => Ok(count),
        (Ok(()), Some(row)) => Err(Refusal::new(Reason::NoTree, row)),
        (Err(refusal), None) => Err(refusal),
        (Err(refusal), Some(row)) => {
            if refusal.place() < row {
                Err(refusal)
            } else {
                Err(refusal.at(row))
            }
        }
    }
}

// The answer over a file, whose index is laid: after the trees' check, by the links that it leaves.
fn over(
    pool: &[u32],
    checked: Result<(), Refusal>,
    words: &[u8],
    file: &[u8],
    starts: &mut [u16; payloads::FIELDS],
) -> Result<usize, Refusal>
    requires { pools.count pool.now < length words.now }
    ensures answer { Answers pool.now checked words.now file.now result }
    ensures index { starts.new ≡ laid file.now (held file.now) }
{
    let count = payloads::index(file, starts)?;
    let indexed = Indexed {
        file,
        starts,
        count,
    };
    verdict(checked, first_misplaced(pool, words, indexed), count)
}

// Whether the rows that the root reaches are a tree over a file, and how many fields it has. The file's index and the links of the rows are left in the
// memory that is lent.
pub fn survey_large(
    pool: &[u32],
    root: usize,
    file: &[u8],
    starts: &mut [u16; payloads::FIELDS],
    links: &mut Links<LARGE>,
) -> Result<usize, Refusal>
    ensures { Left pool.now root file.now (suc most_rows) result starts.new links.new.owners links.new.words links.new.queue }
{
    let checked = trees::survey_large(pool, root, links);
    over(pool, checked, &links.words, file, starts)
}

// The same of the front of a pool. Both are public, and a caller chooses by the stack that it has.
pub fn survey_small(
    pool: &[u32],
    root: usize,
    file: &[u8],
    starts: &mut [u16; payloads::FIELDS],
    links: &mut Links<SMALL>,
) -> Result<usize, Refusal>
    ensures { Left (front pool.now) root file.now (suc few_rows) result starts.new links.new.owners links.new.words links.new.queue }
{
    let checked = trees::survey_small(pool, root, links);
    over(trees::front(pool), checked, &links.words, file, starts)
}
