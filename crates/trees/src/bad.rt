// The lowest bad row of those that were reached.
ghost use Rattle.std.specs.Prelude.{◌≡◌, ◌&&◌, ◌+◌, ◌≤◌, ◌<◌, length};
ghost use Rattle.grammar.specs.Script.{word_of};
ghost use Rattle.slots.specs.Slots.{slot};
ghost use Rattle.slots.specs.Fine.{child_fine, taken};
ghost use Rattle.slots.specs.Codes.{slot_of};
ghost use Rattle.trees.specs.Pool.{In, count, row_fine};
ghost use Rattle.trees.specs.Survey.{Surveyed, Linked, SlotBy};
ghost use Rattle.trees.specs.Verdict.{First};

// Whether a child word of a row is as the slot of its kind wants it.
#[tactic(auto, using(crate::proofs::Words::most, crate::proofs::Words::read_in, slots::proofs::Numbers::of_code))]
fn slot_good(pool: &[u32], r: usize, kind: u32, i: usize) -> bool
    requires fact { In pool.now r }
    requires i_bound { i ≤ 3 }
    ensures { result ≡ child_fine (slot kind i).many r (word_of pool.now r (3 + i)) }
{
    slots::child_good(
        slots::slot(kind, i),
        r as u32,
        rows::word(pool, r, rows::CHILD + i),
    )
}

// Whether a row is a good one of its kind, and fits the slot that it stands in.
fn row_good(pool: &[u32], r: usize, s: u8) -> bool
    requires { In pool.now r }
    ensures { result ≡ row_fine pool.now r && taken (slot_of s) (word_of pool.now r 0) (word_of pool.now r 1) (word_of pool.now r 7) }
{
    let kind = rows::word(pool, r, rows::KIND);
    let mark = rows::word(pool, r, rows::MARK);
    let next = rows::word(pool, r, rows::NEXT);
    slots::mark_good(kind, mark)
        && slot_good(pool, r, kind, 0)
        && slot_good(pool, r, kind, 1)
        && slot_good(pool, r, kind, 2)
        && slot_good(pool, r, kind, 3)
        && slots::next_good(rows::count(pool.len()), r as u32, next)
        && slots::taken_in(s, kind, mark, next)
}

// The slot of a row with one link, where the row that the link is a word of stands in the slot `before`.
#[tactic(auto, using(crate::proofs::Words::read_in, slots::proofs::Numbers::of_code), unfolding(slots::specs::Codes::many_of, slots::specs::Codes::kinds_of))]
fn slot_by(pool: &[u32], r: usize, owner: usize, word: usize, before: u8) -> u8
    requires { Linked pool.now owner word }
    ensures { SlotBy pool.now r owner word before result }
{
    if word == 1 {
        slots::ROOT
    } else if word < rows::NEXT {
        slots::slot(rows::word(pool, owner, rows::KIND), word - rows::CHILD)
    } else if owner < r && slots::is_list(before) {
        before
    } else {
        0
    }
}

// The lowest bad row of those that were reached, if there is one. The slots of the rows before it are noted in `stands`. Three slices and not the links
// as one: two of them are read, and the third, which the walk is done with, is written.
pub fn first_bad(
    pool: &[u32],
    root: usize,
    owners: &[u16],
    words: &[u8],
    stands: &mut [u16],
) -> Option<usize>
    requires fact { In pool.now root }
    requires surveyed { Surveyed pool.now root owners.now words.now }
    requires pool_in_bounds { count pool.now < length owners.now }
    requires pool_in_bounds_2 { count pool.now < length words.now }
    requires pool_in_bounds_3 { count pool.now < length stands.old }
    ensures { First pool.now root result }
{
    for r in 1..=rows::count(pool.len()) as usize {
        let word = words[r] as usize;
        if word != 0 {
            if word == 2 {
                return Some(r);
            }
            let owner = owners[r] as usize;
            let before = (stands[owner] % 256) as u8;
            let s = slot_by(pool, r, owner, word, before);
            if !row_good(pool, r, s) {
                return Some(r);
            }
            stands[r] = s as u16;
        }
    }
    None
}
