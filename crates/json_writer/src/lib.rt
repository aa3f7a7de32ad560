// The writer of trees as JSON: a tree of a pool whose payloads are fields of a file, as one JSON text.
#![tactic(auto)]

mod deep;
mod head;
mod row;

ghost use Rattle.std.specs.Prelude.{◌≡◌, length};
ghost use Rattle.trees.specs.Leaves as part;
ghost use Rattle.json_writer.specs.Ready.{Passed};
ghost use Rattle.json_writer.specs.Tells.{cleared, Tells};

use deep::{MOST_DEEP, first_deep};
use json_values::Out;
use payloads::Indexed;
use refusals::{Reason, Refusal};
use row::put_row;
use trees::{LARGE, Links, SMALL};

// Writes a tree that the check over its file passed. The links of its rows are used up.
fn put(
    pool: &[u32],
    root: usize,
    fields: Indexed,
    links: &mut [u8],
    out: &mut [u8],
) -> Result<usize, Refusal>
    requires { Passed pool.now root fields.file.now fields.starts.now fields.count links.old }
    ensures { Tells pool.now root fields.entry.file.now (length out.old) result (cleared result out.new) }
{
    if let Some(deep) = first_deep(pool, root, links) {
        return Err(Refusal::new(Reason::TreeTooDeep, deep));
    }
    out.fill(0);
    let mut text = Out::new(out);
    match put_row(pool, root, MOST_DEEP, fields, &mut text) {
        Ok(()) => Ok(text.place()),
        Err(reason) => Err(Refusal::new(reason, 0)),
    }
}

// An answer, with all bytes cleared after a refusal.
fn or_clear(answer: Result<usize, Refusal>, out: &mut [u8]) -> Result<usize, Refusal>
    ensures same { result ≡ answer }
    ensures out { out.new ≡ cleared answer out.old }
{
    if answer.is_err() {
        out.fill(0);
    }
    answer
}

// Writes the tree at a root, with the memory for any pool lent.
fn in_large(
    pool: &[u32],
    root: usize,
    file: &[u8],
    starts: &mut [u16; payloads::FIELDS],
    links: &mut Links<LARGE>,
    out: &mut [u8],
) -> Result<usize, Refusal>
    ensures { Tells pool.now root file.now (length out.old) result (cleared result out.new) }
{
    let count = placed::survey_large(pool, root, file, starts, links)?;
    let fields = Indexed {
        file,
        starts,
        count,
    };
    put(pool, root, fields, &mut links.words, out)
}

// The same of the front of a pool. The two are a few lines each: a function over both would be given what the check has left as seven arguments.
fn in_small(
    pool: &[u32],
    root: usize,
    file: &[u8],
    starts: &mut [u16; payloads::FIELDS],
    links: &mut Links<SMALL>,
    out: &mut [u8],
) -> Result<usize, Refusal>
    ensures { Tells (part.front pool.now) root file.now (length out.old) result (cleared result out.new) }
{
    let count = placed::survey_small(pool, root, file, starts, links)?;
    let fields = Indexed {
        file,
        starts,
        count,
    };
    put(trees::front(pool), root, fields, &mut links.words, out)
}

// Writes the tree at a root in the front of a pool, in 60 KiB and what the rows on a path take.
pub fn write_small(pool: &[u32], root: usize, file: &[u8], out: &mut [u8]) -> Result<usize, Refusal>
    ensures { Tells (part.front pool.now) root file.now (length out.old) result out.new }
{
    let mut starts = [0; payloads::FIELDS];
    let mut links = Links::new();
    let answer = in_small(pool, root, file, &mut starts, &mut links, out);
    or_clear(answer, out)
}

// Writes the tree at a root, in 360 KiB and what the rows on a path take.
pub fn write_large(pool: &[u32], root: usize, file: &[u8], out: &mut [u8]) -> Result<usize, Refusal>
    ensures { Tells pool.now root file.now (length out.old) result out.new }
{
    let mut starts = [0; payloads::FIELDS];
    let mut links = Links::new();
    let answer = in_large(pool, root, file, &mut starts, &mut links, out);
    or_clear(answer, out)
}

// Writes the tree at a root as one JSON text, in as much memory as the pool's rows need.
pub fn write(pool: &[u32], root: usize, file: &[u8], out: &mut [u8]) -> Result<usize, Refusal>
    ensures { Tells pool.now root file.now (length out.old) result out.new }
{
    if pool.len() < rows::end(SMALL as u32) {
        write_small(pool, root, file, out)
    } else {
        write_large(pool, root, file, out)
    }
}
