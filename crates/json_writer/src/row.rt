// The rows of a tree as JSON: each row is an object, and in it are those of its slots.
ghost use Rattle.std.specs.Prelude.{◌+◌, ◌≤◌};
ghost use Rattle.grammar.specs.Tree.{Tree, Trees};
ghost use Rattle.grammar.specs.Script.{word_of};
ghost use Rattle.slots.specs.Slots.{slot};
ghost use Rattle.payloads.specs.Fields.{fields_of};
ghost use Rattle.trees.specs.Pool.{In, Holds, HoldsAll};
ghost use Rattle.json_text.specs.Json.{listed, member, text, texts};
ghost use Rattle.json_values.specs.Puts.{Puts};
ghost use Rattle.json_writer.specs.Ready.{key, Indexes, Ready, AllReady};

use crate::head::put_head;
use json_values::Out;
use payloads::Indexed;
use refusals::Reason;
use rows::{CHILD, KIND, NEXT};

// The number of the least slot that takes something.
const SOME: u8 = 16;

// The key of a slot, between a comma and a colon.
fn put_key(out: &mut Out, i: usize) -> Result<(), Reason>
    requires { i ≤ 3 }
    ensures { Puts (key i) out.old out.new result }
{
    out.put_bytes(b",\"c")?;
    out.put_byte(b'0' + i as u8)?;
    out.put_bytes(b"\":")
}

// The rows of a list with commas between them, the first at c; none at 0.
#[cycle(rows)]
fn put_members(
    pool: &[u32],
    c: usize,
    left: usize,
    fields: Indexed,
    out: &mut Out,
) -> Result<(), Reason>
    requires indexes { Indexes fields.file.now fields.starts.now fields.count }
    requires all_ready { AllReady pool.now fields.file.now c left }
    ensures { (ts : Trees) → HoldsAll pool.now c ts → Puts (listed (texts (fields_of fields.entry.file.now) ts)) out.old out.new result }
{
    if c == 0 {
        return Ok(());
    }
    put_row(pool, c, left, fields, out)?;
    let mut r = rows::word(pool, c, NEXT) as usize;
    // Each row's word says which is next, so no iterator goes over the rows.
    while r != 0 {
        out.put_byte(b',')?;
        put_row(pool, r, left, fields, out)?;
        r = rows::word(pool, r, NEXT) as usize;
    }
    Ok(())
}

// The member of a row's slot: an object or null, or an array; nothing for a slot that the kind doesn't have.
#[cycle(rows)]
fn put_slot(
    pool: &[u32],
    r: usize,
    i: usize,
    left: usize,
    fields: Indexed,
    out: &mut Out,
) -> Result<(), Reason>
    requires fact { In pool.now r }
    requires i_bound { i ≤ 3 }
    requires indexes { Indexes fields.file.now fields.starts.now fields.count }
    requires all_ready { AllReady pool.now fields.file.now (word_of pool.now r (3 + i)) left }
    ensures { (ts : Trees) → HoldsAll pool.now (word_of pool.now r (3 + i)) ts → Puts (member i (slot (word_of pool.now r 0) i).many (texts (fields_of fields.entry.file.now) ts)) out.old out.new result }
{
    let s = slots::slot(rows::word(pool, r, KIND), i);
    if s < SOME {
        return Ok(());
    }
    put_key(out, i)?;
    let c = rows::word(pool, r, CHILD + i) as usize;
    if slots::is_list(s) {
        out.put_byte(b'[')?;
        put_members(pool, c, left, fields, out)?;
        return out.put_byte(b']');
    }
    if c == 0 {
        return out.put_bytes(b"null");
    }
    put_row(pool, c, left, fields, out)
}

// The object of a row. No path from it through children has more rows than are left.
#[cycle(rows)]
pub fn put_row(
    pool: &[u32],
    r: usize,
    left: usize,
    fields: Indexed,
    out: &mut Out,
) -> Result<(), Reason>
    requires indexes { Indexes fields.file.now fields.starts.now fields.count }
    requires ready { Ready pool.now fields.file.now r left }
    ensures { (t : Tree) → Holds pool.now r t → Puts (text (fields_of fields.entry.file.now) t) out.old out.new result }
{
    let below = left - 1;
    put_head(pool, r, fields, out)?;
    put_slot(pool, r, 0, below, fields, out)?;
    put_slot(pool, r, 1, below, fields, out)?;
    put_slot(pool, r, 2, below, fields, out)?;
    put_slot(pool, r, 3, below, fields, out)?;
    out.put_byte(b'}')
}
