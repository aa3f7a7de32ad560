// The head of a row's JSON object: the name of its kind, its mark, its place, and its payload where the kind has one.
ghost use Rattle.std.specs.Prelude.{◌≡◌, true};
ghost use Rattle.grammar.specs.Script.{word_of};
ghost use Rattle.trees.specs.Pool.{In};
ghost use Rattle.payloads.specs.Fields.{fields_of};
ghost use Rattle.payloads.specs.Needs.{placed};
ghost use Rattle.json_text.specs.Json.{paid, head};
ghost use Rattle.json_values.specs.Puts.{Puts};
ghost use Rattle.json_writer.specs.Ready.{first_members, Indexes};

use json_names::put_name;
use json_values::Out;
use payloads::Indexed;
use refusals::Reason;
use rows::{KIND, MARK, PLACE};

// The first members of a row: its kind, its mark and its place.
fn put_first(out: &mut Out, kind: u32, mark: u32, place: u32) -> Result<(), Reason>
    ensures { Puts (first_members kind mark place) out.old out.new result }
{
    out.put_bytes(b"{\"kind\":")?;
    put_name(out, kind)?;
    out.put_bytes(b",\"mark\":")?;
    out.put_decimal(mark as u64)?;
    out.put_bytes(b",\"place\":")?;
    out.put_decimal(place as u64)
}

// The member with the payload, where the kind has one.
fn put_paid(kind: u32, place: u32, fields: Indexed, out: &mut Out) -> Result<(), Reason>
    requires indexes { Indexes fields.file.now fields.starts.now fields.count }
    requires place_value { placed (fields_of fields.file.now) kind place ≡ true }
    ensures { Puts (paid (fields_of fields.entry.file.now) kind place) out.old out.new result }
{
    let Some(class) = placed::needs(kind) else {
        return Ok(());
    };
    out.put_bytes(b",\"payload\":")?;
    let payload = fields.payload(place as usize);
    out.put_value(class as u8, payload)
}

// The head of a row's object.
pub fn put_head(pool: &[u32], r: usize, fields: Indexed, out: &mut Out) -> Result<(), Reason>
    requires fact { In pool.now r }
    requires indexes { Indexes fields.file.now fields.starts.now fields.count }
    requires r_value { placed (fields_of fields.file.now) (word_of pool.now r 0) (word_of pool.now r 2) ≡ true }
    ensures { Puts (head (fields_of fields.entry.file.now) (word_of pool.now r 0) (word_of pool.now r 1) (word_of pool.now r 2)) out.old out.new result }
{
    let kind = rows::word(pool, r, KIND);
    let place = rows::word(pool, r, PLACE);
    put_first(out, kind, rows::word(pool, r, MARK), place)?;
    put_paid(kind, place, fields, out)
}
