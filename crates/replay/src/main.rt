// Replays the recorded cases on standard input, and says where an entry answers otherwise than its record.
#![tactic(auto)]

mod case;

use answer::Answer;
use case::{Case, Front, HEAD, Head, RECORD, Record};
use modes::mode_of;
use recorded::{fill, holds, read};
use rows::{MOST, WIDTH};
use std::io;
use std::io::Read;

// The most words of an array and of a pool, which has two rows more than are ever used, and the bytes of the longest part of a
// case.
const TOKENS: usize = 65536;

const POOL: usize = WIDTH * (MOST + 2);

const PART: usize = 4 * POOL;

// What a pool is full of before it is lent.
const OTHER: u32 = 0xFFFF_FFFF;

// The first of the entries in strict mode.
const STRICT: u16 = 3;

// What comes of a case: the recorded answer or another one, or it doesn't fit the buffers.
#[derive(Clone, Copy, Debug, PartialEq, Eq)]
enum Verdict {
    Agrees,
    Differs,
    Skipped,
}

// The answer of a case's entry.
fn given(head: &Head, tokens: &[u16], pool: &mut [u32]) -> Answer {
    let start = head.start as usize;
    let mode = mode_of(head.entry >= STRICT);
    match head.entry {
        0 | 3 => parser::one_expression(tokens, pool, start, mode),
        1 | 4 => parser::one_statement(tokens, pool, start, mode),
        _ => parser::whole_script(tokens, pool, mode),
    }
}

// Replays a case, if it fits the buffers: whether its answer and pool are those of its record, whose rows are in front of the
// part. The pool is left as the next case wants it.
fn replay(case: &Case, part: &[u8; PART], tokens: &[u16], pool: &mut [u32; POOL]) -> Verdict {
    if POOL < case.head.size as usize {
        return Verdict::Skipped;
    }
    let pool = &mut pool[..case.head.size as usize];
    let answer = given(&case.head, tokens, pool);
    let rows = PART.min(case.record.row_bytes());
    let same = case.record.is(answer) && holds(pool, &part[..rows]);
    pool.fill(OTHER);
    if same {
        Verdict::Agrees
    } else {
        Verdict::Differs
    }
}

// Says what came of a case that was replayed or skipped, unless all is well.
fn say(out: &impl Print, case: u64, verdict: Verdict) -> io::Result<()> {
    match verdict {
        Verdict::Agrees => Ok(()),
        Verdict::Differs => println!(out; "case {case} differs"),
        Verdict::Skipped => println!(out; "case {case} is skipped: it doesn't fit"),
    }
}

// Reads the next case, and its tokens; none if the stream ends before. That it ends in the middle of the case is said. A head and a record are read
// over those of the case before, each into bytes of its own: a terminal may end in a head and then go on.
fn take(
    source: &mut impl Read,
    out: &impl Print,
    front: &mut Front,
    part: &mut [u8; PART],
    tokens: &mut [u16; TOKENS],
    number: u64,
) -> io::Result<Option<Case>> {
    let got = input::read_full(source, &mut front.head)?;
    let head = Head::of(&front.head);
    let count = head.count as usize;
    let has_tokens = read(source, part, 2 * count)?;
    fill(&mut tokens[..count], part);
    let has_record = read(source, &mut front.record, RECORD)?;
    let record = Record::of(&front.record);
    let has_rows = read(source, part, record.row_bytes())?;
    if has_tokens && has_record && has_rows {
        return Ok(Some(Case { head, record }));
    }
    if 0 < got {
        println!(out; "case {number} is cut short")?;
    }
    Ok(None)
}

// Replays case after case. A proved loop has to end, and nothing says that a stream does, so this one ends at a number of
// cases that no run gets to.
fn replay_all(
    source: &mut impl Read,
    out: &impl Print,
    part: &mut [u8; PART],
    tokens: &mut [u16; TOKENS],
    pool: &mut [u32; POOL],
) -> io::Result<()> {
    let mut replayed = 0u64;
    let mut differing = 0u64;
    let mut skipped = 0u64;
    let mut front = Front {
        head: [0; HEAD],
        record: [0; RECORD],
    };
    for number in 0..u64::MAX {
        let Some(case) = take(source, out, &mut front, part, tokens, number)? else {
            break;
        };
        let verdict = replay(&case, part, &tokens[..case.head.count as usize], pool);
        say(out, number, verdict)?;
        match verdict {
            Verdict::Agrees => replayed += 1,
            Verdict::Differs => {
                replayed += 1;
                differing += 1;
            }
            Verdict::Skipped => skipped += 1,
        }
    }
    println!(out; "{replayed} replayed, {differing} differing, {skipped} skipped")
}

fn main(rt: HostRuntime) -> io::Result<()> {
    let mut part: [u8; PART] = [0; PART];
    let mut tokens: [u16; TOKENS] = [0; TOKENS];
    let mut pool: [u32; POOL] = [OTHER; POOL];
    replay_all(&mut rt.stdin(), &rt, &mut part, &mut tokens, &mut pool)
}
