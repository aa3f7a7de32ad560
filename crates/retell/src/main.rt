// Retells the recorded cases of JSON texts on standard input, and says where the writer answers otherwise than its record.
#![tactic(auto)]

use recorded::{Number, Recorded, Tally, fill, leaves, read};
use rows::{MOST, WIDTH};
use std::io;
use std::io::Read;

// The most words of a pool, which has two rows more than are ever used, and the most bytes of a file and of an output.
const POOL: usize = WIDTH * (MOST + 2);

const FILE: usize = 61000;

const ROOM: usize = 1048576;

// The bytes of a head, and of the longest part behind one.
const HEAD: usize = 28;

const PART: usize = 4 * POOL;

// What the output is full of before it is lent.
const OTHER: u8 = 0xFF;

// The head of a case: the root; the lengths of the pool, the file and the output; the answer.
#[derive(Clone, Copy, Debug, PartialEq, Eq)]
struct Head {
    root: u32,
    pool: u32,
    file: u32,
    room: u32,
    answer: Recorded,
}

impl Head {
    // The head of the bytes. Its last number is 0.
    fn of(bytes: &[u8]) -> Head {
        Head {
            root: Number::at(bytes, 0),
            pool: Number::at(bytes, 1),
            file: Number::at(bytes, 2),
            room: Number::at(bytes, 3),
            answer: Recorded {
                number: Number::at(bytes, 4),
                value: Number::at(bytes, 5),
            },
        }
    }
}

// Whether the writer gives the recorded answer and leaves the recorded text. It is lent as much of each buffer as the case says.
// What was left is compared in any case, which leaves it as the next case wants it.
fn agrees(
    source: &mut impl Read,
    head: &Head,
    part: &mut [u8; PART],
    pool: &mut [u32],
    file: &mut [u8; FILE],
    text: &mut [u8],
) -> io::Result<bool> {
    let has_pool = read(source, part, 4 * head.pool as usize)?;
    fill(pool, part);
    let has_file = read(source, file, head.file as usize)?;
    let file = &file[..FILE.min(head.file as usize)];
    let told = json_writer::write(pool, head.root as usize, file, text);
    let fits = head.room as usize <= ROOM;
    let has_text = leaves(source, part, head.answer.count(), text, OTHER)?;
    Ok(has_pool && has_file && fits && head.answer.is(told) && has_text)
}

// Retells case after case. A proved loop has to end, and nothing says that a stream does, so this one ends at a number of cases
// that no run gets to.
fn retell_all(
    source: &mut impl Read,
    out: &impl Print,
    part: &mut [u8; PART],
    pool: &mut [u32; POOL],
    file: &mut [u8; FILE],
    text: &mut [u8; ROOM],
) -> io::Result<()> {
    let mut tally = Tally::new();
    while tally.cases < u64::MAX && read(source, part, HEAD)? {
        let head = Head::of(part);
        let pool = &mut pool[..POOL.min(head.pool as usize)];
        let text = &mut text[..ROOM.min(head.room as usize)];
        let same = agrees(source, &head, part, pool, file, text)?;
        tally.add(out, same)?;
    }
    tally.print(out, "retold")
}

fn main(rt: HostRuntime) -> io::Result<()> {
    let mut part: [u8; PART] = [0; PART];
    let mut pool: [u32; POOL] = [0; POOL];
    let mut file: [u8; FILE] = [0; FILE];
    let mut text: [u8; ROOM] = [OTHER; ROOM];
    retell_all(
        &mut rt.stdin(),
        &rt,
        &mut part,
        &mut pool,
        &mut file,
        &mut text,
    )
}
