// Retraces the recorded cases of trees on standard input, and says where the check or the writer answers otherwise than its
// record.
#![tactic(auto)]

use recorded::{Number, Recorded, Tally, fill, leaves, read};
use refusals::Reason;
use rows::{MOST, WIDTH};
use std::io;
use std::io::Read;

// The most words of a pool, which has two rows more than are ever used, and of each lent slice.
const POOL: usize = WIDTH * (MOST + 2);

const ROOM: usize = 131072;

// The bytes of a head, and of the longest part behind one.
const HEAD: usize = 28;

const PART: usize = 4 * POOL;

// What the slices are full of before they are lent.
const OTHER_WORD: u16 = 0xFFFF;

const OTHER_PLACE: u32 = 0xFFFF_FFFF;

// The head of a case: the root; the lengths of the pool and of the two slices; the answer. That of `retell` has other lengths, so each program has its own.
#[derive(Clone, Copy, Debug, PartialEq, Eq)]
struct Head {
    root: u32,
    pool: u32,
    words: u32,
    places: u32,
    answer: Recorded,
}

impl Head {
    // The head of the bytes. Its last number is for other programs.
    fn of(bytes: &[u8]) -> Head {
        Head {
            root: Number::at(bytes, 0),
            pool: Number::at(bytes, 1),
            words: Number::at(bytes, 2),
            places: Number::at(bytes, 3),
            answer: Recorded {
                number: Number::at(bytes, 4),
                value: Number::at(bytes, 5),
            },
        }
    }
}

// Whether the check gives the recorded answer. It doesn't refuse for want of room.
fn checks(head: &Head, pool: &[u32]) -> bool {
    let no_tree = Reason::NoTree as u32;
    match trees::check(pool, head.root as usize) {
        Ok(()) => head.answer.number != no_tree,
        Err(refusal) => {
            refusal.number() == no_tree
                && head.answer.number == no_tree
                && head.answer.value as usize == refusal.place()
        }
    }
}

// Whether the check and the writer give the recorded answers, and the writer leaves the recorded words and places. It is lent as
// much of each buffer as the case says. What was left is compared in any case, which leaves it as the next case wants it.
fn agrees(
    source: &mut impl Read,
    head: &Head,
    part: &mut [u8; PART],
    pool: &mut [u32],
    words: &mut [u16],
    places: &mut [u32],
) -> io::Result<bool> {
    let has_pool = read(source, part, 4 * head.pool as usize)?;
    fill(pool, part);
    let wrote = writer::write(pool, head.root as usize, words, places);
    let count = head.answer.count();
    let has_words = leaves(source, part, 2 * count, words, OTHER_WORD)?;
    let has_places = leaves(source, part, 4 * count, places, OTHER_PLACE)?;
    Ok(has_pool && checks(head, pool) && head.answer.is(wrote) && has_words && has_places)
}

// Retraces case after case. A proved loop has to end, and nothing says that a stream does, so this one ends at a number of
// cases that no run gets to.
fn retrace_all(
    source: &mut impl Read,
    out: &impl Print,
    part: &mut [u8; PART],
    pool: &mut [u32; POOL],
    words: &mut [u16; ROOM],
    places: &mut [u32; ROOM],
) -> io::Result<()> {
    let mut tally = Tally::new();
    while tally.cases < u64::MAX && read(source, part, HEAD)? {
        let head = Head::of(part);
        let pool = &mut pool[..POOL.min(head.pool as usize)];
        let words = &mut words[..ROOM.min(head.words as usize)];
        let places = &mut places[..ROOM.min(head.places as usize)];
        let same = agrees(source, &head, part, pool, words, places)?;
        tally.add(out, same)?;
    }
    tally.print(out, "retraced")
}

fn main(rt: HostRuntime) -> io::Result<()> {
    let mut part: [u8; PART] = [0; PART];
    let mut pool: [u32; POOL] = [0; POOL];
    let mut words: [u16; ROOM] = [OTHER_WORD; ROOM];
    let mut places: [u32; ROOM] = [OTHER_PLACE; ROOM];
    retrace_all(
        &mut rt.stdin(),
        &rt,
        &mut part,
        &mut pool,
        &mut words,
        &mut places,
    )
}
