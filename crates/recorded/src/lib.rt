// What the programs share that go through recorded cases: numbers from a stream, comparisons with a record, and the counts.
#![tactic(auto)]

mod numbers;

ghost use Rattle.std.specs.Prelude.{◌≡◌, ◌+◌, ◌≤◌, ◌<◌, ◌^◌, ◌↔◌, [], ◌∷◌, ◌-◌, min, cond, eqb, length, replicate, take, IsTrue, IfOk, OnOk};
ghost use Rattle.std.specs.Io.KnownBytes.{Consumes};
ghost use Rattle.refusals.specs.Refusal.{counted};
ghost use Rattle.recorded.specs.Numbers.{Holds};

pub use numbers::{Number, fill, holds};
use refusals::Refusal;
use std::io;
use std::io::Read;

// Reads so many bytes into the front of a buffer; whether they were there, and the buffer is long enough. They are the
// stream's next ones.
pub fn read<R: Read>(source: &mut R, bytes: &mut [u8], n: usize) -> io::Result<bool>
    ensures room { IfOk result (λ whole. IsTrue whole → n ≤ length bytes.new) }
    ensures next { IfOk result (λ whole. IsTrue whole → Consumes (R.remaining source.old) (R.remaining source.new) (take n bytes.new)) }
{
    if bytes.len() < n {
        return Ok(false);
    }
    Ok(input::read_full(source, &mut bytes[..n])? == n)
}

// Reads so many bytes of a record, and whether a lent slice was left as they say: with their numbers, and zeros behind. Each
// number of it becomes `other` again.
pub fn leaves<R: Read, T: Number>(
    source: &mut R,
    bytes: &mut [u8],
    n: usize,
    lent: &mut [T],
    other: T,
) -> io::Result<bool>
    ensures same { IfOk result (λ same. IsTrue same → Holds T.eq (T.at (take n bytes.new)) lent.old) }
    ensures again { OnOk result (lent.new ≡ replicate (length lent.old) other) }
{
    let same = read(source, bytes, n)? && holds(lent, &bytes[..n]);
    // `fill` would ask of every `Number` that its `clone` can't fail.
    for number in lent.iter_mut() {
        *number = other;
    }
    Ok(same)
}

// A recorded answer: 0 and a count, or a refusal's number and place.
#[derive(Clone, Copy, Debug, PartialEq, Eq)]
pub struct Recorded {
    pub number: u32,
    pub value: u32,
}

impl Recorded {
    // What it counts: nothing after a refusal.
    pub fn count(self) -> usize
        ensures { result ≡ cond (eqb self.number 0) self.value 0 }
    {
        if self.number == 0 {
            self.value as usize
        } else {
            0
        }
    }

    // Whether an answer is this one.
    pub fn is(self, answer: Result<usize, Refusal>) -> bool
        ensures { IsTrue result ↔ (counted answer ≡ self.number ∷ self.value ∷ 0 ∷ 0 ∷ []) }
    {
        match answer {
            Ok(count) => self.number == 0 && self.value as usize == count,
            Err(refusal) => {
                self.number == refusal.number() && self.value as usize == refusal.place()
            }
        }
    }
}

// How many cases there were, and how many of them differ from their records.
#[derive(Clone, Copy, Debug, PartialEq, Eq)]
pub struct Tally {
    pub cases: u64,
    pub differing: u64,
    ghost within: { differing ≤ cases },
}

impl Tally {
    // No case yet.
    pub fn new() -> Tally
        ensures cases { result.cases ≡ 0 }
        ensures differing { result.differing ≡ 0 }
    {
        Tally {
            cases: 0,
            differing: 0,
        }
    }

    // Counts a case, as far as can be counted, and says that it differs, unless it doesn't.
    pub fn add(&mut self, out: &impl Print, same: bool) -> io::Result<()>
        ensures cases { OnOk result (self.new.cases ≡ min (self.old.cases + 1) (2 ^ 64 - 1)) }
        ensures differing { OnOk result (self.new.differing ≡ min (self.old.differing + cond same 0 1) (2 ^ 64 - 1)) }
    {
        if !same {
            println!(out; "{} differs", self.cases)?;
        }
        *self = Tally {
            cases: self.cases.saturating_add(1),
            differing: self.differing.saturating_add(!same as u64),
        };
        Ok(())
    }

    // The last line: the counts.
    pub fn print(&self, out: &impl Print, what: &str) -> io::Result<()> {
        println!(out; "{} {what}, {} differing", self.cases, self.differing)
    }
}
