// A recorded case: in the stream its head is followed by the tokens, its record and the rows of that.
use answer::Answer;
use recorded::{Number, fill};
use refusals::by_number;
use rows::WIDTH;

// The bytes of a head, and those of a record before its rows.
pub const HEAD: usize = 10;

pub const RECORD: usize = 20;

// The bytes of a head and of a record.
#[derive(Clone, Copy, Debug, PartialEq, Eq)]
pub struct Front {
    pub head: [u8; HEAD],
    pub record: [u8; RECORD],
}

// The head: the entry, the start place, the pool's length and the number of tokens.
#[derive(Clone, Copy, Debug, PartialEq, Eq)]
pub struct Head {
    pub entry: u16,
    pub start: u16,
    pub size: u32,
    pub count: u16,
}

impl Head {
    // The head of the bytes.
    pub fn of(bytes: &[u8]) -> Head {
        Head {
            entry: Number::at(bytes, 0),
            start: Number::at(bytes, 1),
            size: Number::at(bytes, 1),
            count: Number::at(bytes, 4),
        }
    }
}

// The record: the four words of the answer, and 1 if every pool word behind the used rows is zero.
#[derive(Clone, Copy, Debug, PartialEq, Eq)]
pub struct Record {
    answer: [u32; 4],
    clean: u32,
}

impl Record {
    // The record of the bytes.
    pub fn of(bytes: &[u8]) -> Record {
        let mut answer = [0; 4];
        fill(&mut answer, bytes);
        Record {
            answer,
            clean: Number::at(bytes, 4),
        }
    }

    // How many bytes its rows have: none after a refusal.
    pub fn row_bytes(&self) -> usize {
        if self.answer[0] == 0 {
            4 * WIDTH * self.answer[2] as usize
        } else {
            0
        }
    }

    // Whether an answer is the recorded one, and the record says that the pool is zero behind the used rows.
    pub fn is(&self, answer: Answer) -> bool {
        let mut words = [0; 4];
        four::put_answer(&mut words, by_number(answer));
        self.clean == 1 && words == self.answer.map(u64::from)
    }
}

// A case.
#[derive(Clone, Copy, Debug, PartialEq, Eq)]
pub struct Case {
    pub head: Head,
    pub record: Record,
}
