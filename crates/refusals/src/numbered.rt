// Refusals by their numbers: what writes a number or hands it on takes any, also one that no reason has.
ghost use Rattle.std.specs.Prelude.{◌≡◌};
ghost use Rattle.refusals.specs.Refusal.{refusal};

use crate::Refusal;
use std::marker::Model;

// A refusal by its number, whatever number that is, and its place.
#[derive(Clone, Copy, Debug, PartialEq, Eq)]
pub struct ByNumber {
    number: u32,
    place: usize,
}

impl Model for ByNumber {
    ghost use Rattle.refusals.specs.Refusal.{Numbered};

    ghost Value = { Numbered };

    ghost use Rattle.refusals.specs.Inside.{told, untold, untold_told};

    ghost view = { told };

    ghost inverse = { untold };

    ghost inverse_ok = { λ a h. untold_told a };
}

impl ByNumber {
    // A refusal with a number at a place.
    pub fn new(number: u32, place: usize) -> ByNumber
        ensures { result ≡ refusal number place }
    {
        ByNumber { number, place }
    }

    // Its number.
    pub fn number(self) -> u32
        ensures { result ≡ self.number }
    {
        self.number
    }

    // Its place.
    pub fn place(self) -> usize
        ensures { result ≡ self.place }
    {
        self.place
    }
}

// An answer with its refusal by the number.
pub fn by_number<T>(answer: Result<T, Refusal>) -> Result<T, ByNumber>
    ensures { result ≡ answer }
{
    match answer {
        Ok(value) => Ok(value),
        Err(refusal) => Err(ByNumber::new(refusal.number(), refusal.place())),
    }
}
