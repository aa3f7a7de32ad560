// Refusals: why something is refused, and where.
#![tactic(auto)]

mod numbered;

ghost use Rattle.std.specs.Prelude.{◌≡◌};
ghost use Rattle.refusals.specs.Reasons.{number};
ghost use Rattle.refusals.specs.Refusal.{refusal};

pub use numbered::{ByNumber, by_number};
use std::marker::Model;

// Why something is refused, by the number that callers are told.
#[derive(Clone, Copy, Debug, PartialEq, Eq)]
pub enum Reason {
    // The array of tokens is no good.
    BadArray = 1,
    // Too many expressions and statements are open at once.
    TooDeep = 2,
    // No row of the pool is free, or a buffer is too short.
    NoRoom = 3,
    // The start place lies outside.
    BadStart = 4,
    // A field of a token file is cut short, has a tag above the classes, or a wrong length.
    BadField = 5,
    // A token file has too many bytes.
    TooLong = 6,
    // The refusals of the original.
    InvalidSyntax = 10,
    InvalidToken = 11,
    InvalidSymbol = 12,
    NotImplemented = 13,
    InvalidIdentifier = 14,
    AssertWithoutAction = 15,
    AssertWithoutComma = 16,
    FuncWithoutName = 17,
    IfWithoutBody = 18,
    ConstWithoutValue = 19,
    ExpectedEq = 20,
    ExpectedColon = 21,
    NoParameters = 22,
    ExpectedArrow = 23,
    HashNotTerminated = 24,
    ArrayNotTerminated = 25,
    NotCallable = 26,
    TryWithoutCatch = 27,
    BreakWithoutSemicolon = 28,
    ContinueWithoutSemicolon = 29,
    // In strict mode a sign is missing.
    WrongSign = 30,
    // An output is too short.
    TooShort = 32,
    // A payload is not Unicode.
    NotUnicode = 33,
    // A tree is too deep to be written as JSON.
    TreeTooDeep = 34,
    // Rows are no tree.
    NoTree = 38,
}

// A refusal: its reason, which callers see by its number, and its place.
#[derive(Clone, Copy, Debug, PartialEq, Eq)]
pub struct Refusal {
    reason: Reason,
    place: usize,
}

impl Model for Refusal {
    ghost use Rattle.refusals.specs.Refusal.{Numbered};

    ghost Value = { Numbered };

    ghost use Rattle.refusals.specs.Inside.{seen, inside, inside_seen};

    ghost view = { seen };

    ghost inverse = { inside };

    ghost inverse_ok = { λ a h. inside_seen a };
}

impl Refusal {
    // A refusal for a reason at a place.
    pub fn new(reason: Reason, place: usize) -> Refusal
        ensures { result ≡ refusal (number reason) place }
    {
        Refusal { reason, place }
    }

    // The same refusal at another place.
    pub fn at(self, place: usize) -> Refusal
        ensures { result ≡ refusal self.number place }
    {
        Refusal { place, ..self }
    }

    // Its number.
    pub fn number(self) -> u32
        ensures { result ≡ self.number }
    {
        self.reason as u32
    }

    // Its place.
    pub fn place(self) -> usize
        ensures { result ≡ self.place }
    {
        self.place
    }
}
