// One field of a token file: its token word, and how many bytes it takes.
#![tactic(auto)]

mod classes;

ghost use Rattle.std.specs.Prelude.{◌≡◌, ◌+◌, ◌*◌, cond, Ok, Err, eqb, length, get_or};
ghost use Rattle.refusals.specs.declared.Reason.TheVariants.{BadField, NotUnicode};
ghost use Rattle.unicode_text.specs.Unicode.{scalar, well_formed};
ghost use Rattle.fields.specs.Field.{head, number, good, whole, first};

pub use classes::Class;
use refusals::Reason;
use refusals::Reason::{BadField, NotUnicode};

// The tags.
const INVALID: u8 = Class::Invalid as u8;

const EMPTY: u8 = Class::Empty as u8;

const EOF: u8 = Class::Eof as u8;

const INTEGER: u8 = Class::Integer as u8;

const STR: u8 = Class::Str as u8;

const FLOAT: u8 = Class::Float as u8;

const CHAR: u8 = Class::Char as u8;

const IDENTIFIER: u8 = Class::Identifier as u8;

const OPERATOR: u8 = Class::Operator as u8;

const KEYWORD: u8 = Class::Keyword as u8;

const UNKNOWN: u8 = Class::Unknown as u8;

// How many bytes the tag and the length of a field take.
pub const HEAD: usize = 3;

// How many bytes the payload of an operator or a keyword takes, of an Integer or a Float, and of a Char.
const CODE: usize = 1;

const NUMBER: usize = 8;

const SIGN: usize = 4;

// A good field: its word, and how many bytes it takes.
#[derive(Clone, Copy, Debug, PartialEq, Eq)]
pub struct Field {
    pub word: u16,
    pub width: usize,
}

// The number of four bytes, the high one first.
fn number_of(payload: &[u8]) -> u32
    requires { length payload.now ≡ 4 }
    ensures { result ≡ number 0 payload.now }
{
    u32::from_be_bytes([payload[0], payload[1], payload[2], payload[3]])
}

// The field of a tag whose payload is a code.
fn of_code(tag: u8, payload: &[u8]) -> Result<Field, Reason>
    ensures { result ≡ cond (eqb (length payload.now) 1) (Ok (good (tag * 256 + get_or payload.now 0 0) (head + length payload.now))) (Err BadField) }
{
    if payload.len() != CODE {
        return Err(BadField);
    }
    Ok(Field {
        word: tag as u16 * 256 + payload[0] as u16,
        width: HEAD + payload.len(),
    })
}

// The field of a tag whose payload has just so many bytes, of which nothing is asked.
fn of_length(tag: u8, payload: &[u8], size: usize) -> Result<Field, Reason>
    ensures { result ≡ cond (eqb (length payload.now) size) (Ok (good (tag * 256) (head + length payload.now))) (Err BadField) }
{
    if payload.len() != size {
        return Err(BadField);
    }
    Ok(Field {
        word: tag as u16 * 256,
        width: HEAD + payload.len(),
    })
}

// The field of a tag whose payload is the number of a Char.
fn of_sign(tag: u8, payload: &[u8]) -> Result<Field, Reason>
    ensures { result ≡ cond (eqb (length payload.now) 4) (cond (scalar (number 0 payload.now)) (Ok (good (tag * 256) (head + length payload.now))) (Err NotUnicode)) (Err BadField) }
{
    if payload.len() != SIGN {
        return Err(BadField);
    }
    if !unicode_text::is_scalar(number_of(payload)) {
        return Err(NotUnicode);
    }
    Ok(Field {
        word: tag as u16 * 256,
        width: HEAD + payload.len(),
    })
}

// The field of a tag whose payload is text.
fn of_text(tag: u8, payload: &[u8]) -> Result<Field, Reason>
    ensures { result ≡ cond (well_formed payload.now) (Ok (good (tag * 256) (head + length payload.now))) (Err NotUnicode) }
{
    if !unicode_text::is_well_formed(payload) {
        return Err(NotUnicode);
    }
    Ok(Field {
        word: tag as u16 * 256,
        width: HEAD + payload.len(),
    })
}

// The field of a tag and its payload. Codes come first: in most scripts half of the fields and more have one. The match is on bytes, and each arm makes its
// field: over a `Class` made by `TryFrom` reading took 1.19 times the instructions, and with arms that give a code alone 1.13 times.
#[tactic(auto, unfolding(crate::specs::Field::whole, crate::specs::Field::allowed, crate::specs::Field::unicode, grammar::specs::Words::class))]
fn of_payload(tag: u8, payload: &[u8]) -> Result<Field, Reason>
    ensures { result ≡ whole tag payload.now }
{
    if tag == OPERATOR || tag == KEYWORD {
        return of_code(tag, payload);
    }
    match tag {
        INTEGER | FLOAT => of_length(tag, payload, NUMBER),
        CHAR => of_sign(tag, payload),
        STR | IDENTIFIER | UNKNOWN => of_text(tag, payload),
        INVALID | EMPTY | EOF => of_length(tag, payload, 0),
        _ => Err(BadField),
    }
}

// The first field of a part of the file.
pub fn first_field(part: &[u8]) -> Result<Field, Reason>
    ensures { result ≡ first part.now }
{
    if part.len() < HEAD {
        return Err(BadField);
    }
    let size = u16::from_be_bytes([part[1], part[2]]) as usize;
    if part.len() - HEAD < size {
        return Err(BadField);
    }
    of_payload(part[0], &part[HEAD..HEAD + size])
}
