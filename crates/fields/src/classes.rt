// The classes of fields, and their tags.
ghost use Rattle.std.specs.Prelude.{◌≡◌};
ghost use Rattle.fields.specs.Classes.{tag};

// The class of a field, by its tag.
#[derive(Clone, Copy, Debug, PartialEq, Eq)]
pub enum Class {
    Invalid = 0,
    Empty = 1,
    Eof = 2,
    Integer = 3,
    Str = 4,
    Float = 5,
    Char = 6,
    Identifier = 7,
    Operator = 8,
    Keyword = 9,
    Unknown = 10,
}

impl From<Class> for u8 {
    ghost from_gives = { λ class result. result ≡ tag class };

    fn from(class: Class) -> u8 {
        class as u8
    }
}
