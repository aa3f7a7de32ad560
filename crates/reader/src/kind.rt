// The kinds of rows, each by the number that stands in its row.
ghost use Rattle.std.specs.Prelude.{◌≡◌, eqb};
ghost use Rattle.reader.specs.Kinds.{code};

#[derive(Clone, Copy, Debug, PartialEq, Eq)]
pub enum Kind {
    None = 1,
    Identifier = 2,
    Int = 3,
    Float = 4,
    Char = 5,
    String = 6,
    Bool = 7,
    Array = 8,
    Hash = 9,
    Index = 10,
    Call = 11,
    Infix = 12,
    Prefix = 13,
    Suffix = 14,
    Lambda = 15,
    Shell = 16,
    Attribute = 17,
    Name = 18,
    Pair = 19,
    Break = 32,
    Continue = 33,
    Var = 34,
    Const = 35,
    Return = 36,
    Throw = 37,
    Expression = 38,
    Try = 39,
    Function = 40,
    For = 41,
    While = 42,
    Assert = 43,
    If = 44,
    ForEach = 45,
    Block = 46,
}

impl Kind {
    // Its number.
    pub fn code(self) -> u32
        ensures { result ≡ code self }
    {
        self as u32
    }

    // Whether it is a const's.
    pub fn is_const(self) -> bool
        ensures { result ≡ eqb (code self) 35 }
    {
        self == Kind::Const
    }
}
