// The codes of symbols and of keywords.
ghost use Rattle.std.specs.Prelude.{◌≡◌, ◌<◌};
ghost use Rattle.tokens.specs.Symbols.{symbol_code, keyword_code, symbol_at, keyword_at};

use crate::{Keyword, Symbol};

// The code of a symbol.
impl From<Symbol> for u8 {
    ghost from_gives = { λ s n. n ≡ symbol_code s };

    fn from(s: Symbol) -> u8 {
        s as u8
    }
}

// The same by name.
pub fn symbol_code(s: Symbol) -> u8
    ensures { result ≡ symbol_code s }
{
    u8::from(s)
}

// The code of a keyword.
impl From<Keyword> for u8 {
    ghost from_gives = { λ k n. n ≡ keyword_code k };

    fn from(k: Keyword) -> u8 {
        k as u8
    }
}

// The symbol of a code: a line for each of the 41, and so longer than other functions.
// Not a `const` array, which would be built anew at each use; nor a `TryFrom`, since it requires that the code is one.
pub(crate) fn symbol_of(code: u16) -> Symbol
    requires { code < 41 }
    ensures { result ≡ symbol_at code }
{
    match code {
        0 => Symbol::SInvalid,
        1 => Symbol::SPlus,
        2 => Symbol::SMinus,
        3 => Symbol::SMul,
        4 => Symbol::SDiv,
        5 => Symbol::SLParen,
        6 => Symbol::SRparen,
        7 => Symbol::SLt,
        8 => Symbol::SGt,
        9 => Symbol::SLte,
        10 => Symbol::SGte,
        11 => Symbol::SSemiColon,
        12 => Symbol::SComma,
        13 => Symbol::SMod,
        14 => Symbol::SExcl,
        15 => Symbol::SEq,
        16 => Symbol::SEeq,
        17 => Symbol::SNe,
        18 => Symbol::SLBrace,
        19 => Symbol::SRBrace,
        20 => Symbol::SAnd,
        21 => Symbol::SOr,
        22 => Symbol::SAndEq,
        23 => Symbol::SOrEq,
        24 => Symbol::SNeg,
        25 => Symbol::SLAnd,
        26 => Symbol::SLOr,
        27 => Symbol::SPlusEq,
        28 => Symbol::SMinusEq,
        29 => Symbol::SIncr,
        30 => Symbol::SDecr,
        31 => Symbol::SMulEq,
        32 => Symbol::SDivEq,
        33 => Symbol::SModEq,
        34 => Symbol::SLBox,
        35 => Symbol::SRBox,
        36 => Symbol::SImpl,
        37 => Symbol::SColon,
        38 => Symbol::SDot,
        39 => Symbol::SResolve,
        _ => Symbol::SDollar,
    }
}

// The keyword of a code, likewise.
pub(crate) fn keyword_of(code: u16) -> Keyword
    requires { code < 28 }
    ensures { result ≡ keyword_at code }
{
    match code {
        0 => Keyword::KInvalid,
        1 => Keyword::KIf,
        2 => Keyword::KElse,
        3 => Keyword::KWhile,
        4 => Keyword::KFor,
        5 => Keyword::KBreak,
        6 => Keyword::KContinue,
        7 => Keyword::KConst,
        8 => Keyword::KVar,
        9 => Keyword::KNone,
        10 => Keyword::KFunc,
        11 => Keyword::KReturn,
        12 => Keyword::KTry,
        13 => Keyword::KCatch,
        14 => Keyword::KFinally,
        15 => Keyword::KRethrow,
        16 => Keyword::KThrow,
        17 => Keyword::KAs,
        18 => Keyword::KTrue,
        19 => Keyword::KFalse,
        20 => Keyword::KForEach,
        21 => Keyword::KIn,
        22 => Keyword::KUse,
        23 => Keyword::KPure,
        24 => Keyword::KLambda,
        25 => Keyword::KAssert,
        26 => Keyword::KThread,
        _ => Keyword::KAsync,
    }
}
