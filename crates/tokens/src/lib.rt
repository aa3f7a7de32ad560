// The tokens of a script, and what they carry.
#![tactic(auto)]

mod codes;
mod word;

pub use codes::symbol_code;
pub use word::{class_of, code_of, is_valid, token_of, word_of};

// The symbol that an operator carries, in the order of the codes: SymbolKind.
#[derive(Clone, Copy, Debug, PartialEq, Eq)]
pub enum Symbol {
    SInvalid,
    SPlus,
    SMinus,
    SMul,
    SDiv,
    SLParen,
    SRparen,
    SLt,
    SGt,
    SLte,
    SGte,
    SSemiColon,
    SComma,
    SMod,
    SExcl,
    SEq,
    SEeq,
    SNe,
    SLBrace,
    SRBrace,
    SAnd,
    SOr,
    SAndEq,
    SOrEq,
    SNeg,
    SLAnd,
    SLOr,
    SPlusEq,
    SMinusEq,
    SIncr,
    SDecr,
    SMulEq,
    SDivEq,
    SModEq,
    SLBox,
    SRBox,
    SImpl,
    SColon,
    SDot,
    SResolve,
    SDollar,
}

// The symbol that a keyword carries, in the order of the codes: KeywordKind.
#[derive(Clone, Copy, Debug, PartialEq, Eq)]
pub enum Keyword {
    KInvalid,
    KIf,
    KElse,
    KWhile,
    KFor,
    KBreak,
    KContinue,
    KConst,
    KVar,
    KNone,
    KFunc,
    KReturn,
    KTry,
    KCatch,
    KFinally,
    KRethrow,
    KThrow,
    KAs,
    KTrue,
    KFalse,
    KForEach,
    KIn,
    KUse,
    KPure,
    KLambda,
    KAssert,
    KThread,
    KAsync,
}

// A token, one of the eleven classes: TokenKind.
#[derive(Clone, Copy, Debug, PartialEq, Eq)]
pub enum Token {
    Invalid,
    Empty,
    EOF,
    Integer,
    Str,
    Float,
    Char,
    Identifier,
    Operator(Symbol),
    Keyword(Keyword),
    Unknown,
}
