// A token's word and a word's token.
ghost use Rattle.std.specs.Prelude.{◌≡◌};
ghost use Rattle.grammar.specs.Words.{class, code, valid};
ghost use Rattle.tokens.specs.Tokens.{token, word};

use crate::Token;
use crate::codes::{keyword_of, symbol_of};

// The upper eight bits of a word.
#[tactic(auto, unfolding(grammar::specs::Words::class))]
pub fn class_of(word: u16) -> u16
    ensures { result ≡ class word }
{
    word >> 8
}

// The lower eight bits of a word.
#[tactic(auto, using(crate::proofs::Round::low_bits), unfolding(grammar::specs::Words::code))]
pub fn code_of(word: u16) -> u16
    ensures { result ≡ code word }
{
    word & 255
}

// Whether a word has one of the classes and one of its codes.
#[tactic(auto, using(crate::proofs::Round::counts, std::proofs::lemmas::Bool::Decides::nat_tests), unfolding(grammar::specs::Words::valid, grammar::specs::Words::codes))]
pub fn is_valid(word: u16) -> bool
    ensures { result ≡ valid word }
{
    let class = class_of(word);
    let code = code_of(word);
    match class {
        8 => code < 41,
        9 => code < 28,
        _ => class < 11 && code < 1,
    }
}

// The token of a word; a bad class or code gives Invalid.
impl From<u16> for Token {
    ghost from_gives = { λ w t. t ≡ token w };

    #[tactic(auto, using(crate::proofs::Round::told), unfolding(grammar::specs::Words::codes))]
    fn from(word: u16) -> Token {
        if !is_valid(word) {
            return Token::Invalid;
        }
        let code = code_of(word);
        let class = class_of(word);
        match class {
            1 => Token::Empty,
            2 => Token::EOF,
            3 => Token::Integer,
            4 => Token::Str,
            5 => Token::Float,
            6 => Token::Char,
            7 => Token::Identifier,
            8 => Token::Operator(symbol_of(code)),
            9 => Token::Keyword(keyword_of(code)),
            10 => Token::Unknown,
            _ => Token::Invalid,
        }
    }
}

// The word of a token.
impl From<Token> for u16 {
    ghost from_gives = { λ t w. w ≡ word t };

    fn from(t: Token) -> u16 {
        match t {
            Token::Invalid => 0,
            Token::Empty => 256,
            Token::EOF => 512,
            Token::Integer => 768,
            Token::Str => 1024,
            Token::Float => 1280,
            Token::Char => 1536,
            Token::Identifier => 1792,
            Token::Operator(s) => 2048 + u16::from(u8::from(s)),
            Token::Keyword(k) => 2304 + u16::from(u8::from(k)),
            Token::Unknown => 2560,
        }
    }
}

// The two conversions by name: what reads tokens and writes them goes by these.
pub fn token_of(word: u16) -> Token
    ensures { result ≡ token word }
{
    Token::from(word)
}

pub fn word_of(t: Token) -> u16
    ensures { result ≡ word t }
{
    u16::from(t)
}
