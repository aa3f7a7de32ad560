// The cursor: the token at a place, the next one, and the step from one to the other.
ghost use Rattle.std.specs.Prelude.{◌≡◌};
ghost use Rattle.grammar.specs.Words.{Identifier, tok, step, is, next_is};
ghost use Rattle.tokens.specs.Tokens.{token, word};

use tokens::{Keyword, Symbol, Token, token_of, word_of};

// A place in an array of token words.
pub type Cursor = usize;

// The word EOF.
pub(crate) const EOF: u16 = 512;

// The word at a place, EOF past the end.
#[tactic(auto, unfolding(grammar::specs::Words::tok))]
fn word_at(tokens: &[u16], c: Cursor) -> u16
    ensures { result ≡ tok tokens.now c }
{
    tokens.get(c).copied().unwrap_or(EOF)
}

// The current token: get_current_token.
pub fn current(tokens: &[u16], c: Cursor) -> Token
    ensures { result ≡ token (tok tokens.now c) }
{
    token_of(word_at(tokens, c))
}

// The cursor one token on, never past the last. The first test keeps the sum in range; one test alone, against the last place, was no faster.
#[tactic(auto, using(std::proofs::lemmas::Bool::Decides::nat_tests), unfolding(grammar::specs::Words::step))]
pub fn iterate(tokens: &[u16], c: Cursor) -> Cursor
    ensures { result ≡ step tokens.now c }
{
    if tokens.len() <= c {
        return c;
    }
    let on = c + 1;
    if on < tokens.len() { on } else { c }
}

// The next token: get_next_token.
pub fn next(tokens: &[u16], c: Cursor) -> Token
    ensures { result ≡ token (tok tokens.now (step tokens.now c)) }
{
    current(tokens, iterate(tokens, c))
}

// Whether the current token is this one.
#[tactic(auto, unfolding(grammar::specs::Words::is))]
pub fn current_is(tokens: &[u16], c: Cursor, t: Token) -> bool
    ensures { result ≡ is tokens.now c (word t) }
{
    word_at(tokens, c) == word_of(t)
}

// Whether the next token is this one.
#[tactic(auto, unfolding(grammar::specs::Words::next_is))]
pub fn next_is(tokens: &[u16], c: Cursor, t: Token) -> bool
    ensures { result ≡ next_is tokens.now c (word t) }
{
    current_is(tokens, iterate(tokens, c), t)
}

// The four below say at each call whether a sign, a keyword or a name is asked for; one test over whatever becomes a token would say less there.

// Whether the current token is an operator.
pub fn current_symbol_is(tokens: &[u16], c: Cursor, s: Symbol) -> bool
    ensures { result ≡ is tokens.now c (word (Token.Operator s)) }
{
    current_is(tokens, c, Token::Operator(s))
}

// Whether the next token is an operator.
pub fn next_symbol_is(tokens: &[u16], c: Cursor, s: Symbol) -> bool
    ensures { result ≡ next_is tokens.now c (word (Token.Operator s)) }
{
    next_is(tokens, c, Token::Operator(s))
}

// Whether the next token is a keyword.
pub fn next_keyword_is(tokens: &[u16], c: Cursor, k: Keyword) -> bool
    ensures { result ≡ next_is tokens.now c (word (Token.Keyword k)) }
{
    next_is(tokens, c, Token::Keyword(k))
}

// Whether the current token is an identifier.
pub fn is_identifier(tokens: &[u16], c: Cursor) -> bool
    ensures { result ≡ is tokens.now c Identifier }
{
    current_is(tokens, c, Token::Identifier)
}
