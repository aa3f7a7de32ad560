// The orders and the marks of operators, and whether an expression goes on.
#![tactic(auto)]

ghost use Rattle.std.specs.Prelude.{◌≡◌, ◌||◌, ◌-◌, eqb, ltb};
ghost use Rattle.grammar.specs.Words.{SIncr, SDecr, SLParen, SLBox, order, infix_of, goes_on};
ghost use Rattle.tokens.specs.Tokens.{word};

use tokens::{Symbol, Token};

// The order of a token, 0 for the lowest: get_eval_order.
#[tactic(auto, unfolding(grammar::specs::Words::order, grammar::specs::Words::by_code, grammar::specs::Words::class, grammar::specs::Words::code, grammar::specs::Words::orders))]
pub fn order_of(t: Token) -> usize
    ensures { result ≡ order (word t) }
{
    let Token::Operator(s) = t else {
        return 0;
    };
    match s {
        Symbol::SEq
        | Symbol::SOrEq
        | Symbol::SAndEq
        | Symbol::SPlusEq
        | Symbol::SMinusEq
        | Symbol::SMulEq
        | Symbol::SDivEq
        | Symbol::SModEq => 1,
        Symbol::SLOr => 2,
        Symbol::SLAnd => 3,
        Symbol::SOr => 4,
        Symbol::SAnd => 5,
        Symbol::SEeq | Symbol::SNe => 6,
        Symbol::SGt | Symbol::SLt | Symbol::SLte | Symbol::SGte => 7,
        Symbol::SPlus | Symbol::SMinus => 8,
        Symbol::SMul | Symbol::SDiv | Symbol::SMod => 9,
        Symbol::SNeg | Symbol::SExcl => 10,
        Symbol::SIncr | Symbol::SDecr => 11,
        Symbol::SLParen => 12,
        Symbol::SLBox => 13,
        Symbol::SDot => 14,
        _ => 0,
    }
}

// A bit for each of the 41 symbols, at its code: set for the 23 infix operators.
const INFIXES: u64 = 0x3_9EF3_A79E;

// Whether a token is one of the 23 infix operators: has_infix.
#[tactic(auto, unfolding(grammar::specs::Words::infix_of, grammar::specs::Words::by_code, grammar::specs::Words::class, grammar::specs::Words::code))]
pub fn is_infix(t: Token) -> bool
    ensures { result ≡ ltb 0 (infix_of (word t)) }
{
    let Token::Operator(s) = t else {
        return false;
    };
    (INFIXES >> tokens::symbol_code(s)) & 1 == 1
}

// The mark of an infix operator, 0 for any other token, as its clause has it: parse_infix_expression.
#[tactic(auto, unfolding(grammar::specs::Words::infix_of, grammar::specs::Words::by_code, grammar::specs::Words::class, grammar::specs::Words::code, grammar::specs::Words::infixes))]
pub fn infix_mark(t: Token) -> u32
    ensures { result ≡ infix_of (word t) - 1 }
{
    let Token::Operator(s) = t else {
        return 0;
    };
    match s {
        Symbol::SPlus => 0,
        Symbol::SMinus => 1,
        Symbol::SMul => 2,
        Symbol::SDiv => 3,
        Symbol::SMod => 4,
        Symbol::SAnd => 5,
        Symbol::SOr => 6,
        Symbol::SEq => 7,
        Symbol::SEeq => 8,
        Symbol::SNe => 9,
        Symbol::SGte => 10,
        Symbol::SGt => 11,
        Symbol::SLte => 12,
        Symbol::SLt => 13,
        Symbol::SLOr => 14,
        Symbol::SLAnd => 15,
        Symbol::SPlusEq => 16,
        Symbol::SMinusEq => 17,
        Symbol::SMulEq => 18,
        Symbol::SDivEq => 19,
        Symbol::SAndEq => 20,
        Symbol::SOrEq => 21,
        Symbol::SModEq => 22,
        _ => 0,
    }
}

// Whether a token is one of the two suffix operators: has_suffix.
pub fn is_suffix(t: Token) -> bool
    ensures { result ≡ (eqb (word t) SIncr || eqb (word t) SDecr) }
{
    matches!(t, Token::Operator(Symbol::SIncr | Symbol::SDecr))
}

// Whether a token opens a call or an index.
fn opens(t: Token) -> bool
    ensures { result ≡ (eqb (word t) SLParen || eqb (word t) SLBox) }
{
    matches!(t, Token::Operator(Symbol::SLParen | Symbol::SLBox))
}

// Whether the loop of parse_expression goes on above an order, where the token is next: at an infix or a suffix
// operator, a call and an index. A semicolon has the lowest order, so it needs no test of its own.
#[tactic(auto, using(crate::proofs::Goes::goes))]
pub fn goes_on(order: usize, t: Token) -> bool
    ensures { result ≡ goes_on order (word t) }
{
    order < order_of(t) && (is_suffix(t) || opens(t) || is_infix(t))
}
