// The mode of reading, the signs that it asks for, and how deep any mode reads.
#![tactic(auto)]

ghost use Rattle.std.specs.Prelude.{◌≡◌};
ghost use Rattle.grammar.specs.Script.{nesting};
ghost use Rattle.tokens.specs.Tokens.{word};
ghost use Rattle.tokens.specs.declared.Token.TheVariants as token;
ghost use Rattle.modes.specs.Modes.{chosen, asked, comes};

use tokens::Symbol;
use words::Cursor;

// The original's rules; or strict ones, by which a call with arguments must be closed, and the bodies of while, foreach and
// finally opened, by the right sign.
#[derive(Clone, Copy, Debug, PartialEq, Eq)]
pub enum Mode {
    Old,
    Strict,
}

// When a sign must come next: always, or by the mode.
#[derive(Clone, Copy, Debug, PartialEq, Eq)]
pub enum Due {
    Always,
    By(Mode),
}

// How many expressions and statements may be open at once.
const NESTING: usize = 64;

// The same, for the readers: the clause ties it to the definition, and a `const` has none.
#[tactic(auto, unfolding(grammar::specs::Script::nesting))]
pub fn nesting() -> usize
    ensures { result ≡ nesting }
{
    NESTING
}

// The mode by whether it is strict. Not a `From<bool>`, which would not say what is true.
pub fn mode_of(strict: bool) -> Mode
    ensures { result ≡ chosen strict }
{
    if strict { Mode::Strict } else { Mode::Old }
}

// Whether a sign must come next.
fn is_due(due: Due) -> bool
    ensures { result ≡ asked due }
{
    matches!(due, Due::Always | Due::By(Mode::Strict))
}

// Whether a sign comes next, where it must.
#[tactic(auto, using(crate::proofs::Signs::sign))]
pub fn comes(tokens: &[u16], c: Cursor, s: Symbol, due: Due) -> bool
    ensures { result ≡ comes due tokens.now c (word (token.Operator s)) }
{
    !is_due(due) || words::next_symbol_is(tokens, c, s)
}
