// Names and dotted names.
ghost use Rattle.std.specs.Prelude.{◌≡◌};
ghost use Rattle.grammar.specs.Words.{Identifier, tok};
ghost use Rattle.grammar.specs.Tree.{nil};
ghost use Rattle.grammar.specs.Parsed.{turns};
ghost use Rattle.grammar.specs.Expressions as spec;
ghost use Rattle.reader.specs.Meets.{Ready, one, many};
ghost use Rattle.reader.specs.Promises.{Fresh};

use super::kind::Kind;
use super::part::{first_of, leaf, nothing, put_row};
use answer::{Piece, Read};
use refusals::{Reason, Refusal};
use tokens::Symbol;
use words::Cursor;

// The names behind dots: the loop of parse_dot_expression.
fn dots(tokens: &[u16], pool: &mut [u32], first: usize, c: Cursor) -> Read
    requires { Ready tokens.now pool.old first c }
    ensures { Fresh many (spec.dots tokens.now turns nil) tokens.now c first result pool.old pool.new }
{
    let mut all = nothing(c);
    // The cursor moves by what was read, so no iterator goes over the tokens.
    while words::next_symbol_is(tokens, all.next, Symbol::SDot) {
        let e = words::iterate(tokens, words::iterate(tokens, all.next));
        if !words::is_identifier(tokens, e) {
            return Err(Refusal::new(Reason::InvalidIdentifier, e));
        }
        let name = put_row(pool, first, all.rows, e, Kind::Name, 0, e, 0, 0, 0, 0)?;
        rows::link(pool, all.rows, name.head);
        all = Piece {
            head: first_of(all.rows, all.head, name.head),
            ..name
        };
    }
    Ok(all)
}

// parse_dot_expression
pub fn dot_expression(tokens: &[u16], pool: &mut [u32], first: usize, c: Cursor) -> Read
    requires { (Ready tokens.now pool.old first c) × (tok tokens.now c ≡ Identifier) }
    ensures { Fresh one (spec.dot_expression tokens.now) tokens.now c first result pool.old pool.new }
{
    let name = leaf(pool, first, c, Kind::Identifier, 0)?;
    if !words::next_symbol_is(tokens, name.next, Symbol::SDot) {
        return Ok(name);
    }
    let i = rows::end(name.rows as u32);
    let names = dots(tokens, &mut pool[i..], first + name.rows, name.next)?;
    put_row(
        pool,
        first,
        name.rows + names.rows,
        names.next,
        Kind::Attribute,
        0,
        c,
        name.head,
        names.head,
        0,
        0,
    )
}
