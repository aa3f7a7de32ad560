// The statements that hold expressions alone.
ghost use Rattle.std.specs.Prelude.{◌*◌, ◌≤◌, length};
ghost use Rattle.grammar.specs.Words.{SSemiColon, step};
ghost use Rattle.grammar.specs.Tree.{leaf, node, nil, width};
ghost use Rattle.grammar.specs.Statements as spec;
ghost use Rattle.refusals.specs.Reasons.{number};
ghost use Rattle.tokens.specs.Tokens.{word};
ghost use Rattle.modes.specs.Modes.{by};
ghost use Rattle.reader.specs.Kinds.{code};
ghost use Rattle.reader.specs.Meets.{Ready, one};
ghost use Rattle.reader.specs.Sources.{expr, stmt};
ghost use Rattle.reader.specs.Promises.{Fresh, Behind};
ghost use Rattle.reader.specs.Promises as contract;

use super::expressions::{around, behind, expression};
use super::kind::Kind;
use super::part::{closed, put_row};
use super::source::Source;
use answer::{Piece, Read};
use refusals::{Reason, Refusal};
use tokens::{Symbol, Token};
use words::Cursor;

// A statement of one row that ends in a semicolon, or else the refusal for `reason`: break and continue.
pub fn alone(
    tokens: &[u16],
    pool: &mut [u32],
    first: usize,
    c: Cursor,
    kind: Kind,
    reason: Reason,
) -> Read
    requires { Ready tokens.now pool.old first c }
    ensures { Fresh one (λ at. contract.closed tokens.now SSemiColon (number reason) (leaf (code kind) 0 at) at) tokens.now c first result pool.old pool.new }
{
    closed(
        tokens,
        pool,
        first,
        0,
        c,
        Symbol::SSemiColon,
        reason,
        kind,
        c,
        0,
        0,
    )
}

// A sign that comes next, or else the refusal for `reason`; and the expression after it, behind what was read last.
pub fn behind_sign(
    source: &Source,
    pool: &mut [u32],
    first: usize,
    last: Piece,
    sign: Token,
    reason: Reason,
    less: usize,
) -> Read
    requires { (Ready source.now.tokens.now pool.old first last.next) × (width * last.rows ≤ length pool.old) }
    ensures { Behind one (contract.behind_sign source.now.tokens.now (expr source.now less) (word sign) (number reason)) source.now.tokens.now last.next first last.rows result pool.old pool.new }
{
    if !words::next_is(source.tokens, last.next, sign) {
        return Err(Refusal::new(reason, last.next));
    }
    let d = words::iterate(source.tokens, words::iterate(source.tokens, last.next));
    behind(source, pool, first, last.rows, d, 0, false, less)
}

// parse_assert_statement
pub fn assert_statement(
    source: &Source,
    pool: &mut [u32],
    first: usize,
    c: Cursor,
    less: usize,
) -> Read
    requires { Ready source.now.tokens.now pool.old first c }
    ensures { Fresh one (spec.assert (by source.now.mode) source.now.tokens.now (expr source.now less) (stmt source.now less)) source.now.tokens.now c first result pool.old pool.new }
{
    let s = words::iterate(source.tokens, c);
    let condition = expression(source, pool, first, s, 0, less)?;
    if words::next_symbol_is(source.tokens, condition.next, Symbol::SSemiColon) {
        let e = words::iterate(source.tokens, condition.next);
        return Err(Refusal::new(Reason::AssertWithoutAction, e));
    }
    let comma = Token::Operator(Symbol::SComma);
    let missing = Reason::AssertWithoutComma;
    let action = behind_sign(source, pool, first, condition, comma, missing, less)?;
    put_row(
        pool,
        first,
        action.rows,
        action.next,
        Kind::Assert,
        0,
        c,
        condition.head,
        action.head,
        0,
        0,
    )
}

// The value of parse_var_or_const, behind the name.
fn value(
    source: &Source,
    pool: &mut [u32],
    first: usize,
    c: Cursor,
    kind: Kind,
    less: usize,
) -> Read
    requires { Ready source.now.tokens.now pool.old first c }
    ensures { Fresh one (λ at. spec.value (by source.now.mode) source.now.tokens.now (expr source.now less) (stmt source.now less) (λ v. node (code kind) 0 at v nil nil nil 0) (step source.now.tokens.now at)) source.now.tokens.now c first result pool.old pool.new }
{
    let d = words::iterate(source.tokens, c);
    if !words::current_symbol_is(source.tokens, d, Symbol::SEq) {
        return Err(Refusal::new(Reason::ExpectedEq, d));
    }
    let e = words::iterate(source.tokens, d);
    around(source, pool, first, e, kind, 0, c, less)
}

// parse_var_or_const, by the kind of its row, at the name.
pub fn var_or_const(
    source: &Source,
    pool: &mut [u32],
    first: usize,
    c: Cursor,
    kind: Kind,
    less: usize,
) -> Read
    requires { Ready source.now.tokens.now pool.old first c }
    ensures { Fresh one (contract.var_or_const (by source.now.mode) source.now.tokens.now (expr source.now less) (stmt source.now less) (code kind)) source.now.tokens.now c first result pool.old pool.new }
{
    if !words::is_identifier(source.tokens, c) {
        return Err(Refusal::new(Reason::InvalidIdentifier, c));
    }
    if words::next_symbol_is(source.tokens, c, Symbol::SSemiColon) {
        let d = words::iterate(source.tokens, c);
        if kind.is_const() {
            return Err(Refusal::new(Reason::ConstWithoutValue, d));
        }
        return put_row(pool, first, 0, d, kind, 0, c, 0, 0, 0, 0);
    }
    value(source, pool, first, c, kind, less)
}

// parse_return_statement
pub fn return_statement(
    source: &Source,
    pool: &mut [u32],
    first: usize,
    c: Cursor,
    less: usize,
) -> Read
    requires { Ready source.now.tokens.now pool.old first c }
    ensures { Fresh one (spec.return (by source.now.mode) source.now.tokens.now (expr source.now less) (stmt source.now less)) source.now.tokens.now c first result pool.old pool.new }
{
    let d = words::iterate(source.tokens, c);
    if words::next_symbol_is(source.tokens, c, Symbol::SSemiColon) {
        return put_row(pool, first, 0, d, Kind::Return, 0, c, 0, 0, 0, 0);
    }
    around(source, pool, first, d, Kind::Return, 0, c, less)
}
