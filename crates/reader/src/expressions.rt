// The readers of expressions: one cycle, each named after the original's function.
ghost use Rattle.std.specs.Prelude.{◌≡◌, true, false, ◌*◌, ◌≤◌, ◌<◌, length};
ghost use Rattle.grammar.specs.Words.{SRparen, tok, operates};
ghost use Rattle.grammar.specs.Tree.{width};
ghost use Rattle.grammar.specs.Parsed.{turns, WrongSign};
ghost use Rattle.grammar.specs.Expressions as spec;
ghost use Rattle.tokens.specs.Tokens.{word};
ghost use Rattle.tokens.specs.declared.Token.TheVariants as token;
ghost use Rattle.refusals.specs.Reasons.{number};
ghost use Rattle.rows.specs.Rows.{bit};
ghost use Rattle.modes.specs.declared.Due.TheVariants as due;
ghost use Rattle.modes.specs.Modes.{by};
ghost use Rattle.reader.specs.Kinds.{code};
ghost use Rattle.reader.specs.Meets.{Ready, one, many};
ghost use Rattle.reader.specs.Sources.{expr};
ghost use Rattle.reader.specs.Promises.{Fresh, Behind, Follows, Extends};
ghost use Rattle.reader.specs.Promises as contract;

use super::dots::dot_expression;
use super::kind::Kind;
use super::part::{closed, first_of, is_empty, leaf, nothing, put_row, suffix};
use super::source::Source;
use answer::{Piece, Read};
use modes::Due;
use refusals::{Reason, Refusal};
use rows::Flag;
use tokens::{Keyword, Symbol, Token};
use words::Cursor;

// parse_expression, where `allow` more expressions and statements may be open.
#[cycle(expressions)]
pub fn expression(
    source: &Source,
    pool: &mut [u32],
    first: usize,
    c: Cursor,
    order: usize,
    allow: usize,
) -> Read
    requires { Ready source.now.tokens.now pool.old first c }
    ensures { Fresh one (spec.expression (by source.now.mode) source.now.tokens.now allow order) source.now.tokens.now c first result pool.old pool.new }
{
    if allow == 0 {
        return Err(Refusal::new(Reason::TooDeep, c));
    }
    let less = allow - 1;
    let left = prefix_part(source, pool, first, c, less)?;
    if words::next_symbol_is(source.tokens, left.next, Symbol::SSemiColon) {
        let e = words::iterate(source.tokens, left.next);
        return Ok(Piece { next: e, ..left });
    }
    climb(source, pool, first, left, order, less)
}

// The match at the head of parse_expression.
#[cycle(expressions)]
fn prefix_part(source: &Source, pool: &mut [u32], first: usize, c: Cursor, less: usize) -> Read
    requires { Ready source.now.tokens.now pool.old first c }
    ensures { Fresh one (spec.prefix_part (by source.now.mode) source.now.tokens.now (expr source.now less)) source.now.tokens.now c first result pool.old pool.new }
{
    let t = words::current(source.tokens, c);
    match t {
        Token::Identifier => dot_expression(source.tokens, pool, first, c),
        Token::Integer => leaf(pool, first, c, Kind::Int, 0),
        Token::Float => leaf(pool, first, c, Kind::Float, 0),
        Token::Char => leaf(pool, first, c, Kind::Char, 0),
        Token::Str => leaf(pool, first, c, Kind::String, 0),
        Token::Keyword(k) => at_keyword(source, pool, first, c, k, less),
        Token::Operator(s) => at_symbol(source, pool, first, c, s, less),
        _ => Err(Refusal::new(Reason::InvalidToken, c)),
    }
}

// The expressions that begin with a keyword.
#[cycle(expressions)]
fn at_keyword(
    source: &Source,
    pool: &mut [u32],
    first: usize,
    c: Cursor,
    k: Keyword,
    less: usize,
) -> Read
    requires { (Ready source.now.tokens.now pool.old first c) × (tok source.now.tokens.now c ≡ word (token.Keyword k)) }
    ensures { Fresh one (spec.prefix_part (by source.now.mode) source.now.tokens.now (expr source.now less)) source.now.tokens.now c first result pool.old pool.new }
{
    match k {
        Keyword::KTrue => leaf(pool, first, c, Kind::Bool, 1),
        Keyword::KFalse => leaf(pool, first, c, Kind::Bool, 0),
        Keyword::KLambda => lambda(source, pool, first, c, less),
        Keyword::KNone => leaf(pool, first, c, Kind::None, 0),
        Keyword::KThread => started(source, pool, first, c, Flag::Thread, less),
        Keyword::KAsync => started(source, pool, first, c, Flag::Async, less),
        _ => Err(Refusal::new(Reason::NotImplemented, c)),
    }
}

// The expressions that begin with an operator.
#[cycle(expressions)]
fn at_symbol(
    source: &Source,
    pool: &mut [u32],
    first: usize,
    c: Cursor,
    s: Symbol,
    less: usize,
) -> Read
    requires { (Ready source.now.tokens.now pool.old first c) × (tok source.now.tokens.now c ≡ word (token.Operator s)) }
    ensures { Fresh one (spec.prefix_part (by source.now.mode) source.now.tokens.now (expr source.now less)) source.now.tokens.now c first result pool.old pool.new }
{
    match s {
        Symbol::SLBox => array(source, pool, first, c, less),
        Symbol::SLBrace => hash(source, pool, first, c, less),
        Symbol::SIncr => prefix(source, pool, first, c, 0, less),
        Symbol::SDecr => prefix(source, pool, first, c, 1, less),
        Symbol::SExcl => prefix(source, pool, first, c, 2, less),
        Symbol::SNeg => prefix(source, pool, first, c, 3, less),
        Symbol::SLParen => sub_exp(source, pool, first, c, less),
        Symbol::SDollar => shell(source, pool, first, c, less),
        _ => Err(Refusal::new(Reason::InvalidSymbol, c)),
    }
}

// A row of one child, the expression that begins at the cursor.
#[cycle(expressions)]
pub fn around(
    source: &Source,
    pool: &mut [u32],
    first: usize,
    c: Cursor,
    kind: Kind,
    mark: u32,
    place: usize,
    less: usize,
) -> Read
    requires { (Ready source.now.tokens.now pool.old first c) × (place < 65536) }
    ensures { Fresh one (contract.around (expr source.now less) (code kind) mark place) source.now.tokens.now c first result pool.old pool.new }
{
    let child = expression(source, pool, first, c, 0, less)?;
    put_row(
        pool, first, child.rows, child.next, kind, mark, place, child.head, 0, 0, 0,
    )
}

// parse_prefix_expression, by the mark of its operator.
#[cycle(expressions)]
fn prefix(
    source: &Source,
    pool: &mut [u32],
    first: usize,
    c: Cursor,
    mark: u32,
    less: usize,
) -> Read
    requires { Ready source.now.tokens.now pool.old first c }
    ensures { Fresh one (spec.prefix (by source.now.mode) source.now.tokens.now (expr source.now less) mark) source.now.tokens.now c first result pool.old pool.new }
{
    let d = words::iterate(source.tokens, c);
    around(source, pool, first, d, Kind::Prefix, mark, c, less)
}

// parse_shell_expression
#[cycle(expressions)]
fn shell(source: &Source, pool: &mut [u32], first: usize, c: Cursor, less: usize) -> Read
    requires { Ready source.now.tokens.now pool.old first c }
    ensures { Fresh one (spec.shell (by source.now.mode) source.now.tokens.now (expr source.now less)) source.now.tokens.now c first result pool.old pool.new }
{
    let d = words::iterate(source.tokens, c);
    if words::next_symbol_is(source.tokens, c, Symbol::SDot) {
        let e = words::iterate(source.tokens, d);
        return around(source, pool, first, e, Kind::Shell, 1, c, less);
    }
    around(source, pool, first, d, Kind::Shell, 0, c, less)
}

// An expression, or a pair of a hash.
#[cycle(expressions)]
fn item(
    source: &Source,
    pool: &mut [u32],
    first: usize,
    c: Cursor,
    order: usize,
    paired: bool,
    less: usize,
) -> Read
    requires { Ready source.now.tokens.now pool.old first c }
    ensures { Fresh one (contract.item (by source.now.mode) source.now.tokens.now (expr source.now less) order paired) source.now.tokens.now c first result pool.old pool.new }
{
    if paired {
        return pair(source, pool, first, c, less);
    }
    expression(source, pool, first, c, order, less)
}

// An item behind the first `rows` rows of the part. `actual` and, of statements, `one_behind` and `block_behind` do the same for other readers: they
// stay four functions, since a cycle of calls gets no proof through a closure.
#[cycle(expressions)]
#[inline(always)]
pub fn behind(
    source: &Source,
    pool: &mut [u32],
    first: usize,
    rows: usize,
    c: Cursor,
    order: usize,
    paired: bool,
    less: usize,
) -> Read
    requires { (Ready source.now.tokens.now pool.old first c) × (width * rows ≤ length pool.old) }
    ensures { Behind one (contract.item (by source.now.mode) source.now.tokens.now (expr source.now less) order paired) source.now.tokens.now c first rows result pool.old pool.new }
{
    let i = rows::end(rows as u32);
    let one = item(source, &mut pool[i..], first + rows, c, order, paired, less)?;
    Ok(Piece {
        rows: rows + one.rows,
        ..one
    })
}

// The entries of a list behind the first: the loops of parse_list_expr and parse_hash_literal.
#[cycle(expressions)]
fn entries(
    source: &Source,
    pool: &mut [u32],
    first: usize,
    front: Piece,
    paired: bool,
    less: usize,
) -> Read
    requires { (Ready source.now.tokens.now pool.old first front.next) × (width * front.rows ≤ length pool.old) }
    ensures { Extends (spec.entries (by source.now.mode) source.now.tokens.now (expr source.now less) (contract.item (by source.now.mode) source.now.tokens.now (expr source.now less) 0 paired) turns) source.now.tokens.now front.next first front.rows front.head result pool.old pool.new }
{
    let mut all = front;
    // The cursor moves by what was read, so no iterator goes over the tokens.
    while words::next_symbol_is(source.tokens, all.next, Symbol::SComma) {
        let e = words::iterate(source.tokens, words::iterate(source.tokens, all.next));
        let one = behind(source, pool, first, all.rows, e, 0, paired, less)?;
        rows::link(pool, all.rows, one.head);
        all = Piece {
            head: first_of(all.rows, all.head, one.head),
            ..one
        };
    }
    Ok(all)
}

// parse_list_expr; or the pairs of a hash, behind its sign.
#[cycle(expressions)]
fn list(
    source: &Source,
    pool: &mut [u32],
    first: usize,
    c: Cursor,
    paired: bool,
    less: usize,
) -> Read
    requires { Ready source.now.tokens.now pool.old first c }
    ensures { Fresh many (contract.items (by source.now.mode) source.now.tokens.now (expr source.now less) paired) source.now.tokens.now c first result pool.old pool.new }
{
    if is_empty(source.tokens, c, paired) {
        return Ok(nothing(c));
    }
    let e = words::iterate(source.tokens, c);
    let one = behind(source, pool, first, 0, e, 0, paired, less)?;
    entries(source, pool, first, one, paired, less)
}

// A list and its closing sign, which comes next where it is due, or else the refusal for `reason`.
#[cycle(expressions)]
pub fn enclosed(
    source: &Source,
    pool: &mut [u32],
    first: usize,
    c: Cursor,
    paired: bool,
    close: Symbol,
    due: Due,
    reason: Reason,
    less: usize,
) -> Read
    requires { Ready source.now.tokens.now pool.old first c }
    ensures { Fresh many (contract.closed_list due (by source.now.mode) source.now.tokens.now (expr source.now less) paired (word (token.Operator close)) (number reason)) source.now.tokens.now c first result pool.old pool.new }
{
    let members = list(source, pool, first, c, paired, less)?;
    if !modes::comes(source.tokens, members.next, close, due) {
        return Err(Refusal::new(reason, members.next));
    }
    let e = words::iterate(source.tokens, members.next);
    Ok(Piece { next: e, ..members })
}

// parse_pair
#[cycle(expressions)]
fn pair(source: &Source, pool: &mut [u32], first: usize, c: Cursor, less: usize) -> Read
    requires { Ready source.now.tokens.now pool.old first c }
    ensures { Fresh one (spec.pair (by source.now.mode) source.now.tokens.now (expr source.now less)) source.now.tokens.now c first result pool.old pool.new }
{
    let key = expression(source, pool, first, c, 0, less)?;
    let e = words::iterate(source.tokens, key.next);
    if !words::next_symbol_is(source.tokens, key.next, Symbol::SColon) {
        return Err(Refusal::new(Reason::ExpectedColon, key.next));
    }
    let v = words::iterate(source.tokens, e);
    let value = behind(source, pool, first, key.rows, v, 0, false, less)?;
    put_row(
        pool,
        first,
        value.rows,
        value.next,
        Kind::Pair,
        0,
        e,
        key.head,
        value.head,
        0,
        0,
    )
}

// parse_hash_literal
#[cycle(expressions)]
fn hash(source: &Source, pool: &mut [u32], first: usize, c: Cursor, less: usize) -> Read
    requires { Ready source.now.tokens.now pool.old first c }
    ensures { Fresh one (spec.hash_literal (by source.now.mode) source.now.tokens.now (expr source.now less)) source.now.tokens.now c first result pool.old pool.new }
{
    let d = words::iterate(source.tokens, c);
    if words::next_symbol_is(source.tokens, c, Symbol::SRBrace) {
        return put_row(pool, first, 0, d, Kind::Hash, 0, c, 0, 0, 0, 0);
    }
    let pairs = enclosed(
        source,
        pool,
        first,
        c,
        true,
        Symbol::SRBrace,
        Due::Always,
        Reason::HashNotTerminated,
        less,
    )?;
    put_row(
        pool,
        first,
        pairs.rows,
        pairs.next,
        Kind::Hash,
        0,
        c,
        pairs.head,
        0,
        0,
        0,
    )
}

// parse_array_expression. It is like `hash`, but each stands for its function of the original, and one contract for both would name both.
#[cycle(expressions)]
fn array(source: &Source, pool: &mut [u32], first: usize, c: Cursor, less: usize) -> Read
    requires { Ready source.now.tokens.now pool.old first c }
    ensures { Fresh one (spec.array (by source.now.mode) source.now.tokens.now (expr source.now less)) source.now.tokens.now c first result pool.old pool.new }
{
    let d = words::iterate(source.tokens, c);
    if words::next_symbol_is(source.tokens, c, Symbol::SRBox) {
        return put_row(pool, first, 0, d, Kind::Array, 0, c, 0, 0, 0, 0);
    }
    let values = enclosed(
        source,
        pool,
        first,
        c,
        false,
        Symbol::SRBox,
        Due::Always,
        Reason::ArrayNotTerminated,
        less,
    )?;
    put_row(
        pool,
        first,
        values.rows,
        values.next,
        Kind::Array,
        0,
        c,
        values.head,
        0,
        0,
        0,
    )
}

// parse_lambda_exp
#[cycle(expressions)]
fn lambda(source: &Source, pool: &mut [u32], first: usize, c: Cursor, less: usize) -> Read
    requires { Ready source.now.tokens.now pool.old first c }
    ensures { Fresh one (spec.lambda (by source.now.mode) source.now.tokens.now (expr source.now less)) source.now.tokens.now c first result pool.old pool.new }
{
    if words::next_symbol_is(source.tokens, c, Symbol::SSemiColon) {
        return Err(Refusal::new(Reason::InvalidSyntax, c));
    }
    if words::next_symbol_is(source.tokens, c, Symbol::SImpl) {
        return Err(Refusal::new(Reason::NoParameters, c));
    }
    let parameters = enclosed(
        source,
        pool,
        first,
        c,
        false,
        Symbol::SImpl,
        Due::Always,
        Reason::ExpectedArrow,
        less,
    )?;
    let e = words::iterate(source.tokens, parameters.next);
    let inner = behind(source, pool, first, parameters.rows, e, 0, false, less)?;
    put_row(
        pool,
        first,
        inner.rows,
        inner.next,
        Kind::Lambda,
        0,
        c,
        parameters.head,
        inner.head,
        0,
        0,
    )
}

// parse_thread_exp and parse_async_expr, by the flag that they set.
#[cycle(expressions)]
fn started(
    source: &Source,
    pool: &mut [u32],
    first: usize,
    c: Cursor,
    flag: Flag,
    less: usize,
) -> Read
    requires { Ready source.now.tokens.now pool.old first c }
    ensures { Fresh one (spec.started (by source.now.mode) source.now.tokens.now (expr source.now less) (bit flag)) source.now.tokens.now c first result pool.old pool.new }
{
    let e = words::iterate(source.tokens, c);
    let child = expression(source, pool, first, e, 0, less)?;
    if rows::word(pool, child.rows, rows::KIND) != Kind::Call.code() {
        return Err(Refusal::new(Reason::NotCallable, child.next));
    }
    rows::mark(pool, child.rows, flag);
    Ok(child)
}

// parse_sub_expression
#[cycle(expressions)]
fn sub_exp(source: &Source, pool: &mut [u32], first: usize, c: Cursor, less: usize) -> Read
    requires { Ready source.now.tokens.now pool.old first c }
    ensures { Fresh one (spec.sub_expression (by source.now.mode) source.now.tokens.now (expr source.now less)) source.now.tokens.now c first result pool.old pool.new }
{
    let d = words::iterate(source.tokens, c);
    if words::next_symbol_is(source.tokens, d, Symbol::SRparen) {
        return Err(Refusal::new(Reason::InvalidSyntax, d));
    }
    let child = expression(source, pool, first, d, 0, less)?;
    if !words::next_symbol_is(source.tokens, child.next, Symbol::SRparen) {
        return Err(Refusal::new(Reason::InvalidSyntax, child.next));
    }
    rows::mark(pool, child.rows, Flag::Grouped);
    Ok(Piece {
        next: words::iterate(source.tokens, child.next),
        ..child
    })
}

// The loop of parse_expression, above an order and behind the left side that was read.
#[cycle(expressions)]
fn climb(
    source: &Source,
    pool: &mut [u32],
    first: usize,
    left: Piece,
    order: usize,
    less: usize,
) -> Read
    requires { (Ready source.now.tokens.now pool.old first left.next) × (width * left.rows ≤ length pool.old) }
    ensures { Follows (spec.climb (by source.now.mode) source.now.tokens.now (expr source.now less) order turns) source.now.tokens.now left.next first left.rows left.head result pool.old pool.new }
{
    let mut tree = left;
    // The cursor moves by what was read, here too.
    while orders::goes_on(order, words::next(source.tokens, tree.next)) {
        let at = words::iterate(source.tokens, tree.next);
        tree = operation(source, pool, first, Piece { next: at, ..tree }, less)?;
    }
    Ok(tree)
}

// What an operator does behind its left side, whose cursor is at the operator: the branches in the loop of parse_expression.
// `climb` comes here with operators only, so the first branch is never taken; `infix_exp` has one caller, and is compiled into it.
#[cycle(expressions)]
fn operation(source: &Source, pool: &mut [u32], first: usize, left: Piece, less: usize) -> Read
    requires { (Ready source.now.tokens.now pool.old first left.next) × (width * left.rows ≤ length pool.old) × (operates (tok source.now.tokens.now left.next) ≡ true) }
    ensures { Follows (spec.operation (by source.now.mode) source.now.tokens.now (expr source.now less)) source.now.tokens.now left.next first left.rows left.head result pool.old pool.new }
{
    let t = words::current(source.tokens, left.next);
    let Token::Operator(s) = t else {
        return Err(Refusal::new(Reason::InvalidToken, left.next));
    };
    match s {
        Symbol::SIncr => suffix(pool, first, left, 0),
        Symbol::SDecr => suffix(pool, first, left, 1),
        Symbol::SLParen => call(source, pool, first, left, less),
        Symbol::SLBox => index(source, pool, first, left, less),
        _ => infix_exp(source, pool, first, left, less),
    }
}

// parse_infix_expression
#[cycle(expressions)]
fn infix_exp(source: &Source, pool: &mut [u32], first: usize, left: Piece, less: usize) -> Read
    requires { (Ready source.now.tokens.now pool.old first left.next) × (width * left.rows ≤ length pool.old) }
    ensures { Follows (spec.infix_expression (by source.now.mode) source.now.tokens.now (expr source.now less)) source.now.tokens.now left.next first left.rows left.head result pool.old pool.new }
{
    let t = words::current(source.tokens, left.next);
    let d = words::iterate(source.tokens, left.next);
    let order = orders::order_of(t);
    let right = behind(source, pool, first, left.rows, d, order, false, less)?;
    put_row(
        pool,
        first,
        right.rows,
        right.next,
        Kind::Infix,
        orders::infix_mark(t),
        left.next,
        left.head,
        right.head,
        0,
        0,
    )
}

// The arguments of a call and their closing sign, which is due by the mode, behind the first `rows` rows of the part.
#[cycle(expressions)]
fn actual(
    source: &Source,
    pool: &mut [u32],
    first: usize,
    rows: usize,
    c: Cursor,
    less: usize,
) -> Read
    requires { (Ready source.now.tokens.now pool.old first c) × (width * rows ≤ length pool.old) }
    ensures { Behind many (contract.closed_list (due.By source.now.mode) (by source.now.mode) source.now.tokens.now (expr source.now less) false SRparen WrongSign) source.now.tokens.now c first rows result pool.old pool.new }
{
    let i = rows::end(rows as u32);
    let arguments = enclosed(
        source,
        &mut pool[i..],
        first + rows,
        c,
        false,
        Symbol::SRparen,
        Due::By(source.mode),
        Reason::WrongSign,
        less,
    )?;
    Ok(Piece {
        rows: rows + arguments.rows,
        ..arguments
    })
}

// parse_call_expression: with arguments any token closes it, unless the mode asks for the right one.
#[cycle(expressions)]
fn call(source: &Source, pool: &mut [u32], first: usize, left: Piece, less: usize) -> Read
    requires { (Ready source.now.tokens.now pool.old first left.next) × (width * left.rows ≤ length pool.old) }
    ensures { Follows (spec.call (by source.now.mode) source.now.tokens.now (expr source.now less)) source.now.tokens.now left.next first left.rows left.head result pool.old pool.new }
{
    if words::next_symbol_is(source.tokens, left.next, Symbol::SRparen) {
        let d = words::iterate(source.tokens, left.next);
        return put_row(
            pool,
            first,
            left.rows,
            d,
            Kind::Call,
            0,
            left.next,
            left.head,
            0,
            0,
            0,
        );
    }
    let arguments = actual(source, pool, first, left.rows, left.next, less)?;
    put_row(
        pool,
        first,
        arguments.rows,
        arguments.next,
        Kind::Call,
        0,
        left.next,
        left.head,
        arguments.head,
        0,
        0,
    )
}

// parse_index_expression
#[cycle(expressions)]
fn index(source: &Source, pool: &mut [u32], first: usize, left: Piece, less: usize) -> Read
    requires { (Ready source.now.tokens.now pool.old first left.next) × (width * left.rows ≤ length pool.old) }
    ensures { Follows (spec.index (by source.now.mode) source.now.tokens.now (expr source.now less)) source.now.tokens.now left.next first left.rows left.head result pool.old pool.new }
{
    let e = words::iterate(source.tokens, left.next);
    let key = behind(source, pool, first, left.rows, e, 0, false, less)?;
    closed(
        source.tokens,
        pool,
        first,
        key.rows,
        key.next,
        Symbol::SRBox,
        Reason::InvalidSyntax,
        Kind::Index,
        left.next,
        left.head,
        key.head,
    )
}
