// The readers of statements and blocks: one cycle, each named after the original's function.
ghost use Rattle.std.specs.Prelude.{◌≡◌, ◌*◌, ◌≤◌, ◌&&◌, length};
ghost use Rattle.grammar.specs.Words.{SSemiColon, tok, next_is};
ghost use Rattle.grammar.specs.Tree.{width};
ghost use Rattle.grammar.specs.Parsed.{turns};
ghost use Rattle.grammar.specs.Statements as spec;
ghost use Rattle.refusals.specs.Reasons.{number};
ghost use Rattle.tokens.specs.Tokens.{word};
ghost use Rattle.tokens.specs.declared.Token.TheVariants as token;
ghost use Rattle.modes.specs.Modes.{by};
ghost use Rattle.reader.specs.Meets.{Ready, one, many};
ghost use Rattle.reader.specs.Sources.{expr, stmt};
ghost use Rattle.reader.specs.Promises.{Fresh, Behind, Extends, Begun, further};
ghost use Rattle.reader.specs.Promises as contract;

use super::expressions::{around, enclosed, expression};
use super::kind::Kind;
use super::part::{first_of, nothing, put_row};
use super::simple::{alone, assert_statement, behind_sign, return_statement, var_or_const};
use super::source::Source;
use answer::{Piece, Read};
use modes::Due;
use refusals::{Reason, Refusal};
use tokens::{Keyword, Symbol, Token};
use words::Cursor;

// parse_statement, where `allow` more expressions and statements may be open.
#[cycle(statements)]
pub fn statement(source: &Source, pool: &mut [u32], first: usize, c: Cursor, allow: usize) -> Read
    requires { Ready source.now.tokens.now pool.old first c }
    ensures { Fresh many (stmt source.now allow) source.now.tokens.now c first result pool.old pool.new }
{
    if allow == 0 {
        return Err(Refusal::new(Reason::TooDeep, c));
    }
    let less = allow - 1;
    let t = words::current(source.tokens, c);
    match t {
        Token::Empty => Ok(nothing(c)),
        Token::Keyword(k) => at_keyword(source, pool, first, c, k, less),
        _ => around(source, pool, first, c, Kind::Expression, 0, c, less),
    }
}

// Whether a statement that begins with a keyword may not end right behind it.
#[tactic(auto, unfolding(crate::specs::Promises::further))]
fn goes_further(k: Keyword) -> bool
    ensures { result ≡ further (word (token.Keyword k)) }
{
    matches!(
        k,
        Keyword::KVar
            | Keyword::KConst
            | Keyword::KIf
            | Keyword::KAssert
            | Keyword::KWhile
            | Keyword::KFunc
            | Keyword::KFor
            | Keyword::KThrow
            | Keyword::KTry
            | Keyword::KForEach
    )
}

// Whether a statement that begins with a keyword ends right behind it, and may not.
fn ends_too_soon(tokens: &[u16], c: Cursor, k: Keyword) -> bool
    ensures { result ≡ further (word (token.Keyword k)) && next_is tokens.now c SSemiColon }
{
    goes_further(k) && words::next_symbol_is(tokens, c, Symbol::SSemiColon)
}

// The statements that begin with a keyword.
#[cycle(statements)]
fn at_keyword(
    source: &Source,
    pool: &mut [u32],
    first: usize,
    c: Cursor,
    k: Keyword,
    less: usize,
) -> Read
    requires { (Ready source.now.tokens.now pool.old first c) × (tok source.now.tokens.now c ≡ word (token.Keyword k)) }
    ensures { Fresh one (spec.kept (by source.now.mode) source.now.tokens.now (expr source.now less) (stmt source.now less)) source.now.tokens.now c first result pool.old pool.new }
{
    let d = words::iterate(source.tokens, c);
    if ends_too_soon(source.tokens, c, k) {
        return Err(Refusal::new(Reason::InvalidSyntax, d));
    }
    match k {
        Keyword::KBreak => alone(
            source.tokens,
            pool,
            first,
            c,
            Kind::Break,
            Reason::BreakWithoutSemicolon,
        ),
        Keyword::KContinue => alone(
            source.tokens,
            pool,
            first,
            c,
            Kind::Continue,
            Reason::ContinueWithoutSemicolon,
        ),
        Keyword::KVar => var_or_const(source, pool, first, d, Kind::Var, less),
        Keyword::KConst => var_or_const(source, pool, first, d, Kind::Const, less),
        Keyword::KIf => if_statement(source, pool, first, c, less),
        Keyword::KAssert => assert_statement(source, pool, first, c, less),
        Keyword::KWhile => while_statement(source, pool, first, c, less),
        Keyword::KReturn => return_statement(source, pool, first, c, less),
        Keyword::KFunc => function(source, pool, first, d, less),
        Keyword::KFor => for_loop(source, pool, first, c, less),
        Keyword::KThrow => around(source, pool, first, d, Kind::Throw, 0, c, less),
        Keyword::KTry => try_statement(source, pool, first, c, less),
        Keyword::KForEach => for_each(source, pool, first, c, less),
        _ => around(source, pool, first, c, Kind::Expression, 0, c, less),
    }
}

// Statements up to the token `close`, behind those that were read: the loop of parse_block_statement, and of a whole script.
#[cycle(statements)]
pub fn statements(
    source: &Source,
    pool: &mut [u32],
    first: usize,
    front: Piece,
    close: Token,
    allow: usize,
) -> Read
    requires { (Ready source.now.tokens.now pool.old first front.next) × (width * front.rows ≤ length pool.old) }
    ensures { Extends (spec.statements (by source.now.mode) source.now.tokens.now (expr source.now allow) (stmt source.now allow) (word close) turns) source.now.tokens.now front.next first front.rows front.head result pool.old pool.new }
{
    let mut all = front;
    // The cursor moves by what was read, so no iterator goes over the tokens.
    while !words::current_is(source.tokens, all.next, close) {
        if words::current_symbol_is(source.tokens, all.next, Symbol::SSemiColon) {
            all.next = words::iterate(source.tokens, all.next);
        } else {
            let one = one_behind(source, pool, first, all.rows, all.next, allow)?;
            rows::link(pool, all.rows, one.head);
            all = Piece {
                rows: one.rows,
                head: first_of(all.rows, all.head, one.head),
                next: words::iterate(source.tokens, one.next),
            };
        }
    }
    Ok(all)
}

// A statement behind the first `rows` rows of the part.
#[cycle(statements)]
fn one_behind(
    source: &Source,
    pool: &mut [u32],
    first: usize,
    rows: usize,
    c: Cursor,
    allow: usize,
) -> Read
    requires { (Ready source.now.tokens.now pool.old first c) × (width * rows ≤ length pool.old) }
    ensures { (Begun source.now.tokens.now c result) × (Behind many (stmt source.now allow) source.now.tokens.now c first rows result pool.old pool.new) }
{
    let i = rows::end(rows as u32);
    let one = statement(source, &mut pool[i..], first + rows, c, allow)?;
    Ok(Piece {
        rows: rows + one.rows,
        ..one
    })
}

// parse_block_statement, whose opener comes next and may be any token.
#[cycle(statements)]
fn block(source: &Source, pool: &mut [u32], first: usize, c: Cursor, less: usize) -> Read
    requires { Ready source.now.tokens.now pool.old first c }
    ensures { Fresh one (spec.block (by source.now.mode) source.now.tokens.now (expr source.now less) (stmt source.now less)) source.now.tokens.now c first result pool.old pool.new }
{
    let d = words::iterate(source.tokens, c);
    let e = words::iterate(source.tokens, d);
    if words::next_symbol_is(source.tokens, d, Symbol::SRBrace) {
        return put_row(pool, first, 0, e, Kind::Block, 0, d, 0, 0, 0, 0);
    }
    let one = statement(source, pool, first, e, less)?;
    let g = words::iterate(source.tokens, one.next);
    let brace = Token::Operator(Symbol::SRBrace);
    let all = statements(source, pool, first, Piece { next: g, ..one }, brace, less)?;
    put_row(
        pool,
        first,
        all.rows,
        all.next,
        Kind::Block,
        0,
        d,
        all.head,
        0,
        0,
        0,
    )
}

// A block behind the first `rows` rows of the part.
#[cycle(statements)]
fn block_behind(
    source: &Source,
    pool: &mut [u32],
    first: usize,
    rows: usize,
    c: Cursor,
    less: usize,
) -> Read
    requires { (Ready source.now.tokens.now pool.old first c) × (width * rows ≤ length pool.old) }
    ensures { Behind one (spec.block (by source.now.mode) source.now.tokens.now (expr source.now less) (stmt source.now less)) source.now.tokens.now c first rows result pool.old pool.new }
{
    let i = rows::end(rows as u32);
    let one = block(source, &mut pool[i..], first + rows, c, less)?;
    Ok(Piece {
        rows: rows + one.rows,
        ..one
    })
}

// A sign that comes next and an opening brace behind it, where it is due, or else the refusals for `missing` and `bare`; and the block, behind what
// was read last.
#[cycle(statements)]
fn body(
    source: &Source,
    pool: &mut [u32],
    first: usize,
    last: Piece,
    sign: Symbol,
    missing: Reason,
    due: Due,
    bare: Reason,
    less: usize,
) -> Read
    requires { (Ready source.now.tokens.now pool.old first last.next) × (width * last.rows ≤ length pool.old) }
    ensures { Behind one (contract.body due source.now.tokens.now (spec.block (by source.now.mode) source.now.tokens.now (expr source.now less) (stmt source.now less)) (word (token.Operator sign)) (number missing) (number bare)) source.now.tokens.now last.next first last.rows result pool.old pool.new }
{
    if !words::next_symbol_is(source.tokens, last.next, sign) {
        return Err(Refusal::new(missing, last.next));
    }
    let d = words::iterate(source.tokens, last.next);
    braced(
        source,
        pool,
        first,
        Piece { next: d, ..last },
        due,
        bare,
        less,
    )
}

// parse_function_statement behind `func`, at the name.
#[cycle(statements)]
fn function(source: &Source, pool: &mut [u32], first: usize, c: Cursor, less: usize) -> Read
    requires { Ready source.now.tokens.now pool.old first c }
    ensures { Fresh one (spec.function (by source.now.mode) source.now.tokens.now (expr source.now less) (stmt source.now less)) source.now.tokens.now c first result pool.old pool.new }
{
    if !words::is_identifier(source.tokens, c) {
        return Err(Refusal::new(Reason::FuncWithoutName, c));
    }
    if !words::next_symbol_is(source.tokens, c, Symbol::SLParen) {
        return Err(Refusal::new(Reason::InvalidSyntax, c));
    }
    let d = words::iterate(source.tokens, c);
    let close = Symbol::SRparen;
    let due = Due::Always;
    let bare = Reason::InvalidSyntax;
    let parameters = enclosed(source, pool, first, d, false, close, due, bare, less)?;
    let inner = braced(source, pool, first, parameters, due, bare, less)?;
    put_row(
        pool,
        first,
        inner.rows,
        inner.next,
        Kind::Function,
        0,
        c,
        parameters.head,
        inner.head,
        0,
        0,
    )
}

// parse_if_statement
#[cycle(statements)]
fn if_statement(source: &Source, pool: &mut [u32], first: usize, c: Cursor, less: usize) -> Read
    requires { Ready source.now.tokens.now pool.old first c }
    ensures { Fresh one (spec.if (by source.now.mode) source.now.tokens.now (expr source.now less) (stmt source.now less)) source.now.tokens.now c first result pool.old pool.new }
{
    let d = words::iterate(source.tokens, c);
    if !words::next_symbol_is(source.tokens, c, Symbol::SLParen) {
        return Err(Refusal::new(Reason::InvalidSyntax, d));
    }
    let e = words::iterate(source.tokens, d);
    let condition = expression(source, pool, first, e, 0, less)?;
    let due = Due::Always;
    let inner = body(
        source,
        pool,
        first,
        condition,
        Symbol::SRparen,
        Reason::InvalidToken,
        due,
        Reason::IfWithoutBody,
        less,
    )?;
    let bare = Reason::InvalidSyntax;
    let other = clause(source, pool, first, inner, Keyword::KElse, due, bare, less)?;
    put_row(
        pool,
        first,
        other.rows,
        other.next,
        Kind::If,
        0,
        c,
        condition.head,
        inner.head,
        other.head,
        0,
    )
}

// parse_while_statement
#[cycle(statements)]
fn while_statement(source: &Source, pool: &mut [u32], first: usize, c: Cursor, less: usize) -> Read
    requires { Ready source.now.tokens.now pool.old first c }
    ensures { Fresh one (spec.while (by source.now.mode) source.now.tokens.now (expr source.now less) (stmt source.now less)) source.now.tokens.now c first result pool.old pool.new }
{
    if !words::next_symbol_is(source.tokens, c, Symbol::SLParen) {
        return Err(Refusal::new(Reason::InvalidSyntax, c));
    }
    let d = words::iterate(source.tokens, words::iterate(source.tokens, c));
    let condition = expression(source, pool, first, d, 0, less)?;
    let inner = body(
        source,
        pool,
        first,
        condition,
        Symbol::SRparen,
        Reason::InvalidSyntax,
        Due::By(source.mode),
        Reason::WrongSign,
        less,
    )?;
    put_row(
        pool,
        first,
        inner.rows,
        inner.next,
        Kind::While,
        0,
        c,
        condition.head,
        inner.head,
        0,
        0,
    )
}

// parse_for_each_statement
#[cycle(statements)]
fn for_each(source: &Source, pool: &mut [u32], first: usize, c: Cursor, less: usize) -> Read
    requires { Ready source.now.tokens.now pool.old first c }
    ensures { Fresh one (spec.foreach (by source.now.mode) source.now.tokens.now (expr source.now less) (stmt source.now less)) source.now.tokens.now c first result pool.old pool.new }
{
    let d = words::iterate(source.tokens, c);
    let over = expression(source, pool, first, d, 0, less)?;
    let sep = Token::Operator(Symbol::SComma);
    let missing = Reason::InvalidSyntax;
    let position = behind_sign(source, pool, first, over, sep, missing, less)?;
    let element = behind_sign(source, pool, first, position, sep, missing, less)?;
    let inner = body(
        source,
        pool,
        first,
        element,
        Symbol::SImpl,
        missing,
        Due::By(source.mode),
        Reason::WrongSign,
        less,
    )?;
    put_row(
        pool,
        first,
        inner.rows,
        inner.next,
        Kind::ForEach,
        0,
        c,
        over.head,
        position.head,
        element.head,
        inner.head,
    )
}

// parse_for_loop_statement
#[cycle(statements)]
fn for_loop(source: &Source, pool: &mut [u32], first: usize, c: Cursor, less: usize) -> Read
    requires { Ready source.now.tokens.now pool.old first c }
    ensures { Fresh one (spec.for (by source.now.mode) source.now.tokens.now (expr source.now less) (stmt source.now less)) source.now.tokens.now c first result pool.old pool.new }
{
    let d = words::iterate(source.tokens, c);
    let target = expression(source, pool, first, d, 0, less)?;
    let sep = Token::Keyword(Keyword::KIn);
    let missing = Reason::InvalidSyntax;
    let over = behind_sign(source, pool, first, target, sep, missing, less)?;
    let inner = body(
        source,
        pool,
        first,
        over,
        Symbol::SImpl,
        missing,
        Due::Always,
        missing,
        less,
    )?;
    put_row(
        pool,
        first,
        inner.rows,
        inner.next,
        Kind::For,
        0,
        c,
        target.head,
        over.head,
        inner.head,
        0,
    )
}

// An opening brace that comes next, where it is due, or else the refusal for `reason`; and its block, behind what was read last.
#[cycle(statements)]
fn braced(
    source: &Source,
    pool: &mut [u32],
    first: usize,
    last: Piece,
    due: Due,
    reason: Reason,
    less: usize,
) -> Read
    requires { (Ready source.now.tokens.now pool.old first last.next) × (width * last.rows ≤ length pool.old) }
    ensures { Behind one (contract.braced due source.now.tokens.now (spec.block (by source.now.mode) source.now.tokens.now (expr source.now less) (stmt source.now less)) (number reason)) source.now.tokens.now last.next first last.rows result pool.old pool.new }
{
    if !modes::comes(source.tokens, last.next, Symbol::SLBrace, due) {
        return Err(Refusal::new(reason, last.next));
    }
    block_behind(source, pool, first, last.rows, last.next, less)
}

// The block of a keyword that comes next, braced as above, or none: the ends of parse_if_statement and of parse_try_statement.
#[cycle(statements)]
fn clause(
    source: &Source,
    pool: &mut [u32],
    first: usize,
    last: Piece,
    k: Keyword,
    due: Due,
    reason: Reason,
    less: usize,
) -> Read
    requires { (Ready source.now.tokens.now pool.old first last.next) × (width * last.rows ≤ length pool.old) }
    ensures { Behind many (contract.clause due source.now.tokens.now (spec.block (by source.now.mode) source.now.tokens.now (expr source.now less) (stmt source.now less)) (word (token.Keyword k)) (number reason)) source.now.tokens.now last.next first last.rows result pool.old pool.new }
{
    if !words::next_keyword_is(source.tokens, last.next, k) {
        return Ok(Piece { head: 0, ..last });
    }
    let d = words::iterate(source.tokens, last.next);
    braced(
        source,
        pool,
        first,
        Piece { next: d, ..last },
        due,
        reason,
        less,
    )
}

// parse_try_statement
#[cycle(statements)]
fn try_statement(source: &Source, pool: &mut [u32], first: usize, c: Cursor, less: usize) -> Read
    requires { Ready source.now.tokens.now pool.old first c }
    ensures { Fresh one (spec.try (by source.now.mode) source.now.tokens.now (expr source.now less) (stmt source.now less)) source.now.tokens.now c first result pool.old pool.new }
{
    let due = Due::Always;
    let bare = Reason::InvalidSyntax;
    let tried = braced(source, pool, first, nothing(c), due, bare, less)?;
    let sign = Token::Keyword(Keyword::KCatch);
    let missing = Reason::TryWithoutCatch;
    let error = behind_sign(source, pool, first, tried, sign, missing, less)?;
    let caught = braced(source, pool, first, error, due, bare, less)?;
    let last = clause(
        source,
        pool,
        first,
        caught,
        Keyword::KFinally,
        Due::By(source.mode),
        Reason::WrongSign,
        less,
    )?;
    put_row(
        pool,
        first,
        last.rows,
        last.next,
        Kind::Try,
        0,
        c,
        tried.head,
        error.head,
        caught.head,
        last.head,
    )
}
