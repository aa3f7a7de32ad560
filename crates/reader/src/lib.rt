// The readers over an array of token words, and the one way in.
#![tactic(auto)]

mod dots;
mod expressions;
mod kind;
mod part;
mod simple;
mod source;
mod statements;

ghost use Rattle.std.specs.Prelude.{length};
ghost use Rattle.grammar.specs.Script as spec;
ghost use Rattle.modes.specs.Modes.{by};
ghost use Rattle.answer.specs.Answer.{Entered};
ghost use Rattle.reader.specs.Meets.{Ready, one, many};
ghost use Rattle.reader.specs.Promises.{Fresh};
ghost use Rattle.reader.specs.Entries as entry;

use answer::{Answer, Read};
use expressions::expression;
use kind::Kind;
use modes::Mode;
use part::{nothing, put_row};
use source::Source;
use statements::{statement, statements};
use tokens::Token;
use words::Cursor;

// The three entries. They are no closures: the contract of `enter` and its theorem name an entry, and a closure would have to bring what `read`
// promises of each.
#[derive(Clone, Copy, Debug, PartialEq, Eq)]
pub enum Entry {
    Expression,
    Statement,
    Script,
}

// The statements of a script, in a block at place 0.
fn script(source: &Source, pool: &mut [u32], first: usize, c: Cursor) -> Read
    requires { Ready source.now.tokens.now pool.old first c }
    ensures { Fresh one (entry.script (by source.now.mode) source.now.tokens.now) source.now.tokens.now c first result pool.old pool.new }
{
    let less = modes::nesting();
    let list = statements(source, pool, first, nothing(c), Token::EOF, less)?;
    put_row(
        pool,
        first,
        list.rows,
        list.next,
        Kind::Block,
        0,
        0,
        list.head,
        0,
        0,
        0,
    )
}

// What an entry reads behind its checks.
fn read(source: &Source, pool: &mut [u32], first: usize, c: Cursor, e: Entry) -> Read
    requires { Ready source.now.tokens.now pool.old first c }
    ensures { Fresh many (entry.reads e (by source.now.mode) source.now.tokens.now) source.now.tokens.now c first result pool.old pool.new }
{
    let less = modes::nesting();
    match e {
        Entry::Expression => expression(source, pool, first, c, 0, less),
        Entry::Statement => statement(source, pool, first, c, less),
        Entry::Script => script(source, pool, first, c),
    }
}

// An entry: the checks, and what is read from a start place into the rows of a cleared pool.
pub fn enter(tokens: &[u16], pool: &mut [u32], start: usize, e: Entry, mode: Mode) -> Answer
    ensures { Entered (entry.enters e (by mode) tokens.now start (spec.rows (length pool.old))) result (length pool.old) pool.new }
{
    rows::clear(pool);
    let c = answer::check(tokens, start)?;
    let n = rows::end(rows::count(pool.len()));
    let source = Source { tokens, mode };
    let r = read(&source, &mut pool[0..n], 0, c, e);
    answer::finish(pool, r)
}
