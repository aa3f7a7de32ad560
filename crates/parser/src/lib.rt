// The reader of scripts over an array of token words: its three entries.
#![tactic(auto)]

ghost use Rattle.std.specs.Prelude.{length};
ghost use Rattle.grammar.specs.Script as spec;
ghost use Rattle.modes.specs.Modes.{by};
ghost use Rattle.answer.specs.Answer.{Entered};

use answer::Answer;
use modes::Mode;
use reader::Entry;

// One expression from a start place.
pub fn one_expression(tokens: &[u16], pool: &mut [u32], start: usize, mode: Mode) -> Answer
    ensures { Entered (spec.one_expression (by mode) tokens.now start (spec.rows (length pool.old))) result (length pool.old) pool.new }
{
    reader::enter(tokens, pool, start, Entry::Expression, mode)
}

// One statement from a start place.
pub fn one_statement(tokens: &[u16], pool: &mut [u32], start: usize, mode: Mode) -> Answer
    ensures { Entered (spec.one_statement (by mode) tokens.now start (spec.rows (length pool.old))) result (length pool.old) pool.new }
{
    reader::enter(tokens, pool, start, Entry::Statement, mode)
}

// A whole script.
pub fn whole_script(tokens: &[u16], pool: &mut [u32], mode: Mode) -> Answer
    ensures { Entered (spec.whole_script (by mode) tokens.now (spec.rows (length pool.old))) result (length pool.old) pool.new }
{
    reader::enter(tokens, pool, 0, Entry::Script, mode)
}
