// Reads a token file on standard input as a whole script, and prints the answer and each row that it uses.
#![tactic(auto)]

ghost use Rattle.std.specs.Prelude.{◌≡◌, [], ◌≤◌, length, take, get_or};
ghost use Rattle.lines.specs.Lines.{used, longest};
ghost use Rattle.lines.specs.Lines.{text as whole-text, lines as text-lines};
ghost use Rattle.outline.specs.Outlined.{outlined};

use answer::Answer;
use lines::LINE;
use modes::Mode;
use refusals::by_number;
use rows::WIDTH;
use std::io;

// The bytes of the longest file and one more, the words of the most tokens, and the words of 1,800 rows.
const BYTES: usize = 60001;

const TOKENS: usize = 20000;

const ROWS: usize = 1800;

const POOL: usize = WIDTH * ROWS;

// Reads the fields of a file and the script that they are. With its answer and the pool, the text of the file can be printed.
fn read(bytes: &[u8], tokens: &mut [u16], pool: &mut [u32]) -> Answer
    ensures { whole-text result pool.new ≡ outlined bytes.now (length tokens.old) (length pool.old) }
{
    match files::read(bytes, tokens) {
        Ok(n) => parser::whole_script(&tokens[..n], pool, Mode::Old),
        // No `?`: the edit `file_place` changes this arm.
        Err(refusal) => Err(refusal),
    }
}

// How many rows an answer uses.
fn count(answer: &Answer) -> usize
    ensures { result ≡ used answer.now }
{
    match answer {
        Ok(accepted) => accepted.rows,
        Err(_) => 0,
    }
}

// A line of the text, counted from 0, in front of a buffer that is long enough for any.
fn line(answer: &Answer, pool: &[u32], i: usize, out: &mut [u8]) -> usize
    requires { (i ≤ used answer.now) × (length out.old ≡ longest) }
    ensures { (result ≤ longest) × (take result out.new ≡ get_or (text-lines answer.now pool.now) i []) }
{
    if i == 0 {
        lines::first_line(by_number(*answer), out)
    } else {
        lines::row_line(pool, i, out)
    }
}

// Prints a line of the text.
fn print_line(out: &impl Print, answer: &Answer, pool: &[u32], i: usize) -> io::Result<()>
    requires { i ≤ used answer.now }
{
    let mut bytes: [u8; LINE] = [0; LINE];
    let n = line(answer, pool, i, &mut bytes);
    out.write_all(&bytes[..n])
}

// Prints the text, line after line; stops at one that can't be written.
fn print(out: &impl Print, answer: &Answer, pool: &[u32]) -> io::Result<()> {
    for i in 0..=count(answer) {
        print_line(out, answer, pool, i)?;
    }
    Ok(())
}

fn main(rt: HostRuntime) -> io::Result<()> {
    let mut bytes: [u8; BYTES] = [0; BYTES];
    let mut tokens: [u16; TOKENS] = [0; TOKENS];
    let mut pool: [u32; POOL] = [0; POOL];
    let n = input::read_full(&mut rt.stdin(), &mut bytes)?;
    let answer = read(&bytes[..n], &mut tokens, &mut pool);
    print(&rt, &answer, &pool)
}
