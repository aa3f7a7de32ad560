// Reads a token file on standard input as a whole script by the original's rules, and prints its tree as JSON, or the line of a refusal.
#![tactic(auto)]

ghost use Rattle.std.specs.Prelude.{◌≡◌, ℕ, ◌-◌, ◌≤◌, length, take};
ghost use Rattle.grammar.specs.Tree.{Trees};
ghost use Rattle.grammar.specs.Parsed.{read};
ghost use Rattle.grammar.specs.Script.{rows, pool as laid};
ghost use Rattle.answer.specs.Answer.{answered};
ghost use Rattle.files.specs.Entry.{content};
ghost use Rattle.lines.specs.Lines.{longest};
ghost use Rattle.to_json.specs.Shown.{outcome, no, ShowsTree, most, Shows};

use answer::{Accepted, Answer};
use modes::Mode;
use refusals::{Refusal, by_number};
use rows::WIDTH;
use std::io;

// The bytes of the longest file and one more, the words of the most tokens, and the words of more rows than so many tokens take.
const BYTES: usize = 60001;

const TOKENS: usize = 20000;

const ROWS: usize = 40960;

const POOL: usize = WIDTH * ROWS;

// The bytes of the longest text that is shown, and a newline.
const OUT: usize = 4194304 + 1;

// Reads the fields of a file and the script that they are.
fn read(bytes: &[u8], tokens: &mut [u16], pool: &mut [u32]) -> Answer
    ensures answer { result ≡ answered (outcome (content bytes.now (length tokens.old)) (rows (length pool.old))) }
    ensures pool { (us : Trees) (at left : ℕ) → outcome (content bytes.now (length tokens.old)) (rows (length pool.old)) ≡ read us at left
        → pool.new ≡ laid (length pool.old) (read us at left) }
{
    let n = files::read(bytes, tokens)?;
    parser::whole_script(&tokens[..n], pool, Mode::Old)
}

// The line of a refusal in front of a buffer that is long enough for any; its length.
fn refuse(refusal: Refusal, out: &mut [u8]) -> usize
    requires { longest ≤ length out.old }
    ensures { (result ≤ length out.old) × (take result out.new ≡ no refusal.number refusal.place) }
{
    lines::first_line(by_number(Err(refusal)), out)
}

// The text of a tree and a newline in front of a buffer, or the line of the writer's refusal; its length.
fn tell(pool: &[u32], root: usize, file: &[u8], out: &mut [u8]) -> usize
    requires { longest ≤ length out.old }
    ensures { (result ≤ length out.old) × ShowsTree pool.now root file.now (length out.old - 1) (take result out.new) }
{
    let room = out.len() - 1;
    let told = json_writer::write(pool, root, file, &mut out[..room]);
    match told {
        Ok(n) => {
            out[n] = b'\n';
            n + 1
        }
        Err(refusal) => refuse(refusal, out),
    }
}

// What is shown for a file in front of the output; its length.
fn show(bytes: &[u8], tokens: &mut [u16], pool: &mut [u32], out: &mut [u8; OUT]) -> usize
    ensures { (result ≤ length out.new) × Shows bytes.now (length tokens.old) (length pool.old) most (take result out.new) }
{
    match read(bytes, tokens, pool) {
        Ok(Accepted { root, .. }) => tell(pool, root as usize, bytes, out),
        Err(refusal) => refuse(refusal, out),
    }
}

fn main(rt: HostRuntime) -> io::Result<()> {
    let mut bytes: [u8; BYTES] = [0; BYTES];
    let mut tokens: [u16; TOKENS] = [0; TOKENS];
    let mut pool: [u32; POOL] = [0; POOL];
    let mut out: [u8; OUT] = [0; OUT];
    let n = input::read_full(&mut rt.stdin(), &mut bytes)?;
    let shown = show(&bytes[..n], &mut tokens, &mut pool, &mut out);
    rt.write_all(&out[..shown])
}
