// What `outline` prints: numbers in decimal, the first line of an answer and the line of a row, each written to a lent buffer.
#![tactic(auto)]

ghost use Rattle.std.specs.Prelude.{◌≡◌, ◌++◌, ◌+◌, ◌*◌, ◌≤◌, length, drop};
ghost use Rattle.grammar.specs.Tree.{width};
ghost use Rattle.lines.specs.Decimal.{decimal, most_digits};
ghost use Rattle.lines.specs.Lines.{line, first_line, row_words, row_line, places, longest};
ghost use Rattle.lines.specs.Writes.{Writes};

use answer::Accepted;
use refusals::ByNumber;
use rows::WIDTH;

// The most digits of a number: a buffer of so many bytes is long enough for any.
pub const DIGITS: usize = 20;

// The bytes of `ok` or `no` and the space behind it, and those of a number and the byte behind it.
const WORD: usize = 3;

const PLACES: usize = DIGITS + 1;

// The bytes of the longest line: a buffer of so many is long enough for any.
pub const LINE: usize = WORD + PLACES * WIDTH;

// Writes a text to the front of a buffer, where it fits; 0 otherwise, as `Writes` says in the clauses of the public functions.
fn put(text: &[u8], out: &mut [u8]) -> usize
    ensures { Writes text.now out.old result out.new }
{
    if out.len() < text.len() {
        return 0;
    }
    out[..text.len()].copy_from_slice(text);
    text.len()
}

// Writes a number in decimal just before a place; where it starts.
fn digits_before(n: u64, buf: &mut [u8], end: usize) -> usize
    requires { (most_digits ≤ end) × (end ≤ length buf.old) }
    ensures { (result + length (decimal n) ≡ end) × (drop result buf.new ≡ decimal n ++ drop end buf.old) }
{
    itoa::write_digits(n, buf, end)
}

// Writes the decimal digits of a number.
pub fn number(n: u64, out: &mut [u8]) -> usize
    ensures written { Writes (decimal n) out.old result out.new }
    ensures short { length (decimal n) ≤ most_digits }
{
    let mut digits = [0; DIGITS];
    let at = digits_before(n, &mut digits, DIGITS);
    put(&digits[at..], out)
}

// Writes the line of numbers at the end of a buffer; where it starts.
fn line_before(numbers: &[u64], buf: &mut [u8]) -> usize
    requires { places * length numbers.now ≤ length buf.old }
    ensures { (result ≤ length buf.old) × (length buf.old ≤ result + places * length numbers.now) × (drop result buf.new ≡ line numbers.now) }
{
    let mut at = buf.len();
    let mut behind = b'\n';
    for &n in numbers.iter().rev() {
        at -= 1;
        buf[at] = behind;
        at = digits_before(n, buf, at);
        behind = b' ';
    }
    at
}

// Writes a word and the line of numbers behind it.
fn put_line(word: &[u8], numbers: &[u64], out: &mut [u8]) -> usize
    requires { (length word.now ≤ 3) × (length numbers.now ≤ width) }
    ensures written { Writes (word.now ++ line numbers.now) out.old result out.new }
    ensures short { length (word.now ++ line numbers.now) ≤ longest }
{
    let mut buf = [0; LINE];
    let end = line_before(numbers, &mut buf);
    let at = end - word.len();
    buf[at..end].copy_from_slice(word);
    put(&buf[at..], out)
}

// Writes the first line of an answer, whatever number a refusal has.
pub fn first_line(answer: Result<Accepted, ByNumber>, out: &mut [u8]) -> usize
    ensures written { Writes (first_line answer) out.old result out.new }
    ensures short { length (first_line answer) ≤ longest }
{
    match answer {
        Ok(a) => put_line(b"ok ", &[a.root as u64, a.rows as u64, a.place as u64], out),
        Err(e) => put_line(b"no ", &[e.number() as u64, e.place() as u64], out),
    }
}

// The words of a row.
fn row_words(pool: &[u32], reference: usize) -> [u64; WIDTH]
    ensures { result ≡ row_words pool.now reference }
{
    let mut words = [0; WIDTH];
    for (k, word) in words.iter_mut().enumerate() {
        *word = rows::word(pool, reference, k) as u64;
    }
    words
}

// Writes the line of the row with a reference.
pub fn row_line(pool: &[u32], reference: usize, out: &mut [u8]) -> usize
    ensures written { Writes (row_line pool.now reference) out.old result out.new }
    ensures short { length (row_line pool.now reference) ≤ longest }
{
    put_line(b"", &row_words(pool, reference), out)
}
