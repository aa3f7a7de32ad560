// The functions that C calls through `exports_c`: each writes its answer as four words into the front of a lent slice.
#![tactic(auto)]

ghost use Rattle.std.specs.Prelude.{◌≡◌, length};
ghost use Rattle.grammar.specs.Script as spec;
ghost use Rattle.modes.specs.Modes.{by, chosen};
ghost use Rattle.answer.specs.Answer.{answered, numbers};
ghost use Rattle.files.specs.Entry.{file_answer, file_buffer};
ghost use Rattle.text.specs.Entries.{fold_answer, fold_buffer};
ghost use Rattle.four.specs.Answers.{over, file_words, fold_words, text_words};
ghost use Rattle.trees.specs.Leaves.{front};
ghost use Rattle.exports.specs.Trees.{Checks, Puts, Tells};

use refusals::by_number;

// Reads one expression from a start place, in strict mode or in the old one.
pub fn shigthapul_one_expression(
    tokens: &[u16],
    pool: &mut [u32],
    start: usize,
    strict: bool,
    answer: &mut [u64],
)
    ensures answer { answer.new ≡ over (numbers (answered (spec.one_expression (by (chosen strict)) tokens.now start (spec.rows (length pool.old))))) answer.old }
    ensures pool { pool.new ≡ spec.pool (length pool.old) (spec.one_expression (by (chosen strict)) tokens.now start (spec.rows (length pool.old))) }
{
    let outcome = parser::one_expression(tokens, pool, start, modes::mode_of(strict));
    four::put_answer(answer, by_number(outcome));
}

// Reads one statement from a start place, in strict mode or in the old one.
pub fn shigthapul_one_statement(
    tokens: &[u16],
    pool: &mut [u32],
    start: usize,
    strict: bool,
    answer: &mut [u64],
)
    ensures answer { answer.new ≡ over (numbers (answered (spec.one_statement (by (chosen strict)) tokens.now start (spec.rows (length pool.old))))) answer.old }
    ensures pool { pool.new ≡ spec.pool (length pool.old) (spec.one_statement (by (chosen strict)) tokens.now start (spec.rows (length pool.old))) }
{
    let outcome = parser::one_statement(tokens, pool, start, modes::mode_of(strict));
    four::put_answer(answer, by_number(outcome));
}

// Reads a whole script, in strict mode or in the old one.
pub fn shigthapul_whole_script(tokens: &[u16], pool: &mut [u32], strict: bool, answer: &mut [u64])
    ensures answer { answer.new ≡ over (numbers (answered (spec.whole_script (by (chosen strict)) tokens.now (spec.rows (length pool.old))))) answer.old }
    ensures pool { pool.new ≡ spec.pool (length pool.old) (spec.whole_script (by (chosen strict)) tokens.now (spec.rows (length pool.old))) }
{
    let outcome = parser::whole_script(tokens, pool, modes::mode_of(strict));
    four::put_answer(answer, by_number(outcome));
}

// Reads a token file into a buffer of token words.
pub fn shigthapul_read_file(bytes: &[u8], words: &mut [u16], answer: &mut [u64])
    ensures answer { answer.new ≡ over (file_words (file_answer bytes.now (length words.old))) answer.old }
    ensures words { words.new ≡ file_buffer bytes.now (length words.old) }
{
    let fields = files::read(bytes, words);
    four::put_count(answer, by_number(fields));
}

// Folds a string's payload into the front of a work buffer.
pub fn shigthapul_fold(payload: &[u8], work: &mut [u8], answer: &mut [u64])
    ensures answer { answer.new ≡ over (fold_words (fold_answer payload.now work.old)) answer.old }
    ensures work { work.new ≡ fold_buffer payload.now work.old }
{
    let folded = text::fold(payload, work);
    four::put_count(answer, by_number(folded));
}

// Says where the text of a string is, and how long.
pub fn shigthapul_text<'a>(payload: &'a [u8], work: &'a [u8], answer: &mut [u64])
    ensures answer { answer.new ≡ over (text_words payload.now work.now) answer.old }
{
    four::put_text(answer, payload, work);
}

// Checks that the rows which a root reaches in a pool are a tree.
//
// An answer has four words, so of a longer slice only these are lent on. As the function then calls itself, the compiler
// keeps the memory of the two checks out of its frame, and as it is never inlined, out of its callers' frames too: a call
// takes no more stack than the pool's rows need.
#[inline(never)]
pub fn shigthapul_check(pool: &[u32], root: usize, answer: &mut [u64])
    ensures { Checks pool.now root answer.old answer.new }
{
    if 4 < answer.len() {
        shigthapul_check(pool, root, &mut answer[..4]);
        return;
    }
    if pool.len() < rows::end(trees::SMALL as u32) {
        shigthapul_check_small(pool, root, answer);
        return;
    }
    let checked = trees::check_large(pool, root);
    four::put_checked(answer, by_number(checked));
}

// The same of the front of a pool, with little stack whatever the pool.
pub fn shigthapul_check_small(pool: &[u32], root: usize, answer: &mut [u64])
    ensures { Checks (front pool.now) root answer.old answer.new }
{
    let checked = trees::check_small(pool, root);
    four::put_checked(answer, by_number(checked));
}

// Writes the tree at a root as token words, and the places of their payloads. It calls itself as the check does.
#[inline(never)]
pub fn shigthapul_write(
    pool: &[u32],
    root: usize,
    words: &mut [u16],
    places: &mut [u32],
    answer: &mut [u64],
)
    ensures { Puts pool.now root words.old places.old answer.old words.new places.new answer.new }
{
    if 4 < answer.len() {
        shigthapul_write(pool, root, words, places, &mut answer[..4]);
        return;
    }
    if pool.len() < rows::end(trees::SMALL as u32) {
        shigthapul_write_small(pool, root, words, places, answer);
        return;
    }
    let wrote = writer::write_large(pool, root, words, places);
    four::put_count(answer, by_number(wrote));
}

// The same of the front of a pool, with little stack whatever the pool.
pub fn shigthapul_write_small(
    pool: &[u32],
    root: usize,
    words: &mut [u16],
    places: &mut [u32],
    answer: &mut [u64],
)
    ensures { Puts (front pool.now) root words.old places.old answer.old words.new places.new answer.new }
{
    let wrote = writer::write_small(pool, root, words, places);
    four::put_count(answer, by_number(wrote));
}

// Writes the tree at a root as JSON, its payloads from the fields of a file. It calls itself as the check does.
#[inline(never)]
pub fn shigthapul_json(pool: &[u32], root: usize, file: &[u8], text: &mut [u8], answer: &mut [u64])
    ensures { Tells pool.now root file.now text.old answer.old text.new answer.new }
{
    if 4 < answer.len() {
        shigthapul_json(pool, root, file, text, &mut answer[..4]);
        return;
    }
    if pool.len() < rows::end(trees::SMALL as u32) {
        shigthapul_json_small(pool, root, file, text, answer);
        return;
    }
    let told = json_writer::write_large(pool, root, file, text);
    four::put_count(answer, by_number(told));
}

// The same of the front of a pool, with little stack whatever the pool.
pub fn shigthapul_json_small(
    pool: &[u32],
    root: usize,
    file: &[u8],
    text: &mut [u8],
    answer: &mut [u64],
)
    ensures { Tells (front pool.now) root file.now text.old answer.old text.new answer.new }
{
    let told = json_writer::write_small(pool, root, file, text);
    four::put_count(answer, by_number(told));
}
