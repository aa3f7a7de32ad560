// The functions for C and Rust, by their names in the archive: each is that of `exports`, and promises the same.
#![tactic(auto)]

ghost use Rattle.std.specs.Prelude.{◌≡◌, length};
ghost use Rattle.grammar.specs.Script as spec;
ghost use Rattle.modes.specs.Modes.{by, chosen};
ghost use Rattle.answer.specs.Answer.{answered, numbers};
ghost use Rattle.files.specs.Entry.{file_answer, file_buffer};
ghost use Rattle.text.specs.Entries.{fold_answer, fold_buffer};
ghost use Rattle.four.specs.Answers.{over, file_words, fold_words, text_words};
ghost use Rattle.trees.specs.Leaves.{front};
ghost use Rattle.exports.specs.Trees.{Checks, Puts, Tells};

// Reads one expression from a start place, in strict mode or in the old one.
#[unsafe(no_mangle)]
pub extern "C" fn shigthapul_one_expression(
    tokens: &[u16],
    pool: &mut [u32],
    start: usize,
    strict: bool,
    answer: &mut [u64],
)
    ensures answer { answer.new ≡ over (numbers (answered (spec.one_expression (by (chosen strict)) tokens.now start (spec.rows (length pool.old))))) answer.old }
    ensures pool { pool.new ≡ spec.pool (length pool.old) (spec.one_expression (by (chosen strict)) tokens.now start (spec.rows (length pool.old))) }
{
    exports::shigthapul_one_expression(tokens, pool, start, strict, answer);
}

// Reads one statement from a start place, in strict mode or in the old one.
#[unsafe(no_mangle)]
pub extern "C" fn shigthapul_one_statement(
    tokens: &[u16],
    pool: &mut [u32],
    start: usize,
    strict: bool,
    answer: &mut [u64],
)
    ensures answer { answer.new ≡ over (numbers (answered (spec.one_statement (by (chosen strict)) tokens.now start (spec.rows (length pool.old))))) answer.old }
    ensures pool { pool.new ≡ spec.pool (length pool.old) (spec.one_statement (by (chosen strict)) tokens.now start (spec.rows (length pool.old))) }
{
    exports::shigthapul_one_statement(tokens, pool, start, strict, answer);
}

// Reads a whole script, in strict mode or in the old one.
#[unsafe(no_mangle)]
pub extern "C" fn shigthapul_whole_script(
    tokens: &[u16],
    pool: &mut [u32],
    strict: bool,
    answer: &mut [u64],
)
    ensures answer { answer.new ≡ over (numbers (answered (spec.whole_script (by (chosen strict)) tokens.now (spec.rows (length pool.old))))) answer.old }
    ensures pool { pool.new ≡ spec.pool (length pool.old) (spec.whole_script (by (chosen strict)) tokens.now (spec.rows (length pool.old))) }
{
    exports::shigthapul_whole_script(tokens, pool, strict, answer);
}

// Reads a token file into a buffer of token words.
#[unsafe(no_mangle)]
pub extern "C" fn shigthapul_read_file(bytes: &[u8], words: &mut [u16], answer: &mut [u64])
    ensures answer { answer.new ≡ over (file_words (file_answer bytes.now (length words.old))) answer.old }
    ensures words { words.new ≡ file_buffer bytes.now (length words.old) }
{
    exports::shigthapul_read_file(bytes, words, answer);
}

// Folds a string's payload into the front of a work buffer.
#[unsafe(no_mangle)]
pub extern "C" fn shigthapul_fold(payload: &[u8], work: &mut [u8], answer: &mut [u64])
    ensures answer { answer.new ≡ over (fold_words (fold_answer payload.now work.old)) answer.old }
    ensures work { work.new ≡ fold_buffer payload.now work.old }
{
    exports::shigthapul_fold(payload, work, answer);
}

// Says where the text of a string is, and how long.
#[unsafe(no_mangle)]
pub extern "C" fn shigthapul_text<'a>(payload: &'a [u8], work: &'a [u8], answer: &mut [u64])
    ensures answer { answer.new ≡ over (text_words payload.now work.now) answer.old }
{
    exports::shigthapul_text(payload, work, answer);
}

// Checks that the rows which a root reaches in a pool are a tree.
#[unsafe(no_mangle)]
pub extern "C" fn shigthapul_check(pool: &[u32], root: usize, answer: &mut [u64])
    ensures { Checks pool.now root answer.old answer.new }
{
    exports::shigthapul_check(pool, root, answer);
}

// The same of the front of a pool, with little stack whatever the pool.
#[unsafe(no_mangle)]
pub extern "C" fn shigthapul_check_small(pool: &[u32], root: usize, answer: &mut [u64])
    ensures { Checks (front pool.now) root answer.old answer.new }
{
    exports::shigthapul_check_small(pool, root, answer);
}

// Writes the tree at a root as token words, and the places of their payloads.
#[unsafe(no_mangle)]
pub extern "C" fn shigthapul_write(
    pool: &[u32],
    root: usize,
    words: &mut [u16],
    places: &mut [u32],
    answer: &mut [u64],
)
    ensures { Puts pool.now root words.old places.old answer.old words.new places.new answer.new }
{
    exports::shigthapul_write(pool, root, words, places, answer);
}

// The same of the front of a pool, with little stack whatever the pool.
#[unsafe(no_mangle)]
pub extern "C" fn shigthapul_write_small(
    pool: &[u32],
    root: usize,
    words: &mut [u16],
    places: &mut [u32],
    answer: &mut [u64],
)
    ensures { Puts (front pool.now) root words.old places.old answer.old words.new places.new answer.new }
{
    exports::shigthapul_write_small(pool, root, words, places, answer);
}

// Writes the tree at a root as JSON, its payloads from the fields of a file.
#[unsafe(no_mangle)]
pub extern "C" fn shigthapul_json(
    pool: &[u32],
    root: usize,
    file: &[u8],
    text: &mut [u8],
    answer: &mut [u64],
)
    ensures { Tells pool.now root file.now text.old answer.old text.new answer.new }
{
    exports::shigthapul_json(pool, root, file, text, answer);
}

// The same of the front of a pool, with little stack whatever the pool.
#[unsafe(no_mangle)]
pub extern "C" fn shigthapul_json_small(
    pool: &[u32],
    root: usize,
    file: &[u8],
    text: &mut [u8],
    answer: &mut [u64],
)
    ensures { Tells (front pool.now) root file.now text.old answer.old text.new answer.new }
{
    exports::shigthapul_json_small(pool, root, file, text, answer);
}
