// The forms of the kinds as numbers, and what each of their pieces gives.
ghost use Rattle.std.specs.Prelude.{◌≡◌, ◌+◌, drop};
ghost use Rattle.tokens.specs.Tokens.{token};
ghost use Rattle.writer.specs.Codes.{encoded, spelled, decoded, sign_word, shape, word_for, behind};

use tokens::Token;

// How many pieces a form has at the most.
const PIECES: usize = 8;

// The form of a kind as a number, 0 for no kind: a byte for each piece, the first lowest. 1, 2, 8 and 9 are the sign for the mark of a bool, an infix, a
// prefix and a suffix, 3 to 7 the payload of that class, 10 to 15 a sign that is not always there, 16 and above a slot, 64 and above an operator's
// code, 128 and above a keyword's. A line for each kind, and so longer than other functions; not a `const` array, which would be built anew at each
// use.
#[tactic(auto, unfolding(crate::specs::Codes::coded, crate::specs::Codes::encoded, crate::specs::Codes::shape, written::specs::Written::form, written::specs::Written::forms, written::specs::Written::look, written::specs::Written::infix_signs))]
fn form_of(kind: usize) -> u64
    ensures { result ≡ encoded (shape kind) }
{
    match kind {
        0 => 0x10, // the statements of a script
        1 => 0x89, // none
        2 => 0x7, // NAME
        3 => 0x3, // INTEGER
        4 => 0x5, // FLOAT
        5 => 0x6, // CHAR
        6 => 0x4, // STRING
        7 => 0x1, // false or true
        8 => 0x63_1462, // [ c0,* ]
        9 => 0x53_1452, // { c0,* }
        10 => 0x4663_1162_1045, // ( c0 [ c1 ] )
        11 => 0x4646_1545_100b_0a45, // ( [thread] [async] c0 ( c1,* ) )
        12 => 0x46_1102_1045, // ( c0 SIGN c1 )
        13 => 0x4610_0845, // ( SIGN c0 )
        14 => 0x4609_1045, // ( c0 SIGN )
        15 => 0x4611_6414_9845, // ( lambda c0,* => c1 )
        16 => 0x46_100c_6845, // ( $ [.] c0 )
        17 => 0x19_6610, // c0 . c1.*
        18 => 0x7, // NAME
        19 => 0x11_6510, // c0 : c1
        32 => 0x4b85, // break ;
        33 => 0x4b86, // continue ;
        34 => 0x4b_100d_0788, // var NAME [=] c0 ;
        35 => 0x4b_104f_0787, // const NAME = c0 ;
        36 => 0x4b_108b, // return c0 ;
        37 => 0x4b_1090, // throw c0 ;
        38 => 0x4b10, // c0 ;
        39 => 0x13_0f12_118d_108c, // try c0 catch c1 c2 [finally] c3
        40 => 0x1146_1445_078a, // func NAME ( c0,* ) c1
        41 => 0x1264_1195_1084, // for c0 in c1 => c2
        42 => 0x11_4610_4583, // while ( c0 ) c1
        43 => 0x4b_114c_1099, // assert c0 , c1 ;
        44 => 0x12_0e11_4610_4581, // if ( c0 ) c1 [else] c2
        45 => 0x1364_124c_114c_1094, // foreach c0 , c1 , c2 => c3
        46 => 0x53_1052, // { c0 }
        _ => 0,
    }
}

// The number of a kind's piece; 0 behind the last.
#[tactic(auto, using(crate::proofs::Spelling::past_eight, crate::proofs::Spelling::spelled_none, crate::proofs::Spelling::form_spells))]
pub fn piece_at(kind: usize, j: usize) -> u8
    ensures { drop j (shape kind) ≡ spelled result (drop (j + 1) (shape kind)) }
{
    if PIECES <= j {
        return 0;
    }
    ((form_of(kind) >> (8 * j)) % 256) as u8
}

// The word of a row that a piece is about, where its number is a slot's; 0, which is no slot's word, where it is none. No `Option`: one caller compares
// it with a word, and the other has a slot's number.
#[tactic(auto, using(crate::proofs::Spelling::low_word, crate::proofs::Spelling::slot_word, crate::proofs::Spelling::sign_no_word))]
pub fn word_for(b: u8) -> usize
    ensures { result ≡ word_for (decoded b) }
{
    match b {
        16..64 => rows::CHILD + (b % 4) as usize,
        _ => 0,
    }
}

// Which piece stands behind that for a word.
#[tactic(auto, using(crate::proofs::Spelling::search_ends, crate::proofs::Spelling::search_finds, crate::proofs::Spelling::search_on, crate::proofs::Spelling::search_over))]
pub fn behind(kind: usize, k: usize) -> usize
    ensures { result ≡ behind (shape kind) k }
{
    for j in 0..PIECES {
        let b = piece_at(kind, j);
        if b == 0 {
            return j;
        }
        if word_for(b) == k {
            return j + 1;
        }
    }
    PIECES
}

// The sign that a number of 64 or above stands for.
#[tactic(auto, unfolding(crate::specs::Codes::sign_word))]
pub fn sign(b: u8) -> Token
    ensures { result ≡ token (sign_word b) }
{
    if b < 128 {
        tokens::token_of(1984 + b as u16)
    } else {
        tokens::token_of(2176 + b as u16)
    }
}
