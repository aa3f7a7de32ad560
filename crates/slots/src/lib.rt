// The table of the kinds: how many marks each has, and what each of its four slots takes.
#![tactic(auto)]

ghost use Rattle.std.specs.Prelude.{◌≡◌, ◌^◌, ◌<◌};
ghost use Rattle.slots.specs.Slots.{slot, kind_of, is_expression, marked, takes};
ghost use Rattle.slots.specs.Codes.{code, packed, kinds_of, slot_of};
ghost use Rattle.slots.specs.Fine.{is_no, is_list, child_fine, next_fine, taken};

// The slot of a root.
pub const ROOT: u8 = 0x16;

// The mark's number that says that an expression is in brackets.
const GROUPED: u32 = 256;

// The number of a kind, 0 for no kind: two hexadecimal digits for each of how many marks it has and its slots c0, c1, c2 and c3. A slot's first digit
// is how many it takes (0 none, 1 one, 2 one or none, 3 any number, 4 one or more), the second is which kinds (0 names, 1 expressions, 2 statements,
// 3 blocks, 4 pairs, 5 a plain identifier, 6 a root). A line for each kind, and so longer than other functions; not a `const` array, which would be
// built anew at each use. Not an enum of kinds: a lent pool may hold any number, and each has an answer.
#[tactic(auto, using(crate::proofs::Numbers::packed_small), unfolding(crate::specs::Codes::packed, crate::specs::Slots::slot, crate::specs::Slots::kind_of, crate::specs::Slots::of_expressions, crate::specs::Slots::of_statements, crate::specs::Codes::code))]
fn row(kind: u32) -> u64
    ensures { (result ≡ packed kind) × (result < 2 ^ 40) }
{
    match kind {
        1 => 0x01_00_00_00_00, // none
        2 => 0x01_00_00_00_00, // identifier
        3 => 0x01_00_00_00_00, // int
        4 => 0x01_00_00_00_00, // float
        5 => 0x01_00_00_00_00, // char
        6 => 0x01_00_00_00_00, // string
        7 => 0x02_00_00_00_00, // bool
        8 => 0x01_31_00_00_00, // array
        9 => 0x01_34_00_00_00, // hash
        10 => 0x01_11_11_00_00, // index
        11 => 0x04_11_31_00_00, // call
        12 => 0x17_11_11_00_00, // infix
        13 => 0x04_11_00_00_00, // prefix
        14 => 0x02_11_00_00_00, // suffix
        15 => 0x01_41_11_00_00, // lambda
        16 => 0x02_11_00_00_00, // shell
        17 => 0x01_15_40_00_00, // attribute
        18 => 0x01_00_00_00_00, // name
        19 => 0x01_11_11_00_00, // pair
        32 => 0x01_00_00_00_00, // break
        33 => 0x01_00_00_00_00, // continue
        34 => 0x01_21_00_00_00, // var
        35 => 0x01_11_00_00_00, // const
        36 => 0x01_21_00_00_00, // return
        37 => 0x01_11_00_00_00, // throw
        38 => 0x01_11_00_00_00, // expression
        39 => 0x01_13_11_13_23, // try
        40 => 0x01_31_13_00_00, // function
        41 => 0x01_11_11_13_00, // for
        42 => 0x01_11_13_00_00, // while
        43 => 0x01_11_11_00_00, // assert
        44 => 0x01_11_13_23_00, // if
        45 => 0x01_11_11_11_13, // foreach
        46 => 0x01_32_00_00_00, // block
        _ => 0,
    }
}

// What slot i of a kind takes, by number; 0 for no slot.
#[tactic(auto, using(crate::proofs::Numbers::digits))]
pub fn slot(kind: u32, i: usize) -> u8
    ensures { result ≡ code (slot kind i) }
{
    let row = row(kind);
    match i {
        0 => (row / 0x1000000 % 256) as u8,
        1 => (row / 0x10000 % 256) as u8,
        2 => (row / 0x100 % 256) as u8,
        3 => (row % 256) as u8,
        _ => 0,
    }
}

// How many marks a kind has; 0 for no kind.
#[tactic(auto, using(crate::proofs::Numbers::digits))]
fn marks(kind: u32) -> u32
    ensures { (result ≡ (kind_of kind).marks) × (result < 256) }
{
    (row(kind) / 0x100000000) as u32
}

// Whether a kind is an expression's.
#[tactic(auto, using(std::proofs::lemmas::Bool::Decides::nat_tests), unfolding(crate::specs::Slots::is_expression))]
fn is_expression(kind: u32) -> bool
    ensures { result ≡ is_expression kind }
{
    matches!(kind, 1..=17)
}

// Whether a mark is one of its kind's.
#[tactic(auto, using(std::proofs::lemmas::Bool::Decides::nat_tests), unfolding(crate::specs::Slots::marked))]
pub fn mark_good(kind: u32, mark: u32) -> bool
    ensures { result ≡ marked kind mark }
{
    let n = marks(kind);
    mark < n || is_expression(kind) && GROUPED <= mark && mark < GROUPED + n
}

// Whether rows of this kind and mark are among those that a slot takes.
#[tactic(auto, using(std::proofs::lemmas::Bool::Decides::nat_tests), unfolding(crate::specs::Codes::kinds_of, crate::specs::Slots::takes, crate::specs::Slots::is_statement))]
fn kind_good(kinds: u8, kind: u32, mark: u32) -> bool
    ensures { result ≡ takes (kinds_of kinds) kind mark }
{
    match kinds {
        1 => is_expression(kind),
        2 => matches!(kind, 32..=45),
        3 => kind == 46,
        4 => kind == 19,
        5 => kind == 2 && mark == 0,
        6 => is_expression(kind) || matches!(kind, 32..=46),
        _ => kind == 18,
    }
}

// Whether a slot is unused.
#[tactic(auto, using(std::proofs::lemmas::Bool::Decides::nat_tests), unfolding(crate::specs::Codes::many_of))]
fn is_no(s: u8) -> bool
    ensures { result ≡ is_no (slot_of s).many }
{
    !matches!(s / 16, 1..=4)
}

// Whether a slot takes a list.
#[tactic(auto, using(std::proofs::lemmas::Bool::Decides::nat_tests), unfolding(crate::specs::Codes::many_of))]
pub fn is_list(s: u8) -> bool
    ensures { result ≡ is_list (slot_of s).many }
{
    matches!(s / 16, 3 | 4)
}

// Whether a row of this kind, mark and next fits the slot that it stands in.
#[tactic(auto, using(std::proofs::lemmas::Bool::Decides::nat_tests), unfolding(crate::specs::Fine::taken))]
pub fn taken_in(s: u8, kind: u32, mark: u32, next: u32) -> bool
    ensures { result ≡ taken (slot_of s) kind mark next }
{
    is_no(s) || kind_good(s % 16, kind, mark) && (is_list(s) || next == 0)
}

// Whether the word of row r for a slot is as the slot wants it.
#[tactic(auto, using(std::proofs::lemmas::Bool::Decides::nat_tests), unfolding(crate::specs::Codes::many_of))]
pub fn child_good(s: u8, r: u32, c: u32) -> bool
    ensures { result ≡ child_fine (slot_of s).many r c }
{
    match s / 16 {
        1 | 4 => 0 < c && c < r,
        2 | 3 => c < r,
        _ => c == 0,
    }
}

// Whether a next word of row r is 0 or a later row of n.
#[tactic(auto, using(std::proofs::lemmas::Bool::Decides::nat_tests), unfolding(crate::specs::Fine::next_fine))]
pub fn next_good(n: u32, r: u32, next: u32) -> bool
    ensures { result ≡ next_fine n r next }
{
    next == 0 || r < next && next <= n
}
