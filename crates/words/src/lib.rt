// The cursor over an array of token words, and the check of an array.
#![tactic(auto)]

mod array;
mod places;

pub use array::check;
pub use places::{
    Cursor, current, current_is, current_symbol_is, is_identifier, iterate, next, next_is,
    next_keyword_is, next_symbol_is,
};
