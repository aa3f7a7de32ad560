// The value of a payload, put into a lent slice.
#![tactic(auto)]

mod escapes;
mod output;
mod texts;
mod values;

pub use output::Out;
