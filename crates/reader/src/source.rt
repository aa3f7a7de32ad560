// What is read: an array of tokens, by the rules of a mode. That it was checked is no invariant of it, but asked by `Ready`, which every reader asks
// of its cursor and its part anyway.
use modes::Mode;

#[derive(Clone, Copy, Debug, PartialEq, Eq)]
pub struct Source<'a> {
    pub tokens: &'a [u16],
    pub mode: Mode,
}
