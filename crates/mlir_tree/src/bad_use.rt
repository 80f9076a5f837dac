//! Uses of values that can't be used there.

/// A row and an operand place of it, from 0, whose value doesn't exist or isn't visible there.
#[derive(Clone, Copy, Debug, PartialEq, Eq)]
pub struct BadUse {
    pub row: u32,
    pub place: u16,
}
