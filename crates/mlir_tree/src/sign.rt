//! The signedness of integer types.

/// The signedness of an integer type, as in `i32`, `si32` and `ui32` (builtin dialect, "IntegerType").
#[derive(Clone, Copy, Debug, PartialEq, Eq, PartialOrd, Ord)]
pub enum Sign {
    Signless,
    Signed,
    Unsigned,
}
