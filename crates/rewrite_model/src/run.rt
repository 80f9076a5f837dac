//! The order of a run, and how it ends.

/// Where a pattern matches.
#[derive(Clone, Copy, Debug, PartialEq, Eq)]
pub struct Hit {
    /// The place of the pattern among the patterns of the file, from 0.
    pub pattern: u32,
    /// The operation, its root.
    pub row: u32,
}

/// In which order the operations of a module are looked at.
#[derive(Clone, Copy, Debug, PartialEq, Eq)]
pub enum Order {
    /// The first one in text order at which a pattern matches is rewritten.
    First,
    /// The last one.
    Last,
}

/// What bounds a run.
#[derive(Clone, Copy, Debug, PartialEq, Eq)]
pub enum BoundKind {
    /// As many steps as are allowed were taken.
    Rewrites,
    /// A step would make too many operations.
    RowLimit,
    /// A step would make too many operands and results.
    SlotLimit,
}

/// Why a rewrite can't be done.
#[derive(Clone, Copy, Debug, PartialEq, Eq)]
pub enum Break {
    /// An operation is used that was removed.
    Gone,
    /// There are not as many results as are asked for.
    Count,
    /// A replacement has another type than the result that it replaces.
    Types,
    /// The module itself would be replaced or removed, or an operation put beside it.
    Top,
    /// A native rewrite has no result for its arguments.
    NativeRefused,
    /// An operand of the module afterwards isn't there or isn't visible: its operation, and its place from 0.
    BadUse(u32, u16),
}

/// A rewrite that can't be done.
#[derive(Clone, Copy, Debug, PartialEq, Eq)]
pub struct Broken {
    /// The place of the pattern among the patterns of the file, from 0.
    pub pattern: u32,
    pub root: u32,
    pub why: Break,
}

/// How a run ended.
#[derive(Clone, Copy, Debug, PartialEq, Eq)]
pub enum Ending {
    /// No pattern matches anywhere.
    Converged,
    /// The next step, which would be at this place, isn't allowed.
    Bound(BoundKind, Hit),
    /// The next step can't be done.
    Broken(Broken),
}
