//! Values, their uses, and the links between uses.

use mlir_tree::value::Val;

/// The head of a value's uses, or a use.
#[derive(Clone, Copy, PartialEq, Eq, Hash)]
pub enum Node {
    Head(Val),
    Use(u32, u16),
}

/// The nodes before and after one, and the value: of a head the number of its uses too.
#[derive(Clone, Copy)]
pub struct Link {
    pub prev: Node,
    pub next: Node,
    pub owner: Val,
    pub count: u32,
}
