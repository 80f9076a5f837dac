//! Integers of attributes.

ghost use Rattle.std.specs.Prelude.{◌≡◌, ◌↔◌, ◌^◌, ◌<◌, ◌≤◌, IsTrue};
ghost use Rattle.mlir_tree.specs.Order.{number_cmp};
ghost use Rattle.mlir_tree.specs.Range.{IsSignedRange};

use std::cmp::Ordering;

/// An integer by its sign and magnitude. Zero has `neg` false.
#[derive(Clone, Copy, Debug, PartialEq, Eq)]
pub struct Number {
    pub neg: bool,
    pub mag: u128,
}

impl Number {
    /// Whether the number is one of two's complement at this many bits.
    pub fn is_signed(self, width: u32) -> bool
        requires { width ≤ 128 }
        ensures { IsTrue result ↔ IsSignedRange width self.neg self.mag }
    {
        if width == 0 {
            return !self.neg && self.mag == 0;
        }
        let half = 1u128 << (width - 1);
        if self.neg {
            0 < self.mag && self.mag <= half
        } else {
            self.mag < half
        }
    }
}

/// Whether the magnitude has at most this many bits.
pub fn is_below_power(width: u32, magnitude: u128) -> bool
    requires { width ≤ 128 }
    ensures { IsTrue result ↔ (magnitude < 2 ^ width) }
{
    width == 128 || magnitude < 1u128 << width
}

/// The order of fields: numbers that aren't negative first, then by magnitude.
pub fn cmp_numbers(m: Number, n: Number) -> Ordering
    ensures { result ≡ number_cmp m n }
{
    m.neg.cmp(&n.neg).then(m.mag.cmp(&n.mag))
}
