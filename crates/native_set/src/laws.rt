//! Laws of the arithmetic and of the table. Each is a call that does nothing and promises the law.

ghost use Rattle.native_set.specs.Laws.{WrappedIsInRange, WrappedIsCongruent, WrappedIsTheOne, SumsAreOfOneType, ProductsAreOfOneType, NativesAreLines, EachHasALine};

/// What an integer wraps to is in the range of the type.
#[tactic(auto, using(crate::proofs::Meaning::in_range))]
pub fn wrapped_is_in_range()
    ensures { WrappedIsInRange }
{}

/// It is congruent to the integer modulo two to the width of the type.
#[tactic(auto, using(crate::proofs::Meaning::congruent))]
pub fn wrapped_is_congruent()
    ensures { WrappedIsCongruent }
{}

/// No other number of the range is.
#[tactic(auto, using(crate::proofs::Meaning::the_one))]
pub fn wrapped_is_the_one()
    ensures { WrappedIsTheOne }
{}

/// There is a sum exactly of two integers of one type.
#[tactic(auto, using(crate::proofs::OneType::sums))]
pub fn sums_are_of_one_type()
    ensures { SumsAreOfOneType }
{}

/// There is a product exactly of two integers of one type.
#[tactic(auto, using(crate::proofs::OneType::products))]
pub fn products_are_of_one_type()
    ensures { ProductsAreOfOneType }
{}

/// A name and kinds have a native exactly where the table has a line with just these, and it is that line's.
pub fn natives_are_lines()
    ensures { NativesAreLines }
{}

/// The name, the parameters and the result of each native are those of its line.
#[tactic(auto, using(crate::proofs::Lines::each_has_a_line))]
pub fn each_has_a_line()
    ensures { EachHasALine }
{}
