//! What follows from the sizes of accepted files. Each law is a call that does nothing and promises it.

ghost use Rattle.run_numbers.specs.Laws.{AcceptedFilesMakeFew, NumbersStaySmall};

use rewrite_model::laws::{sizes_bound_operations, steps_give_numbers};

/// A pattern of an accepted file makes at most 256 operations in a step.
pub fn accepted_files_make_few()
    ensures { AcceptedFilesMakeFew }
{
    sizes_bound_operations();
}

/// In a run of an accepted file of at most 1,000,000 steps, from a module whose next free number is at most 1,000,001, each
/// number of an operation is below 2^32.
pub fn numbers_stay_small()
    ensures { NumbersStaySmall }
{
    accepted_files_make_few();
    steps_give_numbers();
}
