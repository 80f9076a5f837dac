//! Laws of the definitions. Each is a call that does nothing and promises the law.

ghost use Rattle.rewrite_model.specs.Laws.{AtMostOneAssignment, MatchesAreDecided, OneRun, ConvergedRunsMatchNowhere, StepsKeepOperandsVisible, RunsKeepOperandsVisible, RewritesKeepLayout, StepsKeepWellFormed, RunsKeepWellFormed, RunsReachTheirEnd, NumbersHavePlaces, PartsComeFirst, SizesBoundOperations, StepsGiveNumbers, StepsKeepLimits, NumbersRise};

/// A pattern whose variables and operation expressions are all determined, and whose lists of types have at most one range each,
/// matches at an operation by at most one assignment.
pub fn at_most_one_assignment()
    ensures { AtMostOneAssignment }
{}

/// Whether such a pattern matches at an operation is decided.
pub fn matches_are_decided()
    ensures { MatchesAreDecided }
{}

/// There is exactly one run of such patterns.
pub fn one_run()
    ensures { OneRun }
{}

/// Where a run has converged, no pattern matches at any operation that is left.
pub fn converged_runs_match_nowhere()
    ensures { ConvergedRunsMatchNowhere }
{}

/// After a step each operand exists and is visible.
pub fn steps_keep_operands_visible()
    ensures { StepsKeepOperandsVisible }
{}

/// So it is after a run from a module in which it is so.
pub fn runs_keep_operands_visible()
    ensures { RunsKeepOperandsVisible }
{}

/// Whatever the actions of a pattern leave keeps all of well-formedness but that operands are visible.
pub fn rewrites_keep_layout()
    ensures { RewritesKeepLayout }
{}

/// A step leads from a well-formed module to a well-formed module.
pub fn steps_keep_well_formed()
    ensures { StepsKeepWellFormed }
{}

/// So every module of a run is well-formed that begins at a well-formed one.
pub fn runs_keep_well_formed()
    ensures { RunsKeepWellFormed }
{}

/// The module at the end of a run is one of its modules.
pub fn runs_reach_their_end()
    ensures { RunsReachTheirEnd }
{}

/// Each number of a pattern, and of a declaration by itself, has a place in the file.
pub fn numbers_have_places()
    ensures { NumbersHavePlaces }
{}

/// The numbers of the parts of an operation are not above its own.
pub fn parts_come_first()
    ensures { PartsComeFirst }
{}

/// A pattern makes at most as many operations as its declaration has operation expressions after expanding.
pub fn sizes_bound_operations()
    ensures { SizesBoundOperations }
{}

/// A step gives as many numbers as its pattern makes operations.
pub fn steps_give_numbers()
    ensures { StepsGiveNumbers }
{}

/// A step keeps the limits on operations and on their operands and results.
pub fn steps_keep_limits()
    ensures { StepsKeepLimits }
{}

/// The numbers of the operations that a step made rise, and so do those of the operations that it removed.
pub fn numbers_rise()
    ensures { NumbersRise }
{}
