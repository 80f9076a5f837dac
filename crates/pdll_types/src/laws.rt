//! What acceptance promises of patterns. Each law is a call that does nothing and promises it.

ghost use Rattle.pdll_types.specs.Laws.{AcceptedFilesAreDetermined, AcceptedFilesHaveNoFault};

/// In the patterns of an accepted file all is determined by the root, and no list of types has two ranges.
pub fn accepted_files_are_determined()
    ensures { AcceptedFilesAreDetermined }
{}

/// An accepted file has no first fault.
pub fn accepted_files_have_no_fault()
    ensures { AcceptedFilesHaveNoFault }
{}
