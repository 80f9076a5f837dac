// What follows from the outcome of the command, and from the run.
ghost use Rattle.std.specs.Prelude.{ℕ, List};
ghost use Rattle.pdllrw_command.specs.declared.status.Status.{Status as AnyStatus};
ghost use Rattle.pdllrw_command.specs.Outcome.{Outside, IsOutcome};
ghost use Rattle.pdllrw_command.specs.Complete.{GoesWell, Succeeds};
ghost use Rattle.pdllrw_command.specs.Laws.{AcceptedFilesHaveOneRun};

use pdll_types::laws::accepted_files_are_determined;
use rewrite_model::laws;

/// Where the files are accepted and nothing fails, the command rewrites the module, unless memory runs out.
pub fn completes()
    ensures { (old new : Outside) (words : List (List ℕ)) (s : AnyStatus) → GoesWell old new words → IsOutcome old new words s → Succeeds s }
{}

/// From each module, with each bound, there is exactly one run of the patterns of an accepted file.
pub fn one_run()
    ensures { AcceptedFilesHaveOneRun }
{
    accepted_files_are_determined();
    laws::one_run();
}
