//! What ends a step before its time.

ghost use Rattle.std.specs.Prelude.{◌≡◌};
ghost use Rattle.mlir_tree.specs.declared.refusal.Refusal.TheVariants as refusal;
ghost use Rattle.rewrite_step.specs.declared.stop.Stop.TheVariants as stop;

use mlir_tree::refusal::Refusal;
use rewrite_model::run::{BoundKind, Break};

/// What ends a step before its time: the rewrite can't be done, or it would make too much.
#[derive(Clone, Copy, Debug, PartialEq, Eq)]
pub enum Stop {
    Breaks(Break),
    Bound(BoundKind),
}

/// The rewrite can't be done.
pub(crate) fn breaks(why: Break) -> Refusal<Stop>
    ensures { result ≡ refusal.Fault (stop.Breaks why) }
{
    Refusal::Fault(Stop::Breaks(why))
}

/// It would make too much.
pub(crate) fn bound(kind: BoundKind) -> Refusal<Stop>
    ensures { result ≡ refusal.Fault (stop.Bound kind) }
{
    Refusal::Fault(Stop::Bound(kind))
}
