//! What a run did: the steps that it took, and how it ended.

ghost use Rattle.rewrite_model.specs.Taken.{Taken};

use mlir_tree::row::IdList;
use mlir_tree::text::Text;
use rewrite_model::run::Ending;
use sqlite_items::Items;
use std::marker::Model;

/// A step that was taken. The numbers of the operations that it made rise, and so do those of the operations that it removed.
#[derive(Drop)]
pub struct StepRec {
    /// The place of the pattern among the patterns of the file, from 0.
    pub pattern: u32,
    /// The pattern's name, empty where it has none.
    pub name: Text,
    pub root: u32,
    pub made: IdList,
    pub removed: IdList,
}

/// A list of steps.
pub type StepList = Items<StepRec>;

/// What a run did.
#[derive(Drop)]
pub struct Run {
    pub taken: StepList,
    pub ending: Ending,
}

impl Model for StepRec {
    ghost use Rattle.rewrite_model.specs.Taken.{Taken, KeepsOrder, step_of};

    ghost Value = { Taken };

    ghost view = { λ s. step_of s.pattern s.name s.root s.made s.removed };

    ghost invariant = { λ s. KeepsOrder (step_of s.pattern s.name s.root s.made s.removed) };
}
