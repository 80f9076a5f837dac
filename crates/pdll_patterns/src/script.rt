//! What a rewrite does, as far as it is read.

ghost use Rattle.std.specs.Prelude.{◌≡◌, [], map, option_map};
ghost use Rattle.rewrite_model.specs.RewritePart as spec;
ghost use Rattle.pdll_patterns.specs.declared.names.Names.{Names};
ghost use Rattle.pdll_patterns.specs.View.{part_of, meant_part_of, making_of, action_of};
ghost use Rattle.pdll_patterns.specs.Scripts.{Does};

use crate::action::{Action, Making, Part};
use crate::names::MeantPart;
use native_set::native::Kind;
use sqlite_items::Items;
use std::alloc::{AllocError, Global};

/// The actions of a rewrite, and how many things they make.
#[derive(Drop)]
pub struct Script<'t> {
    pub actions: Items<Action<'t>>,
    count: usize,
}

impl<'t> Script<'t> {
    /// Nothing is done.
    pub fn new(alloc: Global) -> Self
        ensures none { result.actions ≡ [] }
        ensures zero { result.count ≡ 0 }
    {
        Script {
            actions: Items::new(alloc),
            count: 0,
        }
    }

    pub fn act(&mut self, action: Action<'t>) -> Result<(), AllocError>
        ensures { (names : Names) → Does (λ u. u) (spec.act (action_of action.entry)) (names, self.old) result (names, self.new) }
    {
        self.actions.push(action)?;
        Ok(())
    }

    /// What is made here, of this kind.
    pub fn make(&mut self, kind: Kind, making: Making<'t>) -> Result<MeantPart, AllocError>
        ensures { (names : Names) → Does meant_part_of (spec.make kind (making_of making.entry)) (names, self.old) result (names, self.new) }
    {
        let made = self.count;
        self.count = match made.checked_add(1) {
            None => return Err(AllocError),
            Some(count) => count,
        };
        self.actions.push(Action::Makes(making))?;
        Ok(MeantPart {
            kind,
            is: Part::Made(made),
        })
    }

    /// An operation among operands is its only result.
    pub fn operand(&mut self, x: MeantPart) -> Result<Part, AllocError>
        ensures { (names : Names) → Does part_of (spec.operand_part (meant_part_of x)) (names, self.old) result (names, self.new) }
    {
        match x.kind {
            Kind::Op => Ok(self.make(Kind::Value, Making::OnlyResultOf(x.is))?.is),
            _ => Ok(x.is),
        }
    }

    /// An operation among replacements is all its results.
    pub fn replacement(&mut self, x: MeantPart) -> Result<Part, AllocError>
        ensures { (names : Names) → Does part_of (spec.replacement_part (meant_part_of x)) (names, self.old) result (names, self.new) }
    {
        match x.kind {
            Kind::Op => Ok(self.make(Kind::Values, Making::ResultsOf(x.is))?.is),
            _ => Ok(x.is),
        }
    }

    /// Types that are left out are those of the operation that is replaced.
    pub fn replaced_types(
        &mut self,
        alloc: Global,
        replaced: Option<Part>,
    ) -> Result<Items<Part>, AllocError>
        ensures { (names : Names) → Does (map part_of) (spec.replaced_types (option_map part_of replaced)) (names, self.old) result (names, self.new) }
    {
        let mut types = Items::new(alloc);
        match replaced {
            None => Ok(types),
            Some(old) => {
                let made = self.make(Kind::Tys, Making::ResultTypesOf(old))?;
                types.push(made.is)?;
                Ok(types)
            }
        }
    }
}
