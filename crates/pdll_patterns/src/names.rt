//! Names in sight of a rewrite.

ghost use Rattle.std.specs.Prelude.{◌≡◌, ◌∷◌, [], List, map, option_map, IfOk, OnOk};
ghost use Rattle.rewrite_model.specs.Names.{meaning, named_together, Names as Sight};
ghost use Rattle.rewrite_model.specs.Pattern.{Part as PartModel};
ghost use Rattle.rewrite_model.specs.RewritePart.{no_part};
ghost use Rattle.rewrite_model.specs.Expanding.{param_names};
ghost use Rattle.pdll_expand.specs.declared.scene.Scene.{Scene as SceneNode};
ghost use Rattle.pdll_patterns.specs.View.{meant_part_of};
ghost use Rattle.pdll_patterns.specs.Scripts.{matched_known, AreNames, HasNames};

use crate::action::Part;
use indexmap::IndexMap;
use native_set::native::Kind;
use pdll_expand::scene::Scene;
use pdll_syntax::stmt::Param;
use std::alloc::{AllocError, Global};

/// What a name or an expression of a rewrite stands for.
#[derive(Clone, Copy)]
pub struct MeantPart {
    pub kind: Kind,
    pub is: Part,
}

impl MeantPart {
    /// What stands where there is nothing to give.
    pub fn none() -> MeantPart
        ensures { meant_part_of result ≡ no_part }
    {
        MeantPart {
            kind: Kind::Attr,
            is: Part::Made(0),
        }
    }
}

/// What each name in sight stands for: the names of a rewrite hide those of the match around it, if there is one.
#[derive(Drop)]
pub struct Names<'s, 't> {
    matched: Option<&'s Scene<'t>>,
    own: IndexMap<&'t [u8], MeantPart>,
}

impl<'s, 't> Names<'s, 't> {
    /// No name is in sight.
    pub fn new(alloc: Global) -> Self
        ensures { AreNames result [] }
    {
        Names {
            matched: None,
            own: IndexMap::new(alloc),
        }
    }

    /// The names of a match are in sight.
    pub fn of_match(alloc: Global, scene: &'s Scene<'t>) -> Self
        ensures { HasNames result scene.now }
    {
        Names {
            matched: Some(scene),
            own: IndexMap::new(alloc),
        }
    }

    /// The parameters of a rewrite are in sight, as names of its arguments.
    pub fn of_params(
        alloc: Global,
        params: &'t [Param],
        arguments: &[MeantPart],
    ) -> Result<Self, AllocError>
        ensures { IfOk result (λ n. AreNames n (named_together (param_names params.now) (map meant_part_of arguments.now))) }
    {
        let mut names = Names::new(alloc);
        let mut at = params.len().min(arguments.len());
        while at > 0 {
            at -= 1;
            names.see(params[at].name.text.as_slice(), arguments[at])?;
        }
        Ok(names)
    }

    /// Brings a name into sight. It hides an older one.
    pub fn see(&mut self, name: &'t [u8], x: MeantPart) -> Result<(), AllocError>
        ensures { (names : Sight PartModel) → AreNames self.old names → OnOk result (AreNames self.new ((name.now, meant_part_of x) ∷ names)) }
    {
        self.own.insert(name, x)?;
        Ok(())
    }

    /// What a name of the match stands for.
    fn matched(&self, name: &[u8]) -> Option<MeantPart>
        ensures { option_map meant_part_of result ≡ matched_known self.now.matched name.now }
    {
        match self.matched {
            None => None,
            Some(scene) => match scene.find_name(name) {
                None => None,
                Some(x) => Some(MeantPart {
                    kind: x.kind,
                    is: Part::Matched(x.is),
                }),
            },
        }
    }

    /// What a name stands for. One that isn't in sight stands for nothing.
    pub fn look_up(&self, name: &[u8]) -> MeantPart
        ensures { (names : Sight PartModel) → AreNames self.now names → meant_part_of result ≡ meaning names name.now no_part }
    {
        match self.own.get(name) {
            Some(x) => *x,
            None => match self.matched(name) {
                Some(x) => x,
                None => MeantPart::none(),
            },
        }
    }
}
