//! What the match of a pattern asks for.

ghost use Rattle.std.specs.Prelude.{List, IfOk};
ghost use Rattle.pdll_syntax.specs.declared.file.Decl.{Decl as Declaration};
ghost use Rattle.rewrite_model.specs.MatchPart.{empty};
ghost use Rattle.rewrite_model.specs.Expanding as model;
ghost use Rattle.pdll_expand.specs.Scenes.{IsMatch};
ghost use Rattle.pdll_expand.specs.Table.{Knows};

use crate::constraints::Constraints;
use crate::own::body_stmts;
use crate::scene::Scene;
use crate::sight::Sight;
use crate::statements::read_match;
use pdll_syntax::file::PatternDecl;
use std::alloc::{AllocError, Global};

/// What the match of a pattern asks for, and the number of the operation that it matches.
#[derive(Drop)]
pub struct Match<'t> {
    pub scene: Scene<'t>,
    pub root: usize,
}

/// What the match of a pattern asks for, behind these constraints, with each call of a constraint replaced by its body.
pub fn read_pattern<'t>(
    alloc: Global,
    constraints: &Constraints<'t>,
    pattern: &'t PatternDecl,
) -> Result<Match<'t>, AllocError>
    ensures exact { (earlier : List Declaration) → Knows constraints.now earlier → IfOk result (λ x. IsMatch x (model.read_match (model.constraints earlier) (model.body_statements pattern.now.body) empty)) }
{
    let mut scene = Scene::new(alloc);
    let root = read_match(
        alloc,
        Sight::whole(constraints),
        &mut scene,
        body_stmts(&pattern.body),
    )?;
    Ok(Match { scene, root })
}
