//! Patterns, and the patterns of a file.

ghost use Rattle.std.specs.Prelude.{◌≡◌, ◌++◌, List, map, IfOk, OnOk};
ghost use Rattle.pdll_syntax.specs.StmtView.{stmt_form};
ghost use Rattle.pdll_syntax.specs.declared.file.Decl.{Decl as Declaration};
ghost use Rattle.rewrite_model.specs.Pattern.{the, matched};
ghost use Rattle.rewrite_model.specs.MatchPart.{Scene};
ghost use Rattle.rewrite_model.specs.RewritePart.{Rewrites};
ghost use Rattle.rewrite_model.specs.Expanding as spec;
ghost use Rattle.pdll_expand.specs.Scenes.{IsScene};
ghost use Rattle.pdll_patterns.specs.View.{part_of, action_of, pattern_of};
ghost use Rattle.pdll_patterns.specs.Scripts.{Does};
ghost use Rattle.pdll_patterns.specs.InSight.{Means};
ghost use Rattle.pdll_patterns.specs.Files.{IsEarlier, pattern_in};

use crate::action::{Action, Part};
use crate::doing::{do_stmts, replace_by};
use crate::earlier::Earlier;
use crate::in_sight::InSight;
use crate::names::Names;
use crate::script::Script;
use native_set::native::Kind;
use pdll_expand::demand::Demand;
use pdll_expand::expr::Expr;
use pdll_expand::own::body_stmts;
use pdll_expand::pattern::{Match, read_pattern};
use pdll_syntax::file::{Decl, Meta, MetaForm, PatFile, PatternDecl};
use pdll_syntax::name::Name;
use pdll_syntax::stmt::{Stmt, StmtForm};
use sqlite_items::Items;
use std::alloc::{AllocError, Global};

/// A pattern, with each call replaced by the body of what it calls.
#[derive(Drop)]
pub struct Pattern<'t> {
    /// Empty where the pattern has none.
    pub name: &'t [u8],
    pub benefit: u16,
    /// The kinds of what has the numbers 0, 1, ..
    pub kinds: Items<Kind>,
    /// Where each stands in the file.
    pub places: Items<usize>,
    /// What the match asks for, in the order of mention.
    pub demands: Items<Demand<'t>>,
    /// The number of the operation that is rewritten.
    pub root: usize,
    /// What the rewrite does, one after another.
    pub actions: Items<Action<'t>>,
}

fn pattern_name(name: &Option<Name>) -> &[u8]
    ensures { result.now ≡ spec.pattern_name name.now }
{
    match name {
        None => &[],
        Some(name) => name.text.as_slice(),
    }
}

/// The first benefit that is written, and 1 where none is.
fn benefit_of(metas: &[Meta]) -> u16
    ensures { result ≡ spec.benefit_of metas.now }
{
    for meta in metas {
        if let MetaForm::Benefit(benefit) = meta.form {
            return benefit;
        }
    }
    1
}

/// What the last statement does with the root.
fn rewrite_by_form<'t>(
    alloc: Global,
    rewrites: &InSight<'_, 't>,
    names: &mut Names<'_, 't>,
    script: &mut Script<'t>,
    root: Part,
    form: &'t StmtForm,
) -> Result<(), AllocError>
    ensures { (w : Rewrites) → Means rewrites.now w → Does (λ u. u) (spec.form_rewrites w (part_of root) (stmt_form form.now)) (names.old, script.old) result (names.new, script.new) }
{
    match form {
        StmtForm::Erase(_) => script.act(Action::Erases(root)),
        StmtForm::Replace(_, values) => replace_by(alloc, rewrites, names, script, root, values),
        StmtForm::Rewrite(_, all, _) => {
            do_stmts(alloc, rewrites, names, script, all.as_slice())?;
            Ok(())
        }
        _ => Ok(()),
    }
}

/// What the last of the statements does with the root.
fn rewrite_by_last<'t>(
    alloc: Global,
    rewrites: &InSight<'_, 't>,
    names: &mut Names<'_, 't>,
    script: &mut Script<'t>,
    root: Part,
    all: &'t [Stmt],
) -> Result<(), AllocError>
    ensures { (w : Rewrites) → Means rewrites.now w → Does (λ u. u) (spec.last_rewrites w (part_of root) all.now) (names.old, script.old) result (names.new, script.new) }
{
    match all {
        [] => Ok(()),
        [.., last] => rewrite_by_form(alloc, rewrites, names, script, root, &last.form),
    }
}

/// The actions of a pattern, behind its match.
fn actions_of<'t>(
    alloc: Global,
    rewrites: &InSight<'_, 't>,
    found: &Match<'t>,
    all: &'t [Stmt],
) -> Result<Items<Action<'t>>, AllocError>
    ensures { (w : Rewrites) → Means rewrites.now w → (s : Scene) → IsScene found.now.scene s → IfOk result (λ xs. map action_of xs ≡ (spec.last_rewrites w (matched (the found.now.root)) all.now (spec.script_of s)).1.actions) }
{
    let mut names = Names::of_match(alloc, &found.scene);
    let mut script = Script::new(alloc);
    let root = Part::Matched(Expr::The(found.root));
    rewrite_by_last(alloc, rewrites, &mut names, &mut script, root, all)?;
    Ok(script.actions)
}

/// The pattern that a declaration stands for, behind the declarations before it.
fn expand<'t>(
    alloc: Global,
    earlier: &Earlier<'t>,
    pattern: &'t PatternDecl,
) -> Result<Pattern<'t>, AllocError>
    ensures { (ds : List Declaration) → IsEarlier earlier.now ds → IfOk result (λ p. pattern_of p ≡ spec.expanded ds pattern.now) }
{
    let found = read_pattern(alloc, &earlier.constraints, pattern)?;
    let rewrites = InSight::new(&earlier.rewrites);
    let actions = actions_of(alloc, &rewrites, &found, body_stmts(&pattern.body))?;
    let root = found.root;
    let scene = found.scene;
    Ok(Pattern {
        name: pattern_name(&pattern.name),
        benefit: benefit_of(pattern.metas.as_slice()),
        kinds: scene.kinds,
        places: scene.places,
        demands: scene.demands,
        root,
        actions,
    })
}

/// Adds the pattern that a declaration is, if it is one.
fn add_pattern<'t>(
    alloc: Global,
    earlier: &Earlier<'t>,
    found: &mut Items<Pattern<'t>>,
    d: &'t Decl,
) -> Result<(), AllocError>
    ensures { (ds : List Declaration) → IsEarlier earlier.now ds → OnOk result (map pattern_of found.new ≡ map pattern_of found.old ++ pattern_in ds d.now) }
{
    if let Decl::Pattern(pattern) = d {
        found.push(expand(alloc, earlier, pattern)?)?;
    }
    Ok(())
}

/// The patterns of a file, in order, with each call replaced by the body of what it calls.
pub fn patterns<'t>(alloc: Global, file: &'t PatFile) -> Result<Items<Pattern<'t>>, AllocError>
    ensures exact { IfOk result (λ ps. map pattern_of ps ≡ spec.patterns file.now) }
{
    let mut earlier = Earlier::new(alloc);
    let mut found = Items::new(alloc);
    for d in file.decls.as_slice() {
        add_pattern(alloc, &earlier, &mut found, d)?;
        earlier.declare(alloc, d)?;
    }
    Ok(found)
}
