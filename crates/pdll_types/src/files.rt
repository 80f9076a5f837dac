//! From a pattern file to what is known of it.

ghost use Rattle.std.specs.Prelude.{◌≡◌, [], ◌∷◌, List, None, Some, OnOk, IfOk};
ghost use Rattle.pdll_syntax.specs.declared.file.Decl.{Decl as Declaration};
ghost use Rattle.pdll_types.specs.Signatures.{Declared, declared, declared_name, signature_of};
ghost use Rattle.pdll_types.specs.Accepted.{decl_place};
ghost use Rattle.pdll_types.specs.Judged.{Judges, Finds, Later};
ghost use Rattle.pdll_types.specs.Earlier.{IsEarlier, Nexts};
ghost use Rattle.pdll_types.specs.Walk.{decl_walked, Tells};

use crate::declarations::{declare, walk_decl};
use crate::kind::KindList;
use crate::opened::first_open;
use crate::table::Table;
use crate::typed::{IdList, Typed};
use crate::walk::Walk;
use mlir_tree::refusal::Refusal;
use pdll_expand::constraints::Constraints;
use pdll_sizes::Sizes;
use pdll_syntax::fault::{PatFault, PatKind};
use pdll_syntax::file::{Decl, PatFile};
use std::alloc::{AllocError, Global};

/// Goes through one declaration.
#[tactic(auto, unfolding(crate::specs::Walk::decl_walked))]
fn walk_one<'t>(
    alloc: Global,
    table: &Table<'t>,
    walk: &mut Walk<'t>,
    one: &'t Decl,
) -> Result<(), AllocError>
    ensures { OnOk result (walk.new ≡ decl_walked table.now one.now walk.old) }
{
    walk.sight.clear();
    walk.words.clear();
    walk.least = None;
    walk_decl(alloc, table, walk, one)
}

/// Where a declaration begins.
fn decl_place(one: &Decl) -> usize
    ensures { result ≡ decl_place one.now }
{
    match one {
        Decl::Pattern(pattern) => pattern.at,
        Decl::Constraint(call) => call.at,
        Decl::Rewrite(call) => call.at,
    }
}

/// The declarations before, as each part of the judgement knows them.
#[derive(Drop)]
struct Earlier<'t> {
    table: Table<'t>,
    constraints: Constraints<'t>,
    sizes: Sizes<'t>,
}

impl<'t> Earlier<'t> {
    /// Before the first declaration.
    fn new(alloc: Global) -> Earlier<'t>
        ensures { IsEarlier result [] [] }
    {
        Earlier {
            table: Table::new(alloc),
            constraints: Constraints::new(alloc),
            sizes: Sizes::new(alloc),
        }
    }

    /// Declares what has a name, which must be new.
    fn declare(&mut self, alloc: Global, one: &'t Decl) -> Result<(), AllocError>
        requires { (n : _) → declared_name one.now ≡ Some n → signature_of self.old.table n.text ≡ None }
        ensures { (c : List Declared) (earlier : List Declaration) → IsEarlier self.old c earlier → OnOk result (IsEarlier self.new (declared c one.now) (one.now ∷ earlier)) }
    {
        declare(alloc, &mut self.table, one)?;
        self.constraints.declare(alloc, one)?;
        self.sizes.declare(one)
    }

    /// The first fault of what a declaration doesn't determine, or of its size.
    fn later_fault(&self, alloc: Global, one: &'t Decl) -> Result<Option<PatFault>, AllocError>
        ensures { (c : List Declared) (earlier : List Declaration) → IsEarlier self.now c earlier → IfOk result (Later earlier one.now) }
    {
        if let Some(fault) = first_open(alloc, &self.constraints, one)? {
            return Ok(Some(fault));
        }
        if self.sizes.is_too_large(one) {
            return Ok(Some(PatFault {
                kind: PatKind::TooMany,
                at: decl_place(one),
            }));
        }
        Ok(None)
    }
}

/// Goes through one more declaration, and declares it where it has no fault.
fn walk_next<'t>(
    alloc: Global,
    earlier: &mut Earlier<'t>,
    walk: &mut Walk<'t>,
    one: &'t Decl,
) -> Result<(), Refusal<PatFault>>
    ensures walked { OnOk result (walk.new ≡ decl_walked earlier.old.table one.now walk.old) }
    ensures next { (c : List Declared) (ds : List Declaration) → IsEarlier earlier.old c ds → Nexts c ds one.now earlier.new result }
{
    walk_one(alloc, &earlier.table, walk, one)?;
    if let Some(fault) = walk.least {
        return Err(Refusal::Fault(fault));
    }
    if let Some(fault) = earlier.later_fault(alloc, one)? {
        return Err(Refusal::Fault(fault));
    }
    Ok(earlier.declare(alloc, one)?)
}

/// Goes through declarations, up to the first that has a fault.
fn walk_decls<'t>(
    alloc: Global,
    earlier: &mut Earlier<'t>,
    walk: &mut Walk<'t>,
    all: &'t [Decl],
) -> Result<(), Refusal<PatFault>>
    requires { IsEarlier earlier.old [] [] }
    ensures { Tells [] [] all.now walk.old result walk.new }
{
    for one in all {
        if let Err(refusal) = walk_next(alloc, earlier, walk, one) {
            return Err(refusal);
        }
    }
    Ok(())
}

/// Goes through the declarations of a file.
fn walk_file<'t>(
    alloc: Global,
    walk: &mut Walk<'t>,
    file: &'t PatFile,
) -> Result<(), Refusal<PatFault>>
    ensures { Tells [] [] file.now.decls walk.old result walk.new }
{
    let mut earlier = Earlier::new(alloc);
    walk_decls(alloc, &mut earlier, walk, file.decls.as_slice())
}

/// The kinds of a file's expressions and its roots, where it is accepted.
fn kinds_and_roots(alloc: Global, file: &PatFile) -> Result<(KindList, IdList), Refusal<PatFault>>
    ensures { Finds file.now result }
{
    let mut walk = Walk::new(alloc);
    match walk_file(alloc, &mut walk, file) {
        Ok(()) => {
            let Walk {
                sight: _,
                words: _,
                kinds,
                roots,
                least: _,
            } = walk;
            Ok((kinds, roots))
        }
        Err(refusal) => Err(refusal),
    }
}

/// Whether a pattern file is accepted: the kinds of its expressions and its roots, or its first fault.
pub fn check(alloc: Global, file: &PatFile) -> Result<Typed, Refusal<PatFault>>
    // The file with its kinds and roots where it is accepted, else its first fault, unless memory fails.
    ensures exact { Judges file.now result }
{
    match kinds_and_roots(alloc, file) {
        Ok((kinds, roots)) => {
            let file = file.copy(alloc)?;
            Ok(Typed { file, kinds, roots })
        }
        Err(refusal) => Err(refusal),
    }
}
