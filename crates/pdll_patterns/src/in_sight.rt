//! The rewrites that may be called.

ghost use Rattle.std.specs.Prelude.{◌≡◌, List, IfOk, length};
ghost use Rattle.pdll_syntax.specs.declared.file.CallDecl.{CallDecl as Called};
ghost use Rattle.rewrite_model.specs.RewritePart.{Rewrites};
ghost use Rattle.pdll_expand.specs.Called.{IsTable};
ghost use Rattle.pdll_patterns.specs.InSight.{by_first, Means, IsFound, IsLess, weight_of};

use pdll_expand::declared::Declared;
use pdll_syntax::file::CallDecl;
use std::alloc::AllocError;

/// So many expressions may be open at a time, those of bodies included.
const MOST_OPEN: usize = 500;

/// The first so many of the rewrites that are declared, within so many expressions.
#[derive(Clone, Copy)]
pub struct InSight<'r, 't> {
    declared: &'r Declared<'t>,
    count: usize,
    depth: usize,
}

/// A rewrite that is called, and those before it.
#[derive(Clone, Copy)]
pub struct Found<'r, 't> {
    pub call: &'t CallDecl,
    pub before: InSight<'r, 't>,
}

impl<'r, 't> InSight<'r, 't> {
    /// All that are declared.
    pub fn new(declared: &'r Declared<'t>) -> Self
        ensures { (calls : List Called) → IsTable declared.now calls → Means result (by_first calls (length calls)) }
    {
        InSight {
            declared,
            count: declared.len(),
            depth: 0,
        }
    }

    /// The same within one more expression. Where too many are open, the stack has no memory for one more.
    pub fn deeper(&self) -> Result<Self, AllocError>
        ensures means { (rewrite : Rewrites) → Means self.now rewrite → IfOk result (λ r. Means r rewrite) }
        ensures weight { IfOk result (λ r. weight_of r ≡ weight_of self.now) }
    {
        if self.depth >= MOST_OPEN {
            return Err(AllocError);
        }
        Ok(InSight {
            declared: self.declared,
            count: self.count,
            depth: self.depth + 1,
        })
    }

    /// The rewrite that a call of this name means.
    pub fn find(&self, name: &[u8]) -> Option<Found<'r, 't>>
        ensures found { (rewrite : Rewrites) → Means self.now rewrite → IsFound name.now rewrite result }
        ensures less { IsLess self.now result }
    {
        let at = match self.declared.find(name, self.count) {
            None => return None,
            Some(at) => at,
        };
        match self.declared.get(at) {
            None => None,
            Some(call) => Some(Found {
                call,
                before: InSight {
                    declared: self.declared,
                    count: at,
                    depth: self.depth,
                },
            }),
        }
    }
}
