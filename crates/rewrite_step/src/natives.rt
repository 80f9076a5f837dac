//! Native rewrites of attributes.

ghost use Rattle.std.specs.Prelude.{map};
ghost use Rattle.native_set.specs.declared.native.Rewrite.TheVariants.{AddInt, MulInt, NegInt};
ghost use Rattle.row_matcher.specs.View.{thing_of};
ghost use Rattle.pdll_patterns.specs.View.{part_of};
ghost use Rattle.rewrite_step.specs.View.{start_of, progress_of};
ghost use Rattle.rewrite_step.specs.Ends.{Ends};
ghost use Rattle.rewrite_step.specs.Worked.{of_native, the_native};

use crate::making::attr_or_stop;
use crate::progress::{Progress, Start};
use crate::stop::{Stop, breaks};
use mlir_tree::refusal::Refusal;
use native_set::arithmetic::{add_int, mul_int, neg_int};
use native_set::native::Rewrite;
use pdll_patterns::action::Part;
use rewrite_model::run::Break;
use row_matcher::thing::Thing;
use std::alloc::Global;

fn added(alloc: Global, xs: &[Thing]) -> Result<Thing, Refusal<Stop>>
    ensures { Ends thing_of (of_native AddInt (map thing_of xs.now)) result }
{
    match xs {
        [Thing::Attr(a), Thing::Attr(b)] => attr_or_stop(add_int(alloc, a, b)),
        _ => Err(breaks(Break::NativeRefused)),
    }
}

fn multiplied(alloc: Global, xs: &[Thing]) -> Result<Thing, Refusal<Stop>>
    ensures { Ends thing_of (of_native MulInt (map thing_of xs.now)) result }
{
    match xs {
        [Thing::Attr(a), Thing::Attr(b)] => attr_or_stop(mul_int(alloc, a, b)),
        _ => Err(breaks(Break::NativeRefused)),
    }
}

fn negated(alloc: Global, xs: &[Thing]) -> Result<Thing, Refusal<Stop>>
    ensures { Ends thing_of (of_native NegInt (map thing_of xs.now)) result }
{
    match xs {
        [Thing::Attr(a)] => attr_or_stop(neg_int(alloc, a)),
        _ => Err(breaks(Break::NativeRefused)),
    }
}

// What a native gives of things.
fn native_of(alloc: Global, f: Rewrite, xs: &[Thing]) -> Result<Thing, Refusal<Stop>>
    ensures { Ends thing_of (of_native f (map thing_of xs.now)) result }
{
    match f {
        Rewrite::AddInt => added(alloc, xs),
        Rewrite::MulInt => multiplied(alloc, xs),
        Rewrite::NegInt => negated(alloc, xs),
    }
}

impl Progress {
    /// What a native gives of parts.
    pub fn native_thing(
        &self,
        alloc: Global,
        start: &Start<'_>,
        f: Rewrite,
        xs: &[Part],
    ) -> Result<Thing, Refusal<Stop>>
        ensures { Ends thing_of (the_native (start_of start.now) (progress_of self.now) f (map part_of xs.now)) result }
    {
        let things = self.things_at(alloc, start, xs)?;
        native_of(alloc, f, things.as_slice())
    }
}
