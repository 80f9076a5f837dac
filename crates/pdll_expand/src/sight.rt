//! Which constraints are in sight.

ghost use Rattle.std.specs.Prelude.{◌≡◌, ◌<◌, take, slice_get, Some, IfSome};
ghost use Rattle.rewrite_model.specs.Expanding.{first_param_kind};
ghost use Rattle.rewrite_model.specs.Own.{silent};
ghost use Rattle.pdll_expand.specs.View.{written_of};
ghost use Rattle.pdll_expand.specs.Behind.{behind};
ghost use Rattle.pdll_expand.specs.Table.{calls_of, meaning_of, param_in, in_sight};

use crate::constraints::{Constraints, Found};
use crate::written::{Written, kind_of_refs, of_kind};
use native_set::native::Kind;
use pdll_syntax::stmt::Param;

/// So many calls and expressions may be nested. Deeper ones would take more stack than a program has.
const DEEPEST: usize = 500;

/// The constraints in sight.
#[derive(Clone, Copy)]
pub struct Sight<'a, 't> {
    pub constraints: &'a Constraints<'t>,
    /// So many of them are in sight.
    pub count: usize,
    /// Whether a call stands for the body of its constraint. Without bodies, a call asks for nothing.
    pub bodies: bool,
    /// So many more calls and expressions may be nested.
    pub room: usize,
}

impl<'a, 't> Sight<'a, 't> {
    /// All constraints, whose calls ask for nothing.
    pub fn quiet(constraints: &'a Constraints<'t>) -> Self
        ensures { in_sight result ≡ silent (behind (calls_of constraints.now)) }
    {
        Sight {
            constraints,
            count: constraints.len(),
            bodies: false,
            room: DEEPEST,
        }
    }

    /// All constraints, with their bodies.
    pub fn whole(constraints: &'a Constraints<'t>) -> Self
        ensures { in_sight result ≡ behind (calls_of constraints.now) }
    {
        Sight {
            constraints,
            count: constraints.len(),
            bodies: true,
            room: DEEPEST,
        }
    }

    /// The constraint of a name.
    pub fn find(self, name: &[u8]) -> Option<Found<'t>>
        ensures within { IfSome result (λ f. f.at < self.entry.count) }
        ensures there { IfSome result (λ f. slice_get (calls_of self.entry.constraints.now) f.at ≡ Some f.call.now) }
        ensures means { behind (take self.entry.count (calls_of self.entry.constraints.now)) name.now ≡ meaning_of (calls_of self.entry.constraints.now) result name.now }
    {
        self.constraints.find(name, self.count)
    }

    /// What is written for the first parameter of a constraint. A name that isn't in sight counts as one of a value.
    pub fn param(self, name: &[u8]) -> Written<'t>
        ensures { written_of result ≡ param_in self.entry name.now }
    {
        match self.find(name) {
            None => of_kind(Kind::Value),
            Some(found) => {
                match self.constraints.param(found.at) {
                    None => of_kind(Kind::Value),
                    Some(written) => written,
                }
            }
        }
    }
}

/// What is written for the first parameter.
pub fn first_param_kind<'t>(constraints: Sight<'_, 't>, params: &'t [Param]) -> Written<'t>
    ensures { written_of result ≡ first_param_kind (in_sight constraints.entry) params.now }
{
    match params {
        [] => of_kind(Kind::Value),
        [param, ..] => kind_of_refs(constraints, param.refs.as_slice()),
    }
}
