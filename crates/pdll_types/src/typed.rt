//! Pattern files that are accepted.

ghost use Rattle.std.specs.Prelude.{◌≡◌};
ghost use Rattle.pdll_types.specs.Accepted.{IsAccepted, expression_kinds, root_numbers};

use crate::kind::KindList;
use pdll_syntax::file::PatFile;
use sqlite_items::Items;

/// Numbers of expressions.
pub type IdList = Items<usize>;

/// A pattern file that is accepted, with the kinds of its expressions and its roots.
#[derive(Drop)]
pub struct Typed {
    pub file: PatFile,
    /// The kinds of the file's expressions, ordered by their first token, and at one token the longer first.
    pub kinds: KindList,
    /// The number among them of the root of each pattern.
    pub roots: IdList,
    pub ghost accepted: { ∥ IsAccepted file ∥₁ },
    pub ghost own_kinds: { kinds ≡ expression_kinds file },
    pub ghost own_roots: { roots ≡ root_numbers file },
}
