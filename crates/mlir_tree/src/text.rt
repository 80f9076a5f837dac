//! Texts: lists of bytes.

ghost use Rattle.std.specs.Prelude.{◌≡◌, ◌↔◌, IfOk, IsTrue};
ghost use Rattle.mlir_tree.specs.Order.{texts_cmp};

use shared_list::Shared;
use shared_text::SharedText;
use std::alloc::{AllocError, Global};
use std::cmp::Ordering;

/// A list of bytes. Copies share it.
pub type Text = SharedText;

/// A list of texts.
pub type TextList = Shared<Text>;

/// An equal text.
pub fn copy_text(_alloc: Global, text: &Text) -> Result<Text, AllocError>
    ensures { IfOk result (λ copy. copy ≡ text.now) }
{
    text.copy()
}

/// Whether the texts have the same bytes.
pub fn equal_texts(a: &[u8], b: &[u8]) -> bool
    ensures { IsTrue result ↔ (a.now ≡ b.now) }
{
    a == b
}

/// The order of lists of texts by their first difference.
pub fn cmp_texts(a: &[Text], b: &[Text]) -> Ordering
    ensures { result ≡ texts_cmp a.now b.now }
{
    let mut at = 0;
    while at < a.len() && at < b.len() {
        let step = a[at].as_slice().cmp(b[at].as_slice());
        if step.is_ne() {
            return step;
        }
        at += 1;
    }
    a.len().cmp(&b.len())
}
