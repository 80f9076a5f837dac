//! Segments of a list.

ghost use Rattle.std.specs.Prelude.{◌≡◌, ◌∷◌, List, length, option_map, option_and_then, option_copied};
ghost use Rattle.segment_sizes.specs.Sizes.{parts, sizes, sizes_of};
ghost use Rattle.segment_sizes.specs.Segments.{fitting};
ghost use Rattle.segment_sizes.specs.Reading.{segments_in, after_segment};

use crate::sizes::{first_part, size_up_to, spelling};
use mlir_tree::attr::Attr;

/// The first segment of a list, the sizes that are still to be read, and the rest of the list.
#[derive(Clone, Copy)]
pub struct Segment<'a, T> {
    pub items: &'a [T],
    pub sizes: Option<&'a [u8]>,
    pub rest: &'a [T],
}

/// The number of parts, where the sizes in them are `total` in all.
fn count_parts(text: &[u8], total: usize) -> Option<usize>
    ensures { result ≡ option_map length (option_and_then (fitting total) (sizes_of (parts text.now))) }
{
    let mut count = 0;
    let mut open = total;
    let mut left = Some(text);
    while let Some(text) = left {
        let (part, more) = first_part(text);
        match size_up_to(open, part) {
            Some(size) => open -= size,
            None => return None,
        }
        count += 1;
        left = more;
    }
    if open == 0 { Some(count) } else { None }
}

/// The number of segments of a list of this length, where the attribute spells sizes that are its length in all.
pub fn segment_count(a: &Attr, total: usize) -> Option<usize>
    ensures { result ≡ option_map length (option_and_then (fitting total) (sizes a.now)) }
{
    count_parts(spelling(a)?, total)
}

/// The first segment of a list by the sizes that a text spells.
pub fn first_segment<'a, T>(text: &'a [u8], items: &'a [T]) -> Option<Segment<'a, T>>
    ensures { segments_in (parts text.now) items.now ≡ after_segment result }
{
    let (part, sizes) = first_part(text);
    let (items, rest) = items.split_at(size_up_to(items.len(), part)?);
    Some(Segment { items, sizes, rest })
}
