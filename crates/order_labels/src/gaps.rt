//! Labels for new slots, and labels that are spread anew where two neighbours leave none.
//!
//! Labels lie below 2^63. Where there is no room between two, the smallest range of labels around them that isn't crowded
//! is found, among the aligned ranges of 8, 64, 512, .. labels, and the slots in it are spread evenly over it. A range of
//! 8^k labels is crowded from 4^k slots on. So a slot gets a new label a logarithmic number of times on average.

ghost use Rattle.std.specs.Prelude.{◌≡◌, ◌≢◌, ◌+◌, ◌*◌, ◌<◌, ◌≤◌, ◌^◌, ℕ};
ghost use Rattle.slab.specs.Slab.{ContainsKey};
ghost use Rattle.order_labels.specs.Chain.{link_at, label_of, prev_of, next_of, go, top, limit_of, IsOrder, IsPlaced, IsStretch, Spreads, Relabels, KeepsRoom};

use crate::links::{Link, Slot, look, set_label};
use slab::Slab;

/// No label is this great.
const TOP: u64 = 1 << 63;

/// How far labels are apart at most, where a slot is put last.
const STRIDE: u64 = 1 << 32;

/// So many slots between two others.
#[derive(Clone, Copy)]
pub struct Stretch {
    pub before: Slot,
    pub len: usize,
    pub after: Slot,
}

/// Some labels from a first one on.
#[derive(Clone, Copy)]
pub struct Range {
    pub base: u64,
    pub width: u64,
}

/// A label for a slot that is to stand just before `at`.
pub fn label_before(links: &mut Slab<Link>, count: usize, at: Slot) -> u64
    requires order { IsOrder (link_at links.old) count }
    requires few { count ≤ 2 ^ 40 }
    requires placed { IsPlaced (link_at links.old) count at.0 }
    ensures relabels { Relabels (link_at links.old) (link_at links.new) count }
    ensures low { label_of (link_at links.new) (prev_of (link_at links.new) at.0) < result }
    ensures high { result < limit_of (link_at links.new) at.0 }
    ensures room { KeepsRoom links.old links.new }
{
    make_gap(links, count, at);
    label_within(links, count, at)
}

// Sees to it that there is a label in the gap before a slot.
#[tactic(auto, using(crate::proofs::Spreading::relabels_none))]
fn make_gap(links: &mut Slab<Link>, count: usize, at: Slot)
    requires order { IsOrder (link_at links.old) count }
    requires few { count ≤ 2 ^ 40 }
    requires placed { IsPlaced (link_at links.old) count at.0 }
    ensures relabels { Relabels (link_at links.old) (link_at links.new) count }
    ensures gap { label_of (link_at links.new) (prev_of (link_at links.new) at.0) + 2 ≤ limit_of (link_at links.new) at.0 }
    ensures room { KeepsRoom links.old links.new }
{
    if gap_before(links, count, at) >= 2 {
        return;
    }
    relabel(links, count, at);
}

// The label where the gap before a slot ends.
fn limit(links: &Slab<Link>, at: Slot) -> u64
    ensures { result ≡ limit_of (link_at links.now) at.0 }
{
    if at.is_head() {
        TOP
    } else {
        look(links, at).label
    }
}

// How far the labels of a slot and the one before it are apart.
fn gap_before(links: &Slab<Link>, count: usize, at: Slot) -> u64
    requires order { IsOrder (link_at links.now) count }
    requires placed { IsPlaced (link_at links.now) count at.0 }
    ensures { label_of (link_at links.now) (prev_of (link_at links.now) at.0) + result ≡ limit_of (link_at links.now) at.0 }
{
    limit(links, at) - look(links, look(links, at).prev).label
}

// A label in the gap before a slot.
fn label_within(links: &Slab<Link>, count: usize, at: Slot) -> u64
    requires order { IsOrder (link_at links.now) count }
    requires placed { IsPlaced (link_at links.now) count at.0 }
    requires gap { label_of (link_at links.now) (prev_of (link_at links.now) at.0) + 2 ≤ limit_of (link_at links.now) at.0 }
    ensures low { label_of (link_at links.now) (prev_of (link_at links.now) at.0) < result }
    ensures high { result < limit_of (link_at links.now) at.0 }
{
    let gap = gap_before(links, count, at);
    look(links, look(links, at).prev).label + (gap / 2).min(STRIDE)
}

// Spreads the labels around the gap before a slot.
fn relabel(links: &mut Slab<Link>, count: usize, at: Slot)
    requires order { IsOrder (link_at links.old) count }
    requires few { count ≤ 2 ^ 40 }
    requires placed { IsPlaced (link_at links.old) count at.0 }
    ensures relabels { Relabels (link_at links.old) (link_at links.new) count }
    ensures gap { label_of (link_at links.new) (prev_of (link_at links.new) at.0) + 2 ≤ limit_of (link_at links.new) at.0 }
    ensures room { KeepsRoom links.old links.new }
{
    let (stretch, range) = uncrowded(links, count, at);
    let step = range.width / (stretch.len as u64 + 1);
    spread(links, stretch.before, stretch.len, range.base, step);
}

// The smallest range around the gap before a slot that isn't crowded, and the slots in it.
fn uncrowded(links: &Slab<Link>, count: usize, at: Slot) -> (Stretch, Range)
    requires order { IsOrder (link_at links.now) count }
    requires few { count ≤ 2 ^ 40 }
    requires placed { IsPlaced (link_at links.now) count at.0 }
    ensures stretch { IsStretch (link_at links.now) count at.0 result.0.before.0 result.0.len result.0.after.0 }
    ensures low { label_of (link_at links.now) result.0.before.0 ≤ result.1.base }
    ensures high { result.1.base + result.1.width ≤ limit_of (link_at links.now) result.0.after.0 }
    ensures top { result.1.base + result.1.width ≤ top }
    ensures wide { 2 * (result.0.len + 1) ≤ result.1.width }
{
    let before = look(links, at).prev;
    let label = look(links, before).label;
    let mut level = 1;
    let mut range = range_of(label, level);
    let mut stretch = Stretch {
        before,
        len: 0,
        after: at,
    };
    stretch = widened(links, count, at, stretch, range);
    while stretch.len >= 4usize.pow(level) {
        level += 1;
        range = range_of(label, level);
        stretch = widened(links, count, at, stretch, range);
    }
    (stretch, range)
}

// The aligned range of 8^level labels that a label is in.
fn range_of(label: u64, level: u32) -> Range
    requires label { label < top }
    requires level { level ≤ 21 }
    ensures width { result.width ≡ 8 ^ level }
    ensures low { result.base ≤ label }
    ensures top { result.base + result.width ≤ top }
{
    let width = 8u64.pow(level);
    Range {
        base: label / width * width,
        width,
    }
}

// The stretch with all slots on both sides whose labels are in a range.
fn widened(links: &Slab<Link>, count: usize, at: Slot, stretch: Stretch, range: Range) -> Stretch
    requires order { IsOrder (link_at links.now) count }
    requires few { count ≤ 2 ^ 40 }
    requires stretch { IsStretch (link_at links.now) count at.0 stretch.before.0 stretch.len stretch.after.0 }
    requires top { range.base + range.width ≤ top }
    ensures stretch { IsStretch (link_at links.now) count at.0 result.before.0 result.len result.after.0 }
    ensures low { label_of (link_at links.now) result.before.0 ≤ range.base }
    ensures high { range.base + range.width ≤ limit_of (link_at links.now) result.after.0 }
{
    let front = with_front(links, count, at, stretch, range.base);
    with_back(links, count, at, front, range.base + range.width)
}

// The stretch with all slots in front of it whose labels are above `base`.
fn with_front(links: &Slab<Link>, count: usize, at: Slot, stretch: Stretch, base: u64) -> Stretch
    requires order { IsOrder (link_at links.now) count }
    requires few { count ≤ 2 ^ 40 }
    requires stretch { IsStretch (link_at links.now) count at.0 stretch.before.0 stretch.len stretch.after.0 }
    ensures stretch { IsStretch (link_at links.now) count at.0 result.before.0 result.len result.after.0 }
    ensures low { label_of (link_at links.now) result.before.0 ≤ base }
{
    let mut before = stretch.before;
    let mut len = stretch.len;
    while look(links, before).label > base {
        before = look(links, before).prev;
        len += 1;
    }
    Stretch {
        before,
        len,
        after: stretch.after,
    }
}

// The stretch with all slots behind it whose labels are below `end`.
fn with_back(links: &Slab<Link>, count: usize, at: Slot, stretch: Stretch, end: u64) -> Stretch
    requires order { IsOrder (link_at links.now) count }
    requires few { count ≤ 2 ^ 40 }
    requires stretch { IsStretch (link_at links.now) count at.0 stretch.before.0 stretch.len stretch.after.0 }
    requires end { end ≤ top }
    ensures stretch { IsStretch (link_at links.now) count at.0 result.before.0 result.len result.after.0 }
    ensures before { result.before ≡ stretch.before }
    ensures high { end ≤ limit_of (link_at links.now) result.after.0 }
{
    let mut len = stretch.len;
    let mut after = stretch.after;
    while limit(links, after) < end {
        after = look(links, after).next;
        len += 1;
    }
    Stretch {
        before: stretch.before,
        len,
        after,
    }
}

// Gives the slots behind one labels that are a step apart.
fn spread(links: &mut Slab<Link>, before: Slot, len: usize, base: u64, step: u64)
    requires apart { (i j : ℕ) → i < j → j ≤ len → go (next_of (link_at links.old)) before.0 i ≢ go (next_of (link_at links.old)) before.0 j }
    requires there { (i : ℕ) → 1 ≤ i → i ≤ len → ContainsKey links.old (go (next_of (link_at links.old)) before.0 i) }
    requires top { base + len * step ≤ top }
    ensures spreads { Spreads (link_at links.old) (link_at links.new) before.0 len base step }
    ensures room { KeepsRoom links.old links.new }
{
    let mut at = before;
    let mut label = base;
    for _turn in 0..len {
        at = look(links, at).next;
        label += step;
        set_label(links, at, label);
    }
}
