//! Links from slot to slot.

ghost use Rattle.std.specs.Prelude.{◌≡◌, ◌≢◌, ◌+◌, ◌≤◌, ◌↔◌, ℕ, None, Some, IsTrue};
ghost use Rattle.slab.specs.Slab.{get, slab_len, ContainsKey, HasRoomFor};
ghost use Rattle.order_labels.specs.Chain.{link_at, prev_of, next_of, Sets, Inserts, Skips, KeepsRoom};

use slab::Slab;

/// A place among the links.
#[derive(Clone, Copy)]
pub struct Slot(pub usize);

/// The slot that is before all others and behind them, and holds no id.
pub const HEAD: Slot = Slot(0);

impl Slot {
    pub fn is_head(self) -> bool
        ensures { IsTrue result ↔ (self.0 ≡ 0) }
    {
        self.0 == 0
    }
}

/// An id with its label, and the slots just before and behind it.
#[derive(Clone, Copy)]
pub struct Link {
    pub label: u64,
    pub id: u32,
    pub prev: Slot,
    pub next: Slot,
}

/// What a slot holds. One that holds nothing reads as the head of an empty list.
pub fn look(links: &Slab<Link>, at: Slot) -> Link
    ensures { result ≡ link_at links.now at.0 }
{
    match links.get(at.0) {
        Some(link) => *link,
        None => Link {
            label: 0,
            id: 0,
            prev: HEAD,
            next: HEAD,
        },
    }
}

fn set(links: &mut Slab<Link>, at: Slot, link: Link)
    requires there { ContainsKey links.old at.0 }
    ensures sets { Sets (link_at links.old) (link_at links.new) at.0 link }
    ensures room { KeepsRoom links.old links.new }
{
    links[at.0] = link;
}

fn set_prev(links: &mut Slab<Link>, at: Slot, prev: Slot)
    requires there { ContainsKey links.old at.0 }
    ensures sets { Sets (link_at links.old) (link_at links.new) at.0 (record (link_at links.old at.0) { prev = prev }) }
    ensures room { KeepsRoom links.old links.new }
{
    let link = look(links, at);
    set(links, at, Link { prev, ..link });
}

fn set_next(links: &mut Slab<Link>, at: Slot, next: Slot)
    requires there { ContainsKey links.old at.0 }
    ensures sets { Sets (link_at links.old) (link_at links.new) at.0 (record (link_at links.old at.0) { next = next }) }
    ensures room { KeepsRoom links.old links.new }
{
    let link = look(links, at);
    set(links, at, Link { next, ..link });
}

/// Gives a slot another label.
pub fn set_label(links: &mut Slab<Link>, at: Slot, label: u64)
    requires there { ContainsKey links.old at.0 }
    ensures sets { Sets (link_at links.old) (link_at links.new) at.0 (record (link_at links.old at.0) { label = label }) }
    ensures room { KeepsRoom links.old links.new }
{
    let link = look(links, at);
    set(links, at, Link { label, ..link });
}

/// Puts an id with its label into a new slot, which stands just before `at`.
pub fn splice(links: &mut Slab<Link>, id: u32, label: u64, at: Slot) -> Slot
    requires room { HasRoomFor links.old 1 }
    requires at_there { ContainsKey links.old at.0 }
    requires prev_there { ContainsKey links.old (prev_of (link_at links.old) at.0) }
    ensures inserts { Inserts (link_at links.old) (link_at links.new) result.0 at.0 label id }
    ensures fresh { get links.old result.0 ≡ None }
    ensures len { slab_len links.new ≡ slab_len links.old + 1 }
    ensures capacity { links.new.capacity ≡ links.old.capacity }
    ensures keys { (x : ℕ) → ContainsKey links.old x → ContainsKey links.new x }
{
    let prev = look(links, at).prev;
    let slot = Slot(links.insert_reserved(Link {
        label,
        id,
        prev,
        next: at,
    }));
    set_next(links, prev, slot);
    set_prev(links, at, slot);
    slot
}

/// Joins the neighbours of a slot, and empties it.
pub fn skip(links: &mut Slab<Link>, at: Slot)
    requires there { ContainsKey links.old at.0 }
    requires prev_there { ContainsKey links.old (prev_of (link_at links.old) at.0) }
    requires next_there { ContainsKey links.old (next_of (link_at links.old) at.0) }
    requires not_prev { prev_of (link_at links.old) at.0 ≢ at.0 }
    requires not_next { next_of (link_at links.old) at.0 ≢ at.0 }
    ensures skips { Skips (link_at links.old) (link_at links.new) at.0 }
    ensures len { slab_len links.new + 1 ≡ slab_len links.old }
    ensures capacity { links.new.capacity ≡ links.old.capacity }
    ensures keys { (x : ℕ) → x ≢ at.0 → ContainsKey links.old x → ContainsKey links.new x }
{
    let Link { prev, next, .. } = look(links, at);
    set_next(links, prev, next);
    set_prev(links, next, prev);
    links.remove(at.0);
}
