//! Links from node to node.

ghost use Rattle.std.specs.Prelude.{◌≡◌, ◌≢◌, ◌+◌, ◌-◌, ◌<◌, ◌≤◌, ℕ, None, Some, IsSome, OnOk, IfOk, IfSome};
ghost use Rattle.indexmap.specs.IndexMap.{get, spare};
ghost use Rattle.use_lists.specs.Nodes.{same, link_at, no_link, with_next, with_prev, with_count, with_last, with_owner, Puts};

use crate::hashing::NodeHasher;
use crate::nodes::{Link, Node};
use indexmap::IndexMap;
use mlir_tree::value::Val;
use std::hash::BuildHasherDefault;

/// The links of nodes.
pub type Links = IndexMap<Node, Link, BuildHasherDefault<NodeHasher>>;

/// What a node leads to; to itself, if it has no link.
pub fn look(map: &Links, at: Node) -> Link
    ensures { result ≡ link_at map.now at }
{
    match map.get(&at) {
        Some(link) => *link,
        None => Link {
            prev: at,
            next: at,
            owner: owner_of(at),
            count: 0,
        },
    }
}

fn owner_of(at: Node) -> Val
    ensures { result ≡ (no_link at).owner }
{
    match at {
        Node::Head(v) => v,
        Node::Use(_, _) => Val::Res(0, 0),
    }
}

/// Writes a link.
pub fn put(map: &mut Links, at: Node, link: Link)
    requires room { 0 < spare map.old }
    ensures puts { Puts (link_at map.old) (link_at map.new) at link }
    ensures room { spare map.old ≤ spare map.new + 1 }
    ensures there { IsSome (get same map.new at) }
    ensures still { (y : Node) → IsSome (get same map.old y) → IsSome (get same map.new y) }
{
    match map.insert(at, link) {
        Ok(_) => {}
        Err(_) => unreachable!(),
    }
}

/// Writes the owner of a node that has a link.
pub fn set_owner(map: &mut Links, at: Node, owner: Val)
    requires there { IsSome (get same map.old at) }
    ensures puts { Puts (link_at map.old) (link_at map.new) at (with_owner (link_at map.old at) owner) }
    ensures room { spare map.old ≤ spare map.new }
    ensures still { (y : Node) → IsSome (get same map.old y) → IsSome (get same map.new y) }
{
    match map.get_mut(&at) {
        Some(place) => place.owner = owner,
        None => unreachable!(),
    }
}

/// Writes the next node of one that has a link.
pub fn set_next(map: &mut Links, at: Node, next: Node)
    requires there { IsSome (get same map.old at) }
    ensures puts { Puts (link_at map.old) (link_at map.new) at (with_next (link_at map.old at) next) }
    ensures room { spare map.old ≤ spare map.new }
    ensures still { (y : Node) → IsSome (get same map.old y) → IsSome (get same map.new y) }
{
    match map.get_mut(&at) {
        Some(place) => place.next = next,
        None => unreachable!(),
    }
}

/// Writes the previous node of one that has a link.
pub fn set_prev(map: &mut Links, at: Node, prev: Node)
    requires there { IsSome (get same map.old at) }
    ensures puts { Puts (link_at map.old) (link_at map.new) at (with_prev (link_at map.old at) prev) }
    ensures room { spare map.old ≤ spare map.new }
    ensures still { (y : Node) → IsSome (get same map.old y) → IsSome (get same map.new y) }
{
    match map.get_mut(&at) {
        Some(place) => place.prev = prev,
        None => unreachable!(),
    }
}

/// Writes the next node of one, which gets a link where it has none.
pub fn put_next(map: &mut Links, at: Node, next: Node)
    requires room { 0 < spare map.old }
    ensures puts { Puts (link_at map.old) (link_at map.new) at (with_next (link_at map.old at) next) }
    ensures room { spare map.old ≤ spare map.new + 1 }
    ensures kept { IsSome (get same map.old at) → spare map.old ≤ spare map.new }
    ensures there { IsSome (get same map.new at) }
{
    match map.get_mut(&at) {
        Some(place) => place.next = next,
        None => put(
            map,
            at,
            Link {
                prev: at,
                next,
                owner: owner_of(at),
                count: 0,
            },
        ),
    }
}

/// Writes the last node of a ring into its head, which gets a link where it has none, and counts it.
pub fn put_last(map: &mut Links, at: Node, last: Node)
    requires room { get same map.old at ≡ None → 0 < spare map.old }
    requires few { (link_at map.old at).count + 1 < 4294967296 }
    ensures puts { Puts (link_at map.old) (link_at map.new) at (with_last (link_at map.old at) last) }
    ensures room { spare map.old ≤ spare map.new + 1 }
    ensures kept { IsSome (get same map.old at) → spare map.old ≤ spare map.new }
{
    match map.get_mut(&at) {
        Some(place) => {
            place.prev = last;
            place.count += 1;
        }
        None => put(
            map,
            at,
            Link {
                prev: last,
                next: at,
                owner: owner_of(at),
                count: 1,
            },
        ),
    }
}

/// Lowers the number of a node that has a link.
pub fn count_down(map: &mut Links, at: Node)
    requires there { IsSome (get same map.old at) }
    requires some { 0 < (link_at map.old at).count }
    ensures puts { Puts (link_at map.old) (link_at map.new) at (with_count (link_at map.old at) ((link_at map.old at).count - 1)) }
    ensures room { spare map.old ≤ spare map.new }
    ensures still { (y : Node) → IsSome (get same map.old y) → IsSome (get same map.new y) }
{
    match map.get_mut(&at) {
        Some(place) => place.count -= 1,
        None => unreachable!(),
    }
}

/// Takes a link out.
pub fn forget(map: &mut Links, at: Node)
    ensures puts { Puts (link_at map.old) (link_at map.new) at (no_link at) }
    ensures room { spare map.old ≤ spare map.new }
    ensures still { (y : Node) → y ≢ at → get same map.new y ≡ get same map.old y }
{
    let _ = map.swap_remove(&at);
}
