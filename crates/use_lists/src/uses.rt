//! The uses of each value.

ghost use Rattle.std.specs.Prelude.{◌≡◌, ◌≢◌, ◌+◌, ◌<◌, ◌≤◌, ℕ, [], ◌∷◌, ◌++◌, None, Some, IsSome, length, OnOk, IfOk, IfSome, slice_get};
ghost use Rattle.indexmap.specs.IndexMap.{get, spare as room_of};
ghost use Rattle.mlir_tree.specs.declared.value.Val.{Val as Value};
ghost use Rattle.use_lists.specs.declared.nodes.Node.{Node as Place};
ghost use Rattle.use_lists.specs.Chain.{walk, IsIn, IsApart, TakesOut, IsFollowed};
ghost use Rattle.use_lists.specs.Nodes.{same, link_at};
ghost use Rattle.use_lists.specs.Rings.{uses_in, use_at, Appends, Cuts, Renames, Joins, AreRings, nodes_of, IsUse, count_of, owner_of, next_of, prev_of};

use crate::links::{
    Links, count_down, forget, look, put, put_last, put_next, set_next, set_owner, set_prev,
};
use crate::nodes::{Link, Node};
use mlir_tree::value::Val;
use std::alloc::{AllocError, Global};
use std::hash::BuildHasherDefault;
use std::marker::Model;

/// For each value its uses, each a row and an operand place of it (MLIR, "Understanding the IR Structure": use lists).
///
/// The uses of a value are a ring through its head: a node each, found by its row and place. A value that was never used has
/// the empty list. `spare` uses more can be linked without memory.
#[derive(Drop)]
pub struct Uses {
    links: Links,
    spare: usize,
}

impl Model for Uses {
    ghost use Rattle.std.specs.Prelude.{◌*◌, ◌≤◌};
    ghost use Rattle.indexmap.specs.IndexMap.{spare as room_of};
    ghost use Rattle.use_lists.specs.Nodes.{link_at};
    ghost use Rattle.use_lists.specs.Rings.{Lists, AreRings};

    ghost Value = { Lists };

    ghost view = { λ s. record { entries = s.links.entries; spare = s.spare } };

    ghost invariant = { λ s. AreRings (link_at s.links) × (2 * s.spare ≤ room_of s.links) };
}

// Puts a use last.
fn append(links: &mut Links, v: Val, row: u32, place: u16)
    requires room { 2 ≤ room_of links.old }
    requires end { prev_of (link_at links.old) (Node.Head v) ≢ Node.Head v → IsSome (get same links.old (prev_of (link_at links.old) (Node.Head v))) }
    requires few { count_of (link_at links.old) (Node.Head v) + 1 < 4294967296 }
    requires fresh { prev_of (link_at links.old) (Node.Head v) ≢ Node.Use row place }
    ensures appends { Appends (link_at links.old) (link_at links.new) v (Node.Use row place) }
    ensures room { room_of links.old ≤ room_of links.new + 2 }
{
    let head = Node::Head(v);
    let new = Node::Use(row, place);
    let last = look(links, head).prev;
    put(
        links,
        new,
        Link {
            prev: last,
            next: head,
            owner: v,
            count: 0,
        },
    );
    put_next(links, last, new);
    put_last(links, head, new);
}

// Gives the nodes after a head another owner.
fn rename(links: &mut Links, head: Node, n: u32, to: Val)
    requires there { (y : Place) → IsIn y (walk (next_of (link_at links.old)) n head) → IsSome (get same links.old y) }
    ensures renames { Renames (link_at links.old) (link_at links.new) (walk (next_of (link_at links.old)) n head) to }
    ensures room { room_of links.old ≤ room_of links.new }
    ensures still { (y : Place) → IsSome (get same links.old y) → IsSome (get same links.new y) }
{
    let mut at = head;
    for _turn in 0..n {
        at = look(links, at).next;
        set_owner(links, at, to);
    }
}

// Puts the ring of one head behind that of another.
fn splice(links: &mut Links, from: Val, to: Val)
    requires room { 1 ≤ room_of links.old }
    requires first { IsSome (get same links.old (next_of (link_at links.old) (Node.Head from))) }
    requires last { IsSome (get same links.old (prev_of (link_at links.old) (Node.Head from))) }
    requires end { prev_of (link_at links.old) (Node.Head to) ≢ Node.Head to → IsSome (get same links.old (prev_of (link_at links.old) (Node.Head to))) }
    requires few { count_of (link_at links.old) (Node.Head to) + count_of (link_at links.old) (Node.Head from) < 4294967296 }
    requires differ { from ≢ to }
    requires first_use { IsUse (next_of (link_at links.old) (Node.Head from)) }
    requires last_use { IsUse (prev_of (link_at links.old) (Node.Head from)) }
    requires not_end { prev_of (link_at links.old) (Node.Head to) ≢ prev_of (link_at links.old) (Node.Head from) }
    requires not_from { prev_of (link_at links.old) (Node.Head to) ≢ Node.Head from }
    ensures joins { Joins (link_at links.old) (link_at links.new) from to }
    ensures room { room_of links.old ≤ room_of links.new + 1 }
{
    let f = look(links, Node::Head(from));
    let t = look(links, Node::Head(to));
    put(
        links,
        Node::Head(to),
        Link {
            prev: f.prev,
            next: t.next,
            owner: t.owner,
            count: t.count + f.count,
        },
    );
    set_next(links, t.prev, f.next);
    set_prev(links, f.next, t.prev);
    set_next(links, f.prev, Node::Head(to));
    forget(links, Node::Head(from));
}

// The use of a node.
fn use_behind(at: Node) -> Option<(u32, u16)>
    ensures { result ≡ use_at at }
{
    match at {
        Node::Head(_) => None,
        Node::Use(row, place) => Some((row, place)),
    }
}

// Takes a use out, and gives the value that had it.
fn cut(links: &mut Links, at: Node) -> Val
    requires before { IsSome (get same links.old (prev_of (link_at links.old) at)) }
    requires after { IsSome (get same links.old (next_of (link_at links.old) at)) }
    requires head { IsSome (get same links.old (Node.Head (owner_of (link_at links.old) at))) }
    requires some { 0 < count_of (link_at links.old) (Node.Head (owner_of (link_at links.old) at)) }
    requires not_before { prev_of (link_at links.old) at ≢ at }
    requires not_after { next_of (link_at links.old) at ≢ at }
    requires a_use { IsUse at }
    ensures cuts { Cuts (link_at links.old) (link_at links.new) (owner_of (link_at links.old) at) at }
    ensures room { room_of links.old ≤ room_of links.new }
    ensures owner { result ≡ owner_of (link_at links.old) at }
{
    let Link {
        prev,
        next,
        owner,
        count: _,
    } = look(links, at);
    set_next(links, prev, next);
    set_prev(links, next, prev);
    count_down(links, Node::Head(owner));
    forget(links, at);
    owner
}

// Forgets the head of a value without uses.
fn forget_unused(links: &mut Links, v: Val)
    requires rings { AreRings (link_at links.old) }
    ensures rings { AreRings (link_at links.new) }
    ensures nodes { (w : Value) → nodes_of (link_at links.new) w ≡ nodes_of (link_at links.old) w }
    ensures room { room_of links.old ≤ room_of links.new }
{
    if look(links, Node::Head(v)).count == 0 {
        forget(links, Node::Head(v));
    }
}

impl Uses {
    /// No value has a use, and nothing is spare. It takes no memory.
    pub fn new(alloc: Global) -> Self
        ensures uses { (v : Value) → uses_in result v ≡ [] }
        ensures spare { result.spare ≡ 0 }
    {
        Uses {
            links: Links::with_hasher(alloc, BuildHasherDefault::new()),
            spare: 0,
        }
    }

    /// No value has a use twice. It does nothing.
    pub fn apart(&self)
        ensures { (v : Value) → IsApart (uses_in self.now v) }
    {
        let _ = &self.links;
    }

    /// Adds a use of a value behind those that it has. It takes no memory: one spare is used up.
    pub fn link(&mut self, v: Val, row: u32, place: u16)
        requires absent { (w : Value) → ¬ IsIn (row, place) (uses_in self.old w) }
        requires room { 0 < self.old.spare }
        requires few { length (uses_in self.old v) < 4294967295 }
        ensures linked { uses_in self.new v ≡ uses_in self.old v ++ (row, place) ∷ [] }
        ensures others { (w : Value) → w ≢ v → uses_in self.new w ≡ uses_in self.old w }
        ensures spare { self.new.spare + 1 ≡ self.old.spare }
    {
        append(&mut self.links, v, row, place);
        self.spare -= 1;
    }

    /// Takes a use out. It takes no memory.
    pub fn unlink(&mut self, row: u32, place: u16)
        requires there { (v : Value) × IsIn (row, place) (uses_in self.old v) }
        ensures taken { (v : Value) → IsIn (row, place) (uses_in self.old v) → TakesOut (row, place) (uses_in self.old v) (uses_in self.new v) }
        ensures others { (w : Value) → ¬ IsIn (row, place) (uses_in self.old w) → uses_in self.new w ≡ uses_in self.old w }
        ensures spare { self.new.spare ≡ self.old.spare }
    {
        let owner = cut(&mut self.links, Node::Use(row, place));
        forget_unused(&mut self.links, owner);
    }

    /// Hands all uses of a value to another one, behind those that it has. It takes no memory: one spare may be used up, for the
    /// head of a value that had none.
    pub fn move_all(&mut self, from: Val, to: Val)
        requires differ { from ≢ to }
        requires room { 0 < self.old.spare }
        requires few { length (uses_in self.old to) + length (uses_in self.old from) < 4294967296 }
        ensures moved { uses_in self.new to ≡ uses_in self.old to ++ uses_in self.old from }
        ensures none { uses_in self.new from ≡ [] }
        ensures others { (w : Value) → w ≢ from → w ≢ to → uses_in self.new w ≡ uses_in self.old w }
        ensures spare { self.old.spare ≤ self.new.spare + 1 }
    {
        let n = look(&self.links, Node::Head(from)).count;
        if n == 0 {
            return;
        }
        rename(&mut self.links, Node::Head(from), n, to);
        splice(&mut self.links, from, to);
        self.spare -= 1;
    }

    /// Makes room for `n` uses more. For want of memory all uses stay.
    pub fn reserve(&mut self, n: usize) -> Result<(), AllocError>
        ensures uses { (v : Value) → uses_in self.new v ≡ uses_in self.old v }
        ensures room { OnOk result (n ≤ self.new.spare) }
        ensures spare { self.old.spare ≤ self.new.spare }
    {
        if n > usize::MAX / 2 {
            return Err(AllocError);
        }
        self.links.reserve(2 * n)?;
        if self.spare < n {
            self.spare = n;
        }
        Ok(())
    }

    /// The first use of a value: None exactly where it has none.
    pub fn first(&self, v: Val) -> Option<(u32, u16)>
        ensures { result ≡ slice_get (uses_in self.now v) 0 }
    {
        use_behind(look(&self.links, Node::Head(v)).next)
    }

    /// The use behind one, of the same value: None exactly at the end of its list.
    pub fn next_use(&self, row: u32, place: u16) -> Option<(u32, u16)>
        requires there { (v : Value) × IsIn (row, place) (uses_in self.now v) }
        ensures { (v : Value) → IsIn (row, place) (uses_in self.now v) → IsFollowed (row, place) (uses_in self.now v) result }
    {
        use_behind(look(&self.links, Node::Use(row, place)).next)
    }

    /// How many uses a value has.
    pub fn count(&self, v: Val) -> u32
        ensures { result ≡ length (uses_in self.now v) }
    {
        look(&self.links, Node::Head(v)).count
    }
}
