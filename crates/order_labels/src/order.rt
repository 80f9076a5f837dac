//! Different ids in order.

ghost use Rattle.std.specs.Prelude.{◌≡◌, ◌≢◌, ◌+◌, ◌<◌, ◌≤◌, ◌^◌, ◌↔◌, ℕ, [], ◌∷◌, ◌++◌, None, Some, IsSome, IsTrue, OnOk, OnErr, length, slice_get, nat_eq, nat_lt};
ghost use Rattle.std.specs.Ordering.{nat_cmp};
ghost use Rattle.std.specs.HashMap.{get as get_slot, spare as room_of};
ghost use Rattle.slab.specs.Slab.{get, slab_len, ContainsKey, HasRoomFor};
ghost use Rattle.order_labels.specs.Lists.{IsIn, IsApart, PutsBefore, TakesOut, IsFollowed, IsPreceded, last_of};
ghost use Rattle.order_labels.specs.Chain.{link_at, IsOrder, IsPlaced, slots_of};
ghost use Rattle.order_labels.specs.Labels.{Places, Takes, id_at};

use crate::gaps::label_before;
use crate::links::{HEAD, Link, Slot, look, skip, splice};
use slab::Slab;
use std::alloc::{AllocError, Global};
use std::cmp::Ordering;
use std::collections::HashMap;
use std::marker::Model;

/// No more ids than this are made room for.
const MOST: usize = 1 << 40;

/// A list of different ids, each any 32-bit number, and room for so many more.
#[derive(Drop)]
pub struct Labels {
    links: Slab<Link>,
    slots: HashMap<u32, Slot>,
    count: usize,
    spare: usize,
}

impl Model for Labels {
    ghost use Rattle.order_labels.specs.Chain.{link_at};
    ghost use Rattle.order_labels.specs.Labels.{Listed, ids_of, IsLabels};

    ghost Value = { Listed };

    ghost view = { λ s. record { ids = ids_of (link_at s.links) s.count; spare = s.spare } };

    ghost invariant = { λ s. IsLabels s.links s.slots s.count s.spare };
}

// The slot of an id.
fn find(slots: &HashMap<u32, Slot>, id: u32) -> Slot
    requires there { IsSome (get_slot nat_eq slots.now id) }
    ensures { get_slot nat_eq slots.now id ≡ Some result }
{
    match slots.get(&id) {
        Some(slot) => *slot,
        None => unreachable!(),
    }
}

fn enter(slots: &mut HashMap<u32, Slot>, id: u32, slot: Slot)
    requires room { 0 < room_of slots.old }
    ensures here { get_slot nat_eq slots.new id ≡ Some slot }
    ensures others { (y : ℕ) → y ≢ id → get_slot nat_eq slots.new y ≡ get_slot nat_eq slots.old y }
    ensures room { room_of slots.old ≤ room_of slots.new + 1 }
{
    match slots.insert(id, slot) {
        Ok(_) => {}
        Err(_) => unreachable!(),
    }
}

fn leave(slots: &mut HashMap<u32, Slot>, id: u32)
    ensures here { get_slot nat_eq slots.new id ≡ None }
    ensures others { (y : ℕ) → y ≢ id → get_slot nat_eq slots.new y ≡ get_slot nat_eq slots.old y }
    ensures room { room_of slots.old ≤ room_of slots.new }
{
    let _ = slots.remove(&id);
}

// Puts an id into a new slot just before another one.
fn place(links: &mut Slab<Link>, count: usize, id: u32, at: Slot) -> Slot
    requires order { IsOrder (link_at links.old) count }
    requires few { count ≤ 2 ^ 40 }
    requires placed { IsPlaced (link_at links.old) count at.0 }
    requires room { HasRoomFor links.old 1 }
    requires head { ContainsKey links.old 0 }
    ensures places { Places (link_at links.old) (link_at links.new) count result.0 at.0 id }
    ensures len { slab_len links.new ≡ slab_len links.old + 1 }
    ensures capacity { links.new.capacity ≡ links.old.capacity }
    ensures head { ContainsKey links.new 0 }
{
    let label = label_before(links, count, at);
    splice(links, id, label, at)
}

// Takes a slot out of the list of one more slot than `count`.
fn take(links: &mut Slab<Link>, count: usize, at: Slot)
    requires order { IsOrder (link_at links.old) (count + 1) }
    requires at_in { IsIn at.0 (slots_of (link_at links.old) (count + 1)) }
    requires head { ContainsKey links.old 0 }
    ensures takes { Takes (link_at links.old) (link_at links.new) count at.0 }
    ensures len { slab_len links.new + 1 ≡ slab_len links.old }
    ensures capacity { links.new.capacity ≡ links.old.capacity }
    ensures head { ContainsKey links.new 0 }
{
    skip(links, at);
}

// Makes room for so many slots more, and for the head.
fn make_room(links: &mut Slab<Link>, n: usize) -> Result<(), AllocError>
    requires few { n ≤ 2 ^ 40 }
    requires first { get links.old 0 ≡ None → links.old.vacant_key ≡ 0 }
    ensures same { (x : ℕ) → link_at links.new x ≡ link_at links.old x }
    ensures room { OnOk result (HasRoomFor links.new n) }
    ensures head { OnOk result (ContainsKey links.new 0) }
    ensures first { get links.new 0 ≡ None → links.new.vacant_key ≡ 0 }
    ensures keys { ContainsKey links.old 0 → ContainsKey links.new 0 }
    ensures kept { (k : ℕ) → (0 < k → ContainsKey links.old 0) → HasRoomFor links.old k → HasRoomFor links.new k }
{
    links.reserve(n + 1)?;
    if !links.contains(0) {
        let _ = links.insert_reserved(Link {
            label: 0,
            id: 0,
            prev: HEAD,
            next: HEAD,
        });
    }
    Ok(())
}

// The id of a slot, where it isn't the head.
fn id_of(links: &Slab<Link>, at: Slot) -> Option<u32>
    ensures { result ≡ id_at (link_at links.now) at.0 }
{
    if at.is_head() {
        None
    } else {
        Some(look(links, at).id)
    }
}

impl Labels {
    /// No id is in the list, and there is room for none. It takes no memory.
    pub fn new(alloc: Global) -> Self
        ensures ids { result.ids ≡ [] }
        ensures spare { result.spare ≡ 0 }
    {
        Labels {
            links: Slab::new(alloc),
            slots: HashMap::new(alloc),
            count: 0,
            spare: 0,
        }
    }

    /// Makes room for `n` more ids at least, whichever they are. Where memory fails, or `n` is past all memory, the list and
    /// its room are as before.
    pub fn reserve(&mut self, n: usize) -> Result<(), AllocError>
        ensures ids { self.new.ids ≡ self.old.ids }
        ensures room { OnOk result (n ≤ self.new.spare) }
        ensures spare { self.old.spare ≤ self.new.spare }
        ensures err { OnErr result (self.new ≡ self.old) }
    {
        if n > MOST - self.count {
            return Err(AllocError);
        }
        self.slots.reserve(n)?;
        make_room(&mut self.links, n)?;
        self.spare = self.spare.max(n);
        Ok(())
    }

    /// Puts a new id last. It takes no memory.
    pub fn push_last(&mut self, id: u32)
        requires absent { ¬ IsIn id self.old.ids }
        requires room { 0 < self.old.spare }
        ensures ids { self.new.ids ≡ self.old.ids ++ id ∷ [] }
        ensures spare { self.new.spare + 1 ≡ self.old.spare }
    {
        let slot = place(&mut self.links, self.count, id, HEAD);
        enter(&mut self.slots, id, slot);
        self.count += 1;
        self.spare -= 1;
    }

    /// Puts a new id just before `at`. It takes no memory.
    pub fn insert_before(&mut self, id: u32, at: u32)
        requires absent { ¬ IsIn id self.old.ids }
        requires at_in { IsIn at self.old.ids }
        requires room { 0 < self.old.spare }
        ensures put { PutsBefore id at self.old.ids self.new.ids }
        ensures spare { self.new.spare + 1 ≡ self.old.spare }
    {
        let at = find(&self.slots, at);
        let slot = place(&mut self.links, self.count, id, at);
        enter(&mut self.slots, id, slot);
        self.count += 1;
        self.spare -= 1;
    }

    /// Takes an id out.
    pub fn remove(&mut self, id: u32)
        requires { IsIn id self.old.ids }
        ensures taken { TakesOut id self.old.ids self.new.ids }
        ensures spare { self.old.spare ≤ self.new.spare }
    {
        let at = find(&self.slots, id);
        self.count -= 1;
        take(&mut self.links, self.count, at);
        leave(&mut self.slots, id);
    }

    /// How the places of two ids compare.
    pub fn cmp(&self, a: u32, b: u32) -> Ordering
        requires a_in { IsIn a self.now.ids }
        requires b_in { IsIn b self.now.ids }
        ensures { (i j : ℕ) → slice_get self.now.ids i ≡ Some a → slice_get self.now.ids j ≡ Some b → result ≡ nat_cmp i j }
    {
        let first = look(&self.links, find(&self.slots, a)).label;
        let second = look(&self.links, find(&self.slots, b)).label;
        first.cmp(&second)
    }

    /// Whether one id stands before another one.
    pub fn before(&self, a: u32, b: u32) -> bool
        requires a_in { IsIn a self.now.ids }
        requires b_in { IsIn b self.now.ids }
        ensures { (i j : ℕ) → slice_get self.now.ids i ≡ Some a → slice_get self.now.ids j ≡ Some b → result ≡ nat_lt i j }
    {
        let first = look(&self.links, find(&self.slots, a)).label;
        let second = look(&self.links, find(&self.slots, b)).label;
        first < second
    }

    /// The first id of the list.
    pub fn first(&self) -> Option<u32>
        ensures { result ≡ slice_get self.now.ids 0 }
    {
        id_of(&self.links, look(&self.links, HEAD).next)
    }

    /// The last id of the list.
    pub fn last(&self) -> Option<u32>
        ensures { result ≡ last_of self.now.ids }
    {
        id_of(&self.links, look(&self.links, HEAD).prev)
    }

    /// The id just behind one; None at the list's end.
    pub fn next(&self, id: u32) -> Option<u32>
        requires { IsIn id self.now.ids }
        ensures { IsFollowed id self.now.ids result }
    {
        let at = find(&self.slots, id);
        id_of(&self.links, look(&self.links, at).next)
    }

    /// The id just before one; None at the list's start.
    pub fn prev(&self, id: u32) -> Option<u32>
        requires { IsIn id self.now.ids }
        ensures { IsPreceded id self.now.ids result }
    {
        let at = find(&self.slots, id);
        id_of(&self.links, look(&self.links, at).prev)
    }

    /// Whether an id is in the list.
    pub fn contains(&self, id: u32) -> bool
        ensures { IsTrue result ↔ IsIn id self.now.ids }
    {
        self.slots.contains_key(&id)
    }

    /// How many ids are in the list.
    pub fn len(&self) -> usize
        ensures { result ≡ length self.now.ids }
    {
        self.count
    }

    /// No id stands in the list twice. It does nothing.
    pub fn apart(&self)
        ensures { IsApart self.now.ids }
    {
        let _ = &self.count;
    }
}
