//! The queue of red vertices.

ghost use Rattle.std.specs.Prelude.{◌≡◌, ◌<◌, ℕ, true, false, [], length, None as Nothing, slice_index_or, slice_set, IsTrue, IfOk, OnOk, IfSome, IfNone};
ghost use Rattle.std.specs.BinaryHeap.{heap_items};
ghost use Rattle.std.specs.BTreeMap.{is_at};
ghost use Rattle.std.specs.List.{list_any};
ghost use Rattle.std.specs.Ordering.{is_gt};
ghost use Rattle.pebble_replay.specs.Queue.{pair_cmp, waits_with, IsCovered, IsSwitched};

use pebble_game::Memory;
use std::alloc::Global;
use std::cmp::Reverse;
use std::collections::BinaryHeap;
use std::marker::Model;

/// A heap whose greatest is the key that goes first.
type Heap = BinaryHeap<Reverse<(u32, u32)>>;

/// Vertices that wait, each with what is left of the order from its next use on: a mark for each vertex that ever waited, and
/// a heap that has the keys of those that wait. A key that no vertex waits with any more stays in the heap until it comes to
/// the top, or until there are too many.
#[derive(Drop)]
pub(crate) struct Queue {
    marks: Vec<Option<u32>>,
    heap: Heap,
    most: usize,
}

impl Model for Queue {
    ghost use Rattle.std.specs.BinaryHeap.{heap_items};
    ghost use Rattle.pebble_replay.specs.Queue.{Waiting, keys_of, IsCovered};

    ghost Value = { Waiting };

    ghost view = { λ queue. record { keys = keys_of queue.marks.items } };

    ghost invariant = { λ queue. IsCovered queue.marks.items (heap_items queue.heap) };
}

/// Whether a vertex waits with this.
fn is_waiting(marks: &[Option<u32>], left: u32, u: u32) -> bool
    ensures { result ≡ waits_with marks.now (left, u) }
{
    match marks.get(u as usize) {
        Some(Some(mark)) => *mark == left,
        Some(None) | None => false,
    }
}

/// Marks for this vertex too.
fn reach(marks: &mut Vec<Option<u32>>, u: u32) -> Result<(), Memory>
    ensures there { OnOk result (u < length marks.new.items) }
    ensures same { (q : ℕ × ℕ) → waits_with marks.new.items q ≡ waits_with marks.old.items q }
{
    while marks.len() <= u as usize {
        marks.push(None)?;
    }
    Ok(())
}

/// A heap of those keys that vertices wait with.
fn kept(alloc: Global, marks: &[Option<u32>], heap: &Heap) -> Result<Heap, Memory>
    ensures { IsCovered marks.now (heap_items heap.now) → IfOk result (λ kept. IsCovered marks.now (heap_items kept)) }
{
    let mut kept = BinaryHeap::new(alloc);
    for key in heap.as_slice() {
        if is_waiting(marks, key.0.0, key.0.1) {
            kept.push(*key)?;
        }
    }
    Ok(kept)
}

/// Takes those keys that no vertex waits with out of a heap that has as many as this.
fn clear(alloc: Global, marks: &[Option<u32>], heap: &mut Heap, most: usize) -> Result<(), Memory>
    ensures { IsCovered marks.now (heap_items heap.old) → IsCovered marks.now (heap_items heap.new) }
{
    if heap.len() >= most {
        *heap = kept(alloc, marks, heap)?;
    }
    Ok(())
}

/// The first key that a vertex waits with, which is taken out of the heap with those before it.
fn first_of(marks: &[Option<u32>], heap: &mut Heap) -> Option<(u32, u32)>
    requires { IsCovered marks.now (heap_items heap.old) }
    ensures waits { IfSome result (λ key. waits_with marks.now key ≡ true) }
    ensures least { IfSome result (λ key. (q : ℕ × ℕ) → waits_with marks.now q ≡ true → is_gt (pair_cmp key q) ≡ false) }
    ensures covered { IfSome result (λ key. IsCovered (slice_set marks.now key.1 Nothing) (heap_items heap.new)) }
    ensures none { IfNone result ((q : ℕ × ℕ) → waits_with marks.now q ≡ false) }
    ensures still { IfNone result (IsCovered marks.now (heap_items heap.new)) }
{
    while let Some(Reverse((left, u))) = heap.pop() {
        if is_waiting(marks, left, u) {
            return Some((left, u));
        }
    }
    None
}

impl Queue {
    /// Nothing waits. Where the heap has more than some four keys for each of `s` red pebbles, it is cleared of those that are
    /// past.
    pub(crate) fn new(alloc: Global, s: u64) -> Queue
        ensures { result.keys ≡ [] }
    {
        let most = if s < 1 << 24 {
            4 * s as usize + 64
        } else {
            1 << 27
        };
        Queue {
            marks: Vec::new(alloc),
            heap: BinaryHeap::new(alloc),
            most,
        }
    }

    /// Puts a vertex that doesn't wait with anything else into the queue.
    pub(crate) fn insert(&mut self, alloc: Global, left: u32, u: u32) -> Result<(), Memory>
        ensures { OnOk result (((l : ℕ) → list_any (is_at (pair_cmp (l, u))) self.old.keys ≡ true → l ≡ left) → IsSwitched self.old.keys self.new.keys (left, u) true) }
    {
        clear(alloc, self.marks.as_slice(), &mut self.heap, self.most)?;
        reach(&mut self.marks, u)?;
        self.heap.push(Reverse((left, u)))?;
        self.marks[u as usize] = Some(left);
        Ok(())
    }

    /// Takes a vertex out of the queue, if it waits with this.
    pub(crate) fn remove(&mut self, left: u32, u: u32)
        ensures { IsSwitched self.old.keys self.new.keys (left, u) false }
    {
        if is_waiting(self.marks.as_slice(), left, u) {
            self.marks[u as usize] = None;
        }
    }

    /// Takes the first key out of the queue.
    pub(crate) fn pop_first(&mut self) -> Option<(u32, u32)>
        ensures member { IfSome result (λ key. list_any (is_at (pair_cmp key)) self.old.keys ≡ true) }
        ensures least { IfSome result (λ key. (q : ℕ × ℕ) → IsTrue (list_any (is_at (pair_cmp q)) self.old.keys) → is_gt (pair_cmp key q) ≡ false) }
        ensures taken { IfSome result (λ key. IsSwitched self.old.keys self.new.keys key false) }
        ensures none { IfNone result (self.old.keys ≡ []) }
        ensures same { IfNone result (self.new.keys ≡ self.old.keys) }
    {
        let key = first_of(self.marks.as_slice(), &mut self.heap)?;
        self.marks[key.1 as usize] = None;
        Some(key)
    }
}
