// What stands at the handles, and the queue of those that may be dead.
ghost use Rattle.std.specs.Prelude.{◌≡◌, ◌+◌, ◌<◌, ◌≤◌, ◌∷◌, length, OnOk, OnErr, Some, None};
ghost use Rattle.std.specs.BinaryHeap.{heap_items, heap_len, heap_capacity, KeepsHeap};
ghost use Rattle.std.specs.BTreeMap.{is_at, insert_entry, Updates};
ghost use Rattle.std.specs.List.Sorted.{IsPermutation};
ghost use Rattle.std.specs.Map.{lookup, set_value};
ghost use Rattle.std.specs.Ordering.{nat_cmp};
ghost use Rattle.ref_counts.specs.Queues.{held_at, is_dead, least_first, unless_dead, found_dead, queued_of, newborn};

use crate::held::Held;
use dev_types::{Handle, NoMemory};
use std::cmp::Reverse;
use std::collections::{BTreeMap, BinaryHeap};

/// What stands at each handle that was born: nothing once it was given as dead.
pub type Entries = BTreeMap<Handle, Option<Held>>;

/// The handles that may be dead, the least first.
pub type Queue = BinaryHeap<Reverse<Handle>>;

/// The counts that stand at the handle.
pub fn held_at(entries: &Entries, h: Handle) -> Option<Held>
    ensures { result ≡ held_at entries.now.entries h }
{
    *entries.get(&h)?
}

/// Whether the handle stands in the queue.
pub fn is_queued(entries: &Entries, h: Handle) -> bool
    ensures { result ≡ queued_of (held_at entries.now.entries h) }
{
    match held_at(entries, h) {
        Some(held) => held.queued,
        None => false,
    }
}

/// Writes what stands at the handle, where it was born.
pub fn write(entries: &mut Entries, h: Handle, held: Option<Held>)
    ensures { entries.new.entries ≡ set_value (is_at (nat_cmp h)) entries.old.entries held }
{
    if let Some(place) = entries.get_mut(&h) {
        *place = held;
    }
}

/// Puts a new handle in, with one public reference and no place that names it.
pub fn add(entries: &mut Entries, h: Handle) -> Result<(), NoMemory>
    requires { lookup (is_at (nat_cmp h)) entries.old.entries ≡ None }
    ensures entries { OnOk result (entries.new.entries ≡ insert_entry nat_cmp entries.old.entries h (Some newborn)) }
    ensures updates { OnOk result (Updates nat_cmp entries.old entries.new h (Some (Some newborn))) }
    ensures len { OnOk result (length entries.new.entries ≡ length entries.old.entries + 1) }
    ensures refused { OnErr result (entries.new.entries ≡ entries.old.entries) }
{
    let held = Held {
        public: 1,
        named: 0,
        queued: false,
    };
    match entries.insert(h, Some(held)) {
        Ok(_) => Ok(()),
        Err(_) => Err(NoMemory),
    }
}

/// Looks at a handle that left the queue. Where it is dead, nothing stands there from then on.
pub fn bury(entries: &mut Entries, h: Handle) -> bool
    ensures dead { result ≡ found_dead (held_at entries.old.entries h) }
    ensures entries { entries.new.entries ≡ set_value (is_at (nat_cmp h)) entries.old.entries (unless_dead (held_at entries.old.entries h)) }
{
    match held_at(entries, h) {
        None => false,
        Some(held) if held.is_dead() => {
            write(entries, h, None);
            true
        }
        Some(held) => {
            let left = Held {
                queued: false,
                ..held
            };
            write(entries, h, Some(left));
            false
        }
    }
}

/// Puts the handle into the queue, which has room for it.
pub fn enqueue(queue: &mut Queue, h: Handle)
    requires { heap_len queue.old < heap_capacity queue.old }
    ensures permutation { IsPermutation (record { 0 = h } ∷ heap_items queue.old) (heap_items queue.new) }
    ensures order { KeepsHeap least_first (heap_items queue.old) (heap_items queue.new) }
    ensures len { heap_len queue.new ≡ heap_len queue.old + 1 }
    ensures room { heap_capacity queue.old ≤ heap_capacity queue.new }
{
    match queue.push(Reverse(h)) {
        Ok(()) => {}
        Err(_) => unreachable!(),
    }
}
