ghost use Rattle.std.specs.Prelude.{◌≡◌, ◌≢◌, ℕ, ◌+◌, ◌-◌, ◌<◌, ◌≤◌, ◌^◌, [], OnOk, OnErr, IfSome, IfNone, IsSome, is_some, Some, None};
ghost use Rattle.std.specs.BTreeMap.{insert_entry};
ghost use Rattle.std.specs.Ordering.{nat_cmp};
ghost use Rattle.ref_counts.specs.CountMaps.{entry_at, counts_at, public_at, named_at, with_counts, IsLeastDead, ChangesAt};

use crate::entries::{Entries, Queue, add, bury, enqueue, held_at, is_queued, write};
use crate::held::Held;
use dev_types::{Handle, NoMemory};
use std::alloc::Global;
use std::collections::{BTreeMap, BinaryHeap};
use std::marker::Model;

/// For each handle the number of public references to it, and the number of places that name it. Only
/// `born` takes memory. Over many calls each costs the logarithm of the number of handles, in a cascade of
/// deaths too.
#[derive(Drop)]
pub struct Counts {
    held: Entries,
    // Each dead handle stands here, and maybe some that are dead no longer. Who is not here has room
    // kept for it, so that nobody dies for want of memory.
    queue: Queue,
}

impl Model for Counts {
    ghost use Rattle.ref_counts.specs.CountMaps.{CountMap};
    ghost use Rattle.ref_counts.specs.Queues.{counted, Queues};
    ghost use Rattle.std.specs.BinaryHeap.{heap_items, heap_capacity};

    ghost Value = { CountMap };

    ghost view = { λ c. counted c.held.entries };

    ghost invariant = { λ c. Queues c.held.entries (heap_items c.queue) (heap_capacity c.queue) };
}

impl Counts {
    /// No handle was born. This takes no memory.
    pub fn new(alloc: Global) -> Counts
        ensures { result ≡ [] }
    {
        Counts {
            held: BTreeMap::new(alloc),
            queue: BinaryHeap::new(alloc),
        }
    }

    /// A new handle, with one public reference and no place that names it. It must not have been born
    /// before; `was_born` is the test. `NoMemory` leaves all as it was.
    pub fn born(&mut self, _alloc: Global, h: Handle) -> Result<(), NoMemory>
        requires { entry_at self.old h ≡ None }
        ensures born { OnOk result (self.new ≡ insert_entry nat_cmp self.old h (Some (1, 0))) }
        ensures changes { OnOk result (ChangesAt self.old self.new h (Some (1, 0))) }
        ensures refused { OnErr result (self.new ≡ self.old) }
    {
        self.queue.reserve(self.held.len() + 1)?;
        add(&mut self.held, h)?;
        Ok(())
    }

    /// One more public reference to the handle, which has one already and fewer than 2^63.
    pub fn retain(&mut self, h: Handle)
        requires held { 1 ≤ public_at self.old h }
        requires fits { public_at self.old h < 2 ^ 63 }
        ensures map { self.new ≡ with_counts self.old h (Some (public_at self.old h + 1, named_at self.old h)) }
        ensures changes { ChangesAt self.old self.new h (Some (public_at self.old h + 1, named_at self.old h)) }
    {
        if let Some((public, named)) = self.counts(h) {
            self.put(h, public + 1, named);
        }
    }

    /// One public reference less to the handle, which has one.
    pub fn release(&mut self, h: Handle)
        requires held { 1 ≤ public_at self.old h }
        ensures map { self.new ≡ with_counts self.old h (Some (public_at self.old h - 1, named_at self.old h)) }
        ensures changes { ChangesAt self.old self.new h (Some (public_at self.old h - 1, named_at self.old h)) }
    {
        if let Some((public, named)) = self.counts(h) {
            self.put(h, public - 1, named);
        }
    }

    /// One more place that names the handle, fewer than 2^63 until then. The handle may be without either
    /// count, as long as `die` did not give it.
    pub fn name(&mut self, h: Handle)
        requires live { IsSome (counts_at self.old h) }
        requires fits { named_at self.old h < 2 ^ 63 }
        ensures map { self.new ≡ with_counts self.old h (Some (public_at self.old h, named_at self.old h + 1)) }
        ensures changes { ChangesAt self.old self.new h (Some (public_at self.old h, named_at self.old h + 1)) }
    {
        if let Some((public, named)) = self.counts(h) {
            self.put(h, public, named + 1);
        }
    }

    /// One place less that names the handle, which is named.
    pub fn unname(&mut self, h: Handle)
        requires named { 1 ≤ named_at self.old h }
        ensures map { self.new ≡ with_counts self.old h (Some (public_at self.old h, named_at self.old h - 1)) }
        ensures changes { ChangesAt self.old self.new h (Some (public_at self.old h, named_at self.old h - 1)) }
    {
        if let Some((public, named)) = self.counts(h) {
            self.put(h, public, named - 1);
        }
    }

    /// The least handle whose two counts are 0. It has no counts from then on, so it is given once; no
    /// other handle changes. `None` exactly where there is no such handle. This takes no memory.
    pub fn die(&mut self) -> Option<Handle>
        ensures least { IfSome result (λ h. IsLeastDead self.old h) }
        ensures map { IfSome result (λ h. self.new ≡ with_counts self.old h None) }
        ensures changes { IfSome result (λ h. ChangesAt self.old self.new h None) }
        ensures none { IfNone result ((h : ℕ) → counts_at self.old h ≢ Some (0, 0)) }
        ensures unchanged { IfNone result (self.new ≡ self.old) }
    {
        while let Some(first) = self.queue.pop() {
            if bury(&mut self.held, first.0) {
                return Some(first.0);
            }
        }
        None
    }

    /// Whether the handle was born, also where `die` gave it since.
    pub fn was_born(&self, h: Handle) -> bool
        ensures { result ≡ is_some (entry_at self.now h) }
    {
        self.held.contains_key(&h)
    }

    /// The public and the named count; `None` exactly where the handle was not born or `die` gave it.
    pub fn counts(&self, h: Handle) -> Option<(u64, u64)>
        ensures { result ≡ counts_at self.now h }
    {
        let held = held_at(&self.held, h)?;
        Some((held.public, held.named))
    }

    // Writes both counts of a handle that has some. Where both are 0 it stands in the queue from then on.
    fn put(&mut self, h: Handle, public: u64, named: u64)
        requires { IsSome (counts_at self.old h) }
        ensures map { self.new ≡ with_counts self.old h (Some (public, named)) }
        ensures changes { ChangesAt self.old self.new h (Some (public, named)) }
    {
        let held = Held {
            public,
            named,
            queued: is_queued(&self.held, h),
        };
        if held.needs_place() {
            let waiting = Held {
                queued: true,
                ..held
            };
            write(&mut self.held, h, Some(waiting));
            enqueue(&mut self.queue, h);
        } else {
            write(&mut self.held, h, Some(held));
        }
    }
}
