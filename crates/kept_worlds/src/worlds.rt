//! Kept worlds.
ghost use Rattle.std.specs.Prelude.{◌≡◌, ◌==◌, ◌++◌, ◌∷◌, [], ℕ, Bool, OnErr, OnOk, None, Some, true, if◌then◌else◌, map, option_copied};
ghost use Rattle.std.specs.Option.{MatchOption, is_none, option_map};
ghost use Rattle.kind_tables.specs.Walks.{visited, walk};
ghost use Rattle.past_laws.specs.Worlds.{Touches, last_use, render_of, wants_build, world_of};
ghost use Rattle.seq_model.specs.Histories.{History};
ghost use Rattle.seq_model.specs.State.{scene_objects};
ghost use Rattle.seq_model.specs.Steps.{after};
ghost use Rattle.seq_model.specs.declared.calls.Entry.{Entry};
ghost use Rattle.world_laws.specs.Alike.{Shown, shown_of};
ghost use Rattle.kept_worlds.specs.KeptMaps.{kept_at, reach_at, shown_at, unless_reached};
ghost use Rattle.kept_worlds.specs.LastKept.{AreKept, AreShown, all_but};

use crate::builds::{Kept, drop_under, drop_world};
use crate::users::{Users, add_users};
use dev_types::{Handle, NoMemory};
use std::alloc::Global;
use std::collections::BTreeMap;
use std::marker::Model;

/// What is kept of worlds that were rendered, each with all that its last render reached. Contracts see the kept worlds by rising handle
/// (`kept_at`).
#[derive(Drop)]
pub struct KeptWorlds<P> {
    kept: BTreeMap<Handle, Kept<P>>,
    // Each kept world stands here under all that it reached; others may too.
    users: Users,
}

impl<P> Model for KeptWorlds<P> {
    ghost use Rattle.kept_worlds.specs.KeptMaps.{Worlds, coded_worlds};
    ghost use Rattle.kept_worlds.specs.Users.{IsIndexed};

    ghost Value = { Worlds P };

    ghost coded = { coded_worlds P.code };

    ghost view = { λ w. w.kept.entries };

    ghost invariant = { λ w. IsIndexed w.kept.entries w.users.entries };
}

impl<P: Drop> KeptWorlds<P> {
    /// No world is kept. Takes no memory.
    pub fn new(alloc: Global) -> KeptWorlds<P>
        ensures empty { result ≡ [] }
        ensures known { (there : ℕ → Bool) → AreKept there [] (reach_at result) }
    {
        KeptWorlds {
            kept: BTreeMap::new(alloc),
            users: BTreeMap::new(alloc),
        }
    }

    /// What is kept of a world; `None` exactly where it is not kept. Where a render of it came now, that would prepare it exactly where
    /// it is not kept.
    pub fn get(&self, world: Handle) -> Option<&P>
        ensures value { option_copied result ≡ option_map (λ k. k.value) (kept_at self.now world) }
        ensures wanted { (history : History) (there : ℕ → Bool)
            → AreKept there history (reach_at self.now)
            → there world ≡ true
            → wants_build (last_use history world) ≡ is_none result }
        ensures shown { (shows : P → Shown) (history : History)
            → AreShown history (shown_at shows self.now)
            → MatchOption (option_copied result) (Unit {0}) (λ value. shows value ≡ shown_of (scene_objects (after history).state) world) }
    {
        let kept = &self.kept;
        Some(kept.get(&world)?.value())
    }

    /// Keeps this of a world, whose last render reached these objects, in the place of what was kept of it. The only error is want of
    /// memory, and leaves all as it was.
    pub fn keep(
        &mut self,
        alloc: Global,
        world: Handle,
        reach: Vec<Handle>,
        value: P,
    ) -> Result<(), NoMemory>
        ensures kept { OnOk result ((w : ℕ) → kept_at self.new w ≡
            (if world == w then Some (record { reach = reach.items; value = value }) else kept_at self.old w)) }
        ensures refused { OnErr result (self.new ≡ self.old) }
        ensures known { OnOk result ((history : History) (there : ℕ → Bool) (actor f : ℕ)
            → there world ≡ true
            → world_of (after history).state f ≡ Some world
            → reach.items ≡ visited (walk (scene_objects (after history).state) world)
            → AreKept there history (reach_at self.old)
            → AreKept there (history ++ render_of actor f ∷ []) (reach_at self.new)) }
        ensures shown { OnOk result ((shows : P → Shown) (history : History)
            → shows value ≡ shown_of (scene_objects (after history).state) world
            → AreShown history (shown_at shows self.old)
            → AreShown history (shown_at shows self.new)) }
    {
        add_users(&mut self.users, alloc, reach.as_slice(), world)?;
        match self.kept.insert(world, Kept { reach, value }) {
            Ok(_) => Ok(()),
            Err(_) => Err(NoMemory),
        }
    }

    /// Drops each kept world that reached an object, and looks at no other. Takes no memory.
    pub fn touch(&mut self, h: Handle)
        ensures touched { (w : ℕ) → kept_at self.new w ≡ unless_reached h (kept_at self.old w) }
        ensures known { (history : History) (e : Entry) (there : ℕ → Bool)
            → Touches h e
            → AreKept there history (reach_at self.old)
            → AreKept there (history ++ e ∷ []) (reach_at self.new) }
        ensures shown { (shows : P → Shown) (history : History)
            → AreShown history (shown_at shows self.old)
            → AreShown history (shown_at shows self.new) }
    {
        let list = self.users.remove(&h);
        drop_under(&mut self.kept, &mut self.users, list, h);
    }

    /// Drops what is kept of a world, which is gone. Takes no memory.
    pub fn forget(&mut self, world: Handle)
        ensures forgotten { (w : ℕ) → kept_at self.new w ≡ (if world == w then None else kept_at self.old w) }
        ensures known { (history : History) (there : ℕ → Bool)
            → AreKept there history (reach_at self.old)
            → AreKept (all_but world there) history (reach_at self.new) }
        ensures shown { (shows : P → Shown) (history : History)
            → AreShown history (shown_at shows self.old)
            → AreShown history (shown_at shows self.new) }
    {
        drop_world(&mut self.kept, &mut self.users, world);
    }
}
