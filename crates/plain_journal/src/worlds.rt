//! How many worlds were prepared for rendering.
ghost use Rattle.std.specs.Prelude.{ℕ, ◌+◌, ◌≡◌, ◌<◌, ◌≤◌, ◌-◌, ◌^◌, ◌==◌, ◌∷◌, ◌++◌, [], IsOk, OnErr, OnOk, Some, if◌then◌else◌, length, map, min, vec_capacity};
ghost use Rattle.std.specs.List.{position};
ghost use Rattle.kind_tables.specs.Walks.{visited, walk};
ghost use Rattle.seq_model.specs.Builds.{builds};
ghost use Rattle.seq_model.specs.Histories.{History};
ghost use Rattle.seq_model.specs.State.{scene_objects};
ghost use Rattle.seq_model.specs.Steps.{after};
ghost use Rattle.seq_model.specs.declared.calls.Entry.{Entry};
ghost use Rattle.past_laws.specs.Worlds.{HasRoom, KnowsWorlds, Touches, render_of, touched_by, use_of, wants_build, world_of};

use dev_types::{Handle, NoMemory};
use std::alloc::Global;
use std::marker::Model;

/// How many worlds were prepared for rendering, and what is known of each world that was rendered:
/// a world that nobody touched since its last render is not prepared again.
#[derive(Drop)]
pub struct Worlds {
    // At most one for each world.
    uses: Vec<Use>,
    builds: u64,
}

/// What the last render of a world reached, and whether some of that was touched since.
#[derive(Drop)]
struct Use {
    world: Handle,
    reach: Vec<Handle>,
    touched: bool,
}

impl Model for Use {
    ghost use Rattle.std.specs.Prelude.{ℕ};
    ghost use Rattle.past_laws.specs.Worlds.{Use as Known};

    ghost Value = { ℕ × Known };

    ghost view = { λ u. (u.world, record { reach = u.reach.items; touched = u.touched }) };
}

impl Model for Worlds {
    ghost use Rattle.std.specs.Prelude.{◌-◌, length, vec_capacity};
    ghost use Rattle.past_laws.specs.Worlds.{Worlds as Known};

    ghost Value = { Known };

    ghost view = { λ w. record {
      uses = w.uses.items;
      builds = w.builds;
      spare = vec_capacity w.uses - length w.uses.items;
    } };
}

impl Use {
    fn touch(&mut self, h: Handle)
        ensures { self.new ≡ (self.old.0, touched_by h self.old.1) }
    {
        if self.reach.contains(&h) {
            self.touched = true;
        }
    }
}

impl Worlds {
    /// Nothing was rendered yet. Takes no memory.
    pub fn new(alloc: Global) -> Worlds
        ensures { KnowsWorlds [] result }
    {
        Worlds {
            uses: Vec::new(alloc),
            builds: 0,
        }
    }

    /// How many renders prepared their world.
    pub fn builds(&self) -> u64
        ensures { (history : History) → KnowsWorlds history self.now → result ≡ builds history }
    {
        self.builds
    }

    /// Makes room for one more world. `NoMemory` only where there was none and no memory is found;
    /// nothing else changes.
    pub fn reserve(&mut self, _alloc: Global) -> Result<(), NoMemory>
        ensures room { OnOk result (HasRoom self.new) }
        ensures had_room { HasRoom self.old → IsOk result }
        ensures refused { OnErr result (self.new.spare ≡ self.old.spare) }
        ensures uses { self.new.uses ≡ self.old.uses }
        ensures builds { self.new.builds ≡ self.old.builds }
        ensures known { (history : History) → KnowsWorlds history self.old → KnowsWorlds history self.new }
    {
        self.uses.reserve(1)?;
        Ok(())
    }

    /// Notes that h was touched: an entry commits it, or unmaps it as an array.
    pub fn touch(&mut self, h: Handle)
        ensures known { (history : History) (e : Entry)
            → Touches h e
            → KnowsWorlds history self.old
            → KnowsWorlds (history ++ e ∷ []) self.new }
        ensures spare { self.new.spare ≡ self.old.spare }
    {
        touch_each(&mut self.uses, h);
    }

    /// A frame whose world is `world` was rendered, and reached these objects. Takes no memory.
    pub fn render(&mut self, world: Handle, reach: Vec<Handle>)
        requires { HasRoom self.old }
        ensures known { (history : History) (actor f : ℕ)
            → length history < 2 ^ 64 - 1
            → world_of (after history).state f ≡ Some world
            → reach.items ≡ visited (walk (scene_objects (after history).state) world)
            → KnowsWorlds history self.old
            → KnowsWorlds (history ++ render_of actor f ∷ []) self.new }
        ensures spare { self.old.spare ≤ self.new.spare + 1 }
    {
        self.count(world);
        self.put(Use {
            world,
            reach,
            touched: false,
        });
    }

    /// Where the last use of a world stands.
    fn place_of(&self, world: Handle) -> Option<usize>
        ensures { result ≡ position (λ used. used.0 == world) self.now.uses }
    {
        self.uses.iter().position(|used| used.world == world)
    }

    /// Whether a render of this world prepares it.
    fn is_build(&self, world: Handle) -> bool
        ensures { result ≡ wants_build (use_of self.now world) }
    {
        match self.place_of(world) {
            Some(place) => self.uses[place].touched,
            None => true,
        }
    }

    /// Counts a render of this world, if it prepares it.
    fn count(&mut self, world: Handle)
        ensures builds { self.new.builds ≡
            (if wants_build (use_of self.old world) then min (self.old.builds + 1) (2 ^ 64 - 1) else self.old.builds) }
        ensures uses { self.new.uses ≡ self.old.uses }
        ensures spare { self.new.spare ≡ self.old.spare }
    {
        if self.is_build(world) {
            self.builds = self.builds.saturating_add(1);
        }
    }

    /// Makes this the last use of its world.
    fn put(&mut self, last: Use)
        requires { HasRoom self.old }
        ensures uses { (w : ℕ) → use_of self.new w ≡ (if last.0 == w then Some last.1 else use_of self.old w) }
        ensures builds { self.new.builds ≡ self.old.builds }
        ensures spare { self.old.spare ≤ self.new.spare + 1 }
    {
        match self.place_of(last.world) {
            Some(place) => self.uses[place] = last,
            None => self.uses.push_reserved(last),
        }
    }
}

/// Notes that h was touched with each world whose last render reached it.
fn touch_each(uses: &mut Vec<Use>, h: Handle)
    ensures touched { uses.new.items ≡ map (λ entry. (entry.0, touched_by h entry.1)) uses.old.items }
    ensures capacity { vec_capacity uses.new ≡ vec_capacity uses.old }
{
    for used in uses.iter_mut() {
        used.touch(h);
    }
}
