//! Objects that nothing holds any more go, and what is known of them is forgotten: the pictures of
//! frames, and what is kept of worlds.
ghost use Rattle.std.specs.Prelude.{◌≡◌, [], ℕ, Bool};
ghost use Rattle.std.specs.List.{filter_map};
ghost use Rattle.std.specs.Map.{keys_of};
ghost use Rattle.flight_books.specs.Kept.{with_future};
ghost use Rattle.kept_worlds.specs.KeptMaps.{kept_at, reach_at};
ghost use Rattle.kept_worlds.specs.LastKept.{AreKept};
ghost use Rattle.object_store.specs.Ends.{notice_of};
ghost use Rattle.object_store.specs.Gathers.{IsLeft, buried};
ghost use Rattle.seq_model.specs.Histories.{History};
ghost use Rattle.seq_model.specs.Soundness.{IsRanked};
ghost use Rattle.seq_model.specs.Told.{end_of_object, gone};
ghost use Rattle.device_parts.specs.Deaths.{all_but_those, unless_dead};
ghost use Rattle.device_laws.specs.FramesStand.{without_pictures};

use dev_types::Handle;
use flight_books::FlightBooks;
use kept_worlds::KeptWorlds;
use object_steps::ObjectStore;

/// Takes away what nothing holds any more, and forgets its pictures and what is kept of it. Of the
/// dead before nothing is to be told any more.
pub(crate) fn bury<T, P: Drop>(
    objects: &mut ObjectStore,
    flights: &mut FlightBooks<T>,
    worlds: &mut KeptWorlds<P>,
)
    requires ranked { IsRanked objects.old.stored.state.objects }
    requires none { objects.old.dead ≡ [] }
    ensures state { objects.new.stored.state ≡ buried objects.old.stored }
    ensures left { IsLeft objects.old.stored objects.new.stored }
    ensures notices { filter_map notice_of objects.new.dead ≡ filter_map end_of_object
        (gone objects.old.stored.state objects.new.stored.state) }
    ensures departed { objects.new.departed
        ≡ keys_of (gone objects.old.stored.state objects.new.stored.state) }
    ensures flights { flights.new ≡ with_future flights.old
        (without_pictures flights.old.future objects.new.departed) }
    ensures forgotten { (w : ℕ)
        → kept_at worlds.new w ≡ unless_dead objects.new.departed w (kept_at worlds.old w) }
    ensures known { (history : History) (there : ℕ → Bool)
        → AreKept there history (reach_at worlds.old)
        → AreKept (all_but_those objects.new.departed there) history (reach_at worlds.new) }
{
    objects.gather();
    forget_pictures(flights, objects.departed());
    forget_worlds(worlds, objects.departed());
}

/// Drops the pictures of the frames among the dead.
pub(crate) fn forget_pictures<T>(flights: &mut FlightBooks<T>, dead: &[Handle])
    ensures { flights.new
        ≡ with_future flights.old (without_pictures flights.old.future dead.now) }
{
    for h in dead {
        flights.forget(*h);
    }
}

/// Drops what is kept of the worlds among the dead. Of the other worlds that are there those are
/// kept that were.
pub(crate) fn forget_worlds<P: Drop>(worlds: &mut KeptWorlds<P>, dead: &[Handle])
    ensures forgotten { (w : ℕ) → kept_at worlds.new w ≡ unless_dead dead.now w (kept_at worlds.old w) }
    ensures known { (history : History) (there : ℕ → Bool)
        → AreKept there history (reach_at worlds.old)
        → AreKept (all_but_those dead.now there) history (reach_at worlds.new) }
{
    for h in dead {
        worlds.forget(*h);
    }
}
