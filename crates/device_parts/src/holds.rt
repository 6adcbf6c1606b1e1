//! What flights hold of objects: a flight keeps alive all that its scene reached.
ghost use Rattle.std.specs.Prelude.{◌≡◌, ℕ, ◌+◌, ◌<◌, ◌≤◌, ◌^◌, All, IsSome, length, true};
ghost use Rattle.dev_types.specs.Counting.{times};
ghost use Rattle.object_store.specs.Kept.{number_at};
ghost use Rattle.seq_model.specs.State.{object_at};
ghost use Rattle.device_parts.specs.Holds.{held_less, held_too, with_holds};

use dev_types::Handle;
use object_steps::ObjectStore;
use object_store::store::Store;

/// How many flights may hold one object.
const MOST_HOLDS: u64 = 1099511627776;

/// Whether one flight more may hold each of these objects; no more than 2^40 flights hold any.
pub(crate) fn can_be_held(store: &Store, reach: &[Handle]) -> bool
    ensures { result ≡ true
        → All (λ h. number_at store.now.holds h + length reach.now ≤ 2 ^ 40) reach.now }
{
    let more = reach.len() as u64;
    if more > MOST_HOLDS {
        return false;
    }
    for h in reach {
        if store.holds(*h) > MOST_HOLDS - more {
            return false;
        }
    }
    true
}

/// One flight more holds each of these objects, which are there.
pub(crate) fn hold_all(objects: &mut ObjectStore, reach: &[Handle])
    requires there { (h : ℕ) → 0 < times h reach.now → IsSome (object_at objects.old.stored.state h) }
    requires few { All (λ h. number_at objects.old.stored.holds h + length reach.now ≤ 2 ^ 40)
        reach.now }
    ensures { objects.new ≡ with_holds objects.old (held_too reach.now objects.old.stored.holds) }
{
    for h in reach {
        objects.hold(*h);
    }
}

/// One flight less holds each of these objects.
pub(crate) fn unhold_all(objects: &mut ObjectStore, reach: &[Handle])
    requires held { (h : ℕ) → times h reach.now ≤ number_at objects.old.stored.holds h }
    ensures { objects.new ≡ with_holds objects.old (held_less reach.now objects.old.stored.holds) }
{
    for h in reach {
        objects.unhold(*h);
    }
}
