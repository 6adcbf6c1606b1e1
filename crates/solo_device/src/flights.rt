//! The work of a flight, done by one thread.
ghost use Rattle.std.specs.Prelude.{◌≡◌, None, false, length, true};
ghost use Rattle.picture_model.specs.Limits.{IsSceneWithin};
ghost use Rattle.tile_claims.specs.Parts.{scene_of, tiles_of};
ghost use Rattle.tile_claims.specs.Seats.{IsSameSeat, IsSeatOf, key_of, view};
ghost use Rattle.tile_claims.specs.Views.{IsAlone};
ghost use Rattle.world_snapshot.specs.Works.{scene_of_work};

use tile_render::render;
use world_snapshot::Work;

/// Claims, renders and gives the tiles of a flight, one after the other, until none is left. Its
/// first seat is the only one, and has not claimed yet. Answers the number of hit tests, up to the
/// greatest number. Takes no memory.
pub fn render_flight(work: &mut Work) -> u64
    requires seat { IsSeatOf work.old.claims work.old.seat }
    requires alone { IsAlone (view work.old.seat) }
    requires idle { (view work.old.seat).opened ≡ None }
    requires in_time { (view work.old.seat).late ≡ false }
    requires going { (view work.old.seat).stop ≡ None }
    requires key { scene_of (key_of work.old.claims) ≡ scene_of_work work.old }
    requires scene { IsSceneWithin (scene_of_work work.old) }
    ensures rest { work.new ≡ record work.old { seat = work.new.seat } }
    ensures seat { IsSeatOf work.new.claims work.new.seat × IsSameSeat work.old.seat work.new.seat }
    ensures view { view work.new.seat
        ≡ record (view work.old.seat) { given = (view work.new.seat).given; late = true } }
    ensures given { length (view work.new.seat).given ≡ tiles_of (key_of work.new.claims) }
{
    let mut tests: u64 = 0;
    while let Some(mut claim) = work.claims.claim(&mut work.seat) {
        tests = tests.saturating_add(render(work, &mut claim));
        work.claims.give(&mut work.seat, claim);
    }
    tests
}
