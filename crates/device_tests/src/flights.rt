//! Sweeps, and work that is taken.
ghost use Rattle.std.specs.Prelude.{◌≡◌, IfOk};
ghost use Rattle.frame_future.specs.Flights.{IsNew};
ghost use Rattle.frame_future.specs.Pixels.{IsSized};
ghost use Rattle.tile_claims.specs.Seats.{key_of};

use dev_types::{Handle, NoMemory};
use flight_books::{Cargo, FlightBooks, Handout};
use fx_math::{CameraRow, LightList, Lighting, PrimitiveList, Scene, Vec3};
use std::alloc::Global;
use std::test::Fail;
use tile_claims::{Claims, Key, SceneName, Seat};

/// A scene in which nothing is.
fn nothing(alloc: Global) -> Scene {
    let at = Vec3 { x: 0, y: 0, z: 0 };
    Scene {
        primitives: PrimitiveList::new(Vec::new(alloc)),
        camera: CameraRow::Orthographic {
            position: at,
            direction: Vec3 {
                x: 0,
                y: 0,
                z: -65536,
            },
            up: Vec3 {
                x: 0,
                y: 65536,
                z: 0,
            },
            aspect: 65536,
            height: 65536,
        },
        lighting: Lighting {
            lights: LightList::new(Vec::new(alloc)),
            background: [0, 0, 0],
            ambient_color: [0, 0, 0],
            ambient_radiance: 0,
        },
        width: 17,
        height: 1,
    }
}

/// Claims of two tiles.
fn two_tiles(alloc: Global, scene: &Scene) -> Result<(Claims, Seat), NoMemory>
    ensures sized { IfOk result (λ t. IsSized (key_of t.0)) }
    ensures new { IfOk result (λ t. IsNew t.0 t.1) }
{
    let key = Key {
        w: 17,
        h: 1,
        scene: SceneName::of(scene),
    };
    Claims::new(alloc, key)
}

#[test]
fn a_flight_has_work(rt: HostRuntime) -> Result<(), Fail> {
    let alloc = rt.alloc();
    let frame = Handle(9);
    let mut books = FlightBooks::new(alloc);
    let mut notes = Vec::with_capacity(alloc, 2)?;
    let (claims, seat) = two_tiles(alloc, &nothing(alloc)).map_err(|_| "out of memory")?;
    let cargo = Cargo {
        ticket: 5,
        frame,
        kept: 3u64,
    };
    let begun = books.begin(alloc, cargo, claims, seat, [true, false, false, false]);
    assert!(rt; begun.is_ok());
    let work = books.take_work(alloc, &mut notes);
    assert!(rt; matches!(work, Ok(Handout::Work(_))));
    Ok(())
}

#[test]
fn a_discarded_flight_ends(rt: HostRuntime) -> Result<(), Fail> {
    let alloc = rt.alloc();
    let frame = Handle(9);
    let mut books = FlightBooks::new(alloc);
    let (claims, seat) = two_tiles(alloc, &nothing(alloc)).map_err(|_| "out of memory")?;
    let cargo = Cargo {
        ticket: 5,
        frame,
        kept: 3u64,
    };
    let begun = books.begin(alloc, cargo, claims, seat, [true, false, false, false]);
    assert!(rt; begun.is_ok());
    books.discard(frame);
    let over = books.next_ended(0);
    assert!(rt; over.map_or(0, |over| over.cargo.kept) == 3);
    Ok(())
}

#[test]
fn no_flight_has_no_work(rt: HostRuntime) -> Result<(), Fail> {
    let alloc = rt.alloc();
    let mut books: FlightBooks<u64> = FlightBooks::new(alloc);
    let mut notes = Vec::new(alloc);
    books.discard(Handle(9));
    books.sweep(&mut notes);
    assert!(rt; notes.is_empty());
    let work = books.take_work(alloc, &mut notes);
    assert!(rt; matches!(work, Ok(Handout::Idle(_))));
    Ok(())
}
