//! A flight whose work is lent: its tiles are rendered outside of the device, by whoever has it.
ghost use Rattle.std.specs.Prelude.{◌≡◌, None, Some, IfNone, IfSome, IsSome, option_copied};
ghost use Rattle.std.specs.List.{find};
ghost use Rattle.std.specs.Option.{IsSomeAnd, is_some};
ghost use Rattle.flight_books.specs.Kept.{cargo_at, with_kept};
ghost use Rattle.frame_future.specs.Future.{AreHome, flight_of};
ghost use Rattle.seq_model.specs.Refusals.{phase_at};
ghost use Rattle.seq_model.specs.State.{ticket_in};
ghost use Rattle.seq_model.specs.Steps.{after};
ghost use Rattle.device_parts.specs.Lends.{HasLentFlight, HasReturned, IsLentFlight, is_lent};
ghost use Rattle.device_parts.specs.Standing.{IsStanding};

use crate::loads::{Load, PreparedScene};
use crate::parts::Parts;
use dev_types::Handle;
use flight_books::{Cargo, FlightBooks};
use frame_future::Phase;
use world_snapshot::{View, Work};

impl Parts {
    /// Takes the work of a frame's flight, until [`Parts::return_flight`]: the claims of its tiles
    /// with their first seat, and its scene. `None` exactly where the frame is no live frame in
    /// flight, and nothing has changed then. Until the work is back no other call is made. Takes no
    /// memory.
    pub fn lend_flight(&mut self, h: Handle) -> Option<Work>
        requires home { AreHome self.old.flights.future }
        ensures lent { IfSome result (HasLentFlight h self.old self.new) }
        ensures none { IfNone result (flight_of self.old.flights.future h ≡ None) }
        ensures same { IfNone result (self.new ≡ self.old) }
        ensures exactly { IsStanding self.old → is_some result
            ≡ is_some (ticket_in (phase_at (after self.old.history) h)) }
        ensures stands { IsStanding self.old → IsStanding self.new }
    {
        let frames = self.flights.frames();
        let Phase::Flight(ticket) = frames.phase_of(h) else {
            return None;
        };
        let (claims, seat) = self.flights.lend(ticket);
        let scene = take_scene(&mut self.flights, ticket);
        Some(scene.into_work(claims, seat))
    }

    /// Puts back the work of the flight that is lent. No tile is open at its seat, and since the
    /// lending the seat has split off no seat, has not stopped and has collected nothing. Takes no
    /// memory.
    pub fn return_flight(&mut self, work: Work)
        requires { IsLentFlight self.old work }
        ensures returned { HasReturned self.old self.new work }
        ensures home { AreHome self.new.flights.future }
        ensures stands { IsStanding self.old → IsStanding self.new }
    {
        // Its clause tells the proof what always holds of the books.
        let _books = self.flights.frames();
        let ticket = lent_ticket(&self.flights);
        let scene = PreparedScene {
            prepared: work.prepared,
            view: View {
                camera: work.camera,
                lighting: work.lighting,
                size: work.size,
            },
        };
        self.flights.put_back(ticket, work.claims, work.seat);
        put_scene(&mut self.flights, ticket, scene);
    }
}

/// What is kept with the first flight whose work is lent.
fn lent_cargo(cargo: &[Cargo<Load>]) -> Option<&Cargo<Load>>
    ensures { option_copied result ≡ find is_lent cargo.now }
{
    cargo.iter().find(|kept| kept.kept.scene.is_none())
}

/// The ticket of the flight that is lent.
fn lent_ticket(flights: &FlightBooks<Load>) -> u64
    requires { IsSome (find is_lent flights.now.cargo) }
    ensures { IfSome (find is_lent flights.now.cargo) (λ c. result ≡ c.ticket) }
{
    let Some(cargo) = lent_cargo(flights.cargo()) else {
        unreachable!();
    };
    cargo.ticket
}

/// Takes the scene that is kept with a flight.
fn take_scene(flights: &mut FlightBooks<Load>, ticket: u64) -> PreparedScene
    requires { IsSomeAnd (cargo_at flights.old.cargo ticket) (λ c. IsSome c.kept.scene) }
    ensures { IfSome (cargo_at flights.old.cargo ticket) (λ c. (c.kept.scene ≡ Some result)
        × (flights.new ≡ with_kept flights.old ticket (record c.kept { scene = None }))) }
{
    match flights.kept_mut(ticket).scene.take() {
        Some(scene) => scene,
        None => unreachable!(),
    }
}

/// Keeps a scene with a flight.
fn put_scene(flights: &mut FlightBooks<Load>, ticket: u64, scene: PreparedScene)
    requires { IsSome (cargo_at flights.old.cargo ticket) }
    ensures { IfSome (cargo_at flights.old.cargo ticket) (λ c. flights.new
        ≡ with_kept flights.old ticket (record c.kept { scene = Some scene })) }
{
    flights.kept_mut(ticket).scene = Some(scene);
}
