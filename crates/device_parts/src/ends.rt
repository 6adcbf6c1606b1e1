//! The end of a flight, as the objects know it.
ghost use Rattle.std.specs.Prelude.{◌≡◌, ℕ};
ghost use Rattle.device_laws.specs.Showings.{is_flight, showing_at};
ghost use Rattle.flight_books.specs.Sweeps.{note_of_end};
ghost use Rattle.object_steps.specs.Objects.{with_state};
ghost use Rattle.object_store.specs.Phases.{phase_of};
ghost use Rattle.seq_model.specs.Steps.{change, end_flights};
ghost use Rattle.device_parts.specs.Ends.{IsOwn};

use dev_types::Handle;
use frame_future::Ended;
use object_steps::ObjectStore;
use object_store::slots::Shows;
use object_store::store::Store;

/// Whether the frame is in flight with this ticket.
fn is_in_flight(store: &Store, frame: Handle, ticket: u64) -> bool
    ensures { result ≡ is_flight ticket (showing_at store.now.state frame).phase }
{
    match store.shows(frame) {
        Shows::Flight(flown) => flown == ticket,
        _ => false,
    }
}

/// The flight with this ticket, which may be this frame's alone, ends: its frame shows something
/// else.
fn show_end(objects: &mut ObjectStore, frame: Handle, ticket: u64, shows: Shows)
    requires own { IsOwn objects.old.stored.state ticket frame }
    ensures { objects.new ≡ with_state objects.old
        (end_flights ticket (phase_of shows) objects.old.stored.state) }
{
    objects.store().counts_its_objects();
    if is_in_flight(objects.store(), frame, ticket) {
        objects.show(frame, shows);
    }
}

/// Notes the end of a flight, which may be this frame's alone: where it was not stopped, the frame
/// shows its picture.
pub(crate) fn end_flight(objects: &mut ObjectStore, frame: Handle, ended: &Ended)
    requires own { IsOwn objects.old.stored.state ended.now.ticket frame }
    ensures { (place : ℕ) → objects.new ≡ with_state objects.old
        (change place (note_of_end ended.now) objects.old.stored.state) }
{
    if ended.left {
        show_end(objects, frame, ended.ticket, Shows::Nothing);
        objects.let_leave(ended.ticket);
    } else {
        show_end(objects, frame, ended.ticket, Shows::Picture(ended.ticket));
    }
}
