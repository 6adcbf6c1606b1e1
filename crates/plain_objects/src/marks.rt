//! Marks of objects by their handles, where handle 1 has the first mark: what objects name, and what flights reached.
ghost use Rattle.std.specs.Prelude.{◌≡◌, ◌==◌, ◌∷◌, [], Some, length, option_copied};
ghost use Rattle.std.specs.List.{filter_map, find, list_any, range_with_len};
ghost use Rattle.std.specs.Option.{option_to_list};
ghost use Rattle.byte_view.specs.Elements.{element};
ghost use Rattle.kind_tables.specs.SceneObjects.{object_in, objects_of};
ghost use Rattle.seq_model.specs.Life.{has, is_named_by, names_of, objects_of_elements};
ghost use Rattle.seq_model.specs.State.{ticket_in};
ghost use Rattle.seq_model.specs.Steps.{is_reached, is_reached_by};
ghost use Rattle.plain_objects.specs.Sweeping.{Adds, entry_at, is_marked, marked};

use crate::objects::{Array, Object, Shows, Values};
use crate::reaches::Reach;
use crate::stage::Stage;
use byte_view::Strided;
use dev_types::{Handle, Value};

/// Whether a handle is marked.
pub(crate) fn is_marked(marks: &[bool], h: Handle) -> bool
    ensures { result ≡ is_marked marks.now h }
{
    0 < h.0 && h.0 <= marks.len() as u64 && marks[h.0 as usize - 1]
}

/// Marks a handle, if it has a mark.
fn mark(h: Handle, marks: &mut [bool])
    ensures { Adds (λ k. has k (h ∷ [])) marks.old marks.new }
{
    if 0 < h.0 && h.0 <= marks.len() as u64 {
        marks[h.0 as usize - 1] = true;
    }
}

/// Marks the object that a value names.
fn mark_value(value: &Value, marks: &mut [bool])
    ensures { Adds (λ k. has k (option_to_list (object_in value.now))) marks.old marks.new }
{
    if let Value::Object(_, h) = value {
        mark(*h, marks);
    }
}

/// Marks the objects that values of parameters name.
fn mark_values(values: &Values, marks: &mut [bool])
    ensures { Adds (λ k. has k (objects_of values.now.entries)) marks.old marks.new }
{
    for (_, value) in values {
        mark_value(value, marks);
    }
}

/// Marks the objects that elements name.
fn mark_each(elements: &Strided<'_>, marks: &mut [bool])
    ensures { Adds (λ k. has k (filter_map (λ i. object_in (element elements.now i)) (range_with_len 0 elements.now.count))) marks.old marks.new }
{
    for i in 0..elements.len() {
        mark_value(&elements.get(i), marks);
    }
}

/// Marks the objects that the elements of an array name.
fn mark_elements(array: &Array, marks: &mut [bool])
    ensures { Adds (λ k. has k (objects_of_elements (Some array.now))) marks.old marks.new }
{
    if array.elem.is_object() {
        let bytes = array.bytes.as_slice();
        mark_each(
            &Strided::over(bytes, array.elem, array.stride, array.count),
            marks,
        );
    }
}

/// Marks all that an object names.
fn mark_names(object: &Object, marks: &mut [bool])
    ensures { Adds (λ k. has k (names_of object.now)) marks.old marks.new }
{
    mark_values(&object.staged, marks);
    mark_values(&object.committed, marks);
    if let Some(array) = &object.array {
        mark_elements(array, marks);
    }
}

/// Marks what the object with this handle names, where it is there and marked among others.
fn mark_names_at(stage: &Stage, others: &[bool], h: Handle, marks: &mut [bool])
    ensures { Adds (is_named_by (marked others.now (entry_at h stage.now.objects))) marks.old marks.new }
{
    if !is_marked(others, h) {
        return;
    }
    if let Some(object) = stage.get(h) {
        mark_names(object, marks);
    }
}

/// Marks what the objects name that are marked among others.
fn mark_named(stage: &Stage, others: &[bool], marks: &mut [bool])
    ensures { Adds (is_named_by (marked others.now stage.now.objects)) marks.old marks.new }
{
    let next = stage.next();
    for h in 1..next.0 {
        mark_names_at(stage, others, Handle(h), marks);
    }
}

/// Makes marks those of others, and of all that objects name that are marked among those.
pub(crate) fn spread(stage: &Stage, others: &[bool], marks: &mut [bool])
    requires { length marks.old ≡ length others.now }
    ensures { Adds (is_named_by (marked others.now stage.now.objects)) others.now marks.new }
{
    marks.copy_from_slice(others);
    mark_named(stage, others, marks);
}

/// Marks these handles.
fn mark_all(handles: &[Handle], marks: &mut [bool])
    ensures { Adds (λ k. has k handles.now) marks.old marks.new }
{
    for h in handles {
        mark(*h, marks);
    }
}

/// What the flight with this ticket reached, if it is known.
fn reach_of(reached: &[Reach], ticket: u64) -> Option<&Reach>
    ensures { option_copied result ≡ find (λ reach. reach.0 == ticket) reached.now }
{
    reached.iter().find(|reach| reach.ticket == ticket)
}

/// Marks what the flight with this ticket reached.
fn mark_flight(reached: &[Reach], ticket: u64, marks: &mut [bool])
    ensures { Adds (is_reached_by reached.now ticket) marks.old marks.new }
{
    if let Some(reach) = reach_of(reached, ticket) {
        mark_all(&reach.handles, marks);
    }
}

/// Marks what the flight of a frame reached, if it is in flight.
fn mark_flight_of(stage: &Stage, reached: &[Reach], h: Handle, marks: &mut [bool])
    ensures { Adds (λ k. list_any (λ t. is_reached_by reached.now t k) (filter_map (λ entry. ticket_in entry.1.phase) (entry_at h stage.now.objects))) marks.old marks.new }
{
    if let Shows::Flight(ticket) = stage.shows(h) {
        mark_flight(reached, ticket, marks);
    }
}

/// Marks what the flights of the frames in flight reached.
fn mark_flying(stage: &Stage, reached: &[Reach], marks: &mut [bool])
    ensures { Adds (λ k. list_any (λ t. is_reached_by reached.now t k) (filter_map (λ entry. ticket_in entry.1.phase) stage.now.objects)) marks.old marks.new }
{
    let next = stage.next();
    for h in 1..next.0 {
        mark_flight_of(stage, reached, Handle(h), marks);
    }
}

/// Marks what flights reached, by their tickets.
fn mark_tickets(reached: &[Reach], tickets: &[u64], marks: &mut [bool])
    ensures { Adds (λ k. list_any (λ t. is_reached_by reached.now t k) tickets.now) marks.old marks.new }
{
    for ticket in tickets {
        mark_flight(reached, *ticket, marks);
    }
}

/// Marks what the flights reached that are not over.
pub(crate) fn mark_flights(stage: &Stage, reached: &[Reach], marks: &mut [bool])
    ensures { Adds (is_reached reached.now stage.now) marks.old marks.new }
{
    mark_flying(stage, reached, marks);
    mark_tickets(reached, stage.stopped(), marks);
}
