//! Takes away what does not live any more (ANARI 1.0 Specification, object lifetime).
ghost use Rattle.std.specs.Prelude.{ℕ, ◌≡◌, ◌+◌, ◌-◌, ◌*◌, ◌<◌, ◌≤◌, ◌++◌, ◌||◌, false, nat_lt, IsTrue, length, slice_index_or, if◌then◌else◌};
ghost use Rattle.std.specs.BTreeMap.{is_at};
ghost use Rattle.std.specs.List.{filter, filter_map};
ghost use Rattle.std.specs.Map.{remove_entry};
ghost use Rattle.std.specs.Option.{option_map_or, option_to_list};
ghost use Rattle.std.specs.Ordering.{nat_cmp};
ghost use Rattle.handle_table.specs.HandleMaps.{RiseWithin};
ghost use Rattle.seq_model.specs.Life.{is_root, live, loan_count};
ghost use Rattle.seq_model.specs.State.{object_at};
ghost use Rattle.seq_model.specs.Steps.{is_reached};
ghost use Rattle.seq_model.specs.Told.{end_of_array, end_of_object, gone};
ghost use Rattle.plain_objects.specs.Counts.{count_at};
ghost use Rattle.plain_objects.specs.Sweeping.{ends_of_unmarked, entry_at, is_marked, marked};

use crate::marks::{is_marked, mark_flights, spread};
use crate::objects::{Array, Object};
use crate::reaches::Reach;
use crate::stage::Stage;
use dev_types::{Client, Handle, Origin};

/// Whether the application holds the object with this handle.
fn is_held(held: &[u64], h: Handle) -> bool
    ensures { result ≡ nat_lt 0 (count_at held.now h) }
{
    0 < h.0 && h.0 <= held.len() as u64 && 0 < held[h.0 as usize - 1]
}

/// Whether a loan of an object is out.
fn is_lent(object: &Object) -> bool
    ensures { result ≡ nat_lt 0 (loan_count object.now) }
{
    !object.channels.is_empty()
        || !object.parameter_loans.is_empty()
        || matches!(&object.array, Some(array) if array.loan.is_some())
}

/// Whether the object with this handle is held, or a loan of it is out.
fn is_kept(stage: &Stage, held: &[u64], h: Handle) -> bool
    ensures { result ≡ (nat_lt 0 (count_at held.now h) || option_map_or (λ o. nat_lt 0 (loan_count o)) (object_at stage.now h) false) }
{
    if is_held(held, h) {
        return true;
    }
    match stage.get(h) {
        Some(object) => is_lent(object),
        None => false,
    }
}

/// Marks what is held or lent, and nothing else.
fn mark_kept(stage: &Stage, held: &[u64], marks: &mut [bool])
    ensures { (i : ℕ) → i < length marks.old → slice_index_or marks.new i false ≡ (nat_lt 0 (count_at held.now (i + 1)) || option_map_or (λ o. nat_lt 0 (loan_count o)) (object_at stage.now (i + 1)) false) }
{
    for i in 0..marks.len() {
        marks[i] = is_kept(stage, held, Handle(i as u64 + 1));
    }
}

/// Marks what lives by itself: what is held, lent, or was reached by a flight.
fn mark_roots(stage: &Stage, held: &[u64], reached: &[Reach], marks: &mut [bool])
    requires rising { RiseWithin 1 stage.now.next stage.now.objects }
    requires marks { length marks.old + 1 ≡ stage.now.next }
    ensures { marked marks.new stage.now.objects ≡ filter (is_root (count_at held.now) (is_reached reached.now stage.now)) stage.now.objects }
{
    mark_kept(stage, held, marks);
    mark_flights(stage, reached, marks);
}

/// Whether the same handles are marked.
fn are_same(marks: &[bool], others: &[bool]) -> bool
    ensures { IsTrue result → marks.now ≡ others.now }
{
    marks == others
}

/// Marks what lives, round by round, until one adds nothing, or at most ten. The other marks are used for the rounds.
fn mark_live(
    stage: &Stage,
    held: &[u64],
    reached: &[Reach],
    marks: &mut [bool],
    others: &mut [bool],
)
    requires rising { RiseWithin 1 stage.now.next stage.now.objects }
    requires marks { length marks.old + 1 ≡ stage.now.next }
    requires others { length others.old ≡ length marks.old }
    ensures { marked marks.new stage.now.objects ≡ live (is_root (count_at held.now) (is_reached reached.now stage.now)) stage.now.objects }
{
    mark_roots(stage, held, reached, marks);
    for _round in 0..5_u32 {
        spread(stage, marks, others);
        if are_same(marks, others) {
            return;
        }
        spread(stage, others, marks);
    }
}

/// Tells the client of the end of an array, if the application gave its memory.
fn tell_end_of_array<C: Client>(h: Handle, array: Array, client: &mut C)
    requires { 0 < C.spare client.old }
    ensures told { C.notices client.new ≡ C.notices client.old ++ option_to_list (end_of_array h array.block.bytes array.origin) }
    ensures room { C.spare client.old ≤ C.spare client.new + 1 }
{
    let Array { bytes, origin, .. } = array;
    match origin {
        Origin::Captured(user) => client.deleted(h, user, bytes),
        Origin::Shared(user) => client.let_go(h, user),
        Origin::Managed => {}
    }
}

/// Tells the client of the end of an object, if it is an array whose memory the application gave.
fn tell_end<C: Client>(h: Handle, object: Object, client: &mut C)
    requires { 0 < C.spare client.old }
    ensures told { C.notices client.new ≡ C.notices client.old ++ option_to_list (end_of_object (h, object)) }
    ensures room { C.spare client.old ≤ C.spare client.new + 1 }
{
    let Object { array, .. } = object;
    if let Some(array) = array {
        tell_end_of_array(h, array, client);
    }
}

/// Takes an object away, if it is there, and tells the client of its end.
fn take_away<C: Client>(stage: &mut Stage, h: Handle, client: &mut C)
    requires { length stage.old.objects ≤ C.spare client.old }
    ensures stage { stage.new ≡ record stage.old { objects = remove_entry (is_at (nat_cmp h)) stage.old.objects } }
    ensures told { C.notices client.new ≡ C.notices client.old ++ filter_map end_of_object (entry_at h stage.old.objects) }
    ensures room { length stage.new.objects ≤ C.spare client.new }
{
    if let Some(object) = stage.remove(h) {
        tell_end(h, object, client);
    }
}

/// Takes an object away, if it is there and not marked, and tells the client of its end.
fn take_unmarked_at<C: Client>(stage: &mut Stage, marks: &[bool], h: Handle, client: &mut C)
    requires { length stage.old.objects ≤ C.spare client.old }
    ensures stage { stage.new ≡ record stage.old { objects = if is_marked marks.now h then stage.old.objects else remove_entry (is_at (nat_cmp h)) stage.old.objects } }
    ensures told { C.notices client.new ≡ C.notices client.old ++ ends_of_unmarked marks.now (entry_at h stage.old.objects) }
    ensures room { length stage.new.objects ≤ C.spare client.new }
{
    if !is_marked(marks, h) {
        take_away(stage, h, client);
    }
}

/// Takes the objects away that are not marked, and tells the client of the ends of arrays, by rising handle. Takes no memory.
/// Handle 1 has the first mark; a handle without a mark is not marked.
pub fn take_unmarked<C: Client>(stage: &mut Stage, marks: &[bool], client: &mut C)
    requires { length stage.old.objects ≤ C.spare client.old }
    ensures stage { stage.new ≡ record stage.old { objects = marked marks.now stage.old.objects } }
    ensures told { C.notices client.new ≡ C.notices client.old ++ ends_of_unmarked marks.now stage.old.objects }
    ensures room { length stage.new.objects ≤ C.spare client.new }
{
    let next = stage.next();
    for h in 1..next.0 {
        take_unmarked_at(stage, marks, Handle(h), client);
    }
}

/// Takes away the objects that do not live, and tells the client of the ends of arrays, by rising handle. Takes no memory.
/// There are two marks for each handle that was given so far, and what they are before says nothing.
pub fn sweep<C: Client>(
    stage: &mut Stage,
    held: &[u64],
    reached: &[Reach],
    marks: &mut [bool],
    client: &mut C,
)
    requires marks { length marks.old ≡ 2 * (stage.old.next - 1) }
    requires room { length stage.old.objects ≤ C.spare client.old }
    ensures stage { stage.new ≡ record stage.old { objects = live (is_root (count_at held.now) (is_reached reached.now stage.old)) stage.old.objects } }
    ensures told { C.notices client.new ≡ C.notices client.old ++ filter_map end_of_object (gone stage.old stage.new) }
    ensures room { length stage.new.objects ≤ C.spare client.new }
    ensures marks { length marks.new ≡ length marks.old }
{
    let handles = stage.next().0 as usize - 1;
    let (marks, others) = marks.split_at_mut(handles);
    mark_live(stage, held, reached, marks, others);
    take_unmarked(stage, marks, client);
}
