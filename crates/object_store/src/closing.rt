//! The end of all objects, as a device is closed.
ghost use Rattle.std.specs.Prelude.{◌≡◌, ◌≤◌, [], length};
ghost use Rattle.handle_table.specs.HandleMaps.{RiseWithin};
ghost use Rattle.object_store.specs.Ends.{ended};
ghost use Rattle.object_store.specs.Parts.{joined};

use crate::dead::Dead;
use crate::slots::Slot;
use crate::staging::is_there;
use array_objects::ArrayStore;
use dev_types::Handle;
use handle_table::Table;

/// The arrays of all objects, for which there is room among the dead, stand there by rising handle.
/// This takes no memory.
pub fn end_all(slots: &Table<Slot>, mut arrays: ArrayStore, dead: &mut Dead)
    requires none { dead.old.list ≡ [] }
    requires room { length (ended (joined arrays slots.now.entries)) ≤ dead.old.room }
    ensures { dead.new ≡ record dead.old { list = ended (joined arrays slots.now.entries) } }
{
    let mut h = slots.next().0;
    while h > 1 {
        h -= 1;
        if is_there(slots, Handle(h)) {
            dead.add((Handle(h), arrays.remove(Handle(h))));
        }
    }
}

/// Takes away what is kept of all objects. Handles go on from where they were. This takes no memory.
pub fn empty_slots(slots: &mut Table<Slot>)
    ensures none { slots.new.entries ≡ [] }
    ensures next { slots.new.next ≡ slots.old.next }
{
    let next = slots.next().0;
    for h in 1..next {
        let _slot = slots.remove(Handle(h));
    }
}
