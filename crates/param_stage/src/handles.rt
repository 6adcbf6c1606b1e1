//! Lists of handles.
ghost use Rattle.std.specs.Prelude.{◌≡◌, ◌↔◌, ◌<◌, Some, [], IsTrue, length, slice_get};

use dev_types::Handle;
use std::marker::Model;

/// Handles of objects in an order; one may stand in it more than once.
#[derive(Drop)]
pub struct HandleList {
    items: Vec<Handle>,
}

impl Model for HandleList {
    ghost use Rattle.std.specs.Prelude.{ℕ, List};

    ghost Value = { List ℕ };

    ghost view = { λ l. l.items.items };
}

impl HandleList {
    pub fn of(items: Vec<Handle>) -> HandleList
        ensures { result ≡ items.items }
    {
        HandleList { items }
    }

    pub fn into_vec(self) -> Vec<Handle>
        ensures { result.items ≡ self }
    {
        self.items
    }

    pub fn len(&self) -> u64
        ensures { result ≡ length self.now }
    {
        self.items.len() as u64
    }

    pub fn is_empty(&self) -> bool
        ensures { IsTrue result ↔ (self.now ≡ []) }
    {
        self.items.is_empty()
    }

    /// Handle `i`, counted from 0.
    pub fn get(&self, i: u64) -> &Handle
        requires { i < length self.now }
        ensures { slice_get self.now i ≡ Some result.now }
    {
        &self.items[i as usize]
    }
}

/// What a call changed of the objects that an object's parameters name, each handle once for each entry and
/// in the order of the entries' names. An entry that was written over is told twice: as it was and as it is.
#[derive(Drop)]
pub struct Named {
    /// The objects that are named by new entries.
    pub added: HandleList,
    /// The objects that were named by entries that are no more.
    pub gone: HandleList,
}
