//! The objects as a walk reads them.
ghost use Rattle.seq_model.specs.State.{scene_objects};

use crate::store::Store;
use byte_view::Strided;
use dev_types::{Bytes, Handle, Name, Value};
use kind_tables::Kind;
use scene_read::Objects;

impl Objects for Store {
    ghost objects = { λ s. scene_objects s.state };

    fn kind(&self, h: Handle) -> Option<Kind> {
        self.kind_of(h)
    }

    fn committed(&self, h: Handle, name: &Name) -> Option<&Value> {
        Store::committed(self, h, name)
    }

    fn content(&self, h: Handle) -> Option<Strided<'_>> {
        Store::content(self, h)
    }

    fn block(&self, h: Handle) -> Option<&Bytes> {
        self.bytes(h)
    }

    fn mapped(&self, h: Handle) -> bool {
        self.array_loan(h).is_some()
    }
}
