//! The objects of a device as a walk reads them.
ghost use Rattle.std.specs.Prelude.{◌≡◌};
ghost use Rattle.std.specs.Option.{is_some};
ghost use Rattle.seq_model.specs.State.{array_loan, scene_objects};

use crate::stage::Stage;
use byte_view::Strided;
use dev_types::{Bytes, Handle, Name, Value};
use kind_tables::Kind;
use scene_read::Objects;

impl Objects for Stage {
    ghost objects = { λ s. scene_objects s };

    fn kind(&self, h: Handle) -> Option<Kind> {
        let object = self.get(h)?;
        Some(object.kind)
    }

    fn committed(&self, h: Handle, name: &Name) -> Option<&Value> {
        let object = self.get(h)?;
        object.committed(name)
    }

    fn content(&self, h: Handle) -> Option<Strided<'_>> {
        let object = self.get(h)?;
        object.content()
    }

    fn block(&self, h: Handle) -> Option<&Bytes> {
        let object = self.get(h)?;
        object.bytes()
    }

    fn mapped(&self, h: Handle) -> bool {
        match self.get(h) {
            Some(object) => object.is_lent(),
            None => false,
        }
    }
}
