ghost use Rattle.std.specs.Prelude.{◌≡◌, false, IfSome};
ghost use Rattle.byte_view.specs.Elements.{Fit};
ghost use Rattle.std.specs.Option.{option_and_then, option_map, option_map_or};
ghost use Rattle.kind_tables.specs.SceneObjects.{SceneObjects, object_at, value_named};
ghost use Rattle.scene_read.specs.Reading.{IsCounted, content_of};

use byte_view::Strided;
use dev_types::{Bytes, Handle, Name, Value};
use kind_tables::Kind;

/// The objects of a device, as a walk reads them: their kinds, committed parameters and contents (ANARI 1.0
/// Specification, object parameters and commit).
pub trait Objects {
    /// The objects, by their handles.
    ghost objects: { Self → SceneObjects };

    /// The kind of an object; `None` exactly where there is no such object.
    fn kind(&self, h: Handle) -> Option<Kind>
        ensures { result ≡ option_map (λ o. o.kind) (object_at (objects self.now) h) };

    /// The committed value of a parameter; `None` exactly where there is none.
    fn committed(&self, h: Handle, name: &Name) -> Option<&Value>
        ensures { option_map (λ v. v.now) result ≡ option_and_then (λ o. value_named name.now o.committed) (object_at (objects self.now) h) };

    /// The elements of an array, at most 2^28, which lie in its block; `None` exactly where the object is none.
    fn content(&self, h: Handle) -> Option<Strided<'_>>
        ensures value { result ≡ content_of (objects self.now) h }
        ensures size { IsCounted result }
        ensures fits { IfSome result Fit };

    /// The bytes that `content` reads; `None` exactly where the object is no array.
    fn block(&self, h: Handle) -> Option<&Bytes>
        ensures { option_map (λ b. b.now) result ≡ option_and_then (λ o. option_map (λ b. b.bytes) o.block) (object_at (objects self.now) h) };

    /// Whether the object is an array that is mapped.
    fn mapped(&self, h: Handle) -> bool
        ensures { result ≡ option_map_or (λ o. o.mapped) (object_at (objects self.now) h) false };
}
