//! Surfaces as they are captured, and the primitives that they show.
ghost use Rattle.std.specs.Prelude.{◌≡◌, ◌<◌, ◌≤◌, ◌^◌, codes};
ghost use Rattle.kind_tables.specs.SceneObjects.{id_in, scalar_of, scalars_of, value_at};
ghost use Rattle.scene_read.specs.Starts.{visited_object};
ghost use Rattle.world_snapshot.specs.Captured.{primitive_of, shape_count};

use crate::geometries::Geometry;
use dev_types::Handle;
use fx_math::{Place, Placing, Primitive, Shape};
use scene_read::readers::{color, id, scalar};
use scene_read::{Objects, Spot, Subject};
use std::marker::Model;
use std::sync::Arc;

/// A surface that a walk visits, with its geometry and what its material says.
///
/// Contracts see where it stands, what its shapes have in common, and its geometry.
#[derive(Drop)]
pub(crate) struct Surface {
    inst: u32,
    surf: u32,
    placing: Placing,
    instance_id: u32,
    color: [i32; 3],
    opacity: i32,
    object_id: u32,
    geometry: Geometry,
}

impl Model for Surface {
    ghost use Rattle.world_snapshot.specs.Captured.{Surface as TheSurface};

    ghost Value = { TheSurface };

    ghost view = { λ s. record {
      spot = record { inst = s.inst; surf = s.surf; transform = s.placing; instance_id = s.instance_id };
      color = s.color;
      opacity = s.opacity;
      object_id = s.object_id;
      geometry = s.geometry;
    } };
}

impl Surface {
    /// A surface at a spot with a material and a geometry.
    pub(crate) fn new<O: Objects>(
        state: &O,
        spot: &Spot,
        surface: Handle,
        material: Handle,
        geometry: Geometry,
    ) -> Surface
        ensures spot { result.spot ≡ spot.now }
        ensures color { result.color ≡ scalars_of (visited_object (O.objects state.now) material) (codes "color") }
        ensures opacity { result.opacity ≡ scalar_of (visited_object (O.objects state.now) material) (codes "opacity") }
        ensures object_id { result.object_id ≡ id_in (value_at (visited_object (O.objects state.now) surface) (codes "id")) }
        ensures geometry { result.geometry ≡ geometry }
    {
        let material = Subject::visited(material);
        Surface {
            inst: spot.inst,
            surf: spot.surf,
            placing: Placing::new(&spot.transform),
            instance_id: spot.instance_id,
            color: color(state, &material, "color"),
            opacity: scalar(state, &material, "opacity"),
            object_id: id(state, &Subject::visited(surface), "id"),
            geometry,
        }
    }

    /// How many primitives it shows.
    pub(crate) fn count(&self) -> u64
        ensures value { result ≡ shape_count self.now.geometry }
        ensures size { result ≤ 2 ^ 28 }
    {
        self.geometry.count()
    }

    /// Where primitive `k` stands.
    fn place(&self, k: u32) -> Place
        ensures { result ≡ (primitive_of self.now k).place }
    {
        Place {
            inst: self.inst,
            surf: self.surf,
            prim: k,
        }
    }

    /// The shape of primitive `k`.
    fn shape(&self, k: u32) -> Shape
        requires { k < shape_count self.now.geometry }
        ensures { result ≡ (primitive_of self.now k).shape }
    {
        self.geometry.shape(&self.placing, u64::from(k))
    }

    /// Primitive `k`.
    fn primitive(&self, k: u32) -> Primitive
        requires { k < shape_count self.now.geometry }
        ensures { result ≡ primitive_of self.now k }
    {
        Primitive {
            place: self.place(k),
            shape: self.shape(k),
            color: self.color,
            opacity: self.opacity,
            object_id: self.object_id,
            instance_id: self.instance_id,
        }
    }
}

/// A primitive: its surface, and its number there.
///
/// Contracts see the primitive.
#[derive(Drop)]
pub(crate) struct Row {
    surface: Arc<Surface>,
    number: u32,
}

impl Model for Row {
    ghost use Rattle.std.specs.Prelude.{◌<◌};
    ghost use Rattle.fx_math.specs.declared.scene.Primitive.{Primitive};
    ghost use Rattle.world_snapshot.specs.Captured.{primitive_of, shape_count};

    ghost Value = { Primitive };

    ghost view = { λ r. primitive_of r.surface.value r.number };

    ghost invariant = { λ r. r.number < shape_count r.surface.value.geometry };
}

impl Row {
    pub(crate) fn new(surface: Arc<Surface>, number: u32) -> Row
        requires { number < shape_count surface.value.geometry }
        ensures { result ≡ primitive_of surface.value number }
    {
        Row { surface, number }
    }

    pub(crate) fn place(&self) -> Place
        ensures { result ≡ self.now.place }
    {
        self.surface.place(self.number)
    }

    pub(crate) fn shape(&self) -> Shape
        ensures { result ≡ self.now.shape }
    {
        self.surface.shape(self.number)
    }

    pub(crate) fn primitive(&self) -> Primitive
        ensures { result ≡ self.now }
    {
        self.surface.primitive(self.number)
    }
}
