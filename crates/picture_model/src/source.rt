ghost use Rattle.std.specs.Prelude.{◌≡◌, ◌<◌, ℕ, List, Some, length, map, slice_get};
ghost use Rattle.fx_math.specs.declared.scene.Place.{Place};
ghost use Rattle.fx_math.specs.declared.scene.Shape.{Shape};
ghost use Rattle.picture_model.specs.Shading.{placed};

use fx_math::{Place, PrimitiveList, Shape};

/// Where a search for hits takes primitives from, one at a time and by number.
pub trait PrimSource {
    /// The places and shapes of all of them, by number.
    ghost primitives: { Self → List (Place × Shape) };

    fn len(&self) -> u64
        ensures { result ≡ length (primitives self.now) };

    /// The place of primitive `i`, counted from 0.
    fn place(&self, i: u64) -> Place
        requires { i < length (primitives self.now) }
        ensures { slice_get (map (λ p. p.0) (primitives self.now)) i ≡ Some result };

    /// The world shape of primitive `i`, counted from 0.
    fn shape(&self, i: u64) -> Shape
        requires { i < length (primitives self.now) }
        ensures { slice_get (map (λ p. p.1) (primitives self.now)) i ≡ Some result };
}

impl PrimSource for PrimitiveList {
    ghost primitives = { λ l. placed l };

    fn len(&self) -> u64 {
        self.as_slice().len() as u64
    }

    fn place(&self, i: u64) -> Place {
        self.as_slice()[i as usize].place
    }

    fn shape(&self, i: u64) -> Shape {
        self.as_slice()[i as usize].shape
    }
}
