ghost use Rattle.std.specs.Prelude.{◌^◌, ◌≤◌, All, IfOk, length};
ghost use Rattle.std.specs.List.{AllZip};
ghost use Rattle.picture_model.specs.Limits.{IsShapeWithin};
ghost use Rattle.ray_kernel.specs.Searches.{IsTreeFor};
ghost use Rattle.ray_kernel.specs.Shapes.{IsHolding};

use crate::shapes::shape_box;
use box_tests::Box3;
use bvh_build::{Tree, build};
use dev_types::NoMemory;
use picture_model::PrimSource;
use std::alloc::{AllocError, Global};

/// The tree over boxes of a source's primitives, of which it has at most 2^20. The only error is want of memory.
pub fn tree_over<P: PrimSource>(alloc: Global, prims: &P) -> Result<Tree, NoMemory>
    requires few { length (P.primitives prims.now) ≤ 2 ^ 20 }
    requires shapes { All (λ p. IsShapeWithin p.1) (P.primitives prims.now) }
    ensures { IfOk result (λ tree. IsTreeFor tree (P.primitives prims.now)) }
{
    let boxes = boxes_of(alloc, prims)?;
    build(alloc, boxes.as_slice())
}

/// A box for each primitive, which holds its shape.
fn boxes_of<P: PrimSource>(alloc: Global, prims: &P) -> Result<Vec<Box3>, AllocError>
    requires { All (λ p. IsShapeWithin p.1) (P.primitives prims.now) }
    ensures { IfOk result (λ boxes. AllZip (λ b p. IsHolding b p.1) boxes.items (P.primitives prims.now)) }
{
    let count = prims.len();
    let mut boxes = Vec::with_capacity(alloc, count as usize)?;
    for i in 0..count {
        boxes.push(shape_box(&prims.shape(i)))?;
    }
    Ok(boxes)
}
