ghost use Rattle.std.specs.Prelude.{◌≡◌, ◌^◌, ◌≤◌};
ghost use Rattle.fx_math.specs.Vec3.{reach};
ghost use Rattle.picture_model.specs.Limits.{IsHitRowWithin, IsRayWithin};
ghost use Rattle.picture_model.specs.Shading.{facing, normal_of, point_at};

use fx_math::{Ray, Vec3};
use picture_model::{HitRow, facing, normal_of, point_at};

/// Where a ray meets a surface: the point, and the unit normal on the side that the ray comes from.
#[derive(Clone, Copy)]
pub(crate) struct Surface {
    pub(crate) point: Vec3,
    pub(crate) normal: Vec3,
}

/// The point of a hit and the normal there.
pub(crate) fn surface_at(ray: &Ray, hit: &HitRow) -> Surface
    requires ray { IsRayWithin ray.now }
    requires hit { IsHitRowWithin hit.now }
    ensures point { result.point ≡ point_at ray.now hit.now.depth }
    ensures point_size { reach result.point ≤ 2 ^ 42 }
    ensures normal { result.normal ≡ facing ray.now (normal_of hit.now.shape result.point) }
    ensures normal_size { reach result.normal ≤ 65536 }
{
    let point = point_at(ray, hit.depth);
    let normal = facing(ray, normal_of(&hit.shape, point));
    Surface { point, normal }
}
