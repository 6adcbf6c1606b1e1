//! The scene of a frame, by what a walk visits.
ghost use Rattle.std.specs.Prelude.{All, IfSome, ◌≡◌, ◌≤◌, ◌^◌, ◌++◌, Some, IsTrue, ◌<◌, IfOk, OnOk, length, map, slice_index_or};
ghost use Rattle.std.specs.List.{enumerate_from};
ghost use Rattle.std.specs.Option.{option_map, option_to_list};
ghost use Rattle.dev_types.specs.Bounded.{is_name};
ghost use Rattle.kind_tables.specs.SceneObjects.{object_at, sizes_in};
ghost use Rattle.kind_tables.specs.Scenes.{camera_by, camera_of, light_at, lights_of, primitives_at, primitives_of, scene, scene_by, side_of, surface_primitives};
ghost use Rattle.kind_tables.specs.Typed.{AreFit};
ghost use Rattle.kind_tables.specs.WalkRefusals.{fault_of};
ghost use Rattle.kind_tables.specs.Walks.{walk};
ghost use Rattle.kind_tables.specs.declared.kinds.Kind.TheVariants.{FrameDefault};
ghost use Rattle.picture_model.specs.Limits.{IsSceneWithin};
ghost use Rattle.scene_read.specs.Reading.{object_of};
ghost use Rattle.scene_read.specs.SceneReads.{HasSides, IsReadCamera, IsReadLight, IsReadScene, size_of_frame};
ghost use Rattle.scene_read.specs.Shown.{finish_of, finished, lit, live_in};
ghost use Rattle.scene_read.specs.Starts.{all_seen, seen, starts_of, visited_object};

use crate::geometries::shapes;
use crate::objects::Objects;
use crate::readers::{Subject, color, id, kind, named, scalar, value, vector};
use crate::visits::{Spot, Visit, Visits};
use dev_types::{Handle, Name, NoMemory, Value};
use fx_math::{
    CameraRow, LightList, LightRow, Lighting, Place, Primitive, PrimitiveList, Scene, Shape,
    placed, transform_direction,
};
use kind_tables::Kind;
use std::alloc::{AllocError, Global};

/// A visited light in world space, with its numbers as committed or by default; `None` for every other object. A position
/// has no limit here.
pub fn light<O: Objects>(state: &O, visit: &Visit) -> Option<LightRow>
    ensures value { result ≡ light_at (seen (O.objects state.now) visit.now) }
    ensures read { IfSome result IsReadLight }
{
    let subject = Subject::visited(visit.handle);
    match kind(state, &subject) {
        Kind::LightDirectional => Some(LightRow::Directional {
            direction: transform_direction(
                &visit.spot.transform,
                vector(state, &subject, "direction"),
            ),
            color: color(state, &subject, "color"),
            irradiance: scalar(state, &subject, "irradiance"),
        }),
        Kind::LightPoint => Some(LightRow::Point {
            position: placed(&visit.spot.transform, vector(state, &subject, "position")),
            color: color(state, &subject, "color"),
            intensity: scalar(state, &subject, "intensity"),
        }),
        _ => None,
    }
}

/// The camera that is read, with its numbers as committed or by default.
pub fn camera<O: Objects>(state: &O, subject: &Subject) -> CameraRow
    ensures value { result ≡ camera_by (object_of (O.objects state.now) subject.now).kind (object_of (O.objects state.now) subject.now) }
    ensures read { IsReadCamera result }
{
    let position = vector(state, subject, "position");
    let direction = vector(state, subject, "direction");
    let up = vector(state, subject, "up");
    let aspect = scalar(state, subject, "aspect");
    match kind(state, subject) {
        Kind::CameraPerspective => CameraRow::Perspective {
            position,
            direction,
            up,
            aspect,
            tan_half_fovy: scalar(state, subject, "tanHalfFovy"),
        },
        _ => CameraRow::Orthographic {
            position,
            direction,
            up,
            aspect,
            height: scalar(state, subject, "height"),
        },
    }
}

/// The lights that are visited, in the order of the walk, with their numbers as committed or by default. The only error is want of
/// memory.
pub fn lights<O: Objects>(
    alloc: Global,
    state: &O,
    visits: &[Visit],
) -> Result<Vec<LightRow>, AllocError>
    ensures value { IfOk result (λ lights. lights.items ≡ lights_of (all_seen (O.objects state.now) visits.now)) }
    ensures read { IfOk result (λ lights. All IsReadLight lights.items) }
{
    let mut lights = Vec::new(alloc);
    for visit in visits {
        push_light(&mut lights, light(state, visit))?;
    }
    Ok(lights)
}

/// Adds a light, if there is one.
fn push_light(lights: &mut Vec<LightRow>, light: Option<LightRow>) -> Result<(), AllocError>
    ensures { OnOk result (lights.new.items ≡ lights.old.items ++ option_to_list light) }
{
    if let Some(light) = light {
        lights.push(light)?;
    }
    Ok(())
}

/// What the shapes of a surface have in common.
#[derive(Drop)]
struct Finish {
    color: [i32; 3],
    opacity: i32,
    object_id: u32,
}

/// Shape number `k` of a surface at a spot.
fn primitive(spot: &Spot, finish: &Finish, k: u32, shape: Shape) -> Primitive
    ensures { result ≡ finished spot.now finish.now (k, shape) }
{
    Primitive {
        place: Place {
            inst: spot.inst,
            surf: spot.surf,
            prim: k,
        },
        shape,
        color: finish.color,
        opacity: finish.opacity,
        object_id: finish.object_id,
        instance_id: spot.instance_id,
    }
}

/// Adds the shapes of a surface at a spot.
fn push_shapes(
    primitives: &mut Vec<Primitive>,
    spot: &Spot,
    finish: &Finish,
    shapes: &[Shape],
) -> Result<(), AllocError>
    requires { length shapes.now ≤ 2 ^ 28 }
    ensures { OnOk result (primitives.new.items ≡ primitives.old.items ++ map (finished spot.now finish.now) (enumerate_from 0 shapes.now)) }
{
    for (k, shape) in shapes.iter().enumerate() {
        primitives.push(primitive(spot, finish, k as u32, *shape))?;
    }
    Ok(())
}

/// The handle of an object that was committed under a name and is there.
pub fn live<O: Objects>(state: &O, h: Handle, text: &str) -> Option<Handle>
    requires { IsTrue (is_name text.now) }
    ensures { result ≡ live_in (O.objects state.now) h text.now }
{
    let h = named(state, h, text)?;
    state.kind(h)?;
    Some(h)
}

/// What the shapes of a surface with a material have in common.
fn finish_of<O: Objects>(state: &O, surface: Handle, material: Handle) -> Finish
    ensures { result ≡ finish_of (O.objects state.now) surface material }
{
    let surface = Subject::visited(surface);
    let material = Subject::visited(material);
    Finish {
        color: color(state, &material, "color"),
        opacity: scalar(state, &material, "opacity"),
        object_id: id(state, &surface, "id"),
    }
}

/// Adds what a surface at a spot shows.
fn push_surface<O: Objects>(
    alloc: Global,
    state: &O,
    spot: &Spot,
    surface: Handle,
    primitives: &mut Vec<Primitive>,
) -> Result<(), AllocError>
    ensures { OnOk result (primitives.new.items ≡ primitives.old.items ++ surface_primitives (O.objects state.now) spot.now (visited_object (O.objects state.now) surface)) }
{
    let Some(material) = live(state, surface, "material") else {
        return Ok(());
    };
    let Some(geometry) = live(state, surface, "geometry") else {
        return Ok(());
    };
    let finish = finish_of(state, surface, material);
    let shapes = shapes(alloc, state, geometry, &spot.transform)?;
    push_shapes(primitives, spot, &finish, &shapes)
}

/// Adds what a visited object shows; only surfaces show anything.
fn push_primitives<O: Objects>(
    alloc: Global,
    state: &O,
    visit: &Visit,
    primitives: &mut Vec<Primitive>,
) -> Result<(), AllocError>
    ensures { OnOk result (primitives.new.items ≡ primitives.old.items ++ primitives_at (O.objects state.now) (seen (O.objects state.now) visit.now)) }
{
    match kind(state, &Subject::visited(visit.handle)) {
        Kind::SurfaceDefault => push_surface(alloc, state, &visit.spot, visit.handle, primitives),
        _ => Ok(()),
    }
}

/// All that is shown.
fn primitives<O: Objects>(
    alloc: Global,
    state: &O,
    visits: &[Visit],
) -> Result<Vec<Primitive>, AllocError>
    ensures { IfOk result (λ primitives. primitives.items ≡ primitives_of (O.objects state.now) (all_seen (O.objects state.now) visits.now)) }
{
    let mut primitives = Vec::new(alloc);
    for visit in visits {
        push_primitives(alloc, state, visit, &mut primitives)?;
    }
    Ok(primitives)
}

/// Side `i` of a frame's size.
fn side(size: &Option<Value>, i: usize) -> u32
    requires { i < 2 }
    ensures value { result ≡ slice_index_or (sizes_in size.now) i 0 }
    ensures sides { HasSides size.now }
{
    match size {
        Some(Value::Uint32Vec2(sides)) => sides[i],
        _ => 0,
    }
}

/// The width and the height of a frame, in pixels; 0 where it has no size.
pub fn sides<O: Objects>(state: &O, frame: Handle) -> (u32, u32)
    ensures width { result.0 ≡ side_of (visited_object (O.objects state.now) frame) 0 }
    ensures height { result.1 ≡ side_of (visited_object (O.objects state.now) frame) 1 }
    ensures sides { HasSides (size_of_frame (O.objects state.now) frame) }
{
    let size = value(state, &Subject::visited(frame), &Name::of("size"));
    (side(&size, 0), side(&size, 1))
}

/// These lights under the renderer of a frame, with its numbers as committed or by default; without a renderer, under one that was
/// given nothing.
pub fn lit<O: Objects>(state: &O, frame: Handle, lights: LightList) -> Lighting
    ensures { result ≡ lit (O.objects state.now) frame lights }
{
    let renderer = Subject {
        handle: named(state, frame, "renderer"),
        otherwise: Kind::RendererDefault,
    };
    Lighting {
        lights,
        background: color(state, &renderer, "background"),
        ambient_color: color(state, &renderer, "ambientColor"),
        ambient_radiance: scalar(state, &renderer, "ambientRadiance"),
    }
}

/// The camera of a frame; without one, an orthographic camera that was given nothing.
pub fn camera_of<O: Objects>(state: &O, frame: Handle) -> CameraRow
    ensures value { result ≡ camera_of (O.objects state.now) (visited_object (O.objects state.now) frame) }
    ensures read { IsReadCamera result }
{
    let subject = Subject {
        handle: named(state, frame, "camera"),
        otherwise: Kind::CameraOrthographic,
    };
    camera(state, &subject)
}

/// The scene of a frame, by what its walk visits (ANARI 1.0 Specification, World, Surface, Light, Camera, Renderer). It
/// copies what it shows. Where the walk from the frame has no fault, the scene keeps to the limits of pictures. The only error is want
/// of memory.
pub fn scene<O: Objects>(
    alloc: Global,
    state: &O,
    frame: Handle,
    visits: &Visits,
) -> Result<Scene, NoMemory>
    ensures by_visits { IfOk result (λ scene. scene ≡ scene_by (O.objects state.now) (visited_object (O.objects state.now) frame) (all_seen (O.objects state.now) visits.now)) }
    ensures read { IfOk result (λ made. IsReadScene (size_of_frame (O.objects state.now) frame) made) }
    ensures of_frame { visits.now ≡ starts_of (walk (O.objects state.now) frame) → IfOk result (λ made. made ≡ scene (O.objects state.now) frame) }
    ensures within { AreFit (O.objects state.now)
        → option_map (λ o. o.kind) (object_at (O.objects state.now) frame) ≡ Some FrameDefault
        → fault_of (O.objects state.now) (walk (O.objects state.now) frame) ≡ None
        → visits.now ≡ starts_of (walk (O.objects state.now) frame)
        → IfOk result IsSceneWithin }
{
    let visits = visits.as_slice();
    let primitives = primitives(alloc, state, visits)?;
    let lights = lights(alloc, state, visits)?;
    let (width, height) = sides(state, frame);
    Ok(Scene {
        primitives: PrimitiveList::new(primitives),
        camera: camera_of(state, frame),
        lighting: lit(state, frame, LightList::new(lights)),
        width,
        height,
    })
}
