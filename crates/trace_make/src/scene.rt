//! The scene that is made first.
ghost use Rattle.std.specs.Prelude.{◌≡◌, ◌++◌, pos, IfOk, OnOk};
ghost use Rattle.trace_make.specs.Calls.{written};
ghost use Rattle.trace_make.specs.Draws.{state_after};
ghost use Rattle.trace_make.specs.Scene.{grid_calls, sphere_calls, material_calls, surface_calls, group_calls, moved_along, instance_calls, instances_calls, light_calls, world_calls, placed_calls, scene_calls};

use crate::calls::{Calls, list_of_numbers, pair};
use crate::draws::Draws;
use crate::shapes::{self, push_three};
use std::alloc::{AllocError, Global};

/// The calls that make a rough surface and a cloud of spheres, twice beside each other under two lights.
pub(crate) fn scene(alloc: Global, draws: &mut Draws) -> Result<Calls, AllocError>
    ensures calls { IfOk result (λ calls. written calls ≡ scene_calls draws.old.state) }
    ensures moved { OnOk result (draws.new.state ≡ state_after draws.old.state 349) }
{
    let mut calls = Calls::new(alloc);
    make_grid(alloc, draws, &mut calls)?;
    make_spheres(alloc, draws, &mut calls)?;
    place(alloc, &mut calls)?;
    Ok(calls)
}

fn make_grid(alloc: Global, draws: &mut Draws, calls: &mut Calls) -> Result<(), AllocError>
    ensures calls { OnOk result (written calls.new ≡ written calls.old ++ grid_calls draws.old.state) }
    ensures moved { OnOk result (draws.new.state ≡ state_after draws.old.state 289) }
{
    let vertices = shapes::grid_vertices(alloc, draws)?;
    let triangles = shapes::grid_triangles(alloc)?;
    let positions = list_of_numbers(alloc, &vertices)?;
    let indices = list_of_numbers(alloc, &triangles)?;
    calls.make_array("p", "SCALAR_VEC3", 289, "captured", 1, positions)?;
    calls.make_array("t", "UINT32_VEC3", 512, "captured", 2, indices)?;
    calls.make_of("g", "geometry", "triangle")?;
    calls.set_word("g", "vertex.position", "ARRAY1D", "p")?;
    calls.set_word("g", "primitive.index", "ARRAY1D", "t")?;
    calls.commit("g")?;
    Ok(())
}

fn make_spheres(alloc: Global, draws: &mut Draws, calls: &mut Calls) -> Result<(), AllocError>
    ensures calls { OnOk result (written calls.new ≡ written calls.old ++ sphere_calls draws.old.state) }
    ensures moved { OnOk result (draws.new.state ≡ state_after draws.old.state 60) }
{
    let centres = shapes::centres(alloc, draws)?;
    let positions = list_of_numbers(alloc, &centres)?;
    calls.make_array("b", "SCALAR_VEC3", 20, "shared", 3, positions)?;
    calls.make_of("k", "geometry", "sphere")?;
    calls.set_word("k", "vertex.position", "ARRAY1D", "b")?;
    calls.set_number("k", "radius", "SCALAR", 8192)?;
    calls.commit("k")?;
    Ok(())
}

/// Makes surfaces of the shapes, and a world in which their group stands twice.
fn place(alloc: Global, calls: &mut Calls) -> Result<(), AllocError>
    ensures { OnOk result (written calls.new ≡ written calls.old ++ placed_calls) }
{
    make_materials(calls)?;
    make_surface("s", "g", "m", 1, calls)?;
    make_surface("u", "k", "n", 2, calls)?;
    make_group(alloc, calls)?;
    make_instance(alloc, "i", -163840, 10, calls)?;
    make_instance(alloc, "j", 163840, 11, calls)?;
    let instances = pair(alloc, "i", "j")?;
    calls.make_array("v", "INSTANCE", 2, "captured", 5, instances)?;
    make_lights(alloc, calls)?;
    make_world(calls)?;
    Ok(())
}

fn make_materials(calls: &mut Calls) -> Result<(), AllocError>
    ensures { OnOk result (written calls.new ≡ written calls.old ++ material_calls) }
{
    calls.make_of("m", "material", "matte")?;
    calls.set_numbers("m", "color", "SCALAR_VEC3", &[52429, 39322, 26214])?;
    calls.commit("m")?;
    calls.make_of("n", "material", "matte")?;
    Ok(())
}

fn make_surface(
    label: &str,
    geometry: &str,
    material: &str,
    id: u32,
    calls: &mut Calls,
) -> Result<(), AllocError>
    ensures { OnOk result (written calls.new ≡ written calls.old ++ surface_calls label.now geometry.now material.now id) }
{
    calls.make(label, "surface")?;
    calls.set_word(label, "geometry", "GEOMETRY", geometry)?;
    calls.set_word(label, "material", "MATERIAL", material)?;
    calls.set_number(label, "id", "UINT32", id)?;
    calls.commit(label)?;
    Ok(())
}

fn make_group(alloc: Global, calls: &mut Calls) -> Result<(), AllocError>
    ensures { OnOk result (written calls.new ≡ written calls.old ++ group_calls) }
{
    let surfaces = pair(alloc, "s", "u")?;
    calls.make_array("a", "SURFACE", 2, "captured", 4, surfaces)?;
    calls.make("h", "group")?;
    calls.set_word("h", "surface", "ARRAY1D", "a")?;
    calls.commit("h")?;
    Ok(())
}

/// An instance of the group, moved by `along` on the first axis.
fn make_instance(
    alloc: Global,
    label: &str,
    along: i64,
    id: u32,
    calls: &mut Calls,
) -> Result<(), AllocError>
    ensures { OnOk result (written calls.new ≡ written calls.old ++ instance_calls label.now along id) }
{
    let transform = moved_along(alloc, along)?;
    calls.make_of(label, "instance", "transform")?;
    calls.set_word(label, "group", "GROUP", "h")?;
    calls.set_numbers(label, "transform", "SCALAR_MAT34", &transform)?;
    calls.set_number(label, "id", "UINT32", id)?;
    calls.commit(label)?;
    Ok(())
}

/// The identity, moved by `along` on the first axis.
fn moved_along(alloc: Global, along: i64) -> Result<Vec<i64>, AllocError>
    ensures { IfOk result (λ v. v.items ≡ moved_along along) }
{
    let mut numbers = Vec::new(alloc);
    push_three(65536, 0, 0, &mut numbers)?;
    push_three(0, 65536, 0, &mut numbers)?;
    push_three(0, 0, 65536, &mut numbers)?;
    push_three(along, 0, 0, &mut numbers)?;
    Ok(numbers)
}

fn make_lights(alloc: Global, calls: &mut Calls) -> Result<(), AllocError>
    ensures { OnOk result (written calls.new ≡ written calls.old ++ light_calls) }
{
    calls.make_of("d", "light", "directional")?;
    calls.set_numbers("d", "direction", "SCALAR_VEC3", &[-65536, -65536, -65536])?;
    calls.commit("d")?;
    calls.make_of("o", "light", "point")?;
    calls.set_numbers("o", "position", "SCALAR_VEC3", &[0, 196608, 0])?;
    calls.set_number("o", "intensity", "SCALAR", 131072)?;
    calls.commit("o")?;
    let lights = pair(alloc, "d", "o")?;
    calls.make_array("e", "LIGHT", 2, "captured", 6, lights)?;
    Ok(())
}

fn make_world(calls: &mut Calls) -> Result<(), AllocError>
    ensures { OnOk result (written calls.new ≡ written calls.old ++ world_calls) }
{
    calls.make("w", "world")?;
    calls.set_word("w", "instance", "ARRAY1D", "v")?;
    calls.set_word("w", "light", "ARRAY1D", "e")?;
    calls.commit("w")?;
    calls.make("r", "renderer")?;
    calls.set_number("r", "ambientRadiance", "SCALAR", 13107)?;
    calls.commit("r")?;
    Ok(())
}
