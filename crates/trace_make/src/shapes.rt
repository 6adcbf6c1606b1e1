//! The numbers of the two shapes: a rough surface of triangles, and a cloud of spheres.
ghost use Rattle.std.specs.Prelude.{◌≡◌, ◌<◌, ◌+◌, [], ◌∷◌, ◌++◌, pos, ◌-ℤ◌, IfOk, OnOk};
ghost use Rattle.trace_make.specs.Draws.{number_of, next_state, state_after};
ghost use Rattle.trace_make.specs.Scene.{grid_coordinate, grid_vertices, grid_row, grid_triangles, cell_row, cell_triangles, centres, centre};

use crate::draws::Draws;
use std::alloc::{AllocError, Global};

/// The vertices of 17 by 17 points, row by row, with heights below 8192.
pub(crate) fn grid_vertices(alloc: Global, draws: &mut Draws) -> Result<Vec<i64>, AllocError>
    ensures vertices { IfOk result (λ v. v.items ≡ grid_vertices draws.old.state) }
    ensures moved { OnOk result (draws.new.state ≡ state_after draws.old.state 289) }
{
    let mut numbers = Vec::new(alloc);
    for j in 0..17u32 {
        push_row(draws, j, &mut numbers)?;
    }
    Ok(numbers)
}

fn push_row(draws: &mut Draws, j: u32, numbers: &mut Vec<i64>) -> Result<(), AllocError>
    requires { j < 17 }
    ensures row { OnOk result (numbers.new.items ≡ numbers.old.items ++ grid_row draws.old.state j) }
    ensures moved { OnOk result (draws.new.state ≡ state_after draws.old.state 17) }
{
    for i in 0..17u32 {
        let y = height(draws);
        push_three(grid_coordinate(i), y, grid_coordinate(j), numbers)?;
    }
    Ok(())
}

fn height(draws: &mut Draws) -> i64
    ensures height { result ≡ pos (number_of 8192 draws.new.state) }
    ensures moved { draws.new.state ≡ next_state draws.old.state }
{
    i64::from(draws.draw(8192))
}

/// The place of a row or a column, a quarter of a unit apart, with the middle one at 0.
fn grid_coordinate(i: u32) -> i64
    requires { i < 17 }
    ensures { result ≡ grid_coordinate i }
{
    (i64::from(i) - 8) * 16384
}

/// Adds three numbers.
pub(crate) fn push_three(x: i64, y: i64, z: i64, numbers: &mut Vec<i64>) -> Result<(), AllocError>
    ensures { OnOk result (numbers.new.items ≡ numbers.old.items ++ x ∷ y ∷ z ∷ []) }
{
    numbers.push(x)?;
    numbers.push(y)?;
    numbers.push(z)?;
    Ok(())
}

/// The vertex numbers of two triangles in each of 16 by 16 cells.
pub(crate) fn grid_triangles(alloc: Global) -> Result<Vec<i64>, AllocError>
    ensures { IfOk result (λ v. v.items ≡ grid_triangles) }
{
    let mut numbers = Vec::new(alloc);
    for j in 0..16u32 {
        push_cells(j, &mut numbers)?;
    }
    Ok(numbers)
}

fn push_cells(j: u32, numbers: &mut Vec<i64>) -> Result<(), AllocError>
    requires { j < 16 }
    ensures { OnOk result (numbers.new.items ≡ numbers.old.items ++ cell_row j) }
{
    for i in 0..16u32 {
        push_cell(17 * j + i, numbers)?;
    }
    Ok(())
}

/// The two triangles of the cell whose first vertex is `q`.
fn push_cell(q: u32, numbers: &mut Vec<i64>) -> Result<(), AllocError>
    requires { q < 289 }
    ensures { OnOk result (numbers.new.items ≡ numbers.old.items ++ cell_triangles q) }
{
    let first = i64::from(q);
    push_three(first, first + 1, first + 17, numbers)?;
    push_three(first + 1, first + 18, first + 17, numbers)
}

/// The centres of 20 spheres above the surface.
pub(crate) fn centres(alloc: Global, draws: &mut Draws) -> Result<Vec<i64>, AllocError>
    ensures centres { IfOk result (λ v. v.items ≡ centres draws.old.state) }
    ensures moved { OnOk result (draws.new.state ≡ state_after draws.old.state 60) }
{
    let mut numbers = Vec::new(alloc);
    for _sphere in 0..20u32 {
        push_centre(draws, &mut numbers)?;
    }
    Ok(numbers)
}

fn push_centre(draws: &mut Draws, numbers: &mut Vec<i64>) -> Result<(), AllocError>
    ensures centre { OnOk result (numbers.new.items ≡ numbers.old.items ++ centre draws.old.state) }
    ensures moved { OnOk result (draws.new.state ≡ state_after draws.old.state 3) }
{
    let x = across(draws);
    let y = above(draws);
    let z = across(draws);
    push_three(x, y, z, numbers)?;
    Ok(())
}

/// A place within two units to either side.
fn across(draws: &mut Draws) -> i64
    ensures place { result ≡ pos (number_of 262144 draws.new.state) -ℤ pos 131072 }
    ensures moved { draws.new.state ≡ next_state draws.old.state }
{
    let drawn = draws.draw(262144);
    i64::from(drawn) - 131072
}

/// A height above the surface.
fn above(draws: &mut Draws) -> i64
    ensures place { result ≡ pos (16384 + number_of 65536 draws.new.state) }
    ensures moved { draws.new.state ≡ next_state draws.old.state }
{
    let drawn = draws.draw(65536);
    i64::from(16384 + drawn)
}
