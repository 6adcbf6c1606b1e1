//! The scene of one red triangle.
use crate::desk::{Desk, object};
use dev_types::{DataType, Handle, Value};
use frame_future::MappedFrame;
use std::alloc::{AllocError, Global};
use std::sync::Wait;
use std::test::Fail;

/// The frame of the triangle.
pub const FRAME: Handle = Handle(9);

/// The colours of the triangle, the lowest row first: a pixel is hit up to the diagonal.
pub fn triangle(alloc: Global) -> Result<Vec<u8>, AllocError> {
    let mut rows = Vec::new(alloc);
    for letter in "RRRRRRRKRRKKRKKK".bytes() {
        let color = if letter == b'R' {
            [255, 0, 0, 255]
        } else {
            [0; 4]
        };
        rows.extend_from_slice(&color)?;
    }
    Ok(rows)
}

/// Whether a mapped channel of 4 by 4 pixels holds these bytes, the lowest row first.
pub fn shows(frame: &MappedFrame, wanted: &[u8]) -> bool {
    if frame.width() != 4 || frame.height() != 4 {
        return false;
    }
    let mut rows = [0; 64];
    frame.copy_rows(&mut rows);
    rows.as_slice() == wanted
}

impl Desk {
    /// Sets parameters of an object, and commits it.
    fn complete<R: Wait>(
        &mut self,
        rt: &R,
        alloc: Global,
        h: u64,
        parameters: &[(&str, Value)],
    ) -> Result<(), Fail> {
        for (parameter, value) in parameters {
            self.set(rt, alloc, h, parameter, value)?;
        }
        self.commit(rt, alloc, h)
    }

    /// A red triangle, surface 4 with its vertices in array 1.
    fn add_surface<R: Wait>(&mut self, rt: &R, alloc: Global) -> Result<(), Fail> {
        let corners = [
            Value::ScalarVec3([-131072, -131072, 0]),
            Value::ScalarVec3([131072, -131072, 0]),
            Value::ScalarVec3([-131072, 131072, 0]),
        ];
        self.create_array(rt, alloc, DataType::ScalarVec3, 7, &corners)?;
        self.create(rt, alloc, DataType::Geometry, "triangle")?;
        let positions = object(DataType::Array1D, 1);
        self.complete(rt, alloc, 2, &[("vertex.position", positions)])?;
        self.create(rt, alloc, DataType::Material, "matte")?;
        let red = Value::ScalarVec3([65536, 0, 0]);
        self.complete(rt, alloc, 3, &[("color", red)])?;
        self.create(rt, alloc, DataType::Surface, "default")?;
        let geometry = object(DataType::Geometry, 2);
        let material = object(DataType::Material, 3);
        let parts = [("geometry", geometry), ("material", material)];
        self.complete(rt, alloc, 4, &parts)
    }

    /// The surface alone in world 6, by array 5.
    fn add_world<R: Wait>(&mut self, rt: &R, alloc: Global) -> Result<(), Fail> {
        let surfaces = [object(DataType::Surface, 4)];
        self.create_array(rt, alloc, DataType::Surface, 8, &surfaces)?;
        self.create(rt, alloc, DataType::World, "default")?;
        let surfaces = object(DataType::Array1D, 5);
        self.complete(rt, alloc, 6, &[("surface", surfaces)])
    }

    /// Camera 7 looks at the world from the front, for frame 9 of 4 by 4.
    fn add_frame<R: Wait>(&mut self, rt: &R, alloc: Global) -> Result<(), Fail> {
        self.create(rt, alloc, DataType::Camera, "orthographic")?;
        let position = Value::ScalarVec3([0, 0, 65536]);
        let height = Value::Scalar(262144);
        let view = [("position", position), ("height", height)];
        self.complete(rt, alloc, 7, &view)?;
        self.create(rt, alloc, DataType::Renderer, "default")?;
        self.create(rt, alloc, DataType::Frame, "default")?;
        let parts = [
            ("world", object(DataType::World, 6)),
            ("camera", object(DataType::Camera, 7)),
            ("renderer", object(DataType::Renderer, 8)),
            ("size", Value::Uint32Vec2([4, 4])),
            ("channel.color", Value::TypeName(DataType::Ufixed8Vec4)),
        ];
        self.complete(rt, alloc, 9, &parts)
    }

    /// Makes all that the frame of the triangle shows, and the frame, in 27 calls.
    pub fn build<R: Wait>(&mut self, rt: &R, alloc: Global) -> Result<(), Fail> {
        self.add_surface(rt, alloc)?;
        self.add_world(rt, alloc)?;
        self.add_frame(rt, alloc)
    }
}
