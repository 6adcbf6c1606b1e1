//! A device over plain lists, with one caller.
ghost use Rattle.std.specs.Prelude.{◌-◌, vec_capacity, vec_len};

use crate::calls::array_of;
use answered_calls::what_comes_back_names_what_is_there;
use dev_types::{
    Bytes, Client, DataType, Handle, Name, NoMemory, Notice, Origin, Refused, Status, Value,
    size_of,
};
use plain_device::device::{Device, Ended};
use seq_model::{Call, Reply};
use std::alloc::Global;
use std::test::Fail;

/// A client that keeps what it is told.
#[derive(Drop)]
pub struct Listener {
    pub heard: Vec<Notice>,
}

impl Client for Listener {
    ghost notices = { λ l. l.heard.items };

    ghost spare = { λ l. vec_capacity l.heard - vec_len l.heard };

    fn reserve(&mut self, _alloc: Global, n: u32) -> Result<(), NoMemory> {
        Ok(self.heard.reserve(n as usize)?)
    }

    fn deleted(&mut self, source: Handle, user: u64, bytes: Bytes) {
        self.heard.push_reserved(Notice::Deleted {
            source,
            user,
            bytes,
        });
    }

    fn let_go(&mut self, source: Handle, user: u64) {
        self.heard.push_reserved(Notice::LetGo { source, user });
    }

    fn status(&mut self, status: Status) {
        self.heard.push_reserved(Notice::Told(status));
    }
}

pub fn expect(is: bool, what: &'static str) -> Result<(), Fail> {
    if is { Ok(()) } else { Err(what)? }
}

/// A device with one caller.
pub struct Bench {
    pub device: Device<Listener>,
}

impl Bench {
    pub fn new(alloc: Global) -> Result<Bench, Fail> {
        let listener = Listener {
            heard: Vec::new(alloc),
        };
        let device = Device::new(alloc, listener).map_err(|_| "out of memory")?;
        Ok(Bench { device })
    }

    /// Makes a call that waits for nothing.
    pub fn call(&mut self, alloc: Global, call: Call) -> Result<(), Fail> {
        let call = self
            .device
            .entered(alloc, call)
            .map_err(|_| "out of memory")?;
        if self.device.waits_for(&call).is_some() {
            return Err("a call that is answered at once")?;
        }
        what_comes_back_names_what_is_there();
        self.device
            .step(alloc, 1, call)
            .map_err(|_| "out of memory")?;
        Ok(())
    }

    /// Makes a call that is refused so.
    pub fn refuse(
        &mut self,
        alloc: Global,
        call: Call,
        refused: Refused,
        row: &'static str,
    ) -> Result<(), Fail> {
        self.call(alloc, call)?;
        match self.device.reply() {
            Some(Reply::Denied(given)) => expect(*given == refused, row),
            _ => Err(row)?,
        }
    }

    /// Ends the device; who heard it.
    pub fn finish(self) -> Listener {
        let Bench { device } = self;
        let Ended {
            client,
            history: _history,
            builds: _builds,
        } = device.finish();
        client
    }

    pub fn create(&mut self, alloc: Global, ty: DataType, subtype: &str) -> Result<(), Fail> {
        let subtype = Name::new(subtype).ok_or("a name")?;
        self.call(alloc, Call::NewObject { ty, subtype })
    }

    /// Makes a dense array of these values, whose deleter has this word.
    pub fn create_array(
        &mut self,
        alloc: Global,
        elem: DataType,
        user: u64,
        values: &[Value],
    ) -> Result<(), Fail> {
        let stride = u64::from(size_of(elem));
        let call = array_of(alloc, elem, stride, Origin::Captured(user), values)?;
        self.call(alloc, call)
    }

    pub fn set(&mut self, alloc: Global, h: u64, name: &str, value: Value) -> Result<(), Fail> {
        let name = Name::new(name).ok_or("a name")?;
        let h = Handle(h);
        self.call(alloc, Call::SetParameter { h, name, value })
    }

    pub fn commit(&mut self, alloc: Global, h: u64) -> Result<(), Fail> {
        self.call(alloc, Call::Commit { h: Handle(h) })
    }

    /// A red triangle, surface 4 with its vertices in array 1.
    fn add_surface(&mut self, alloc: Global) -> Result<(), Fail> {
        let corners = [
            Value::ScalarVec3([-131072, -131072, 0]),
            Value::ScalarVec3([131072, -131072, 0]),
            Value::ScalarVec3([-131072, 131072, 0]),
        ];
        self.create_array(alloc, DataType::ScalarVec3, 7, &corners)?;
        self.create(alloc, DataType::Geometry, "triangle")?;
        self.set(
            alloc,
            2,
            "vertex.position",
            Value::Object(DataType::Array1D, Handle(1)),
        )?;
        self.commit(alloc, 2)?;
        self.create(alloc, DataType::Material, "matte")?;
        self.set(alloc, 3, "color", Value::ScalarVec3([65536, 0, 0]))?;
        self.commit(alloc, 3)?;
        self.create(alloc, DataType::Surface, "default")?;
        self.set(
            alloc,
            4,
            "geometry",
            Value::Object(DataType::Geometry, Handle(2)),
        )?;
        self.set(
            alloc,
            4,
            "material",
            Value::Object(DataType::Material, Handle(3)),
        )?;
        self.commit(alloc, 4)
    }

    /// The surface alone in world 6, by array 5.
    fn add_world(&mut self, alloc: Global) -> Result<(), Fail> {
        let surfaces = [Value::Object(DataType::Surface, Handle(4))];
        self.create_array(alloc, DataType::Surface, 8, &surfaces)?;
        self.create(alloc, DataType::World, "default")?;
        self.set(
            alloc,
            6,
            "surface",
            Value::Object(DataType::Array1D, Handle(5)),
        )?;
        self.commit(alloc, 6)
    }

    /// Camera 7 looks at the world from the front, for frame 9 of 4 by 4.
    fn add_frame(&mut self, alloc: Global) -> Result<(), Fail> {
        self.create(alloc, DataType::Camera, "orthographic")?;
        self.set(alloc, 7, "position", Value::ScalarVec3([0, 0, 65536]))?;
        self.set(alloc, 7, "height", Value::Scalar(262144))?;
        self.commit(alloc, 7)?;
        self.create(alloc, DataType::Renderer, "default")?;
        self.create(alloc, DataType::Frame, "default")?;
        self.set(alloc, 9, "world", Value::Object(DataType::World, Handle(6)))?;
        self.set(
            alloc,
            9,
            "camera",
            Value::Object(DataType::Camera, Handle(7)),
        )?;
        self.set(
            alloc,
            9,
            "renderer",
            Value::Object(DataType::Renderer, Handle(8)),
        )?;
        self.set(alloc, 9, "size", Value::Uint32Vec2([4, 4]))?;
        self.set(
            alloc,
            9,
            "channel.color",
            Value::TypeName(DataType::Ufixed8Vec4),
        )?;
        self.commit(alloc, 9)
    }

    /// The frame's flight has finished.
    pub fn finish_flight(&mut self) -> Result<(), Fail> {
        let ticket = self.device.flight_of(Handle(9)).ok_or("a flight")?;
        if !self.device.is_flying(ticket) {
            return Err("in flight")?;
        }
        self.device.finish_flight(ticket);
        Ok(())
    }

    /// The frame's flight, which was stopped, has left.
    pub fn let_leave(&mut self) -> Result<(), Fail> {
        if !self.device.is_stopped(28) {
            return Err("stopped")?;
        }
        self.device.let_leave(28);
        Ok(())
    }

    /// Releases each of these objects.
    pub fn release(&mut self, alloc: Global, handles: &[u64]) -> Result<(), Fail> {
        for h in handles {
            self.call(alloc, Call::Release { h: Handle(*h) })?;
            self.expect_done()?;
        }
        Ok(())
    }

    /// The last call was done.
    pub fn expect_done(&self) -> Result<(), Fail> {
        expect(matches!(self.device.reply(), Some(Reply::Done)), "done")
    }

    /// The last call was refused so.
    pub fn expect_refused(&self, refused: &Refused) -> Result<(), Fail> {
        match self.device.reply() {
            Some(Reply::Denied(given)) => expect(given == refused, "another refusal"),
            _ => Err("a refusal")?,
        }
    }

    /// Renders the triangle, at place 28.
    pub fn render(&mut self, alloc: Global) -> Result<(), Fail> {
        self.build(alloc)?;
        self.call(alloc, Call::RenderFrame { h: Handle(9) })?;
        expect(self.device.flight_of(Handle(9)) == Some(28), "place 28")
    }

    /// Makes all that the frame of the triangle shows, and the frame.
    pub fn build(&mut self, alloc: Global) -> Result<(), Fail> {
        self.add_surface(alloc)?;
        self.add_world(alloc)?;
        self.add_frame(alloc)
    }
}
