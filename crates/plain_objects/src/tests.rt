// What the proofs cannot see: that the definition of life keeps what an application expects, on small worked stages.
ghost use Rattle.std.specs.Prelude.{◌-◌, vec_capacity, vec_len};

use crate::objects::{Array, Object, ParameterLoan, Shows};
use crate::reaches::Reach;
use crate::stage::Stage;
use crate::sweeps::sweep;
use byte_view::fits_block;
use dev_types::{
    Bytes, Channel, Client, DataType, Handle, Name, NoMemory, Notice, Origin, Status, Value,
    encode_value, size_of,
};
use kind_tables::Kind;
use std::alloc::Global;
use std::test::Fail;

/// A client that keeps what it is told.
#[derive(Drop)]
struct Listener {
    heard: Vec<Notice>,
}

impl Client for Listener {
    ghost notices = { λ l. l.heard.items };

    ghost spare = { λ l. vec_capacity l.heard - vec_len l.heard };

    fn reserve(&mut self, _alloc: Global, n: u32) -> Result<(), NoMemory> {
        Ok(self.heard.reserve(n as usize)?)
    }

    fn deleted(&mut self, source: Handle, user: u64, bytes: Bytes) {
        self.heard.push_reserved(Notice::Deleted {
            source,
            user,
            bytes,
        });
    }

    fn let_go(&mut self, source: Handle, user: u64) {
        self.heard.push_reserved(Notice::LetGo { source, user });
    }

    fn status(&mut self, status: Status) {
        self.heard.push_reserved(Notice::Told(status));
    }
}

/// A stage, and who hears of its ends.
#[derive(Drop)]
struct Bench {
    stage: Stage,
    listener: Listener,
}

impl Bench {
    fn new(alloc: Global) -> Bench {
        Bench {
            stage: Stage::new(alloc),
            listener: Listener {
                heard: Vec::new(alloc),
            },
        }
    }

    /// Adds an object that is no array.
    fn add(&mut self, alloc: Global, kind: Kind) -> Result<(), Fail> {
        let object = Object::new(alloc, kind, None);
        self.stage.add(alloc, object).map_err(|_| "out of memory")?;
        Ok(())
    }

    /// Adds a dense array of these values.
    fn add_array(
        &mut self,
        alloc: Global,
        elem: DataType,
        origin: Origin,
        values: &[Value],
    ) -> Result<(), Fail> {
        let array = dense(alloc, elem, origin, values)?;
        let object = Object::new(alloc, Kind::Array(elem), Some(array));
        self.stage.add(alloc, object).map_err(|_| "out of memory")?;
        Ok(())
    }

    /// Stages that an object names another.
    fn name(&mut self, h: u64, other: u64) -> Result<(), Fail> {
        let name = Name::new("name").ok_or("a name")?;
        let value = Value::Object(DataType::Geometry, Handle(other));
        self.stage
            .set(Handle(h), &name, &value)
            .map_err(|_| "out of memory")?;
        Ok(())
    }

    /// Sweeps, with these counts of public references.
    fn sweep(&mut self, alloc: Global, held: &[u64], reached: &[Reach]) -> Result<(), Fail> {
        let handles = self.stage.next().0 - 1;
        let Ok(few) = u32::try_from(handles) else {
            return Err("few handles")?;
        };
        let Ok(()) = self.listener.reserve(alloc, few) else {
            return Err("out of memory")?;
        };
        let mut marks = vec![in alloc; true; 2 * few as usize]?;
        sweep(
            &mut self.stage,
            held,
            reached,
            &mut marks,
            &mut self.listener,
        );
        Ok(())
    }

    /// The object is there.
    fn lives(&self, h: u64) -> bool {
        self.stage.get(Handle(h)).is_some()
    }
}

/// A dense array of these values.
fn dense(alloc: Global, elem: DataType, origin: Origin, values: &[Value]) -> Result<Array, Fail> {
    let mut bytes = Vec::new(alloc);
    for value in values {
        bytes.extend_from_slice(&encode_value(alloc, value)?)?;
    }
    let count = values.len() as u64;
    let stride = u64::from(size_of(elem));
    if count > 1 << 28 || !fits_block(elem, stride, count, bytes.len()) {
        return Err("an array that fits")?;
    }
    let bytes = Bytes::of(alloc, bytes).map_err(|_| "a block")?;
    Ok(Array {
        elem,
        count,
        stride,
        bytes,
        origin,
        loan: None,
    })
}

/// The notice hands these bytes of a captured array back.
fn is_deleted(notice: &Notice, h: u64, word: u64, content: &[u8]) -> bool {
    match notice {
        Notice::Deleted {
            source,
            user,
            bytes,
        } => source.0 == h && *user == word && bytes.as_slice() == content,
        _ => false,
    }
}

/// The notice lets go of a shared array.
fn is_let_go(notice: &Notice, h: u64, word: u64) -> bool {
    match notice {
        Notice::LetGo { source, user } => source.0 == h && *user == word,
        _ => false,
    }
}

#[test]
fn a_chain_of_ten_names_lives_and_dies_at_once(rt: HostRuntime) -> Result<(), Fail> {
    let mut bench = Bench::new(rt.alloc());
    bench.add_array(
        rt.alloc(),
        DataType::Ufixed8Vec4,
        Origin::Captured(7),
        &[Value::Ufixed8Vec4([1, 2, 3, 4])],
    )?;
    for h in 2..12_u64 {
        bench.add(rt.alloc(), Kind::GroupDefault)?;
        bench.name(h, h - 1)?;
    }
    bench.sweep(rt.alloc(), &[0, 0, 0, 0, 0, 0, 0, 0, 0, 0, 1], &[])?;
    assert!(rt; bench.listener.heard.is_empty());
    for h in 1..12_u64 {
        assert!(rt; bench.lives(h), "{h}");
    }
    bench.sweep(rt.alloc(), &[0, 0, 0, 0, 0, 0, 0, 0, 0, 0, 0], &[])?;
    for h in 1..12_u64 {
        assert!(rt; !bench.lives(h), "{h}");
    }
    assert_eq!(rt; bench.listener.heard.len(), 1);
    assert!(rt; is_deleted(&bench.listener.heard[0], 1, 7, &[1, 2, 3, 4]));
    Ok(())
}

#[test]
fn what_elements_and_committed_values_name_lives(rt: HostRuntime) -> Result<(), Fail> {
    let mut bench = Bench::new(rt.alloc());
    bench.add_array(rt.alloc(), DataType::Scalar, Origin::Shared(8), &[])?;
    bench.add(rt.alloc(), Kind::SurfaceDefault)?;
    bench.name(2, 1)?;
    bench.stage.commit(Handle(2)).map_err(|_| "out of memory")?;
    bench.stage.unset_all(Handle(2));
    let surfaces = [Value::Object(DataType::Surface, Handle(2))];
    bench.add_array(rt.alloc(), DataType::Surface, Origin::Managed, &surfaces)?;
    bench.add_array(rt.alloc(), DataType::Scalar, Origin::Captured(9), &[])?;
    bench.sweep(rt.alloc(), &[0, 0, 1, 0], &[])?;
    assert!(rt; bench.lives(1) && bench.lives(2) && bench.lives(3) && !bench.lives(4));
    assert_eq!(rt; bench.listener.heard.len(), 1);
    assert!(rt; is_deleted(&bench.listener.heard[0], 4, 9, &[]));
    bench.sweep(rt.alloc(), &[0, 0, 0, 0], &[])?;
    assert!(rt; !bench.lives(1) && !bench.lives(2) && !bench.lives(3));
    assert_eq!(rt; bench.listener.heard.len(), 2);
    assert!(rt; is_let_go(&bench.listener.heard[1], 1, 8));
    Ok(())
}

#[test]
fn what_is_lent_lives(rt: HostRuntime) -> Result<(), Fail> {
    let mut bench = Bench::new(rt.alloc());
    let name = Name::new("data").ok_or("a name")?;
    let elem = DataType::Scalar;
    bench.add_array(rt.alloc(), elem, Origin::Captured(5), &[])?;
    bench.add(rt.alloc(), Kind::FrameDefault)?;
    bench.add(rt.alloc(), Kind::GroupDefault)?;
    bench.add(rt.alloc(), Kind::GroupDefault)?;
    bench.stage.lend(Handle(1), 6);
    bench
        .stage
        .map_channel(Handle(2), Channel::Color, 7)
        .map_err(|_| "out of memory")?;
    let loan = ParameterLoan {
        number: 8,
        name,
        elem,
        count: 3,
    };
    bench
        .stage
        .lend_parameter(Handle(3), loan)
        .map_err(|_| "out of memory")?;
    bench.sweep(rt.alloc(), &[0, 0, 0, 0], &[])?;
    assert!(rt; bench.lives(1) && bench.lives(2) && bench.lives(3) && !bench.lives(4));
    bench.stage.unmap_channel(Handle(2), 7);
    bench.stage.end_parameter_loan(Handle(3), 8);
    bench.sweep(rt.alloc(), &[0, 0, 0, 0], &[])?;
    assert!(rt; bench.lives(1) && !bench.lives(2) && !bench.lives(3));
    assert!(rt; bench.listener.heard.is_empty());
    Ok(())
}

#[test]
fn what_a_flight_reached_lives_until_it_is_over(rt: HostRuntime) -> Result<(), Fail> {
    let mut bench = Bench::new(rt.alloc());
    bench.add_array(rt.alloc(), DataType::Scalar, Origin::Shared(8), &[])?;
    bench.add_array(rt.alloc(), DataType::Scalar, Origin::Shared(9), &[])?;
    bench.add(rt.alloc(), Kind::FrameDefault)?;
    bench.stage.show(Handle(3), Shows::Flight(4));
    let first = Reach {
        ticket: 4,
        handles: vec![in rt.alloc(); Handle(3), Handle(1)]?,
    };
    let second = Reach {
        ticket: 5,
        handles: vec![in rt.alloc(); Handle(3), Handle(2)]?,
    };
    let reached = [first, second];
    bench.stage.discard(Handle(3)).map_err(|_| "out of memory")?;
    bench.stage.show(Handle(3), Shows::Flight(5));
    bench.sweep(rt.alloc(), &[0, 0, 0], &reached)?;
    assert!(rt; bench.lives(1) && bench.lives(2) && bench.lives(3));
    bench.stage.let_leave(4);
    bench.sweep(rt.alloc(), &[0, 0, 0], &reached)?;
    assert!(rt; !bench.lives(1) && bench.lives(2) && bench.lives(3));
    bench.stage.end_flights(5, Shows::Picture(5));
    bench.sweep(rt.alloc(), &[0, 0, 0], &reached)?;
    assert!(rt; !bench.lives(2) && !bench.lives(3));
    assert_eq!(rt; bench.listener.heard.len(), 2);
    assert!(rt; is_let_go(&bench.listener.heard[0], 1, 8));
    assert!(rt; is_let_go(&bench.listener.heard[1], 2, 9));
    Ok(())
}
