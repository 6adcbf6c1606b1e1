// A small store of objects for tests: what was committed, array by array and object by object.
ghost use Rattle.std.specs.Prelude.{◌≤◌, ◌^◌, length};
ghost use Rattle.dev_types.specs.Blocks.{FitsBlock};

use byte_view::{Strided, fits_block};
use dev_types::{Bytes, DataType, Handle, Name, Value, encode_value, size_of};
use kind_tables::Kind;
use scene_read::Objects;
use std::alloc::Global;
use std::collections::BTreeMap;
use std::marker::Model;
use std::test::Fail;

/// The elements of an array.
#[derive(Drop)]
pub struct Block {
    elem: DataType,
    count: u64,
    stride: u64,
    bytes: Bytes,
    ghost fits: { FitsBlock elem stride count (length bytes) },
    ghost counted: { count ≤ 2 ^ 28 },
}

/// An object: its kind, what was committed, its elements, and whether it is mapped.
#[derive(Drop)]
pub struct Object {
    kind: Kind,
    committed: BTreeMap<Name, Value>,
    block: Option<Block>,
    pub mapped: bool,
}

impl Model for Object {
    ghost use Rattle.std.specs.Option.{option_map};
    ghost use Rattle.kind_tables.specs.SceneObjects.{SceneObject};

    ghost Value = { SceneObject };

    ghost view = { λ o. record {
      kind = o.kind;
      committed = o.committed.entries;
      block = option_map (λ b. record { elem = b.elem; count = b.count; stride = b.stride; bytes = b.bytes }) o.block;
      mapped = o.mapped;
    } };
}

impl Object {
    /// Commits a value for a parameter.
    pub fn set(&mut self, text: &str, value: Value) -> Result<(), Fail> {
        let name = Name::new(text).ok_or("a name")?;
        self.committed.insert(name, value)?;
        Ok(())
    }
}

/// An object that was given nothing.
pub fn bare(alloc: Global, kind: Kind) -> Object {
    Object {
        kind,
        committed: BTreeMap::new(alloc),
        block: None,
        mapped: false,
    }
}

/// A dense array of these values.
pub fn array(alloc: Global, elem: DataType, values: &[Value]) -> Result<Object, Fail> {
    spaced(alloc, elem, u64::from(size_of(elem)), values)
}

/// An array of these values, each so many bytes behind the one before, with bytes between them that mean nothing.
pub fn spaced(
    alloc: Global,
    elem: DataType,
    stride: u64,
    values: &[Value],
) -> Result<Object, Fail> {
    let mut bytes = Vec::new(alloc);
    for value in values {
        bytes.extend_from_slice(&encode_value(alloc, value)?)?;
        for _between in u64::from(size_of(elem))..stride {
            bytes.push(0xee)?;
        }
    }
    let count = values.len() as u64;
    if count > 1 << 28 || !fits_block(elem, stride, count, bytes.len()) {
        return Err("an array that fits")?;
    }
    let bytes = Bytes::of(alloc, bytes).map_err(|_| "a block")?;
    Ok(Object {
        kind: Kind::Array(elem),
        committed: BTreeMap::new(alloc),
        block: Some(Block {
            elem,
            count,
            stride,
            bytes,
        }),
        mapped: false,
    })
}

/// The objects by their handles.
#[derive(Drop)]
pub struct Store {
    objects: BTreeMap<u64, Object>,
}

impl Store {
    /// No objects.
    pub fn new(alloc: Global) -> Store {
        Store {
            objects: BTreeMap::new(alloc),
        }
    }

    /// Adds an object under a handle.
    pub fn add(&mut self, h: u64, object: Object) -> Result<(), Fail> {
        self.objects.insert(h, object)?;
        Ok(())
    }
}

impl Objects for Store {
    ghost objects = { λ s. s.objects.entries };

    fn kind(&self, h: Handle) -> Option<Kind> {
        let object = self.objects.get(&h.0)?;
        Some(object.kind)
    }

    fn committed(&self, h: Handle, name: &Name) -> Option<&Value> {
        let object = self.objects.get(&h.0)?;
        object.committed.get(name)
    }

    fn content(&self, h: Handle) -> Option<Strided<'_>> {
        let object = self.objects.get(&h.0)?;
        let Some(block) = &object.block else {
            return None;
        };
        Some(Strided::over(
            block.bytes.as_slice(),
            block.elem,
            block.stride,
            block.count,
        ))
    }

    fn block(&self, h: Handle) -> Option<&Bytes> {
        let object = self.objects.get(&h.0)?;
        let Some(block) = &object.block else {
            return None;
        };
        Some(&block.bytes)
    }

    fn mapped(&self, h: Handle) -> bool {
        match self.objects.get(&h.0) {
            Some(object) => object.mapped,
            None => false,
        }
    }
}

/// A value that names an object.
pub fn named(ty: DataType, h: u64) -> Value {
    Value::Object(ty, Handle(h))
}

/// Puts an array of positions under handle 1.
pub fn set_positions(alloc: Global, store: &mut Store, positions: &[[i32; 3]]) -> Result<(), Fail> {
    let mut values = Vec::new(alloc);
    for position in positions {
        values.push(Value::ScalarVec3(*position))?;
    }
    store.add(1, array(alloc, DataType::ScalarVec3, &values)?)
}
