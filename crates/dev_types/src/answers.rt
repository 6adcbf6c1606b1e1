ghost use Rattle.std.specs.Prelude.{◌≡◌, ◌<◌, Some, IfOk, IsTrue, ◌↔◌, [], length, slice_get};

use crate::data_types::DataType;
use crate::handles::NoMemory;
use crate::texts::Name;
use crate::values::Value;
use std::alloc::Global;
use std::marker::Model;

/// A list of names, as the queries for subtypes and for an object's parameters answer (ANARI 1.0
/// Specification, object introspection).
#[derive(Drop)]
pub struct Names {
    items: Vec<Name>,
}

impl Model for Names {
    ghost use Rattle.std.specs.Prelude.{ℕ, List};

    ghost Value = { List (List ℕ) };

    ghost view = { λ n. n.items.items };
}

impl Names {
    pub fn of(items: Vec<Name>) -> Names
        ensures { result ≡ items.items }
    {
        Names { items }
    }

    pub fn into_vec(self) -> Vec<Name>
        ensures { result.items ≡ self }
    {
        self.items
    }

    /// The same names in a list of their own.
    pub fn copied(&self, _alloc: Global) -> Result<Names, NoMemory>
        ensures { IfOk result (λ names. names ≡ self.now) }
    {
        Ok(Names {
            items: self.items.clone()?,
        })
    }

    pub fn len(&self) -> u64
        ensures { result ≡ length self.now }
    {
        self.items.len() as u64
    }

    pub fn is_empty(&self) -> bool
        ensures { IsTrue result ↔ (self.now ≡ []) }
    {
        self.items.is_empty()
    }

    /// Name `i`, counted from 0.
    pub fn get(&self, i: u64) -> &Name
        requires { i < length self.now }
        ensures { slice_get self.now i ≡ Some result.now }
    {
        &self.items[i as usize]
    }
}

/// A list of data types, as the query for a parameter answers (ANARI 1.0 Specification, object
/// introspection).
#[derive(Drop)]
pub struct TypeList {
    items: Vec<DataType>,
}

impl Model for TypeList {
    ghost use Rattle.std.specs.Prelude.{List};
    ghost use Rattle.dev_types.specs.declared.data_types.DataType.{DataType};

    ghost Value = { List DataType };

    ghost view = { λ l. l.items.items };
}

impl TypeList {
    pub fn of(items: Vec<DataType>) -> TypeList
        ensures { result ≡ items.items }
    {
        TypeList { items }
    }

    pub fn into_vec(self) -> Vec<DataType>
        ensures { result.items ≡ self }
    {
        self.items
    }

    /// The same types in a list of their own.
    pub fn copied(&self, _alloc: Global) -> Result<TypeList, NoMemory>
        ensures { IfOk result (λ types. types ≡ self.now) }
    {
        Ok(TypeList {
            items: self.items.clone()?,
        })
    }

    pub fn len(&self) -> u64
        ensures { result ≡ length self.now }
    {
        self.items.len() as u64
    }

    pub fn is_empty(&self) -> bool
        ensures { IsTrue result ↔ (self.now ≡ []) }
    {
        self.items.is_empty()
    }

    /// Type `i`, counted from 0.
    pub fn get(&self, i: u64) -> &DataType
        requires { i < length self.now }
        ensures { slice_get self.now i ≡ Some result.now }
    {
        &self.items[i as usize]
    }
}

/// What a device tells of one parameter of a kind of object: the types of its values, whether it has to
/// be set, and the value that stands where it is not.
#[derive(Drop)]
pub struct ParamInfo {
    pub types: TypeList,
    pub required: bool,
    pub default: Option<Value>,
}

impl ParamInfo {
    /// The same answer once more.
    pub fn copied(&self, alloc: Global) -> Result<ParamInfo, NoMemory>
        ensures { IfOk result (λ info. info ≡ self.now) }
    {
        Ok(ParamInfo {
            types: self.types.copied(alloc)?,
            required: self.required,
            default: self.default.as_ref().map(|value| value.copied()),
        })
    }
}

/// Whether a frame has its picture.
#[derive(Clone, Copy, Debug, PartialEq, Eq)]
pub enum Ready {
    /// It has.
    Yes,
    /// It is in flight: `given` of its `of` tiles were seen finished.
    NotYet { given: u64, of: u64 },
}
