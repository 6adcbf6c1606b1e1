//! The lines of kinds.
ghost use Rattle.std.specs.Prelude.{◌≡◌, ◌++◌, ◌<◌, IfOk, OnOk, IsTrue, Some, length, slice_get};
ghost use Rattle.dev_types.specs.Bounded.{is_name};
ghost use Rattle.dev_types.specs.DataTypes.{types_in_order};
ghost use Rattle.table_text.specs.Tables.{description, kind_named, kind_text, type_kinds_text};

use crate::parameters::push_parameters;
use crate::texts::push_text;
use dev_types::{DataType, Name, NoMemory};
use kind_tables::{Kind, kind_of, subtypes_of};
use std::alloc::Global;

/// The tables of kinds and parameters as a text (ANARI 1.0 Specification, object introspection): a line
/// for each kind, which is its type's word and its subtype, by rising text; below it a line for each of
/// its parameters in the table's order, which is two spaces, the name, the type of its values, and
/// `required`, `optional` or `default` with the numbers of the default value, in units of 1/65536.
///
/// # Errors
/// `NoMemory` where there was none for the text.
pub fn describe(alloc: Global) -> Result<Vec<u8>, NoMemory>
    ensures { IfOk result (λ bytes. bytes.items ≡ description) }
{
    let mut out = Vec::new(alloc);
    for i in 0..DataType::ALL.len() {
        push_type(alloc, type_at(i), &mut out)?;
    }
    Ok(out)
}

/// The type at an index of all types.
fn type_at(i: usize) -> DataType
    requires { i < length types_in_order }
    ensures { slice_get types_in_order i ≡ Some result }
{
    DataType::ALL[i]
}

/// The kinds of a type, by rising text.
fn push_type(alloc: Global, ty: DataType, out: &mut Vec<u8>) -> Result<(), NoMemory>
    ensures { OnOk result (out.new.items ≡ out.old.items ++ type_kinds_text ty) }
{
    let subtypes = subtypes_of(ty);
    for i in 0..subtypes.len() {
        push_subtype(alloc, ty, subtypes[i], out)?;
    }
    Ok(())
}

/// The kind with this type and subtype, where there is one.
fn push_subtype(
    alloc: Global,
    ty: DataType,
    subtype: &str,
    out: &mut Vec<u8>,
) -> Result<(), NoMemory>
    requires { IsTrue (is_name subtype.now) }
    ensures { OnOk result (out.new.items ≡ out.old.items ++ kind_named ty subtype.now) }
{
    let Some(name) = Name::new(subtype) else {
        return Ok(());
    };
    let Some(kind) = kind_of(ty, &name) else {
        return Ok(());
    };
    push_kind(alloc, ty, subtype, kind, out)
}

/// The line of a kind, and the lines of its parameters.
fn push_kind(
    alloc: Global,
    ty: DataType,
    subtype: &str,
    kind: Kind,
    out: &mut Vec<u8>,
) -> Result<(), NoMemory>
    ensures { OnOk result (out.new.items ≡ out.old.items ++ kind_text ty (subtype.now, kind)) }
{
    push_text(ty.word(), out)?;
    push_text(" ", out)?;
    push_text(subtype, out)?;
    push_text("\n", out)?;
    push_parameters(alloc, kind, out)
}
