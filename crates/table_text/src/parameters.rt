//! The lines of parameters.
ghost use Rattle.std.specs.Prelude.{◌≡◌, ◌++◌, OnOk, IsTrue};
ghost use Rattle.std.specs.List.{flat_map};
ghost use Rattle.dev_types.specs.Bounded.{is_name};
ghost use Rattle.kind_tables.specs.Rows.{rows_of};
ghost use Rattle.table_text.specs.Tables.{line_named, need_text, parameter_line, type_text};

use crate::texts::{push_numbers, push_text};
use dev_types::{DataType, Name, NoMemory, Value};
use kind_tables::{Kind, Row, parameters_of, row_of};
use std::alloc::Global;

/// The type of a parameter's values, of arrays with that of their elements.
fn push_type(ty: DataType, elem: Option<DataType>, out: &mut Vec<u8>) -> Result<(), NoMemory>
    ensures { OnOk result (out.new.items ≡ out.old.items ++ type_text ty elem) }
{
    push_text(ty.name(), out)?;
    let Some(elem) = elem else {
        return Ok(());
    };
    push_text("(", out)?;
    push_text(elem.name(), out)?;
    push_text(")", out)
}

/// Whether a parameter has to be set, and else what stands where it is not.
fn push_need(
    alloc: Global,
    required: bool,
    default: &Option<Value>,
    out: &mut Vec<u8>,
) -> Result<(), NoMemory>
    ensures { OnOk result (out.new.items ≡ out.old.items ++ need_text required default.now) }
{
    if required {
        return push_text("required", out);
    }
    let Some(value) = default else {
        return push_text("optional", out);
    };
    push_text("default", out)?;
    push_numbers(alloc, value, out)
}

/// The line of a parameter with this row.
fn push_row(alloc: Global, name: &str, row: &Row, out: &mut Vec<u8>) -> Result<(), NoMemory>
    ensures { OnOk result (out.new.items ≡ out.old.items ++ parameter_line (name.now, row.now)) }
{
    push_text("  ", out)?;
    push_text(name, out)?;
    push_text(" ", out)?;
    push_type(row.ty, row.elem, out)?;
    push_text(" ", out)?;
    push_need(alloc, row.required, &row.default, out)?;
    push_text("\n", out)
}

/// The line of a kind's parameter, where it has one of this name.
fn push_parameter(alloc: Global, kind: Kind, name: &str, out: &mut Vec<u8>) -> Result<(), NoMemory>
    requires { IsTrue (is_name name.now) }
    ensures { OnOk result (out.new.items ≡ out.old.items ++ line_named kind name.now) }
{
    let Some(known) = Name::new(name) else {
        return Ok(());
    };
    let Some(row) = row_of(kind, &known) else {
        return Ok(());
    };
    push_row(alloc, name, &row, out)
}

/// The lines of a kind's parameters, in the table's order.
pub(crate) fn push_parameters(alloc: Global, kind: Kind, out: &mut Vec<u8>) -> Result<(), NoMemory>
    ensures { OnOk result (out.new.items ≡ out.old.items ++ flat_map parameter_line (rows_of kind)) }
{
    let names = parameters_of(kind);
    for i in 0..names.len() {
        push_parameter(alloc, kind, names[i], out)?;
    }
    Ok(())
}
