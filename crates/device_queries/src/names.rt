//! Which subtypes, parameters and rows there are (ANARI 1.0 Specification, object introspection).
ghost use Rattle.std.specs.Prelude.{◌≡◌, ◌==◌, IfErr, IfOk, IsTrue, None, Some, length, map};
ghost use Rattle.std.specs.Bool.{then_some};
ghost use Rattle.std.specs.List.{list_all};
ghost use Rattle.std.specs.Option.{is_none, option_map};
ghost use Rattle.dev_types.specs.Bounded.{is_name};
ghost use Rattle.dev_types.specs.declared.refusals.Refused.TheVariants.{NoSuchName};
ghost use Rattle.kind_tables.specs.Kinds.{subtypes_of};
ghost use Rattle.kind_tables.specs.Rows.{parameters_of, row_of};
ghost use Rattle.seq_model.specs.Answers.{info_of};
ghost use Rattle.device_queries.specs.Refusing.{IsReason, IsWant};

use dev_types::{DataType, Name, Names, NoMemory, ParamInfo, Refused, TypeList};
use kind_tables::{Kind, Row, row_of};
use std::alloc::{AllocError, Global};

/// A list of names that stand in a table.
fn names_of(alloc: Global, texts: &[&str]) -> Result<Names, NoMemory>
    requires { IsTrue (list_all is_name (map (λ text. text.now) texts.now)) }
    ensures { IfOk result (λ names. names ≡ map (λ text. text.now) texts.now) }
{
    let mut names = Vec::new(alloc);
    for text in texts {
        names.push(Name::of(text)).map_err(AllocError::from)?;
    }
    Ok(Names::of(names))
}

/// `NoSuchName` where a type has no subtypes.
pub fn refusal_of_subtypes(ty: DataType) -> Option<Refused>
    ensures { result ≡ then_some (length (subtypes_of ty) == 0) NoSuchName }
{
    kind_tables::subtypes_of(ty)
        .is_empty()
        .then_some(Refused::NoSuchName)
}

/// The subtypes of a type, in the order of their table. The error is `NoSuchName` where it has
/// none, and `NoMemory` where there is none.
pub fn subtypes_of(alloc: Global, ty: DataType) -> Result<Names, Refused>
    ensures value { IfOk result (λ names. names ≡ subtypes_of ty) }
    ensures told { IfOk result (λ names. then_some (length (subtypes_of ty) == 0) NoSuchName ≡
        None) }
    ensures refused { IfErr result (IsReason (then_some (length (subtypes_of ty) == 0) NoSuchName)) }
{
    if let Some(refused) = refusal_of_subtypes(ty) {
        return Err(refused);
    }
    match names_of(alloc, kind_tables::subtypes_of(ty)) {
        Ok(names) => Ok(names),
        Err(_) => Err(Refused::NoMemory),
    }
}

/// The parameters of a kind, in the order of its table. The error is want of memory.
pub fn parameters_of(alloc: Global, kind: Kind) -> Result<Names, Refused>
    ensures value { IfOk result (λ names. names ≡ parameters_of kind) }
    ensures refused { IfErr result IsWant }
{
    match names_of(alloc, kind_tables::parameters_of(kind)) {
        Ok(names) => Ok(names),
        Err(_) => Err(Refused::NoMemory),
    }
}

/// What a row tells of its parameter: its one type, whether it is required, and what it is by
/// default.
fn info_of_row(alloc: Global, row: Row) -> Result<ParamInfo, NoMemory>
    ensures { IfOk result (λ info. info ≡ info_of row) }
{
    let mut types = Vec::new(alloc);
    types.push(row.ty).map_err(AllocError::from)?;
    Ok(ParamInfo {
        types: TypeList::of(types),
        required: row.required,
        default: row.default,
    })
}

/// `NoSuchName` where a kind has no parameter with this name.
pub fn refusal_of_info(kind: Kind, name: &Name) -> Option<Refused>
    ensures { result ≡ then_some (is_none (row_of kind name.now)) NoSuchName }
{
    row_of(kind, name).is_none().then_some(Refused::NoSuchName)
}

/// What is known of a kind's parameter. The error is `NoSuchName` where there is no such parameter,
/// and `NoMemory` where there is none.
pub fn info_of(alloc: Global, kind: Kind, name: &Name) -> Result<ParamInfo, Refused>
    ensures value { IfOk result (λ info. option_map info_of (row_of kind name.now) ≡ Some info) }
    ensures refused { IfErr result (IsReason (then_some (is_none (row_of kind name.now)) NoSuchName)) }
{
    let Some(row) = row_of(kind, name) else {
        return Err(Refused::NoSuchName);
    };
    match info_of_row(alloc, row) {
        Ok(info) => Ok(info),
        Err(_) => Err(Refused::NoMemory),
    }
}
