//! Whether objects are there, held, and of the type that a call wants.
ghost use Rattle.std.specs.Prelude.{◌≡◌, ◌++◌, ◌∷◌, []};
ghost use Rattle.dev_types.specs.declared.data_types.DataType.TheVariants as ty;
ghost use Rattle.seq_model.specs.Refusals.{array_mapped, dead, first_of, has_type, not_held, own, own_of_type, wrong_kind};

use crate::asked::{is_lent, kind_at};
use crate::standing::Standing;
use dev_types::{DataType, Handle, Refused};

/// The first of some refusals that applies.
pub fn first_of(refusals: &[Option<Refused>]) -> Option<Refused>
    ensures { result ≡ first_of refusals.now }
{
    for refusal in refusals {
        if let Some(refused) = refusal {
            return Some(refused.copied());
        }
    }
    None
}

/// `BadHandle` where no object has the handle.
pub fn dead<S: Standing>(device: &S, h: Handle) -> Option<Refused>
    ensures { result ≡ dead (S.past device.now) h }
{
    kind_at(device, h)
        .is_none()
        .then_some(Refused::BadHandle(h))
}

/// `NotHeld` where no public reference to the handle is left.
pub fn not_held<S: Standing>(device: &S, h: Handle) -> Option<Refused>
    ensures { result ≡ not_held (S.past device.now) h }
{
    (!device.is_held(h)).then_some(Refused::NotHeld(h))
}

/// Whether the handle is that of an object with this type.
pub fn has_type<S: Standing>(device: &S, h: Handle, ty: DataType) -> bool
    ensures { result ≡ has_type (S.past device.now) h ty }
{
    match kind_at(device, h) {
        Some(kind) => kind.data_type().number() == ty.number(),
        None => false,
    }
}

/// `WrongKind` where the object has another type.
pub fn wrong_kind<S: Standing>(device: &S, h: Handle, ty: DataType) -> Option<Refused>
    ensures { result ≡ wrong_kind (S.past device.now) h ty }
{
    (!has_type(device, h, ty)).then_some(Refused::WrongKind(h))
}

/// Why a call on an object is refused: it is not there, or not held.
pub fn own<S: Standing>(device: &S, h: Handle) -> Option<Refused>
    ensures { result ≡ first_of (own (S.past device.now) h) }
{
    first_of(&[dead(device, h), not_held(device, h)])
}

/// `ArrayMapped` where the array is mapped.
pub fn array_mapped<S: Standing>(device: &S, h: Handle) -> Option<Refused>
    ensures { result ≡ array_mapped (S.past device.now) h }
{
    is_lent(device, h).then_some(Refused::ArrayMapped(h))
}

/// Why an array is not mapped (ANARI 1.0 Specification, mapping arrays).
pub fn refusal_of_map_array<S: Standing>(device: &S, h: Handle) -> Option<Refused>
    ensures { result ≡ first_of (own_of_type (S.past device.now) h ty.Array1D ++ array_mapped
        (S.past device.now) h ∷ []) }
{
    first_of(&[
        dead(device, h),
        not_held(device, h),
        wrong_kind(device, h, DataType::Array1D),
        array_mapped(device, h),
    ])
}
