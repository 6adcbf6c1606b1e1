//! The primitive at a place.
ghost use Rattle.std.specs.Prelude.{◌≡◌, ◌≤◌, length, true};
ghost use Rattle.picture_model.specs.Hits.{is_lower};
ghost use Rattle.picture_model.specs.Shading.{is_same_place, primitive_at};
ghost use Rattle.world_snapshot.specs.Rising.{AreLower, AreNotLower, AreRising};

use crate::surfaces::Row;
use fx_math::{Place, Primitive};

#[tactic(auto, unfolding(picture_model::specs::Hits::is_lower))]
fn is_lower(a: &Place, b: &Place) -> bool
    ensures { result ≡ is_lower a.now b.now }
{
    a.inst < b.inst
        || (a.inst == b.inst && (a.surf < b.surf || (a.surf == b.surf && a.prim < b.prim)))
}

#[tactic(auto, unfolding(picture_model::specs::Shading::is_same_place))]
fn is_same_place(a: &Place, b: &Place) -> bool
    ensures { result ≡ is_same_place a.now b.now }
{
    a.inst == b.inst && a.surf == b.surf && a.prim == b.prim
}

/// Each primitive has a lower place than those behind it.
pub(crate) fn are_rising(rows: &[Row]) -> bool
    ensures { result ≡ true → AreRising rows.now (length rows.now) }
{
    for i in 1..rows.len() {
        if !is_lower(&rows[i - 1].place(), &rows[i].place()) {
            return false;
        }
    }
    true
}

/// How many primitives have lower places, where the places rise.
fn rank(rows: &[Row], place: &Place) -> usize
    requires { AreRising rows.now (length rows.now) }
    ensures within { result ≤ length rows.now }
    ensures below { AreLower rows.now result place.now }
    ensures above { AreNotLower rows.now result place.now }
{
    let mut low = 0;
    let mut high = rows.len();
    while low < high {
        let middle = low + (high - low) / 2;
        if is_lower(&rows[middle].place(), place) {
            low = middle + 1;
        } else {
            high = middle;
        }
    }
    low
}

/// The primitive at a place, where the places rise.
pub(crate) fn primitive_by_rank(rows: &[Row], place: &Place) -> Option<Primitive>
    requires { AreRising rows.now (length rows.now) }
    ensures { result ≡ primitive_at rows.now place.now }
{
    let number = rank(rows, place);
    if number == rows.len() {
        return None;
    }
    let row = &rows[number];
    if is_same_place(&row.place(), place) {
        Some(row.primitive())
    } else {
        None
    }
}

/// The primitive at a place; of several the first.
pub(crate) fn first_primitive(rows: &[Row], place: &Place) -> Option<Primitive>
    ensures { result ≡ primitive_at rows.now place.now }
{
    for row in rows {
        if is_same_place(&row.place(), place) {
            return Some(row.primitive());
        }
    }
    None
}
