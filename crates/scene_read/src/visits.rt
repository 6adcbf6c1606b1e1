ghost use Rattle.std.specs.Prelude.{◌≡◌};

use dev_types::Handle;
use fx_math::{Mat34, NO_ID};
use std::marker::Model;

/// Where in a scene an object stands (ANARI 1.0 Specification, World, Group, Instance).
#[derive(Clone, Copy, Debug, PartialEq, Eq)]
pub struct Spot {
    /// 0 for the world's own surfaces and lights, i + 1 under element i of the world's instances.
    pub inst: u32,
    /// The index in its array of surfaces.
    pub surf: u32,
    /// The transform of the instance, or the identity.
    pub transform: Mat34,
    /// The `id` of the instance, or 0xFFFFFFFF where there is none.
    pub instance_id: u32,
}

impl Model for Spot {
    ghost use Rattle.kind_tables.specs.Walks.{Spot as WalkSpot};

    ghost Value = { WalkSpot };

    ghost view = { λ s. record { inst = s.inst; surf = s.surf; transform = s.transform; instance_id = s.instance_id } };

    ghost inverse = { λ s. record { inst = s.inst; surf = s.surf; transform = s.transform; instance_id = s.instance_id } };
}

impl Spot {
    /// Where a walk begins: under no instance.
    pub const ORIGIN: Spot = Spot {
        inst: 0,
        surf: 0,
        transform: Mat34::IDENTITY,
        instance_id: NO_ID,
    };
}

/// An object on a walk: where it stands, and its handle.
#[derive(Clone, Copy, Debug, PartialEq, Eq)]
pub struct Visit {
    pub spot: Spot,
    pub handle: Handle,
}

impl Model for Visit {
    ghost use Rattle.std.specs.Prelude.{ℕ};
    ghost use Rattle.kind_tables.specs.Walks.{Spot as WalkSpot};

    ghost Value = { WalkSpot × ℕ };

    ghost view = { λ v. (v.spot, v.handle) };

    ghost inverse = { λ v. record { spot = v.0; handle = v.1 } };
}

/// The visits of a walk, in its order.
#[derive(Debug, Drop)]
pub struct Visits {
    visits: Vec<Visit>,
}

impl Model for Visits {
    ghost use Rattle.std.specs.Prelude.{ℕ, List};
    ghost use Rattle.kind_tables.specs.Walks.{Spot as WalkSpot};

    ghost Value = { List (WalkSpot × ℕ) };

    ghost view = { λ v. v.visits.items };
}

impl Visits {
    /// The visits of a list, in its order.
    pub fn new(visits: Vec<Visit>) -> Visits
        ensures { result ≡ visits.items }
    {
        Visits { visits }
    }

    pub fn as_slice(&self) -> &[Visit]
        ensures { result.now ≡ self.now }
    {
        self.visits.as_slice()
    }

    /// The same visits, without the type.
    pub fn into_vec(self) -> Vec<Visit>
        ensures { result.items ≡ self }
    {
        self.visits
    }
}
