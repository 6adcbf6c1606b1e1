//! The claims of a flight, with their first seat.
ghost use Rattle.std.specs.Prelude.{◌≡◌, ◌^◌, ◌≤◌, ◌<◌, ℕ, Some, None, true, false, min, length, IfOk, OnErr};
ghost use Rattle.tile_claims.specs.Parts.{tiles_of};
ghost use Rattle.tile_claims.specs.Seats.{frame_of, key_of, view, IsSeatOf};
ghost use Rattle.tile_claims.specs.Views.{claimed, beside, looking_at_gives, looking_at_claims, stopping, splitting, IsAlone};
ghost use Rattle.frame_future.specs.Held.{held_in, is_here, Moves};

use dev_types::NoMemory;
use std::alloc::Global;
use std::mem;
use std::snapshot::Snapshot;
use tile_claims::{Claims, Seat};

/// Claims with their first seat.
#[derive(Drop)]
pub struct Held {
    pub claims: Claims,
    pub seat: Seat,
}

/// Where they are.
#[derive(Drop)]
pub enum Place {
    Here(Held),
    /// Lent, as they were.
    Lent(Snapshot<Held>),
}

impl Place {
    /// How many tiles are given.
    pub(crate) fn given(&mut self) -> u64
        requires here { is_here self.old ≡ true }
        requires seat { IsSeatOf (held_in self.old).claims (held_in self.old).seat }
        ensures moves { Moves self.old self.new (looking_at_gives (view (held_in self.old).seat) result) }
        ensures rises { (view (held_in self.old).seat).gives.last ≤ result }
        ensures within { result ≤ tiles_of (key_of (held_in self.old).claims) }
        ensures stopped { (m : ℕ) → (view (held_in self.old).seat).stop ≡ Some m → result ≤ m }
        ensures alone { IsAlone (view (held_in self.old).seat) → result ≡ length (view (held_in self.old).seat).given }
    {
        match self {
            Place::Here(held) => held.claims.given(&mut held.seat),
            Place::Lent(_) => unreachable!(),
        }
    }

    /// How many tiles are claimed.
    pub(crate) fn claimed(&mut self) -> u64
        requires here { is_here self.old ≡ true }
        requires seat { IsSeatOf (held_in self.old).claims (held_in self.old).seat }
        ensures moves { Moves self.old self.new (looking_at_claims (view (held_in self.old).seat) (view (held_in self.new).seat).claims.last) }
        ensures value { result ≡ min (view (held_in self.new).seat).claims.last (tiles_of (key_of (held_in self.old).claims)) }
        ensures rises { (view (held_in self.old).seat).claims.last ≤ (view (held_in self.new).seat).claims.last }
        ensures alone { IsAlone (view (held_in self.old).seat) → (view (held_in self.old).seat).stop ≡ None
            → result ≡ claimed (view (held_in self.old).seat) }
    {
        match self {
            Place::Here(held) => held.claims.claimed(&mut held.seat),
            Place::Lent(_) => unreachable!(),
        }
    }

    /// Stops the claims. Answers how many tiles were claimed.
    pub(crate) fn stop(&mut self) -> u64
        requires here { is_here self.old ≡ true }
        requires seat { IsSeatOf (held_in self.old).claims (held_in self.old).seat }
        requires first { (view (held_in self.old).seat).first ≡ true }
        requires going { (view (held_in self.old).seat).stop ≡ None }
        ensures moves { Moves self.old self.new (stopping (view (held_in self.old).seat) result) }
        ensures within { result ≤ tiles_of (key_of (held_in self.old).claims) }
        ensures seen { min (view (held_in self.old).seat).claims.last (tiles_of (key_of (held_in self.old).claims)) ≤ result }
        ensures gives { (view (held_in self.old).seat).gives.last ≤ result }
        ensures alone { IsAlone (view (held_in self.old).seat) → result ≡ claimed (view (held_in self.old).seat) }
    {
        match self {
            Place::Here(held) => held.claims.stop(&mut held.seat),
            Place::Lent(_) => unreachable!(),
        }
    }

    /// A handle to the claims, and another seat of them.
    pub(crate) fn hand_out(&mut self, alloc: Global) -> Result<(Claims, Seat), NoMemory>
        requires here { is_here self.old ≡ true }
        requires seat { IsSeatOf (held_in self.old).claims (held_in self.old).seat }
        requires first { (view (held_in self.old).seat).first ≡ true }
        requires few { (view (held_in self.old).seat).splits < 2 ^ 20 }
        ensures moves { IfOk result (λ t. Moves self.old self.new (splitting (view (held_in self.old).seat))) }
        ensures claims { IfOk result (λ t. frame_of t.0 ≡ frame_of (held_in self.old).claims) }
        ensures other { IfOk result (λ t. IsSeatOf t.0 t.1 × (view t.1 ≡ beside (view (held_in self.old).seat))) }
        ensures refused { OnErr result (self.new ≡ self.old) }
    {
        match self {
            Place::Here(held) => {
                let claims = held.claims.share(alloc)?;
                Ok((claims, held.claims.split(&mut held.seat)))
            }
            Place::Lent(_) => unreachable!(),
        }
    }

    /// Takes the claims with their seat.
    pub(crate) fn lend(&mut self) -> Held
        requires { is_here self.old ≡ true }
        ensures held { result ≡ held_in self.old }
        ensures same { held_in self.new ≡ held_in self.old }
        ensures lent { is_here self.new ≡ false }
    {
        let lent = match self {
            Place::Here(held) => Place::Lent(Snapshot::of(held)),
            Place::Lent(_) => unreachable!(),
        };
        mem::replace(self, lent).into_held()
    }

    /// The claims with their seat.
    pub(crate) fn into_held(self) -> Held
        requires { is_here self ≡ true }
        ensures { result ≡ held_in self }
    {
        match self {
            Place::Here(held) => held,
            Place::Lent(_) => unreachable!(),
        }
    }
}
