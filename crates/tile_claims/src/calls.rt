//! The calls of claims.
ghost use Rattle.std.specs.Prelude.{◌≡◌, ℕ, ◌^◌, ◌<◌, ◌≤◌, Some, None, true, false, min, length, IfSome, IfNone, IfOk};
ghost use Rattle.std.specs.Borrow.{sem, Array as Row, Lends, u8 as byte};
ghost use Rattle.picture_model.specs.Limits.{IsSide};
ghost use Rattle.tile_claims.specs.Parts.{tiles_of, IsFilled};
ghost use Rattle.tile_claims.specs.Pixels.{row};
ghost use Rattle.tile_claims.specs.Rule.{HasSeenAll};
ghost use Rattle.dev_types.specs.Counting.{times};
ghost use Rattle.tile_claims.specs.Views.{new_view, claimed, claiming, too_late, giving, looking_at_claims, looking_at_gives, stopping, splitting, beside, collecting, IsAlone};
ghost use Rattle.tile_claims.specs.Seats.{frame_of, key_of, view, tile_of, pixels_of, IsSeatOf, IsSameSeat, IsClaimOf, IsOpenAt, IsReady, with_row};
ghost use Rattle.tile_claims.specs.contracts.seats.Claim.{the_row};

use crate::frame::{Frame, blank_slots};
use crate::key::Key;
use crate::pixels::TilePixels;
use crate::seats::{Claim, Claims, Seat};
use atomic_table::Table;
use dev_types::NoMemory;
use picture_model::tile_count;
use std::alloc::Global;
use std::marker::Brand;
use std::snapshot::Snapshot;
use std::sync::Arc;

impl Claim {
    /// The number of its tile.
    pub fn tile(&self) -> u32
        ensures { result ≡ tile_of self.now }
    {
        self.tile
    }

    /// Row `y` of the tile in a channel, from 0 for the lowest, to be written: 4 bytes a pixel. What is
    /// written stands in the claim afterwards. Channels are numbered from 0, in the order of `Channel`.
    pub fn row_mut(&mut self, channel: u32, y: u32) -> &mut [u8]
        requires channel { channel < 4 }
        requires row { y < (pixels_of self.old).h }
        ensures* writes_back { sem 𝓛 (Lends the_row (Row byte 0) self.entry result (with_row self.old channel y)) }
        ensures value { result.now ≡ row (pixels_of self.old) channel y }
    {
        self.pixels.row_mut(channel, y)
    }
}

impl Claims {
    /// The claims of a key, with the first seat, which knows nothing yet. Both sides are 1 to 4096. The
    /// buffers of all tiles are made here: 16 bytes a pixel.
    ///
    /// # Errors
    ///
    /// Want of memory alone.
    pub fn new(alloc: Global, key: Key) -> Result<(Claims, Seat), NoMemory>
        requires width { IsSide key.w }
        requires height { IsSide key.h }
        ensures key { IfOk result (λ t. key_of t.0 ≡ key) }
        ensures seat { IfOk result (λ t. IsSeatOf t.0 t.1) }
        ensures view { IfOk result (λ t. view t.1 ≡ new_view true key) }
    {
        let slots = blank_slots(alloc, &key)?;
        let Ok((table, seat)) = Table::new(alloc, &[0, 0], slots, &key) else {
            return Err(NoMemory);
        };
        let tiles = tile_count(key.w, key.h);
        let Ok(frame) = Arc::new(
            alloc,
            Frame {
                table,
                w: key.w,
                h: key.h,
                tiles,
            },
        ) else {
            return Err(NoMemory);
        };
        Ok((Claims { frame }, Seat { seat }))
    }

    /// One more handle to the same tiles and counts, for another thread.
    ///
    /// # Errors
    ///
    /// Want of memory alone.
    pub fn share(&self, _alloc: Global) -> Result<Claims, NoMemory>
        ensures { IfOk result (λ claims. frame_of claims ≡ frame_of self.now) }
    {
        Ok(Claims {
            frame: Arc::try_clone(&self.frame)?,
        })
    }

    /// The width and the height of the picture, in pixels.
    pub fn sides(&self) -> (u32, u32)
        ensures { result ≡ ((key_of self.now).w, (key_of self.now).h) }
    {
        (self.frame.w, self.frame.h)
    }

    /// Another seat, for another thread: one that knows nothing yet.
    pub fn split(&self, seat: &mut Seat) -> Seat
        requires seat { IsSeatOf self.now seat.old }
        requires first { (view seat.old).first ≡ true }
        requires few { (view seat.old).splits < 2 ^ 20 }
        ensures seat { IsSeatOf self.now seat.new × IsSameSeat seat.old seat.new }
        ensures view { view seat.new ≡ splitting (view seat.old) }
        ensures other { IsSeatOf self.now result × (view result ≡ beside (view seat.old)) }
    {
        let other = self.frame.spread(&mut seat.seat);
        Seat { seat: other }
    }

    /// Claims the next tile that nobody has claimed. None exactly where the count of claims was the
    /// number of tiles or more, as when all are claimed or the claims were stopped: that is what the
    /// seat then knows.
    ///
    /// It is one atomic addition, and the handle of the tile's pixels is moved. A seat that is alone
    /// claims the tiles in their order.
    pub fn claim(&self, seat: &mut Seat) -> Option<Claim>
        requires seat { IsSeatOf self.now seat.old }
        requires idle { (view seat.old).opened ≡ None }
        requires in_time { (view seat.old).late ≡ false }
        ensures seat { IsSeatOf self.now seat.new × IsSameSeat seat.old seat.new }
        ensures some { IfSome result (λ c. view seat.new ≡ claiming (view seat.old) (tile_of c)) }
        ensures claim { IfSome result (λ c. IsClaimOf self.now c × IsOpenAt seat.new c) }
        ensures going { IfSome result (λ c. (view seat.old).stop ≡ None) }
        ensures none { IfNone result (view seat.new ≡ too_late (view seat.old)) }
        ensures some_alone { IfSome result (λ c. IsAlone (view seat.old) → (view seat.old).stop ≡ None
            → tile_of c ≡ claimed (view seat.old)) }
        ensures none_alone { IfNone result (IsAlone (view seat.old) → (view seat.old).stop ≡ None
            → tiles_of (key_of self.now) ≡ claimed (view seat.old)) }
    {
        let (tile, pixels) = self.frame.take_next(&mut seat.seat)?;
        let of = Snapshot::of(&seat.seat);
        Some(Claim { pixels, tile, of })
    }

    /// Gives a claimed tile, which is filled: one atomic addition, and the handle of its pixels is moved.
    pub fn give(&self, seat: &mut Seat, claim: Claim)
        requires seat { IsSeatOf self.now seat.old }
        requires open { IsOpenAt seat.old claim }
        requires filled { IsReady self.now claim }
        ensures seat { IsSeatOf self.now seat.new × IsSameSeat seat.old seat.new }
        ensures view { view seat.new ≡ giving (view seat.old) (tile_of claim) }
    {
        let Claim {
            pixels,
            tile,
            of: _,
        } = claim;
        self.frame.put_back(&mut seat.seat, tile, pixels);
    }

    /// How many tiles are given; the count never falls. Where it is the number of tiles, all pixels are
    /// there. Where it is that, or what [`Claims::stop`] answered, no tile is open at any seat.
    pub fn given(&self, seat: &mut Seat) -> u64
        requires seat { IsSeatOf self.now seat.old }
        ensures seat { IsSeatOf self.now seat.new × IsSameSeat seat.old seat.new }
        ensures view { view seat.new ≡ looking_at_gives (view seat.old) result }
        ensures rises { (view seat.old).gives.last ≤ result }
        ensures within { result ≤ tiles_of (key_of self.now) }
        ensures stopped { (m : ℕ) → (view seat.old).stop ≡ Some m → result ≤ m }
        ensures alone { IsAlone (view seat.old) → result ≡ length (view seat.old).given }
    {
        self.frame.look_at_gives(&mut seat.seat)
    }

    /// How many tiles are claimed: the lesser of the number of tiles and of what the count of claims was.
    pub fn claimed(&self, seat: &mut Seat) -> u64
        requires seat { IsSeatOf self.now seat.old }
        ensures seat { IsSeatOf self.now seat.new × IsSameSeat seat.old seat.new }
        ensures value { result ≡ min (view seat.new).claims.last (tiles_of (key_of self.now)) }
        ensures view { view seat.new ≡ looking_at_claims (view seat.old) (view seat.new).claims.last }
        ensures rises { (view seat.old).claims.last ≤ (view seat.new).claims.last }
        ensures alone { IsAlone (view seat.old) → (view seat.old).stop ≡ None → result ≡ claimed (view seat.old) }
    {
        let read = self.frame.look_at_claims(&mut seat.seat);
        read.min(self.frame.tiles as u64)
    }

    /// Stops the claims: from now on each is None. Answers how many tiles were claimed, at most all; once
    /// as many are given, no tile is open at any seat.
    pub fn stop(&self, seat: &mut Seat) -> u64
        requires seat { IsSeatOf self.now seat.old }
        requires first { (view seat.old).first ≡ true }
        requires going { (view seat.old).stop ≡ None }
        ensures seat { IsSeatOf self.now seat.new × IsSameSeat seat.old seat.new }
        ensures view { view seat.new ≡ stopping (view seat.old) result }
        ensures within { result ≤ tiles_of (key_of self.now) }
        ensures claims { min (view seat.old).claims.last (tiles_of (key_of self.now)) ≤ result }
        ensures gives { (view seat.old).gives.last ≤ result }
        ensures alone { IsAlone (view seat.old) → result ≡ claimed (view seat.old) }
    {
        let read = self.frame.pass_all(&mut seat.seat);
        read.min(self.frame.tiles as u64)
    }

    /// The pixels of a tile, each once, for the first seat when it has seen that all tiles are given.
    pub fn collect(&self, seat: &mut Seat, tile: u32) -> TilePixels
        requires seat { IsSeatOf self.now seat.old }
        requires first { (view seat.old).first ≡ true }
        requires seen { HasSeenAll (view seat.old) }
        requires within { tile < tiles_of (key_of self.now) }
        requires there { times tile (view seat.old).collected ≡ 0 }
        ensures seat { IsSeatOf self.now seat.new × IsSameSeat seat.old seat.new }
        ensures view { view seat.new ≡ collecting (view seat.old) tile }
        ensures filled { IsFilled (key_of self.now) tile result }
    {
        self.frame.take_out::<Brand>(&mut seat.seat, tile)
    }
}
