//! What the layers above may rely on: each law is the contract of a function that does nothing.
ghost use Rattle.std.specs.Prelude.{◌≡◌, ◌+◌, ◌<◌, ◌⊎◌, ℕ};
ghost use mathlib.Core.Option.{some};
ghost use lib.ListN.{get_elem?};
ghost use Rattle.tile_claims.specs.declared.key.Key.{Key as TheKey};
ghost use Rattle.tile_claims.specs.declared.view.View.{View as TheView};
ghost use Rattle.tile_claims.specs.Parts.{tiles_of, row_shown, IsSized, IsFilled};
ghost use Rattle.tile_claims.specs.Pixels.{Pixels, IsWhole, row};
ghost use Rattle.tile_claims.specs.Rule.{ClaimTable, Kept, HasSeenAll, HasSeenStopped, NoneIsOpen, AreClaimedOnce, IsShown};

/// Each tile is claimed at most once: wherever the rule of a table of claims holds, no tile is open or
/// given at two seats, or twice at one.
pub fn tiles_are_claimed_once()
    ensures { (key : TheKey) (s : ClaimTable) → Kept key s → AreClaimedOnce s.views }
{}

/// Where the first seat has seen all tiles given, or as many as were claimed when it stopped the claims,
/// no tile is open at any seat.
pub fn no_tile_is_open()
    ensures { (key : TheKey) (s : ClaimTable) → Kept key s
        → (v : TheView) → get_elem? s.views 0 ≡ some v → HasSeenAll v ⊎ HasSeenStopped v → NoneIsOpen s.views }
{}

/// Where any seat has seen all tiles given, each tile is filled with its parts of the key's pictures, in
/// its slot until the first seat collects it.
pub fn full_counts_show_all()
    ensures { (key : TheKey) (s : ClaimTable) → Kept key s
        → (seat : ℕ) (v : TheView) → get_elem? s.views seat ≡ some v → HasSeenAll v
        → (tile : ℕ) → tile < tiles_of key → IsShown key tile s }
{}

/// A tile is filled where each of its rows is the picture's.
pub fn rows_fill_a_tile()
    ensures { (key : TheKey) (tile : ℕ) (p : Pixels) → IsSized key tile p → IsWhole p.w p.h p.bytes
        → ((channel y : ℕ) → channel < 4 → y < p.h → row p channel y ≡ row_shown key tile channel y)
        → IsFilled key tile p }
{}

/// Each row of a filled tile is the picture's.
pub fn rows_of_a_filled_tile()
    ensures { (key : TheKey) (tile : ℕ) (p : Pixels) → IsFilled key tile p
        → (channel y : ℕ) → channel < 4 → y < p.h → row p channel y ≡ row_shown key tile channel y }
{}
