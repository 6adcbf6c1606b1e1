//! Worked histories, computed: each is the contract of a function that does nothing.
ghost use Rattle.std.specs.Prelude.{◌≡◌, [], ◌∷◌, ◌++◌, map, true, false};
ghost use Rattle.dev_types.specs.declared.notices.Notice.TheVariants.{Deleted, Told};
ghost use Rattle.dev_types.specs.declared.refusals.Code.TheVariants.{InvalidArgument};
ghost use Rattle.dev_types.specs.declared.refusals.Severity.TheVariants.{Error};
ghost use Rattle.seq_model.specs.Builds.{builds};
ghost use Rattle.seq_model.specs.Contents.{entered};
ghost use Rattle.seq_model.specs.Examples.{asked_then, all_but_the_world, commit_during_a_flight, discarded, ended_after_release, half_back_then_all, last_holder, one_and_a_half, parameter_array_dies, released_in_flight, released_twice, render_while_mapped, set_is_not_commit, surface_bytes, surfaces_lent, three_made, triangle_bytes, triangle_history, triangle_made};
ghost use Rattle.seq_model.specs.Legal.{Legal};
ghost use Rattle.seq_model.specs.Refusals.{refusal};
ghost use Rattle.seq_model.specs.Room.{is_full};
ghost use Rattle.seq_model.specs.Steps.{after, zeros};
ghost use Rattle.seq_model.specs.Told.{told};

use crate::calls::Call;

/// The worked histories are legal, with the pictures that they show.
#[tactic(auto, using(crate::proofs::LegalRows::rows_are_legal))]
pub fn rows_are_legal()
    ensures { Legal triangle_history × Legal last_holder × Legal ended_after_release × Legal set_is_not_commit
        × Legal commit_during_a_flight × Legal render_while_mapped × Legal released_twice × Legal discarded
        × Legal parameter_array_dies }
{}

/// What comes back from a loan that is out is cleaned of elements that name what is not there. Bytes of another length are those of no loan that
/// is out: they are entered as they were handed in, and refused.
#[tactic(auto, using(crate::proofs::Rows::rows_come_back, crate::proofs::LegalRows::half_back_is_legal))]
pub fn rows_come_back()
    ensures short { entered (after surfaces_lent) (Call.UnmapArray 1 2 one_and_a_half) ≡ Call.UnmapArray 1 2 one_and_a_half }
    ensures whole { entered (after surfaces_lent) (Call.UnmapArray 1 2 (one_and_a_half ++ zeros 4)) ≡ Call.UnmapArray 1 2 (zeros 16) }
    ensures legal { Legal half_back_then_all }
{}

/// An array's end is told where its last holder goes: at the close, at the release of the world that held it last, at the end
/// of the flight that reached it. A managed array's end is not told, but the refusal after it is.
#[tactic(auto, using(crate::proofs::Rows::rows_tell))]
pub fn rows_tell()
    ensures { (told triangle_history ≡ Deleted 1 7 triangle_bytes ∷ Deleted 5 8 surface_bytes ∷ [])
        × (told all_but_the_world ≡ [])
        × (told last_holder ≡ Deleted 1 7 triangle_bytes ∷ Deleted 5 8 surface_bytes ∷ [])
        × (told released_in_flight ≡ [])
        × (told ended_after_release ≡ Deleted 1 7 triangle_bytes ∷ Deleted 5 8 surface_bytes ∷ [])
        × (told parameter_array_dies ≡ Told (record { severity = Error; code = InvalidArgument; source = 1; refusal = 2 }) ∷ []) }
{}

/// A world is prepared anew only where something of it was committed since its last render.
#[tactic(auto, using(crate::proofs::Rows::rows_build))]
pub fn rows_build()
    ensures { (builds triangle_history ≡ 1) × (builds set_is_not_commit ≡ 2) × (builds commit_during_a_flight ≡ 1) }
{}

/// A journal keeps a place for what each call will owe, and for the close.
#[tactic(auto, using(crate::proofs::Rows::rows_fill))]
pub fn rows_fill()
    ensures { (is_full 4 (after three_made) (Call.Retain 1) ≡ true)
        × (is_full 5 (after three_made) (Call.Retain 1) ≡ false)
        × (is_full 5 (after three_made) (Call.MapArray 1) ≡ true) }
{}

/// After the triangle was made these calls are refused as the table says, and the others are not.
#[tactic(auto, using(crate::proofs::Rows::rows_refuse))]
pub fn rows_refuse()
    ensures { map (λ row. refusal (after triangle_made) row.0) asked_then ≡ map (λ row. row.1) asked_then }
{}
