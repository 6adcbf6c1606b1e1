//! What is printed of a worked history, computed: the contract of a function that does nothing.
ghost use Rattle.std.specs.Prelude.{◌≡◌, [], ◌∷◌, codes};
ghost use Rattle.report_text.specs.Examples.{triangle_image};
ghost use Rattle.report_text.specs.Reports.{lines_from, report};
ghost use Rattle.seq_model.specs.Examples.{done, triangle_history};
ghost use Rattle.seq_model.specs.declared.calls.Call.TheVariants.{RenderFrame};
ghost use Rattle.seq_model.specs.declared.calls.Entry.TheVariants.{Finished};

use crate::prints::Print;

/// What is printed of the triangle: 59 bytes of image, or one line; and two lines of its journal.
#[tactic(auto, using(crate::proofs::Rows::triangle_reports))]
pub fn the_triangle_printed()
    ensures images { report Print.Images triangle_history 1 ≡ triangle_image }
    ensures summary { report Print.Summary triangle_history 1 ≡ codes "entries=33 images=1 deleted=2 builds=1\n" }
    ensures journal { lines_from 28 (done (RenderFrame 9) ∷ Finished 28 ∷ []) ≡ codes "28 0 render 9 -> done\n29 - finished 28 -> noted\n" }
{}
