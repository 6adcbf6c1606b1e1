//! What is printed of a replay.
ghost use Rattle.std.specs.Prelude.{◌≡◌, IfOk};
ghost use Rattle.report_text.specs.Reports.{report};
ghost use Rattle.seq_model.specs.Legal.{Legal};
ghost use Rattle.seq_model.specs.Told.{told};

use crate::images::images_of;
use crate::journal::journal;
use crate::prints::Print;
use crate::summary::summary;
use dev_types::{NoMemory, Notice};
use seq_model::Journal;
use std::alloc::Global;

/// What is printed of a history that prepared so many worlds, and of which the client was told these notices: a binary
/// PPM image for each channel that was mapped, a line for each entry, or one line of counts.
///
/// # Errors
/// `NoMemory` where there was none for the text.
#[tactic(auto, unfolding(crate::specs::Reports::report))]
pub fn report(
    alloc: Global,
    print: Print,
    history: &Journal,
    notices: &[Notice],
    builds: u64,
) -> Result<Vec<u8>, NoMemory>
    requires legal { Legal history.now }
    requires heard { notices.now ≡ told history.now }
    ensures { IfOk result (λ bytes. bytes.items ≡ report print history.now builds) }
{
    match print {
        Print::Images => images_of(alloc, history),
        Print::Journal => journal(alloc, history),
        Print::Summary => summary(alloc, history, notices, builds),
    }
}
