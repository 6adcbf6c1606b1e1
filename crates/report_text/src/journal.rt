//! The journal of a history.
ghost use Rattle.std.specs.Prelude.{◌≡◌, ◌++◌, IfOk, OnOk};
ghost use Rattle.ppm_out.specs.Lines.{line};
ghost use Rattle.report_text.specs.Reports.{entry_text, printed};

use crate::entries::entry_text;
use dev_types::NoMemory;
use ppm_out::entry_line;
use seq_model::{Entry, Journal};
use std::alloc::Global;

/// A line for each entry of a history, in its order.
///
/// # Errors
/// `NoMemory` where there was none for the lines.
#[tactic(auto, unfolding(crate::specs::Reports::printed))]
pub(crate) fn journal(alloc: Global, history: &Journal) -> Result<Vec<u8>, NoMemory>
    ensures { IfOk result (λ bytes. bytes.items ≡ printed history.now) }
{
    let mut bytes = Vec::new(alloc);
    'entries: for i in 0..history.len() {
        push_line(alloc, i + 1, history.get(i), &mut bytes)?;
    }
    Ok(bytes)
}

/// Writes the line of the entry at a place, counted from 1.
fn push_line(alloc: Global, place: u64, entry: &Entry, out: &mut Vec<u8>) -> Result<(), NoMemory>
    ensures { OnOk result (out.new.items ≡ out.old.items ++ line place (entry_text entry.now)) }
{
    let text = entry_text(alloc, entry)?;
    entry_line(alloc, place, &text, out)
}
