//! The summary of a replay.
ghost use Rattle.std.specs.Prelude.{◌≡◌, ◌<◌, IfOk, Some, count_by, length, slice_get};
ghost use Rattle.report_text.specs.Reports.{is_deletion, is_image, summary};
ghost use Rattle.seq_model.specs.Told.{told};

use dev_types::{NoMemory, Notice};
use seq_model::{Call, Entry, Journal, Reply};
use std::alloc::Global;

/// One line with how many entries, images, deleters and builds there were.
///
/// # Errors
/// `NoMemory` where there was none for the line.
pub(crate) fn summary(
    alloc: Global,
    history: &Journal,
    notices: &[Notice],
    builds: u64,
) -> Result<Vec<u8>, NoMemory>
    requires { notices.now ≡ told history.now }
    ensures { IfOk result (λ bytes. bytes.items ≡ summary history.now builds) }
{
    let entries = history.len();
    let images = count_images(history);
    let deleted = count_deletions(notices);
    let line = format!(in alloc;
        "entries={entries} images={images} deleted={deleted} builds={builds}\n"
    )?;
    Ok(line.into_bytes())
}

/// How many channels a history maps.
fn count_images(history: &Journal) -> u64
    ensures { result ≡ count_by is_image history.now }
{
    let mut count = 0;
    for i in 0..history.len() {
        count += u64::from(is_image(history.get(i)));
    }
    count
}

/// How many deleters ran.
fn count_deletions(notices: &[Notice]) -> u64
    ensures { result ≡ count_by is_deletion notices.now }
{
    let mut count = 0;
    for i in 0..notices.len() {
        count += u64::from(is_deletion(notice_at(notices, i)));
    }
    count
}

fn notice_at(notices: &[Notice], i: usize) -> &Notice
    requires { i < length notices.now }
    ensures { slice_get notices.now i ≡ Some result.now }
{
    &notices[i]
}

fn is_image(entry: &Entry) -> bool
    ensures { result ≡ is_image entry.now }
{
    matches!(
        entry,
        Entry::Called {
            call: Call::MapFrame { .. },
            reply: Reply::Mapped { .. },
            ..
        }
    )
}

fn is_deletion(notice: &Notice) -> bool
    ensures { result ≡ is_deletion notice.now }
{
    matches!(notice, Notice::Deleted { .. })
}
