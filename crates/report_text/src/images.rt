//! The images of a history.
ghost use Rattle.std.specs.Prelude.{◌≡◌, ◌++◌, IfOk, OnOk, IsTrue, ◌↔◌};
ghost use Rattle.std.specs.List.{flat_map};
ghost use Rattle.kind_tables.specs.Kinds.{is_same_type};
ghost use Rattle.report_text.specs.Reports.{image_of};
ghost use Rattle.seq_model.specs.Legal.{Legal};
ghost use Rattle.report_text.specs.Images.{HasWholeRows};

use dev_types::{DataType, NoMemory};
use ppm_out::{MappedBytes, write_ppm};
use seq_model::{Call, Entry, Journal, Reply};
use std::alloc::Global;

/// The image of each channel that a history maps, in the history's order.
///
/// # Errors
/// `NoMemory` where there was none for the images.
pub(crate) fn images_of(alloc: Global, history: &Journal) -> Result<Vec<u8>, NoMemory>
    requires { Legal history.now }
    ensures { IfOk result (λ bytes. bytes.items ≡ flat_map image_of history.now) }
{
    let mut bytes = Vec::new(alloc);
    'entries: for i in 0..history.len() {
        push_image(alloc, history.get(i), &mut bytes)?;
    }
    Ok(bytes)
}

/// Writes the image of the channel that an entry maps, if it does.
fn push_image(alloc: Global, entry: &Entry, out: &mut Vec<u8>) -> Result<(), NoMemory>
    requires { HasWholeRows entry.now }
    ensures { OnOk result (out.new.items ≡ out.old.items ++ image_of entry.now) }
{
    let Entry::Called {
        call: Call::MapFrame { .. },
        reply: Reply::Mapped {
            width,
            height,
            ty,
            rows,
        },
        ..
    } = entry
    else {
        return Ok(());
    };
    let frame = MappedBytes {
        w: *width,
        h: *height,
        color: ty.number() == DataType::Ufixed8Vec4.number(),
        rows: rows.share(alloc)?,
    };
    write_ppm(alloc, &frame, out)
}
