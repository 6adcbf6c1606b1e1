//! What is written of frames and of a device's calls: binary PPM images, and the lines of a journal.
#![tactic(auto)]

mod calls;
mod entries;
mod hex;
mod images;
mod lines;
mod replies;
mod words;

pub use entries::{CallText, EntryText, ReplyText};
pub use images::{MappedBytes, write_ppm};
pub use lines::entry_line;
