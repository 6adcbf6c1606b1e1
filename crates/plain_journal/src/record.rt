//! What happened on a device, and where it stands.
ghost use Rattle.std.specs.Prelude.{◌≡◌, ◌==◌, not, option_copied};
ghost use Rattle.plain_objects.specs.Counts.{count_at};
ghost use Rattle.plain_journal.specs.Kept.{KnowsRenders};
ghost use Rattle.seq_model.specs.Histories.{public};
ghost use Rattle.seq_model.specs.Legal.{Legal};
ghost use Rattle.seq_model.specs.State.{object_at};
ghost use Rattle.seq_model.specs.Steps.{after, next_place};

use crate::books::Books;
use crate::renders::Render;
use dev_types::Handle;
use plain_objects::objects::Object;
use plain_objects::stage::Stage;
use seq_model::Entry;
use std::marker::Model;

/// All that happened on a device, and where it stands.
#[derive(Drop)]
pub struct Record {
    pub(crate) stage: Stage,
    pub(crate) books: Books,
}

impl Model for Record {
    ghost use Rattle.plain_journal.specs.Whole.{IsWhole, past_in};
    ghost use Rattle.seq_model.specs.Steps.{Past};

    ghost Value = { Past };

    ghost view = { λ r. past_in r.stage r.books };

    ghost invariant = { λ r. IsWhole r.stage r.books };
}

impl Record {
    /// How many public references there are to a handle.
    fn public(&self, h: Handle) -> u64
        ensures { result ≡ public self.now.seen h }
    {
        count_at(&self.books.held, h)
    }

    /// All that happened is legal, and led to where the device stands.
    pub fn is_legal(&self)
        ensures legal { Legal self.now.seen }
        ensures led { self.now ≡ after self.now.seen }
    {
        let _ = &self.stage;
    }

    /// All that happened, the first entry first.
    pub fn journal(&self) -> &[Entry]
        ensures { result.now ≡ self.now.seen }
    {
        &self.books.journal
    }

    /// The place of the next entry.
    pub fn place(&self) -> u64
        ensures { result ≡ next_place self.now }
    {
        self.books.place()
    }

    /// The handle of the next creation.
    pub fn next(&self) -> Handle
        ensures { result ≡ self.now.state.next }
    {
        self.stage.next()
    }

    /// The objects, by their handles.
    pub fn stage(&self) -> &Stage
        ensures { result.now ≡ self.now.state }
    {
        &self.stage
    }

    /// The renders that were done, as they are kept.
    pub(crate) fn renders(&self) -> &[Render]
        ensures { KnowsRenders self.now.seen result.now }
    {
        &self.books.renders
    }

    /// The object with this handle, if it is there.
    pub fn get(&self, h: Handle) -> Option<&Object>
        ensures { option_copied result ≡ object_at self.now.state h }
    {
        self.stage.get(h)
    }

    /// Whether the application holds a public reference to the handle.
    pub fn is_held(&self, h: Handle) -> bool
        ensures { result ≡ not (public self.now.seen h == 0) }
    {
        self.public(h) != 0
    }
}

/// The count of a handle, where handle 1 has the first one.
fn count_at(counts: &[u64], h: Handle) -> u64
    ensures { result ≡ count_at counts.now h }
{
    if h.0 == 0 {
        return 0;
    }
    match counts.get(h.0 as usize - 1) {
        Some(count) => *count,
        None => 0,
    }
}
