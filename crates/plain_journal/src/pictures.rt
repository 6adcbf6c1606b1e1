//! What frames show, and the renders that made it.
ghost use Rattle.std.specs.Prelude.{◌≡◌, ◌==◌, IsSome, option_copied};
ghost use Rattle.plain_journal.specs.Kept.{Shows, render_with};
ghost use Rattle.past_laws.specs.Rendered.{WasRendered};
ghost use Rattle.plain_objects.specs.Shown.{phase_of};
ghost use Rattle.seq_model.specs.Histories.{frame_at};
ghost use Rattle.seq_model.specs.Pictures.{tiles_at};
ghost use Rattle.seq_model.specs.Refusals.{phase_at};

use crate::record::Record;
use crate::renders::Render;
use dev_types::Handle;
use picture_model::tile_count;
use plain_objects::objects;

/// The render with this ticket.
fn render_with(renders: &[Render], ticket: u64) -> Option<&Render>
    ensures { option_copied result ≡ render_with ticket renders.now }
{
    renders.iter().find(|render| render.ticket == ticket)
}

impl Record {
    /// What a frame has to show: one of its own renders, if anything.
    pub fn shows(&self, h: Handle) -> objects::Shows
        ensures value { phase_of result ≡ phase_at self.now h }
        ensures rendered { WasRendered self.now h (phase_of result) }
    {
        let stage = &self.stage;
        stage.shows(h)
    }

    /// The render at a place, as it is kept.
    pub fn render(&self, ticket: u64) -> &Render
        requires { IsSome (frame_at self.now.seen ticket) }
        ensures { Shows self.now.seen ticket result.now }
    {
        match render_with(self.renders(), ticket) {
            Some(render) => render,
            None => unreachable!(),
        }
    }

    /// How many tiles the render at a place has.
    #[tactic(auto, unfolding(seq_model::specs::Pictures::tiles_at))]
    pub fn tiles(&self, ticket: u64) -> u64
        requires { IsSome (frame_at self.now.seen ticket) }
        ensures { result ≡ tiles_at self.now.seen ticket }
    {
        let render = self.render(ticket);
        u64::from(tile_count(render.scene.width, render.scene.height))
    }
}
