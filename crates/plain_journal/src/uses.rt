//! What a call does to what is known of worlds.
ghost use Rattle.std.specs.Prelude.{◌≡◌, ◌<◌, ◌-◌, ◌^◌, ◌++◌, ◌∷◌, [], ℕ, length};
ghost use Rattle.seq_model.specs.Histories.{History};
ghost use Rattle.seq_model.specs.Steps.{after};
ghost use Rattle.seq_model.specs.declared.calls.Entry.TheVariants.{Called};
ghost use Rattle.seq_model.specs.declared.calls.Reply.TheVariants as reply;
ghost use Rattle.plain_journal.specs.Uses.{FitsWorld, ReachesWorld};
ghost use Rattle.past_laws.specs.Worlds.{HasRoom, KnowsWorlds, render_of};

use crate::worlds::Worlds;
use dev_types::Handle;
use seq_model::{Call, Reply};

/// Notes a render of a frame with this world, if it has one, and what that reaches.
pub fn note_render(worlds: &mut Worlds, world: Option<Handle>, reach: Vec<Handle>)
    requires { HasRoom worlds.old }
    ensures { (history : History) (actor f : ℕ)
        → length history < 2 ^ 64 - 1
        → ReachesWorld (after history).state f world reach.items
        → KnowsWorlds history worlds.old
        → KnowsWorlds (history ++ render_of actor f ∷ []) worlds.new }
{
    match world {
        Some(world) => worlds.render(world, reach),
        None => {}
    }
}

/// Notes what a call that was done says of worlds: a render, or a commit or an unmap of what worlds may reach.
fn note_done(worlds: &mut Worlds, call: &Call, world: Option<Handle>, reach: Vec<Handle>)
    requires { HasRoom worlds.old }
    ensures { (history : History) (actor : ℕ)
        → length history < 2 ^ 64 - 1
        → FitsWorld (after history).state call.now reply.Done world reach.items
        → KnowsWorlds history worlds.old
        → KnowsWorlds (history ++ Called actor call.now reply.Done ∷ []) worlds.new }
{
    match call {
        Call::RenderFrame { .. } => note_render(worlds, world, reach),
        Call::Commit { h } => worlds.touch(*h),
        Call::UnmapArray { h, .. } => worlds.touch(*h),
        _ => {}
    }
}

/// Notes what a call with its reply says of worlds.
pub fn note_world(
    worlds: &mut Worlds,
    call: &Call,
    reply: &Reply,
    world: Option<Handle>,
    reach: Vec<Handle>,
)
    requires { HasRoom worlds.old }
    ensures { (history : History) (actor : ℕ)
        → length history < 2 ^ 64 - 1
        → FitsWorld (after history).state call.now reply.now world reach.items
        → KnowsWorlds history worlds.old
        → KnowsWorlds (history ++ Called actor call.now reply.now ∷ []) worlds.new }
{
    match reply {
        Reply::Done => note_done(worlds, call, world, reach),
        _ => {}
    }
}
