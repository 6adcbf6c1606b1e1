//! Renders: a flight begins.
ghost use Rattle.std.specs.Prelude.{◌≡◌, ◌+◌, ◌-◌, ◌++◌, ◌∷◌, [], ◌<◌, ◌≤◌, ◌^◌, ℕ, All, None, Some, false, IfOk, IfSome, IsSome, OnErr, OnOk, length};
ghost use Rattle.dev_types.specs.declared.handles.Channel.{Channel as Channels};
ghost use Rattle.dev_types.specs.Counting.{times};
ghost use Rattle.flight_books.specs.Kept.{cargo_at};
ghost use Rattle.frame_future.specs.Channels.{is_asked};
ghost use Rattle.frame_future.specs.Flights.{IsNew};
ghost use Rattle.frame_future.specs.Future.{AreHome, IsLater, flight_of, is_mapped};
ghost use Rattle.frame_future.specs.Pixels.{IsSized};
ghost use Rattle.kept_worlds.specs.KeptMaps.{kept_at, reach_at, shown_at};
ghost use Rattle.kept_worlds.specs.LastKept.{AreKept, AreShown, is_there};
ghost use Rattle.kind_tables.specs.Walks.{walk};
ghost use Rattle.object_store.specs.Kept.{number_at};
ghost use Rattle.object_steps.specs.Objects.{with_places};
ghost use Rattle.picture_model.specs.Limits.{IsSceneWithin};
ghost use Rattle.past_laws.specs.Worlds.{render_of};
ghost use Rattle.scene_read.specs.Starts.{all_seen};
ghost use Rattle.seq_model.specs.Histories.{History};
ghost use Rattle.seq_model.specs.Legal.{Legal};
ghost use Rattle.seq_model.specs.Refusals.{refusal};
ghost use Rattle.seq_model.specs.State.{object_at, scene_objects};
ghost use Rattle.seq_model.specs.Steps.{after};
ghost use Rattle.seq_model.specs.declared.calls.Call.TheVariants.{RenderFrame};
ghost use Rattle.seq_model.specs.declared.calls.Reply.TheVariants as reply;
ghost use Rattle.tile_claims.specs.Seats.{key_of, view};
ghost use Rattle.tile_claims.specs.Views.{looked, no_looks};
ghost use Rattle.device_parts.specs.AllParts.{scene_prepared, shown_by};
ghost use Rattle.device_parts.specs.Begins.{HasBegun, IsTakeoff, asks_in, with_takeoff, without_world, world_of_build};
ghost use Rattle.device_parts.specs.Calls.{HasEntered, HasRoomMade};
ghost use Rattle.device_parts.specs.Holds.{held_too, with_holds};
ghost use Rattle.device_parts.specs.Renders.{IsWanted};
ghost use Rattle.device_parts.specs.Standing.{IsStanding};

use crate::burials::bury;
use crate::holds::{can_be_held, hold_all};
use crate::loads::{Load, PreparedScene};
use crate::parts::Parts;
use crate::records::Recorded;
use crate::renders::{Build, NewLoad, keep_build, load_of};
use call_answers::frames::{refusal_by_walk, walk};
use dev_types::{Channel, Handle, Name, NoMemory, Refused};
use flight_books::{Cargo, FlightBooks};
use kept_worlds::KeptWorlds;
use object_steps::{AtRest, ObjectStore};
use object_store::slots::Shows;
use scene_read::{Objects, Visits};
use seq_model::{Call, Entry, Reply};
use std::alloc::Global;
use tile_claims::{Claims, Seat};
use world_snapshot::Prepared;

/// Whether a channel was asked for, as the frame is committed.
fn asks_for<O: Objects>(state: &O, frame: Handle, channel: Channel) -> bool
    ensures { result ≡ asks_in (O.objects state.now) frame channel }
{
    state.committed(frame, &Name::of(channel.name())).is_some()
}

/// Which channels were asked for, in the order of `Channel`.
fn asked_channels<O: Objects>(state: &O, frame: Handle) -> [bool; 4]
    ensures { (c : Channels) → is_asked result c ≡ asks_in (O.objects state.now) frame c }
{
    [
        asks_for(state, frame, Channel::Color),
        asks_for(state, frame, Channel::PrimitiveId),
        asks_for(state, frame, Channel::ObjectId),
        asks_for(state, frame, Channel::InstanceId),
    ]
}

/// Drops what is kept of a world, if there is one.
fn forget_world(worlds: &mut KeptWorlds<Prepared>, world: Option<Handle>)
    ensures { (w : ℕ) → kept_at worlds.new w ≡ without_world world w (kept_at worlds.old w) }
{
    if let Some(world) = world {
        worlds.forget(world);
    }
}

/// The world that a render prepared, if it prepared one.
fn world_of(build: &Option<Build>) -> Option<Handle>
    ensures { result ≡ world_of_build build.now }
{
    match build {
        Some(build) => Some(build.world),
        None => None,
    }
}

/// What a flight begins with.
#[derive(Drop)]
pub(crate) struct Takeoff {
    pub(crate) cargo: Cargo<Load>,
    pub(crate) claims: Claims,
    pub(crate) seat: Seat,
    /// The channels that were asked for, in the order of `Channel`.
    pub(crate) channels: [bool; 4],
}

/// Begins the flight of a render, and keeps the world that the render prepared, if it prepared one.
///
/// # Errors
/// `NoMemory`; nothing is then begun, and what was kept is kept.
pub(crate) fn begin_kept(
    flights: &mut FlightBooks<Load>,
    worlds: &mut KeptWorlds<Prepared>,
    alloc: Global,
    build: Option<Build>,
    takeoff: Takeoff,
) -> Result<(), NoMemory>
    requires unkept { IfSome build (λ b. kept_at worlds.old b.world ≡ None) }
    requires new { IsNew takeoff.claims takeoff.seat }
    requires sized { IsSized (key_of takeoff.claims) }
    requires landed { flight_of flights.old.future takeoff.cargo.frame ≡ None }
    requires unmapped { is_mapped flights.old.future takeoff.cargo.frame ≡ false }
    requires later { IsLater flights.old.future takeoff.cargo.ticket }
    requires first { 0 < takeoff.cargo.ticket }
    ensures begun { OnOk result (flights.new ≡ with_takeoff takeoff flights.old) }
    ensures refused { OnErr result (flights.new ≡ flights.old) }
    ensures unchanged { OnErr result ((w : ℕ) → kept_at worlds.new w ≡ kept_at worlds.old w) }
    ensures known { OnOk result ((history : History) (actor f : ℕ)
        → Legal history
        → IsWanted (scene_objects (after history).state) worlds.old f build
        → AreKept (is_there history) history (reach_at worlds.old)
        → AreKept (is_there history) (history ++ render_of actor f ∷ []) (reach_at worlds.new)) }
    ensures shown { OnOk result ((history : History) (f : ℕ)
        → IsWanted (scene_objects (after history).state) worlds.old f build
        → AreShown history (shown_at shown_by worlds.old)
        → AreShown history (shown_at shown_by worlds.new)) }
{
    let world = world_of(&build);
    keep_build(worlds, alloc, build)?;
    let Takeoff {
        cargo,
        claims,
        seat,
        channels,
    } = takeoff;
    if flights.begin(alloc, cargo, claims, seat, channels).is_err() {
        forget_world(worlds, world);
        return Err(NoMemory);
    }
    Ok(())
}

/// Looks once at how many tiles of new claims are claimed: none.
fn look_at_new(claims: &Claims, seat: &mut Seat)
    requires new { IsNew claims.now seat.old }
    requires sized { IsSized (key_of claims.now) }
    requires unseen { (view seat.old).claims ≡ no_looks }
    requires in_time { (view seat.old).late ≡ false }
    ensures new { IsNew claims.now seat.new }
    ensures unclaimed { (view seat.new).claims ≡ looked no_looks 0 }
    ensures in_time { (view seat.new).late ≡ false }
{
    claims.claimed(seat);
}

/// What the flight of a frame begins with under this ticket, of which the scene reached these objects.
/// The only error is want of memory.
fn takeoff_of<O: Objects>(
    alloc: Global,
    state: &O,
    ticket: u64,
    frame: Handle,
    reach: Vec<Handle>,
    scene: PreparedScene,
) -> Result<Takeoff, NoMemory>
    requires { IsSceneWithin (scene_prepared scene) }
    ensures { IfOk result (IsTakeoff (O.objects state.now) ticket frame
        (record { reach = reach; scene = Some scene })) }
{
    let (claims, mut seat) = scene.claims(alloc)?;
    look_at_new(&claims, &mut seat);
    let channels = asked_channels(state, frame);
    let cargo = Cargo {
        ticket,
        frame,
        kept: Load {
            reach,
            scene: Some(scene),
        },
    };
    Ok(Takeoff {
        cargo,
        claims,
        seat,
        channels,
    })
}

/// A flight holds all that its scene reached, which is there.
fn hold_reach(objects: &mut ObjectStore, flights: &FlightBooks<Load>, ticket: u64)
    requires flies { IsSome (cargo_at flights.now.cargo ticket) }
    requires there { IfSome (cargo_at flights.now.cargo ticket) (λ c. (h : ℕ)
        → 0 < times h c.kept.reach.items → IsSome (object_at objects.old.stored.state h)) }
    requires few { IfSome (cargo_at flights.now.cargo ticket) (λ c. All
        (λ h. number_at objects.old.stored.holds h + length c.kept.reach.items ≤ 2 ^ 40)
        c.kept.reach.items) }
    ensures { IfSome (cargo_at flights.now.cargo ticket) (λ c. objects.new
        ≡ with_holds objects.old (held_too c.kept.reach.items objects.old.stored.holds)) }
{
    let Some(cargo) = flights.cargo_at(ticket) else {
        unreachable!();
    };
    hold_all(objects, cargo.kept.reach.as_slice());
}

impl Parts {
    /// Renders a frame, as a call that was granted (ANARI 1.0 Specification, rendering frames), and
    /// enters it; these are the visits of the walk from the frame. Its flight begins, with claims of
    /// the frame's scene, and holds all that the scene reached; a world that had to be prepared is
    /// kept. There are places in the journal for the entry and for the note of the flight, and one
    /// for the flight itself among those that may be stopped.
    ///
    /// # Errors
    /// `NoMemory`; all is then as it was.
    pub(crate) fn enter_render(
        &mut self,
        alloc: Global,
        actor: u32,
        frame: Handle,
        visits: &Visits,
    ) -> Result<(), NoMemory>
        requires all_told { self.old.objects.dead ≡ [] }
        requires stands { IsStanding self.old }
        requires places { length self.old.history + length self.old.flights.future.flights + 2
            < self.old.room }
        requires stop_place { length self.old.flights.future.flights + 1
            < self.old.objects.stored.places }
        requires legal { Legal (self.old.history ++ render_of actor frame ∷ []) }
        requires seen { all_seen (scene_objects self.old.objects.stored.state) visits.now
            ≡ walk (scene_objects self.old.objects.stored.state) frame }
        ensures entered { OnOk result (HasEntered actor (RenderFrame frame) reply.Done
            self.old self.new) }
        ensures begun { OnOk result (HasBegun frame self.old self.new) }
        ensures stands { OnOk result (IsStanding self.new) }
        ensures home { OnOk result (AreHome self.old.flights.future → AreHome self.new.flights.future) }
        ensures err { OnErr result (HasRoomMade self.old self.new) }
    {
        let place = self.entries() + 1;
        let store = self.objects.store();
        store.counts_its_objects();
        let NewLoad {
            reach,
            scene,
            build,
        } = load_of(alloc, store, &self.worlds, frame, visits)?;
        if !can_be_held(store, reach.as_slice()) {
            return Err(NoMemory);
        }
        let takeoff = takeoff_of(alloc, store, place, frame, reach, scene)?;
        let built = build.is_some();
        begin_kept(&mut self.flights, &mut self.worlds, alloc, build, takeoff)?;
        self.objects.show(frame, Shows::Flight(place));
        hold_reach(&mut self.objects, &self.flights, place);
        self.builds += u64::from(built);
        self.journal.push_reserved(Entry::Called {
            actor,
            call: Call::RenderFrame { h: frame },
            reply: Reply::Done,
        });
        self.objects.store().counts_its_objects();
        bury(&mut self.objects, &mut self.flights, &mut self.worlds);
        self.objects.store().counts_its_objects();
        Ok(())
    }

    /// Renders a frame to which no refusal applies, and enters that, as `enter_render`; these are
    /// the visits of the walk from the frame. The place of the note is taken with it, so that no fewer
    /// places are free afterwards.
    ///
    /// # Errors
    /// `NoMemory`; all is then as it was, but for the room.
    pub(crate) fn render(
        &mut self,
        alloc: Global,
        actor: u32,
        frame: Handle,
        visits: &Visits,
    ) -> Result<(), NoMemory>
        requires all_told { self.old.objects.dead ≡ [] }
        requires stands { IsStanding self.old }
        requires granted { refusal (after self.old.history) (RenderFrame frame) ≡ None }
        requires seen { all_seen (scene_objects self.old.objects.stored.state) visits.now
            ≡ walk (scene_objects self.old.objects.stored.state) frame }
        ensures entered { OnOk result (HasEntered actor (RenderFrame frame) reply.Done
            self.old self.new) }
        ensures begun { OnOk result (HasBegun frame self.old self.new) }
        ensures note_place { OnOk result (self.old.room + 1 ≤ self.new.room) }
        ensures stands { IsStanding self.new }
        ensures home { AreHome self.old.flights.future → AreHome self.new.flights.future }
        ensures err { OnErr result (HasRoomMade self.old self.new) }
    {
        self.are_parts();
        self.keep_render_places()?;
        match self.enter_render(alloc, actor, frame, visits) {
            Ok(()) => Ok(()),
            Err(none) => {
                self.give_up_render_places();
                Err(none)
            }
        }
    }

    /// Keeps the places that a render takes beyond those that are kept already: those of its entry
    /// and of the note of its flight, and one for the flight, should it be stopped.
    ///
    /// # Errors
    /// `NoMemory`; nothing has changed but for the room.
    fn keep_render_places(&mut self) -> Result<(), NoMemory>
        ensures kept { OnOk result (self.new ≡ record self.old {
          objects = with_places self.old.objects self.new.objects.stored.places;
          room = self.old.room + 2;
        }) }
        ensures stop_place { OnOk result (length self.old.flights.future.flights + 1
            < self.new.objects.stored.places) }
        ensures refused { OnErr result (self.new ≡ record self.old {
          objects = with_places self.old.objects self.new.objects.stored.places;
        }) }
    {
        // This flight's place, and one that stays free: a discard finds one whatever the frame shows.
        let Some(stops) = self.flights.flight_count().checked_add(2) else {
            return Err(NoMemory);
        };
        self.objects.make_places(stops)?;
        self.journal.add_places(2)
    }

    /// Gives up two places, which are free.
    fn give_up_render_places(&mut self)
        requires { length self.old.history + length self.old.flights.future.flights + 2
            < self.old.room }
        ensures { self.new ≡ record self.old { room = self.old.room - 2 } }
    {
        self.journal.give_up_places(2);
    }

    /// Why a frame is not rendered, where no tile of a flight was seen finished, with the visits of
    /// the walk from it. The only error is want of memory.
    pub(crate) fn refusal_of_render(
        &self,
        alloc: Global,
        frame: Handle,
    ) -> Result<(Visits, Option<Refused>), NoMemory>
        requires stands { IsStanding self.now }
        ensures seen { IfOk result (λ r. all_seen (scene_objects self.now.objects.stored.state) r.0
            ≡ walk (scene_objects self.now.objects.stored.state) frame) }
        ensures refusal { IfOk result (λ r. r.1
            ≡ refusal (after self.now.history) (RenderFrame frame)) }
    {
        self.are_parts();
        let recorded = Recorded::new(self);
        let device = AtRest::new(self.objects.store(), &recorded);
        let visits = walk(&device, alloc, frame)?;
        let refused = refusal_by_walk(&device, frame, &visits);
        Ok((visits, refused))
    }
}
