//! What holds of every history: each law is the contract of a function that does nothing.
ghost use Rattle.std.specs.Prelude.{◌+◌, cond, map, false, IsSomeAnd, count_by, List, IsTrue, Bool, ◌≡◌, ℕ, ◌≤◌, ◌<◌, All, length, None, ◌++◌, ◌∷◌, [], Some};
ghost use Rattle.std.specs.BTreeMap.{is_at};
ghost use Rattle.std.specs.List.Sorted.{IsStrictlyIncreasing};
ghost use Rattle.std.specs.Map.{keys_of, lookup};
ghost use Rattle.std.specs.Ordering.{nat_cmp};
ghost use Rattle.dev_types.specs.declared.data_types.DataType.{DataType};
ghost use Rattle.dev_types.specs.declared.handles.Channel.{Channel};
ghost use Rattle.dev_types.specs.declared.refusals.Refused.{Refused};
ghost use Rattle.kind_tables.specs.Ranges.{broken_parameter};
ghost use Rattle.kind_tables.specs.Ranks.{rank_of};
ghost use Rattle.kind_tables.specs.Scenes.{lights_of, primitives_of};
ghost use Rattle.kind_tables.specs.WalkRanks.{AreRanked};
ghost use Rattle.kind_tables.specs.WalkRefusals.{missing_parameter, surface_count};
ghost use Rattle.kind_tables.specs.Walks.{visited, walk};
ghost use Rattle.seq_model.specs.Deaths.{HoldsItself, changed_by};
ghost use Rattle.seq_model.specs.Ends.{is_capturing, is_deleting};
ghost use Rattle.seq_model.specs.Extensions.{let_follow, readings_of};
ghost use Rattle.seq_model.specs.Histories.{History, frame_at, is_making, is_releasing, is_retaining, public};
ghost use Rattle.seq_model.specs.Legal.{IsNext, Legal};
ghost use Rattle.seq_model.specs.Lending.{WasLent};
ghost use Rattle.dev_types.specs.Counting.{times};
ghost use Rattle.seq_model.specs.Life.{has, names_of};
ghost use Rattle.seq_model.specs.Pictures.{state_before};
ghost use Rattle.seq_model.specs.Refusals.{is_same_channel};
ghost use Rattle.seq_model.specs.Soundness.{AllSound};
ghost use Rattle.seq_model.specs.State.{Object, flights, object_at, scene_objects};
ghost use Rattle.seq_model.specs.Steps.{after, next_place, step, swept};
ghost use Rattle.seq_model.specs.Tickets.{ticket_of};
ghost use Rattle.seq_model.specs.Told.{told, told_by};
ghost use Rattle.seq_model.specs.declared.calls.Call.{Call};
ghost use Rattle.seq_model.specs.declared.calls.Call.TheVariants.{DiscardFrame, FrameReady, GetProperty, ObjectInfo, ParameterInfo, RenderFrame, Subtypes};
ghost use Rattle.seq_model.specs.declared.calls.Entry.{Entry};
ghost use Rattle.seq_model.specs.declared.calls.Entry.TheVariants.{Called, Closed, Finished};
ghost use Rattle.seq_model.specs.declared.calls.Reply.{Reply};
ghost use Rattle.seq_model.specs.declared.calls.Reply.TheVariants as reply;

/// One more entry is one more step.
#[tactic(auto, using(crate::proofs::Afters::after_more))]
pub fn after_is_stepwise()
    ensures { (history : History) (e : Entry) → after (history ++ e ∷ []) ≡ step (after history) e }
{}

/// What was seen is the history.
#[tactic(auto, using(crate::proofs::Afters::seen_is_history))]
pub fn seen_is_the_history()
    ensures { (history : History) → (after history).seen ≡ history }
{}

/// The next handle never falls.
#[tactic(auto, using(crate::proofs::Handles::next_grows))]
pub fn next_handle_never_falls()
    ensures { (history further : History) → (after history).state.next ≤ (after (history ++ further)).state.next }
{}

/// Handles rise from 1 on, and stay below the next.
#[tactic(auto, using(crate::proofs::Handles::handles_rise, crate::proofs::Handles::handles_are_used, crate::proofs::Handles::handles_are_below))]
pub fn handles_rise()
    ensures rising { (history : History) → IsStrictlyIncreasing (keys_of (after history).state.objects) }
    ensures from_one { (history : History) → All (λ h. 1 ≤ h) (keys_of (after history).state.objects) }
    ensures below_next { (history : History) → All (λ h. h < (after history).state.next) (keys_of (after history).state.objects) }
{}

/// An object that is gone does not come back.
#[tactic(auto, using(crate::proofs::Came::gone_for_good))]
pub fn nothing_comes_back()
    ensures { (history further : History) (h : ℕ) → h < (after history).state.next → object_at (after history).state h ≡ None →
        object_at (after (history ++ further)).state h ≡ None }
{}

/// What a flight reached is what the walk of the state before its render visits, and that does not change.
#[tactic(auto, using(crate::proofs::Reached::reach_is_the_walk, crate::proofs::Reached::reach_of_no_render, crate::proofs::Reached::reach_stays))]
pub fn reach_is_the_walk()
    ensures of_renders { (history : History) (t f : ℕ) → frame_at history t ≡ Some f →
        lookup (is_at (nat_cmp t)) (after history).reached ≡ Some (visited (walk (scene_objects (state_before history t)) f)) }
    ensures of_nothing_else { (history : History) (t : ℕ) → frame_at history t ≡ None → lookup (is_at (nat_cmp t)) (after history).reached ≡ None }
    ensures stays { (history further : History) (t : ℕ) → t ≤ length history →
        lookup (is_at (nat_cmp t)) (after (history ++ further)).reached ≡ lookup (is_at (nat_cmp t)) (after history).reached }
{}

/// Sweeping twice is sweeping once.
#[tactic(auto, using(crate::proofs::Sweeps::sweeps_once))]
pub fn sweeping_twice_is_sweeping_once()
    ensures { (history : History) → swept history (after history).reached (after history).state ≡ (after history).state }
{}

/// A call that was refused changes nothing.
#[tactic(auto, using(crate::proofs::Stills::refused_changes_nothing))]
pub fn refused_calls_change_nothing()
    ensures { (history : History) (actor : ℕ) (call : Call) (refused : Refused) →
        (after (history ++ Called actor call (reply.Denied refused) ∷ [])).state ≡ (after history).state }
{}

/// A question whether a frame is ready changes nothing, and no query does.
#[tactic(auto, using(crate::proofs::Stills::ready_changes_nothing, crate::proofs::Stills::property_changes_nothing, crate::proofs::Stills::subtypes_changes_nothing, crate::proofs::Stills::object_info_changes_nothing, crate::proofs::Stills::parameter_info_changes_nothing))]
pub fn questions_change_nothing()
    ensures ready { (history : History) (actor h : ℕ) (wait : Bool) (r : Reply) →
        (after (history ++ Called actor (FrameReady h wait) r ∷ [])).state ≡ (after history).state }
    ensures property { (history : History) (actor h : ℕ) (name : List ℕ) (r : Reply) →
        (after (history ++ Called actor (GetProperty h name) r ∷ [])).state ≡ (after history).state }
    ensures subtypes { (history : History) (actor : ℕ) (t : DataType) (r : Reply) →
        (after (history ++ Called actor (Subtypes t) r ∷ [])).state ≡ (after history).state }
    ensures object_info { (history : History) (actor : ℕ) (t : DataType) (subtype : List ℕ) (r : Reply) →
        (after (history ++ Called actor (ObjectInfo t subtype) r ∷ [])).state ≡ (after history).state }
    ensures parameter_info { (history : History) (actor : ℕ) (t : DataType) (subtype name : List ℕ) (r : Reply) →
        (after (history ++ Called actor (ParameterInfo t subtype name) r ∷ [])).state ≡ (after history).state }
{}

/// What a legal history begins with is legal.
#[tactic(auto, using(crate::proofs::Prefixes::prefix_is_legal))]
pub fn prefixes_are_legal()
    ensures { (history further : History) → Legal (history ++ further) → Legal history }
{}

/// One more entry may stand behind a legal history just where it is in its place, no reading falls, and every entry lets it follow.
#[tactic(auto, using(crate::proofs::Prefixes::extension_is_legal, crate::proofs::Prefixes::last_is_next, crate::proofs::Prefixes::last_was_let_follow))]
pub fn legal_histories_go_on()
    ensures more { (history : History) (e : Entry) → Legal history → IsNext (after history) (readings_of history) e [] → IsTrue (let_follow history e) →
        Legal (history ++ e ∷ []) }
    ensures next { (history : History) (e : Entry) → Legal (history ++ e ∷ []) → IsNext (after history) (readings_of history) e [] }
    ensures leave { (history : History) (e : Entry) → Legal (history ++ e ∷ []) → IsTrue (let_follow history e) }
{}

/// The ticket that a frame shows is the place of its render.
#[tactic(auto, using(crate::proofs::Flights::own_tickets))]
pub fn tickets_are_renders()
    ensures { (history : History) (k u : ℕ) (o : Object) → object_at (after history).state k ≡ Some o → ticket_of o.phase ≡ Some u → frame_at history u ≡ Some k }
{}

/// A flight that was stopped never ends in a picture.
#[tactic(auto, using(crate::proofs::Flights::stopped_never_finishes))]
pub fn stopped_flights_never_finish()
    ensures { (history further : History) (u : ℕ) → IsTrue (has u (after history).state.stopped) → Legal ((history ++ further) ++ Finished u ∷ []) → ⊥ }
{}

/// The picture that a frame showed, or waited for, when it was discarded is shown by no frame any more.
#[tactic(auto, using(crate::proofs::Flights::discarded_is_never_mapped))]
pub fn discarded_pictures_are_gone()
    ensures { (history further : History) (actor h u : ℕ) (o : Object) → object_at (after history).state h ≡ Some o → ticket_of o.phase ≡ Some u →
        (k : ℕ) (p : Object) → object_at (after ((history ++ Called actor (DiscardFrame h) reply.Done ∷ []) ++ further)).state k ≡ Some p → ticket_of p.phase ≡ Some u → ⊥ }
{}

/// A creation makes the next handle.
#[tactic(auto, using(crate::proofs::Creations::made_handle))]
pub fn creations_make_the_next_handle()
    ensures { (history : History) (actor h : ℕ) (call : Call) → Legal (history ++ Called actor call (reply.Made h) ∷ []) →
        (h ≡ (after history).state.next) × ((after (history ++ Called actor call (reply.Made h) ∷ [])).state.next ≡ h + 1) }
{}

/// No handle is made twice.
#[tactic(auto, using(crate::proofs::Creations::made_handles_rise))]
pub fn no_handle_is_made_twice()
    ensures { (first second : History) (actor other h k : ℕ) (call further : Call) →
        Legal (((first ++ Called actor call (reply.Made h) ∷ []) ++ second) ++ Called other further (reply.Made k) ∷ []) → h < k }
{}

/// The deleter of each captured array runs at most once, and not while the array is there. With the close it has run for each one that was
/// made.
pub fn deleters_run_once()
    ensures at_most_once { (history : History) (h : ℕ) → count_by (is_deleting h) (told history) ≤ 1 }
    ensures when_gone { (history : History) (h : ℕ) → 0 < count_by (is_deleting h) (told history) → object_at (after history).state h ≡ None }
    ensures at_the_close { (history : History) (h : ℕ) → Legal (history ++ Closed ∷ []) →
        count_by (is_deleting h) (told (history ++ Closed ∷ [])) ≡ count_by (is_capturing h) (history ++ Closed ∷ []) }
{}

/// All that an object of a legal history has fits: values have the types of their parameters, and what is named is there, as the tables ask for
/// it.
#[tactic(auto, using(crate::proofs::SoundHistories::legal_is_sound))]
pub fn legal_states_are_sound()
    ensures { (history : History) → Legal history → AllSound (after history).state }
{}

/// What an object of a legal history names is there, and stands lower; so each walk of its scenes ends.
pub fn legal_states_are_ranked()
    ensures names { (history : History) → Legal history →
        All (λ entry. All (λ h. IsSomeAnd (object_at (after history).state h) (λ named. rank_of named.kind < rank_of entry.1.kind)) (names_of entry.1)) (after history).state.objects }
    ensures scenes { (history : History) → Legal history → AreRanked (scene_objects (after history).state) }
{}

/// What a live object names lives, and a set of objects each of which is a root, or is named by one of the set, lives: so an object goes just
/// where no chain of names leads to it from a root. The states are those in which an entry of a legal history has changed what it changes.
pub fn deaths_are_exact()
    ensures closed { (history : History) (e : Entry) (h k : ℕ) (o p : Object) → Legal (history ++ e ∷ []) →
        object_at (after (history ++ e ∷ [])).state h ≡ Some o → IsTrue (has k (names_of o)) → object_at (changed_by history e) k ≡ Some p →
        object_at (after (history ++ e ∷ [])).state k ≡ Some p }
    ensures held_up { (history : History) (e : Entry) (members : List ℕ) → Legal (history ++ e ∷ []) → HoldsItself history e members →
        (h : ℕ) → IsTrue (has h members) → IsSomeAnd (object_at (changed_by history e) h) (λ o. object_at (after (history ++ e ∷ [])).state h ≡ Some o) }
{}

/// Each ticket stands once among the flights of a history, and is the place of a render before its end.
pub fn tickets_stand_once()
    ensures once { (history : History) (t : ℕ) → times t (flights (after history).state) ≤ 1 }
    ensures places { (history : History) (t : ℕ) → IsTrue (has t (flights (after history).state)) → t < next_place (after history) }
{}

/// All that the walk of a granted render visits is not mapped, has what a picture needs, and is in range, and the walk keeps to the limits.
pub fn granted_renders_are_sound()
    ensures unmapped { (history : History) (actor h : ℕ) → Legal (history ++ Called actor (RenderFrame h) reply.Done ∷ []) →
        All (λ v. v.object.mapped ≡ false) (walk (scene_objects (after history).state) h) }
    ensures complete { (history : History) (actor h : ℕ) → Legal (history ++ Called actor (RenderFrame h) reply.Done ∷ []) →
        All (λ v. missing_parameter v.object ≡ None) (walk (scene_objects (after history).state) h) }
    ensures in_range { (history : History) (actor h : ℕ) → Legal (history ++ Called actor (RenderFrame h) reply.Done ∷ []) →
        All (λ v. broken_parameter (scene_objects (after history).state) v ≡ None) (walk (scene_objects (after history).state) h) }
    ensures limits { (history : History) (actor h : ℕ) → Legal (history ++ Called actor (RenderFrame h) reply.Done ∷ []) →
        (surface_count (walk (scene_objects (after history).state) h) ≤ 65536)
        × (length (lights_of (walk (scene_objects (after history).state) h)) ≤ 256)
        × (length (primitives_of (scene_objects (after history).state) (walk (scene_objects (after history).state) h)) ≤ 1048576) }
{}

/// What an application holds of an object was lent to it by the entries at the places of its loans.
pub fn loans_were_lent()
    ensures { (history : History) (h : ℕ) (o : Object) → object_at (after history).state h ≡ Some o → WasLent history h o }
{}

/// The numbers of an object's loans rise, and are places of the past; and no channel of a frame is mapped twice at a time.
pub fn loans_stand_once()
    ensures parameters { (history : History) (h : ℕ) (o : Object) → object_at (after history).state h ≡ Some o →
        IsStrictlyIncreasing (map (λ loan. loan.number) o.parameter_loans) × All (λ n. n < next_place (after history)) (map (λ loan. loan.number) o.parameter_loans) }
    ensures channels { (history : History) (h : ℕ) (o : Object) → object_at (after history).state h ≡ Some o →
        IsStrictlyIncreasing (map (λ m. m.1) o.channels) × All (λ n. n < next_place (after history)) (map (λ m. m.1) o.channels) }
    ensures one_a_channel { (history : History) (h : ℕ) (o : Object) (c : Channel) → Legal history → object_at (after history).state h ≡ Some o →
        count_by (λ m. is_same_channel m.0 c) o.channels ≤ 1 }
{}

/// A public count moves by the entries that make, retain and release the object: none is released that is not held.
pub fn public_counts_move()
    ensures { (history : History) (e : Entry) (h : ℕ) → Legal (history ++ e ∷ []) →
        public (history ++ e ∷ []) h + cond (is_releasing h e) 1 0 ≡ public history h + cond (is_making h e) 1 0 + cond (is_retaining h e) 1 0 }
{}

/// What one more entry tells comes last.
#[tactic(auto, using(crate::proofs::Tellings::told_more))]
pub fn told_is_stepwise()
    ensures { (history : History) (e : Entry) → told (history ++ e ∷ []) ≡ told history ++ told_by (after history) e }
{}

/// While a history may go on, an object that is gone has no public reference.
pub fn what_is_gone_is_not_held()
    ensures { (history : History) (further : Entry) (h : ℕ) → Legal (history ++ further ∷ []) → object_at (after history).state h ≡ None → public history h ≡ 0 }
{}
