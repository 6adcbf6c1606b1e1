//! What a device over fast parts knows of a history with one entry more, over the definitions alone:
//! what the entry makes of its frames and flights, which objects it changes, and which it leaves.
#![tactic(auto)]

mod entry_laws;
mod flight_laws;
mod flown_laws;
mod frame_laws;
mod grant_laws;
mod loan_laws;
mod over_laws;
mod render_laws;
mod reply_laws;
mod standing_laws;

pub use entry_laws::{
    burials_end_an_entry, burials_leave_all_but_what_goes, burials_leave_what_lives,
    calls_change_the_objects, entries_move_flights, entries_move_frames,
};
pub use flight_laws::{
    discards_stop_a_flight, flights_are_shown_by_their_frames, flights_hold_what_they_reached,
    kept_phases_are_those_of_the_history, maps_lend_a_channel, notes_end_a_flight,
    nothing_is_kept_at_first, other_entries_keep_the_flights, refused_calls_move_nothing,
    renders_begin_a_flight,
};
pub use flown_laws::kept_flights_are_those_of_the_history;
pub use frame_laws::{calls_on_kept_frames_leave_them, same_frames_stand_alike};
pub use grant_laws::kept_frames_grant_what_the_history_grants;
pub use loan_laws::{kept_loans_are_those_of_the_history, mapped_frames_have_pictures};
pub use over_laws::flights_that_are_gone_are_over;
pub use render_laws::flights_show_their_renders;
pub use reply_laws::{replies_tell_what_was_read, what_was_told_stays_told};
pub use standing_laws::{
    frames_stand_between_entries, frames_stand_on_by_a_call, frames_stand_on_by_a_loan,
    frames_stand_on_by_a_note,
};
