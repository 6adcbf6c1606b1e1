//! What is answered and entered: each law is the contract of a function that does nothing.
ghost use Rattle.std.specs.Prelude.{◌≡◌, Some, true};
ghost use Rattle.past_laws.specs.Rendered.{HaveTiles};
ghost use Rattle.seq_model.specs.Answers.{IsAnswer, answer};
ghost use Rattle.seq_model.specs.Contents.{entered};
ghost use Rattle.seq_model.specs.Histories.{History};
ghost use Rattle.seq_model.specs.Legal.{Legal, is_content_sound};
ghost use Rattle.seq_model.specs.Steps.{Past, after};
ghost use Rattle.seq_model.specs.Told.{source_of};
ghost use Rattle.seq_model.specs.declared.calls.Call.{Call};
ghost use Rattle.seq_model.specs.declared.calls.Reply.{Reply};
ghost use Rattle.answered_calls.specs.Tells.{HasTilesInFlight, TellsNone};

/// The reply that tells of no tile of a flight is one that its call may have.
pub fn answers_may_be_given()
    ensures { (past : Past) (call : Call) (r : Reply)
        → HaveTiles past
        → answer past call ≡ Some r
        → IsAnswer past call r }
{}

/// A call as it is entered brings content in which each object that the elements name is there, and
/// has their type.
pub fn what_comes_back_names_what_is_there()
    ensures { (history : History) (call : Call)
        → Legal history
        → is_content_sound (after history) (entered (after history) call) ≡ true }
{}

/// Where the reply by the definitions tells of a flight, of which it tells no tile given, it is the
/// flight of the frame on which the call is made.
pub fn replies_tell_of_the_flight_of_the_frame()
    ensures { (past : Past) (call : Call) (r : Reply)
        → answer past call ≡ Some r
        → TellsNone (HasTilesInFlight past (source_of call)) r }
{}
