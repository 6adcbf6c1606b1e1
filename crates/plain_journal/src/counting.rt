//! How the counts of public references move with a call.
ghost use Rattle.std.specs.Prelude.{ℕ, ◌+◌, ◌-◌, ◌≡◌, ◌<◌, ◌≤◌, ◌^◌, ◌==◌, ◌++◌, ◌∷◌, [], cond, length, vec_capacity};
ghost use Rattle.seq_model.specs.Histories.{is_making, is_releasing, is_retaining};
ghost use Rattle.seq_model.specs.declared.calls.Entry.TheVariants.{Called};
ghost use Rattle.plain_journal.specs.Counting.{IsCountable, IsRetainable};
ghost use Rattle.past_laws.specs.Making.{handles_made};
ghost use Rattle.plain_objects.specs.Counts.{count_at};

use dev_types::Handle;
use seq_model::{Call, Reply};

/// Counts what a call that was answered so makes, retains or releases; a parameter array that
/// comes back has no public reference. Takes no memory.
pub fn count(held: &mut Vec<u64>, call: &Call, reply: &Reply)
    requires { IsCountable held.old.items (vec_capacity held.old) call.now reply.now }
    ensures moved { (actor h : ℕ) →
        count_at held.new.items h + cond (is_releasing h (Called actor call.now reply.now)) 1 0 ≡
        count_at held.old.items h + cond (is_making h (Called actor call.now reply.now)) 1 0 + cond (is_retaining h (Called actor call.now reply.now)) 1 0 }
    ensures len { length held.new.items ≡ length held.old.items + handles_made call.now reply.now }
    ensures capacity { vec_capacity held.new ≡ vec_capacity held.old }
{
    match call {
        Call::NewObject { .. } | Call::NewArray { .. } => {
            if let Reply::Made(_) = reply {
                add(held, 1);
            }
        }
        Call::UnmapParameterArray { .. } => {
            if let Reply::Made(_) = reply {
                add(held, 0);
            }
        }
        Call::Retain { h } => {
            if let Reply::Done = reply {
                retain(held, *h);
            }
        }
        Call::Release { h } => {
            if let Reply::Done = reply {
                release(held, *h);
            }
        }
        _ => {}
    }
}

/// Counts the references of the next handle. Takes no memory.
fn add(held: &mut Vec<u64>, count: u64)
    requires { length held.old.items < vec_capacity held.old }
    ensures counted { (h : ℕ) → count_at held.new.items h ≡ count_at held.old.items h + cond (length held.old.items + 1 == h) count 0 }
    ensures len { length held.new.items ≡ length held.old.items + 1 }
    ensures capacity { vec_capacity held.new ≡ vec_capacity held.old }
{
    held.push_reserved(count);
}

/// Counts one more reference of a handle.
fn retain(held: &mut Vec<u64>, h: Handle)
    requires { IsRetainable held.old.items h }
    ensures counted { (k : ℕ) → count_at held.new.items k ≡ count_at held.old.items k + cond (h == k) 1 0 }
    ensures len { length held.new.items ≡ length held.old.items }
    ensures capacity { vec_capacity held.new ≡ vec_capacity held.old }
{
    held[h.0 as usize - 1] += 1;
}

/// Counts one reference less of a handle.
fn release(held: &mut Vec<u64>, h: Handle)
    requires { 1 ≤ count_at held.old.items h }
    ensures counted { (k : ℕ) → count_at held.new.items k + cond (h == k) 1 0 ≡ count_at held.old.items k }
    ensures len { length held.new.items ≡ length held.old.items }
    ensures capacity { vec_capacity held.new ≡ vec_capacity held.old }
{
    held[h.0 as usize - 1] -= 1;
}
