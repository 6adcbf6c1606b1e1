//! The rows, and two threads at one turn.
ghost use Rattle.std.specs.Prelude.{◌≡◌, ◌+◌, ◌++◌, Some, false, [], ◌∷◌, length, OnOk, OnErr, IfOk};
ghost use Rattle.turn_lock.specs.Views.{half, whole, IsWhole};
ghost use Rattle.turn_lock.specs.Passes.{caller_number, holding, mine, share, fixed, IsPassOf};

use std::alloc::{AllocError, Global};
use std::sync::Wait;
use std::test::Fail;
use std::thread::{Threads, join};
use turn_lock::{Journaled, Pass, Turn, places_are_apart};

type LogPass = Pass<Option<u32>, u32>;

/// A history of caller numbers, or none for a note, under a title.
#[derive(Debug, Drop)]
struct Log {
    entries: Vec<Option<u32>>,
    title: u32,
}

impl Journaled for Log {
    type Entry = Option<u32>;

    type Fixed = u32;

    ghost history = { λ log. log.entries.items };

    ghost fixed = { λ log. log.title };

    ghost by = { λ entry. entry };

    fn history_len(&self) -> u64 {
        self.entries.len() as u64
    }
}

impl Log {
    fn add(&mut self, entry: Option<u32>) -> Result<(), AllocError>
        ensures ok { OnOk result (self.new.entries.items ≡ self.old.entries.items ++ entry ∷ []) }
        ensures err { OnErr result (self.new.entries.items ≡ self.old.entries.items) }
        ensures title { self.new.title ≡ self.old.title }
    {
        self.entries.push(entry)?;
        Ok(())
    }
}

// Enters, adds an entry of the pass's caller, and leaves. Answers the length that it found.
fn call<R: Wait>(rt: &R, turn: &Turn<Log>, pass: &mut LogPass) -> Result<usize, AllocError>
    requires pass { IsPassOf turn.now pass.old }
    requires idle { holding pass.old ≡ false }
    ensures pass { IsPassOf turn.now pass.new × (holding pass.new ≡ false) }
    ensures caller { caller_number pass.new ≡ caller_number pass.old }
    ensures share { share pass.new ≡ share pass.old }
    ensures mine { IfOk result (λ found. mine pass.new ≡ mine pass.old ++ (found + 1) ∷ []) }
{
    let mut held = turn.enter(rt, pass);
    let found = held.state.entries.len();
    let added = held.state.add(Some(pass.caller()));
    turn.leave(pass, held);
    added?;
    Ok(found)
}

// What a test knows of a pass before it runs.
fn has_made_first(pass: &LogPass)
    requires { mine pass.now ≡ 1 ∷ [] }
{
    let _ = pass;
}

fn has_made_both(pass: &LogPass)
    requires made { mine pass.now ≡ 1 ∷ 2 ∷ [] }
    requires whole { IsWhole (share pass.now) }
{
    let _ = pass;
}

fn new_turn(alloc: Global) -> Result<(Turn<Log>, LogPass), AllocError>
    ensures pass { IfOk result (λ t. IsPassOf t.0 t.1 × (holding t.1 ≡ false)) }
    ensures share { IfOk result (λ t. (share t.1 ≡ whole) × (mine t.1 ≡ [])) }
{
    let log = Log {
        entries: Vec::new(alloc),
        title: 7,
    };
    match Turn::new(alloc, log) {
        Ok(made) => Ok(made),
        Err((_, _log)) => Err(AllocError),
    }
}

#[test]
fn passes_know_the_places_of_their_calls(rt: HostRuntime) -> Result<(), Fail> {
    places_are_apart::<Log>();
    let (turn, mut pass) = new_turn(rt.alloc())?;
    assert_eq!(rt; (pass.caller(), pass.seen_len()), (0, 0));
    assert_eq!(rt; call(&rt, &turn, &mut pass)?, 0);
    has_made_first(&pass);
    assert_eq!(rt; (pass.caller(), pass.seen_len()), (0, 1));

    let mut other = turn.split(&mut pass, 1);
    assert_eq!(rt; (other.caller(), other.seen_len()), (1, 1));
    assert_eq!(rt; call(&rt, &turn, &mut other)?, 1);
    assert_eq!(rt; (pass.seen_len(), other.seen_len()), (1, 2));
    turn.join(&mut pass, other);
    has_made_both(&pass);
    assert_eq!(rt; (pass.caller(), pass.seen_len()), (0, 2));

    let log = turn.close(pass);
    assert_eq!(rt; log.entries.as_slice(), [Some(0), Some(1)].as_slice());
    assert_eq!(rt; log.title, 7);
    Ok(())
}

// Calls so many times. Answers the pass, and how many calls there was memory for.
fn call_often<R: Wait>(rt: &R, turn: &Turn<Log>, mut pass: LogPass, count: u32) -> (LogPass, u32)
    requires pass { IsPassOf turn.now pass }
    requires idle { holding pass ≡ false }
    ensures pass { IsPassOf turn.now result.0 × (holding result.0 ≡ false) }
    ensures share { share result.0 ≡ share pass }
{
    let mut made = 0;
    for _ in 0..count {
        if call(rt, turn, &mut pass).is_ok() {
            made += 1;
        }
    }
    (pass, made)
}

// Two threads, each with half of the pass, call a hundred times each.
fn two_callers<R: Threads + Wait + Sync>(
    rt: &R,
    turn: &Turn<Log>,
    mut pass: LogPass,
) -> (LogPass, u32, u32)
    requires pass { IsPassOf turn.now pass }
    requires idle { holding pass ≡ false }
    requires share { share pass ≡ whole }
    ensures pass { IsPassOf turn.now result.0 × (holding result.0 ≡ false) }
    ensures share { IsWhole (share result.0) }
{
    let other = turn.split(&mut pass, 1);
    let ((mut pass, first), (other, second)) = join(
        rt,
        move || -> (LogPass, u32)
            requires { IsPassOf turn.now pass × (holding pass ≡ false) × (share pass ≡ half whole) }
            ensures { IsPassOf turn.entry.now result.0 × (holding result.0 ≡ false) × (share result.0 ≡ half whole) }
        { call_often(rt, turn, pass, 100) },
        move || -> (LogPass, u32)
            requires { IsPassOf turn.now other × (holding other ≡ false) × (share other ≡ half whole) }
            ensures { IsPassOf turn.entry.now result.0 × (holding result.0 ≡ false) × (share result.0 ≡ half whole) }
        { call_often(rt, turn, other, 100) },
    );
    turn.join(&mut pass, other);
    (pass, first, second)
}

#[test]
fn two_threads_share_a_turn(rt: HostRuntime) -> Result<(), Fail> {
    let (turn, pass) = new_turn(rt.alloc())?;
    let (pass, first, second) = two_callers(&rt, &turn, pass);
    assert_eq!(rt; (first, second), (100, 100));
    assert_eq!(rt; pass.seen_len(), 200);
    let log = turn.close(pass);
    let of_first = log.entries.iter().filter(|e| **e == Some(0)).count();
    let of_second = log.entries.iter().filter(|e| **e == Some(1)).count();
    assert_eq!(rt; (of_first, of_second), (100, 100));
    Ok(())
}
