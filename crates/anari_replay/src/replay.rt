//! The top call: words and a trace in, what the words ask for out.
ghost use Rattle.std.specs.Prelude.{◌≡◌, ◌↔◌, ◌⊎◌, [], None, false, IsSome, IfErr, IfOk, IsErrOf, OnErr, OnOk};
ghost use Rattle.std.specs.Io.KnownBytes.{Appends};
ghost use Rattle.command_words.specs.Commands.{CanBeMade, IsInRange, commanded};
ghost use Rattle.report_text.specs.Reports.{report};
ghost use Rattle.replay_core.specs.Views.{notices_of};
ghost use Rattle.replay_io.specs.Faults.{Rose};
ghost use Rattle.replay_io.specs.Streams.{AppendsPrefix};
ghost use Rattle.seq_model.specs.Builds.{builds};
ghost use Rattle.seq_model.specs.Legal.{Legal};
ghost use Rattle.seq_model.specs.Told.{told};
ghost use Rattle.table_text.specs.Tables.{description};
ghost use Rattle.trace_make.specs.Made.{made};
ghost use Rattle.anari_replay.specs.Input.{GaveNoMore, IsRefused, IsReplay, IsReplayOf};
ghost use Rattle.anari_replay.specs.Faults.{IsCauseAfter, IsCauseBefore, NoneRose};
ghost use Rattle.anari_replay.specs.Outcome.{IsAfterReplay, IsBeforeReplay, IsInPart};
ghost use Rattle.anari_replay.specs.Output.{FindsTrace, IsEnding, IsHistoryOf, MakesNothing, ReadsNothing, output_of};

use crate::fault::Fault;
use crate::outcome::Outcome;
use command_words::{Command, NotTaken, Recipe, command_of};
use made_traces::make_trace;
use replay_core::{Replayed, solo};
use replay_io::{Sink, Source, read_up_to, write_all};
use report_text::{Print, report};
use std::alloc::Global;
use table_text::describe;
use trace_make::make;
use trace_text::read_trace;

/// One byte more than a trace may have.
const MOST_READ: usize = 67108865;

/// Does what the words after the program's name ask for: `solo` replays the trace that `source` gives on
/// one thread and writes what is printed of it to `sink`, `make` writes the trace that a seed makes, `demo`
/// replays that trace and writes the summary, `describe` writes the tables of kinds and parameters. Waits for
/// nobody and always returns.
pub fn run_plain<S: Source, K: Sink>(
    alloc: Global,
    words: &[String],
    source: &mut S,
    sink: &mut K,
) -> Outcome
    // Each command has its own statuses. Words that give none, or one that is not done here, come to
    // status 2, but for want of memory.
    ensures known { IsEnding (commanded words.now) result.status }

    // A command that finds a trace where it reads is done, but for want of memory, where no fault is counted.
    ensures complete { FindsTrace (commanded words.now) (S.left source.old)
        → NoneRose (S.faults source.old) (S.faults source.new) → NoneRose (K.faults sink.old) (K.faults sink.new)
        → (result.status ≡ 0) ⊎ (result.status ≡ 3) }

    // Only `solo` reads, and no more than a trace may have and one byte.
    ensures unread { ReadsNothing (commanded words.now) → source.new ≡ source.old }
    ensures taken { GaveNoMore (S.left source.old) (S.left source.new) }

    // A fault is one that the source or the sink counted in this call.
    ensures read_fault { result.status ≡ 4 → Rose (S.faults source.old) (S.faults source.new) }
    ensures write_fault { result.status ≡ 5 → Rose (K.faults sink.old) (K.faults sink.new) }

    // A trace is refused by the first rule that the bytes break.
    ensures refused { result.status ≡ 6
        → IsRefused (S.left source.old) (S.left source.new) (S.ended source.new) result.fault }
    ensures fault { IsSome result.fault ↔ (result.status ≡ 6) }

    // The history is that of the trace on one thread. With every status it is legal, and told and
    // builds are its own.
    ensures replayed { IsAfterReplay result.status
        → IsHistoryOf (commanded words.now) (S.left source.old) (S.left source.new) (S.ended source.new) result.history }
    ensures legal { Legal result.history }
    ensures told { notices_of result.told ≡ told result.history }
    ensures builds { result.builds ≡ builds result.history }

    // What is written is the command's output, or some of its first bytes.
    ensures written { result.status ≡ 0
        → Appends (K.written sink.old) (K.written sink.new) (output_of (commanded words.now) result.history result.builds) }
    ensures written_in_part { IsInPart result.status
        → AppendsPrefix (K.written sink.old) (K.written sink.new) (output_of (commanded words.now) result.history result.builds) }

    // Nothing is made where no replay is asked for, and nothing made or written where the words or the
    // trace are refused or a read failed.
    ensures uncalled { MakesNothing (commanded words.now) → (result.history ≡ []) × (notices_of result.told ≡ []) }
    ensures unmade { IsBeforeReplay result.status → result.history ≡ [] }
    ensures untold { IsBeforeReplay result.status → notices_of result.told ≡ [] }
    ensures silent { IsBeforeReplay result.status → sink.new ≡ sink.old }
{
    match command_of(alloc, words) {
        Ok(command) => run_command(alloc, command, source, sink),
        Err(NotTaken::Refused) => Outcome::without_replay(alloc, Err(Fault::Words)),
        Err(NotTaken::NoMemory) => Outcome::without_replay(alloc, Err(Fault::Memory)),
    }
}

/// Does a command.
#[tactic(auto, using(crate::proofs::Complete::gave_nothing))]
fn run_command<S: Source, K: Sink>(
    alloc: Global,
    command: Command,
    source: &mut S,
    sink: &mut K,
) -> Outcome
    requires { IsInRange command }
    ensures known { IsEnding (Some command) result.status }
    ensures unread { ReadsNothing (Some command) → source.new ≡ source.old }
    ensures taken { GaveNoMore (S.left source.old) (S.left source.new) }
    ensures read_fault { result.status ≡ 4 → Rose (S.faults source.old) (S.faults source.new) }
    ensures write_fault { result.status ≡ 5 → Rose (K.faults sink.old) (K.faults sink.new) }
    ensures refused { result.status ≡ 6
        → IsRefused (S.left source.old) (S.left source.new) (S.ended source.new) result.fault }
    ensures fault { IsSome result.fault ↔ (result.status ≡ 6) }
    ensures replayed { IsAfterReplay result.status
        → IsHistoryOf (Some command) (S.left source.old) (S.left source.new) (S.ended source.new) result.history }
    ensures legal { Legal result.history }
    ensures told { notices_of result.told ≡ told result.history }
    ensures builds { result.builds ≡ builds result.history }
    ensures written { result.status ≡ 0
        → Appends (K.written sink.old) (K.written sink.new) (output_of (Some command) result.history result.builds) }
    ensures written_in_part { IsInPart result.status
        → AppendsPrefix (K.written sink.old) (K.written sink.new) (output_of (Some command) result.history result.builds) }
    ensures uncalled { MakesNothing (Some command) → (result.history ≡ []) × (notices_of result.told ≡ []) }
    ensures unmade { IsBeforeReplay result.status → result.history ≡ [] }
    ensures untold { IsBeforeReplay result.status → notices_of result.told ≡ [] }
    ensures silent { IsBeforeReplay result.status → sink.new ≡ sink.old }
{
    match command {
        Command::Solo(print) => run_solo(alloc, print, source, sink),
        Command::Make(recipe) => {
            let written = write_made(alloc, recipe, sink);
            Outcome::without_replay(alloc, written)
        }
        Command::Demo(recipe) => run_demo(alloc, recipe, sink),
        Command::Describe => {
            let written = write_tables(alloc, sink);
            Outcome::without_replay(alloc, written)
        }
        Command::Run { .. } | Command::Wire | Command::Check | Command::Ring { .. } =>
            Outcome::without_replay(alloc, Err(Fault::Words)),
    }
}

/// Replays the trace that `source` gives on one thread, and writes what is printed of it.
fn run_solo<S: Source, K: Sink>(
    alloc: Global,
    print: Print,
    source: &mut S,
    sink: &mut K,
) -> Outcome
    ensures known { IsEnding (Some (Command.Solo print)) result.status }
    ensures taken { GaveNoMore (S.left source.old) (S.left source.new) }
    ensures read_fault { result.status ≡ 4 → Rose (S.faults source.old) (S.faults source.new) }
    ensures write_fault { result.status ≡ 5 → Rose (K.faults sink.old) (K.faults sink.new) }
    ensures refused { result.status ≡ 6
        → IsRefused (S.left source.old) (S.left source.new) (S.ended source.new) result.fault }
    ensures fault { IsSome result.fault ↔ (result.status ≡ 6) }
    ensures replayed { IsAfterReplay result.status
        → IsReplay (S.left source.old) (S.left source.new) (S.ended source.new) result.history }
    ensures legal { Legal result.history }
    ensures told { notices_of result.told ≡ told result.history }
    ensures builds { result.builds ≡ builds result.history }
    ensures written { result.status ≡ 0
        → Appends (K.written sink.old) (K.written sink.new) (report print result.history result.builds) }
    ensures written_in_part { IsInPart result.status
        → AppendsPrefix (K.written sink.old) (K.written sink.new) (report print result.history result.builds) }
    ensures unmade { IsBeforeReplay result.status → result.history ≡ [] }
    ensures untold { IsBeforeReplay result.status → notices_of result.told ≡ [] }
    ensures silent { IsBeforeReplay result.status → sink.new ≡ sink.old }
{
    match replay(alloc, source) {
        Ok(replayed) => {
            let written = write_report(alloc, print, &replayed, sink);
            Outcome::of(replayed, written)
        }
        Err(why) => Outcome::without_replay(alloc, Err(why)),
    }
}

/// Replays the trace that is made so on one thread, and writes the summary.
fn run_demo<K: Sink>(alloc: Global, recipe: Recipe, sink: &mut K) -> Outcome
    requires { CanBeMade recipe }
    ensures known { IsEnding (Some (Command.Demo recipe)) result.status }
    ensures write_fault { result.status ≡ 5 → Rose (K.faults sink.old) (K.faults sink.new) }
    ensures fault { result.fault ≡ None }
    ensures replayed { IsAfterReplay result.status
        → IsReplayOf (made recipe.seed recipe.callers recipe.frames) result.history }
    ensures legal { Legal result.history }
    ensures told { notices_of result.told ≡ told result.history }
    ensures builds { result.builds ≡ builds result.history }
    ensures written { result.status ≡ 0
        → Appends (K.written sink.old) (K.written sink.new) (report Print.Summary result.history result.builds) }
    ensures written_in_part { IsInPart result.status
        → AppendsPrefix (K.written sink.old) (K.written sink.new) (report Print.Summary result.history result.builds) }
{
    match make_trace(alloc, recipe.seed, recipe.callers, recipe.frames) {
        Ok(trace) => {
            let replayed = solo(alloc, &trace);
            let written = write_report(alloc, Print::Summary, &replayed, sink);
            Outcome::of(replayed, written)
        }
        Err(why) => Outcome::without_replay(alloc, Err(Fault::from(why))),
    }
}

/// The replay of the trace that `source` gives. Each cause of an early end is found before anything
/// after it is done.
fn replay<S: Source>(alloc: Global, source: &mut S) -> Result<Replayed, Fault>
    ensures taken { GaveNoMore (S.left source.old) (S.left source.new) }
    ensures read_fault { IsErrOf result Fault.Read → Rose (S.faults source.old) (S.faults source.new) }
    ensures cause { IfErr result
        (IsCauseBefore (S.left source.old) (S.left source.new) (S.ended source.new)) }
    ensures replayed { IfOk result (λ replayed. replayed.short ≡ false
        → IsReplay (S.left source.old) (S.left source.new) (S.ended source.new) replayed.history) }
    ensures legal { IfOk result (λ replayed. Legal replayed.history) }
    ensures told { IfOk result (λ replayed. notices_of replayed.told ≡ told replayed.history) }
    ensures builds { IfOk result (λ replayed. replayed.builds ≡ builds replayed.history) }
{
    let bytes = read_up_to(alloc, source, MOST_READ)?;
    let trace = read_trace(alloc, bytes.as_slice())?;
    Ok(solo(alloc, &trace))
}

/// Writes what is printed of a replay, unless it was short of memory.
fn write_report<K: Sink>(
    alloc: Global,
    print: Print,
    replayed: &Replayed,
    sink: &mut K,
) -> Result<(), Fault>
    requires legal { Legal replayed.now.history }
    requires told { notices_of replayed.now.told ≡ told replayed.now.history }
    ensures whole { OnOk result (replayed.now.short ≡ false) }
    ensures written { OnOk result (Appends (K.written sink.old) (K.written sink.new)
        (report print replayed.now.history replayed.now.builds)) }
    ensures in_part { OnErr result (AppendsPrefix (K.written sink.old) (K.written sink.new)
        (report print replayed.now.history replayed.now.builds)) }
    ensures whole_in_part { IsErrOf result Fault.Write → replayed.now.short ≡ false }
    ensures write_fault { IsErrOf result Fault.Write → Rose (K.faults sink.old) (K.faults sink.new) }
    ensures cause { IfErr result IsCauseAfter }
{
    if replayed.short {
        return Err(Fault::Memory);
    }
    let told = replayed.told.as_slice();
    let text = report(alloc, print, &replayed.history, told, replayed.builds)?;
    write_all(sink, text.as_slice())?;
    Ok(())
}

/// Writes the tables of kinds and parameters.
fn write_tables<K: Sink>(alloc: Global, sink: &mut K) -> Result<(), Fault>
    ensures written { OnOk result (Appends (K.written sink.old) (K.written sink.new) description) }
    ensures in_part { OnErr result (AppendsPrefix (K.written sink.old) (K.written sink.new) description) }
    ensures write_fault { IsErrOf result Fault.Write → Rose (K.faults sink.old) (K.faults sink.new) }
    ensures cause { IfErr result IsCauseAfter }
{
    let tables = describe(alloc)?;
    write_all(sink, tables.as_slice())?;
    Ok(())
}

/// Writes the trace that is made so.
fn write_made<K: Sink>(alloc: Global, recipe: Recipe, sink: &mut K) -> Result<(), Fault>
    requires { CanBeMade recipe }
    ensures written { OnOk result (Appends (K.written sink.old) (K.written sink.new)
        (made recipe.seed recipe.callers recipe.frames)) }
    ensures in_part { OnErr result (AppendsPrefix (K.written sink.old) (K.written sink.new)
        (made recipe.seed recipe.callers recipe.frames)) }
    ensures write_fault { IsErrOf result Fault.Write → Rose (K.faults sink.old) (K.faults sink.new) }
    ensures cause { IfErr result IsCauseAfter }
{
    let text = make(alloc, recipe.seed, recipe.callers, recipe.frames)?;
    write_all(sink, text.as_bytes())?;
    Ok(())
}
