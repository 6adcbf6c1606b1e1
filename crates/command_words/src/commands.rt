//! The commands, and the words that give them.
ghost use Rattle.std.specs.Prelude.{◌≡◌, ◌≤◌, Some, None, Err, IfOk, IfSome, codes, map, string_bytes};
ghost use Rattle.clap.specs.Words.{first_value, found_of};
ghost use Rattle.command_words.specs.Commands.{CanBeMade, IsInRange, alone, commanded, needed, print_of, print_or_images, recipe_of, ring_of, run_of, solo_of, workers_or_four};
ghost use Rattle.command_words.specs.Options.{options_of};

use crate::numbers::number_in;
use crate::options::{NotTaken, values_in};
use clap::ArgMatches;
use report_text::Print;
use std::alloc::Global;

/// How a trace is made.
#[derive(Clone, Copy, Debug, PartialEq, Eq)]
pub struct Recipe {
    /// Where the draws begin.
    pub seed: u32,
    /// How many callers render, 1 to 8.
    pub callers: u32,
    /// How many frames each renders, 1 to 64.
    pub frames: u32,
}

/// What the words ask for.
#[derive(Clone, Copy, Debug, PartialEq, Eq)]
pub enum Command {
    /// Replays a trace on one thread, and prints this of it.
    Solo(Print),
    /// Replays a trace with a thread for each caller and 0 to 16 workers, and prints this of it.
    Run {
        print: Print,
        workers: u32,
    },
    /// Writes the trace that is made so.
    Make(Recipe),
    /// Replays the trace that is made so on one thread, and prints the summary.
    Demo(Recipe),
    /// Writes the tables of kinds and parameters.
    Describe,
    /// Serves calls that come as framed bytes.
    Wire,
    /// Checks a printed journal.
    Check,
    /// Renders 1 to 64 pictures in 2 to 16 frames that 1 to 8 readers read.
    Ring {
        slots: u32,
        pictures: u32,
        readers: u32,
    },
}

static PRINT: [&str; 1] = ["print"];

static PRINT_AND_WORKERS: [&str; 2] = ["print", "workers"];

static MADE: [&str; 3] = ["seed", "callers", "frames"];

static RING: [&str; 3] = ["slots", "pictures", "readers"];

/// The command that the words after the program's name give. The first is the command's word. Its
/// options follow in any order, each at most once, as two words, a name and its value, or as one word
/// that is cut at its first `=`.
///
/// # Errors
/// `Refused` only where the words give no command; `NoMemory`.
pub fn command_of(alloc: Global, words: &[String]) -> Result<Command, NotTaken>
    ensures given { IfOk result (λ command. commanded words.now ≡ Some command) }
    ensures refused { (result ≡ Err NotTaken.Refused) → commanded words.now ≡ None }
    ensures in_range { IfOk result IsInRange }
{
    if words.is_empty() {
        return Err(NotTaken::Refused);
    }
    let options = &words[1..];
    match words[0].as_str() {
        "solo" => solo_of(alloc, options),
        "run" => run_of(alloc, options),
        "make" => recipe_of(alloc, options).map(Command::Make),
        "demo" => recipe_of(alloc, options).map(Command::Demo),
        "describe" => alone(alloc, Command::Describe, options),
        "wire" => alone(alloc, Command::Wire, options),
        "check" => alone(alloc, Command::Check, options),
        "ring" => ring_of(alloc, options),
        _ => Err(NotTaken::Refused),
    }
}

/// A replay on one thread, which prints images where nothing else is asked for.
fn solo_of(alloc: Global, words: &[String]) -> Result<Command, NotTaken>
    ensures given { IfOk result (λ command. solo_of (options_of (map string_bytes words.now)) ≡ Some command) }
    ensures refused { (result ≡ Err NotTaken.Refused) → solo_of (options_of (map string_bytes words.now)) ≡ None }
    ensures in_range { IfOk result IsInRange }
{
    let values = values_in(alloc, PRINT.as_slice(), words)?;
    match print_in(&values) {
        Some(print) => Ok(Command::Solo(print)),
        None => Err(NotTaken::Refused),
    }
}

/// A replay with threads, which prints images and has four workers where nothing else is asked for.
fn run_of(alloc: Global, words: &[String]) -> Result<Command, NotTaken>
    ensures given { IfOk result (λ command. run_of (options_of (map string_bytes words.now)) ≡ Some command) }
    ensures refused { (result ≡ Err NotTaken.Refused) → run_of (options_of (map string_bytes words.now)) ≡ None }
    ensures in_range { IfOk result IsInRange }
{
    let values = values_in(alloc, PRINT_AND_WORKERS.as_slice(), words)?;
    let print = match print_in(&values) {
        Some(print) => print,
        None => return Err(NotTaken::Refused),
    };
    let workers = match workers_in(&values) {
        Some(workers) => workers,
        None => return Err(NotTaken::Refused),
    };
    Ok(Command::Run { print, workers })
}

/// How a trace is made: each of its three numbers has to be given.
fn recipe_of(alloc: Global, words: &[String]) -> Result<Recipe, NotTaken>
    ensures given { IfOk result (λ recipe. recipe_of (options_of (map string_bytes words.now)) ≡ Some recipe) }
    ensures refused { (result ≡ Err NotTaken.Refused) → recipe_of (options_of (map string_bytes words.now)) ≡ None }
    ensures in_range { IfOk result CanBeMade }
{
    let values = values_in(alloc, MADE.as_slice(), words)?;
    let seed = number_at(&values, "seed", 0, 4294967295);
    let callers = number_at(&values, "callers", 1, 8);
    let frames = number_at(&values, "frames", 1, 64);
    match (seed, callers, frames) {
        (Some(seed), Some(callers), Some(frames)) => Ok(Recipe {
            seed,
            callers,
            frames,
        }),
        _ => Err(NotTaken::Refused),
    }
}

/// A ring of frames: each of its three numbers has to be given.
fn ring_of(alloc: Global, words: &[String]) -> Result<Command, NotTaken>
    ensures given { IfOk result (λ command. ring_of (options_of (map string_bytes words.now)) ≡ Some command) }
    ensures refused { (result ≡ Err NotTaken.Refused) → ring_of (options_of (map string_bytes words.now)) ≡ None }
    ensures in_range { IfOk result IsInRange }
{
    let values = values_in(alloc, RING.as_slice(), words)?;
    let slots = number_at(&values, "slots", 2, 16);
    let pictures = number_at(&values, "pictures", 1, 64);
    let readers = number_at(&values, "readers", 1, 8);
    match (slots, pictures, readers) {
        (Some(slots), Some(pictures), Some(readers)) => Ok(Command::Ring {
            slots,
            pictures,
            readers,
        }),
        _ => Err(NotTaken::Refused),
    }
}

/// A command without options.
fn alone(alloc: Global, command: Command, words: &[String]) -> Result<Command, NotTaken>
    ensures given { IfOk result (λ given. alone command (options_of (map string_bytes words.now)) ≡ Some given) }
    ensures refused { (result ≡ Err NotTaken.Refused) → alone command (options_of (map string_bytes words.now)) ≡ None }
    ensures same { IfOk result (λ given. given ≡ command) }
{
    let _none = values_in(alloc, &[], words)?;
    Ok(command)
}

/// What is printed, images where nothing else is asked for.
fn print_in(values: &ArgMatches<'_>) -> Option<Print>
    ensures { result ≡ print_or_images (first_value (found_of values.now) (codes "print")) }
{
    match values.get_str("print") {
        Some(value) => print_of(value),
        None => Some(Print::Images),
    }
}

/// What is printed, by its word.
fn print_of(value: &str) -> Option<Print>
    ensures { result ≡ print_of value.now }
{
    match value {
        "images" => Some(Print::Images),
        "journal" => Some(Print::Journal),
        "summary" => Some(Print::Summary),
        _ => None,
    }
}

/// How many workers render, four where no number is given.
fn workers_in(values: &ArgMatches<'_>) -> Option<u32>
    ensures value { result ≡ workers_or_four (first_value (found_of values.now) (codes "workers")) }
    ensures in_range { IfSome result (λ n. n ≤ 16) }
{
    match values.get_str("workers") {
        Some(value) => number_in(value, 0, 16),
        None => Some(4),
    }
}

/// The number that an option has to give.
fn number_at(values: &ArgMatches<'_>, name: &str, least: u32, most: u32) -> Option<u32>
    ensures value { result ≡ needed least most (first_value (found_of values.now) name.now) }
    ensures in_range { IfSome result (λ n. (least ≤ n) × (n ≤ most)) }
{
    number_in(values.get_str(name)?, least, most)
}
