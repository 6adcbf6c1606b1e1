//! The options behind the command's word.
ghost use Rattle.std.specs.Prelude.{◌≡◌, ◌≢◌, ◌&&◌, IfOk, Err, List, [], ℕ, map, codes, false, true, string_bytes};
ghost use Rattle.std.specs.List.{list_any};
ghost use Rattle.std.specs.Str.{bytes_eq};
ghost use Rattle.clap.specs.Walk.{texts};
ghost use Rattle.clap.specs.Words.{first_value, found_of, fault_of, matches_of, rows_of};
ghost use Rattle.command_words.specs.Options.{are_taken, options_of, value_of};
ghost use Rattle.command_words.specs.Reading.{app_with, are_plain, dashed, is_named};
ghost use Rattle.command_words.specs.declared.options.NotTaken.TheVariants.{NoMemory as NoRoom};

use clap::error::ErrorKind;
use clap::{Arg, ArgAction, ArgMatches, Command};
use std::alloc::{AllocError, Global};

/// Why words were not taken.
#[derive(Clone, Copy, Debug, PartialEq, Eq)]
pub enum NotTaken {
    /// They give no command.
    Refused,
    /// There was no memory to read them.
    NoMemory,
}

impl From<AllocError> for NotTaken {
    ghost from_gives = { λ _ e. e ≡ NoRoom };

    fn from(_: AllocError) -> Self {
        NotTaken::NoMemory
    }
}

/// What `clap` finds of the options with these names in words of which none is `--`.
fn matches_in<'a>(
    alloc: Global,
    names: &'a [&'a str],
    words: &'a [String],
) -> Result<ArgMatches<'a>, NotTaken>
    ensures found { IfOk result (λ m. (fault_of (app_with (texts names.now)) (map string_bytes words.now) ≡ [])
        × (rows_of (found_of m) ≡ matches_of (app_with (texts names.now)) (map string_bytes words.now))) }
    ensures refused { (result ≡ Err NotTaken.Refused) → fault_of (app_with (texts names.now)) (map string_bytes words.now) ≢ [] }
{
    let mut command = Command::new(alloc, "words")
        .disable_help_flag(true)
        .no_binary_name(true);
    for name in names {
        let option = Arg::new(alloc, name).long(name).action(ArgAction::Set);
        command = command.arg(option)?;
    }
    match command.try_get_matches_from(words) {
        Ok(matches) => Ok(matches),
        Err(error) => match error.kind() {
            ErrorKind::OutOfMemory => Err(NotTaken::NoMemory),
            _ => Err(NotTaken::Refused),
        },
    }
}

/// Whether a word is two hyphens alone, behind which `clap` would read no options.
fn has_dashes(words: &[String]) -> bool
    ensures { result ≡ list_any (λ word. bytes_eq (string_bytes word) (codes "--")) words.now }
{
    words.iter().any(|word| word.as_str() == "--")
}

/// The values that words give to options of these names: each option has one of the names and a value,
/// as two words or as one word that is cut at its first `=`, and each name stands at most once.
///
/// # Errors
/// `Refused` where the words are others, or a value begins with a hyphen; `NoMemory`.
pub fn values_in<'a>(
    alloc: Global,
    names: &'a [&'a str],
    words: &'a [String],
) -> Result<ArgMatches<'a>, NotTaken>
    requires named { is_named (texts names.now) ≡ true }
    ensures taken { IfOk result (λ _. are_taken (map dashed (texts names.now)) (options_of (map string_bytes words.now)) ≡ true) }
    ensures values { IfOk result (λ m. (name : List ℕ) → first_value (found_of m) name ≡ value_of (dashed name) (options_of (map string_bytes words.now))) }
    ensures refused { (result ≡ Err NotTaken.Refused) → (are_taken (map dashed (texts names.now)) (options_of (map string_bytes words.now))
        && are_plain (options_of (map string_bytes words.now))) ≡ false }
{
    if has_dashes(words) {
        return Err(NotTaken::Refused);
    }
    matches_in(alloc, names, words)
}
