//! What the simple command takes.

ghost use Rattle.std.specs.Prelude.{◌≡◌, ◌≢◌, [], map, IfOk, Err, string_bytes};
ghost use Rattle.clap.specs.Words.{HasMatchesOf, app_of};
ghost use Rattle.clap.specs.Faults.{fault_of};
ghost use Rattle.command_line.specs.App.{the_app};
ghost use Rattle.command_line.specs.declared.rewriting.Failure.TheVariants.{Usage};

use crate::rewriting::Failure;
use clap::error::ErrorKind;
use clap::{Arg, ArgMatches, Command};
use std::alloc::{AllocError, Global};

/// The command: its options and files.
fn app<'a>(alloc: Global) -> Result<Command<'a>, AllocError>
    ensures { IfOk result (λ c. app_of c ≡ the_app) }
{
    let rewrites = Arg::new(alloc, "max-rewrites").long("max-rewrites");
    let emit = Arg::new(alloc, "emit").long("emit");
    let generate = Arg::new(alloc, "generate").long("generate");
    let files = Arg::new(alloc, "FILE").num_args(0..);
    Command::new(alloc, "pdllrw")
        .no_binary_name(true)
        .disable_help_flag(true)
        .disable_version_flag(true)
        .arg(rewrites)?
        .arg(emit)?
        .arg(generate)?
        .arg(files)
}

/// What the words say, or that the command doesn't take them.
pub fn matches<'a>(alloc: Global, words: &'a [String]) -> Result<ArgMatches<'a>, Failure>
    ensures taken { IfOk result (λ m. fault_of the_app (map string_bytes words.entry.now) ≡ []) }
    ensures value { IfOk result (HasMatchesOf the_app (map string_bytes words.entry.now)) }
    ensures usage { result ≡ Err Usage → fault_of the_app (map string_bytes words.entry.now) ≢ [] }
{
    let Ok(command) = app(alloc) else {
        return Err(Failure::Memory);
    };
    match command.try_get_matches_from(words) {
        Ok(matches) => Ok(matches),
        Err(error) => {
            if error.kind() == ErrorKind::OutOfMemory {
                return Err(Failure::Memory);
            }
            Err(Failure::Usage)
        }
    }
}
