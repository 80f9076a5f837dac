//! What the words of the command ask for.

ghost use Rattle.std.specs.Prelude.{◌≡◌, [], map, codes, unwrap_or, IfOk, Some, None, Err, string_bytes};
ghost use Rattle.std.specs.Option.{option_map};
ghost use Rattle.clap.specs.Matches.{found_of};
ghost use Rattle.clap.specs.Walk.{rows_of, first_of, all_of};
ghost use Rattle.command_line.specs.View.{rewriting_of};
ghost use Rattle.command_line.specs.Command as spec;
ghost use Rattle.command_line.specs.declared.rewriting.Failure.TheVariants.{Usage};

use crate::number::number_up_to;
use crate::simple::matches;
use clap::ArgMatches;
use std::alloc::Global;

/// Why there is no command: the words aren't one, or memory is out.
#[derive(Clone, Copy, Debug, PartialEq, Eq)]
pub enum Failure {
    Usage,
    Memory,
}

/// A module is to be rewritten by patterns, with at most `bound` steps.
#[derive(Clone, Copy, Debug)]
pub struct Rewriting<'a> {
    pub bound: u32,
    /// The name of the pattern file.
    pub patterns: &'a str,
    /// The name of the module file.
    pub module_file: &'a str,
}

const DEFAULT_BOUND: u32 = 10_000;

const MAX_BOUND: u32 = 1_000_000;

/// The bound that is written, or the one of a command without.
fn bound_of(word: Option<&str>) -> Option<u32>
    ensures { result ≡ spec.bound_of (option_map (λ s. s.now) word.entry) }
{
    match word {
        None => Some(DEFAULT_BOUND),
        Some(word) => number_up_to(MAX_BOUND, word.as_bytes()),
    }
}

/// The command of these files.
fn files_of<'a>(bound: u32, files: &[&'a str]) -> Option<Rewriting<'a>>
    ensures { option_map rewriting_of result ≡ spec.files_of bound (map (λ f. f.now) files.now) }
{
    match files {
        [patterns, module_file] => Some(Rewriting {
            bound,
            patterns: *patterns,
            module_file: *module_file,
        }),
        _ => None,
    }
}

/// The command of these files, if there are any.
fn given<'a>(bound: u32, files: Option<&[&'a str]>) -> Option<Rewriting<'a>>
    ensures { option_map rewriting_of result ≡ spec.files_of bound (unwrap_or (option_map (λ fs. map (λ f. f.now) fs.now) files.entry) []) }
{
    match files {
        None => None,
        Some(files) => files_of(bound, files),
    }
}

/// What the words ask for that have these options and files.
fn asked<'a>(
    bound: Option<&str>,
    emit: Option<&str>,
    generate: Option<&str>,
    files: Option<&[&'a str]>,
) -> Option<Rewriting<'a>>
    ensures { option_map rewriting_of result ≡ spec.rewriting_of (option_map (λ s. s.now) bound.entry) (option_map (λ s. s.now) emit.entry) (option_map (λ s. s.now) generate.entry) (unwrap_or (option_map (λ fs. map (λ f. f.now) fs.now) files.entry) []) }
{
    match (emit, generate) {
        (None, None) => match bound_of(bound) {
            None => None,
            Some(bound) => given(bound, files),
        },
        _ => None,
    }
}

/// The value of an option.
fn value<'a>(found: &ArgMatches<'a>, option: &str) -> Option<&'a str>
    ensures { option_map (λ s. s.now) result ≡ first_of option.now (rows_of (found_of found.now)) }
{
    found.get_str(option)
}

/// The files.
fn files<'a, 'm>(found: &'m ArgMatches<'a>) -> Option<&'m [&'a str]>
    ensures { option_map (λ fs. map (λ f. f.now) fs.now) result ≡ all_of (codes "FILE") (rows_of (found_of found.now)) }
{
    found.get_strs("FILE")
}

/// What was found in the words.
fn read<'a>(found: &ArgMatches<'a>) -> Option<Rewriting<'a>>
    ensures { option_map rewriting_of result ≡ spec.read_of (rows_of (found_of found.now)) }
{
    asked(
        value(found, "max-rewrites"),
        value(found, "emit"),
        value(found, "generate"),
        files(found),
    )
}

/// The command that the words are. The words are without the program's own name.
#[tactic(auto, unfolding(crate::specs::Command::command_of))]
pub fn command<'a>(alloc: Global, words: &'a [String]) -> Result<Rewriting<'a>, Failure>
    // The command.
    ensures found { IfOk result (λ r. Some (rewriting_of r) ≡ spec.command_of (map string_bytes words.entry.now)) }
    // Usage comes exactly where the words are no command, unless memory fails.
    ensures usage { result ≡ Err Usage → spec.command_of (map string_bytes words.entry.now) ≡ None }
{
    let found = match matches(alloc, words) {
        Err(failure) => return Err(failure),
        Ok(found) => found,
    };
    match read(&found) {
        None => Err(Failure::Usage),
        Some(rewriting) => Ok(rewriting),
    }
}
