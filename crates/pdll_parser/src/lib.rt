//! Reads the text of a pattern file.
#![tactic(auto)]

ghost use Rattle.std.specs.Prelude.{◌≡◌, ◌≤◌, true, length, IfOk, Ok, Err};
ghost use Rattle.pdll_syntax.specs.declared.fault.PatFault.{PatFault as Fault};
ghost use Rattle.pdll_syntax.specs.declared.file.PatFile.{PatFile as Meaning};
ghost use Rattle.pdll_parser.specs.FileGrammar.{IsPatternFile};
ghost use Rattle.pdll_parser.specs.Spelling.{is_spelling_fault};
ghost use Rattle.pdll_parser.specs.Files as spec;
ghost use Rattle.pdll_parser.specs.Input.{Gives};

mod declarations;
mod expressions;
pub mod laws;
mod reader;
mod statements;
mod terminal;

use crate::declarations::file;
use mlir_tree::refusal::Refusal;
use pdll_syntax::fault::{PatFault, PatKind};
use pdll_syntax::file::PatFile;
use simdutf8::compat;
use std::alloc::Global;

#[tactic(auto, unfolding(crate::specs::Files::pattern_file), using(crate::proofs::Counts::all_utf8, crate::proofs::Counts::not_utf8))]
fn whole(alloc: Global, bytes: &[u8]) -> Result<PatFile, Refusal<PatFault>>
    ensures { Gives result (spec.pattern_file bytes.now) }
{
    match compat::from_utf8(bytes) {
        Ok(_) => file(alloc, bytes),
        Err(error) => Err(Refusal::Fault(PatFault {
            kind: PatKind::NotUtf8,
            at: error.valid_up_to(),
        })),
    }
}

/// The tree of a pattern file (MLIR's document "PDLL - PDL Language"), or its first fault.
///
/// Names are not looked up, and kinds are not checked.
pub fn parse_patterns(alloc: Global, bytes: &[u8]) -> Result<PatFile, Refusal<PatFault>>
    // What is read is spelled so.
    ensures found { IfOk result (λ file. IsPatternFile bytes.now file) }
    // What is spelled so is read, unless memory fails.
    ensures only { (file : Meaning) → IsPatternFile bytes.now file → Gives result (Ok file) }
    ensures not_spelled { (f : Fault) → result ≡ Err (Refusal.Fault f) → (file : Meaning) → IsPatternFile bytes.now file → ⊥ }
    // A fault says why a file isn't spelled, and its place is within the text.
    ensures kinds { (f : Fault) → result ≡ Err (Refusal.Fault f) → is_spelling_fault f.kind ≡ true }
    ensures within { (f : Fault) → result ≡ Err (Refusal.Fault f) → f.at ≤ length bytes.now }
    // Which fault it is.
    ensures exact { Gives result (spec.pattern_file bytes.now) }
{
    whole(alloc, bytes)
}
