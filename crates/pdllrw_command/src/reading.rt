// Reads the files of the command.
ghost use Rattle.std.specs.Prelude.{◌≡◌, ◌≤◌, ◌⊎◌, ℕ, List, length, IfOk, IfErr, IfSome};
ghost use Rattle.mlir_tree.specs.WellFormed.{IsWellFormed};
ghost use Rattle.pdll_syntax.specs.declared.fault.PatFault.{PatFault as Fault};
ghost use Rattle.pdllrw_command.specs.Positions.{position_of};
ghost use Rattle.mlir_attributes.specs.declared.fault.ModFault.{ModFault as ModuleFault};
ghost use Rattle.pdllrw_command.specs.Outcome.{RefusesPatterns, RefusesModule};
ghost use Rattle.mlir_parse.specs.FileGrammar.{IsModuleFile};
ghost use Rattle.mlir_parse.specs.Limits.{KeepsLimits};
ghost use Rattle.pdllrw_command.specs.declared.status.Status.TheVariants as statuses;
ghost use Rattle.pdllrw_command.specs.Accepted.{AcceptsPatterns, AcceptsModule};
ghost use Rattle.pdllrw_command.specs.Stops.{StopsPatterns, StopsModule};

use crate::position::{FIRST, Position, position_of};
use crate::status::Status;
use mlir_attributes::fault::{ModFault, ModKind};
use mlir_parse::parse_module;
use mlir_parse::syn::Syn;
use mlir_resolve::resolve;
use mlir_tree::refusal::Refusal;
use mlir_tree::rows::Rows;
use pdll_parser::parse_patterns;
use pdll_syntax::fault::{PatFault, PatKind};
use pdll_types::check;
use pdll_types::typed::Typed;
use rw_outside::{Host, TakeErr, take_all};
use std::alloc::Global;

const MAX_BYTES: usize = 67_108_864;

/// Why a command stopped: its status, and the line and the column that its line names, if it names any.
#[derive(Clone, Copy, Debug)]
pub struct Stop {
    pub status: Status,
    pub place: Position,
}

/// A stop that names no place.
pub fn placeless(status: Status) -> Stop
    ensures status { result.status ≡ status }
{
    Stop {
        status,
        place: FIRST,
    }
}

fn bad_patterns(bytes: &[u8], fault: PatFault) -> Stop
    ensures status { result.status ≡ statuses.PatternFault fault }
    ensures place { result.place ≡ position_of bytes.now fault.at }
{
    Stop {
        status: Status::PatternFault(fault),
        place: position_of(bytes, fault.at),
    }
}

fn pattern_fault(kind: PatKind, at: usize) -> Stop
    ensures status { result.status ≡ statuses.PatternFault (record { kind = kind; at = at }) }
{
    placeless(Status::PatternFault(PatFault { kind, at }))
}

// The accepted file that these bytes spell.
fn typed_of(alloc: Global, bytes: &[u8]) -> Result<Typed, Stop>
    requires { length bytes.now ≤ 67108864 }
    ensures found { IfOk result (λ typed. AcceptsPatterns typed.file bytes.now) }
    ensures stopped { IfErr result (λ stop. (stop.status ≡ statuses.NoMemory) ⊎ ((f : Fault) × (stop.status ≡ statuses.PatternFault f) × RefusesPatterns stop.place f bytes.now)) }
{
    let file = match parse_patterns(alloc, bytes) {
        Ok(file) => file,
        Err(Refusal::Fault(fault)) => return Err(bad_patterns(bytes, fault)),
        Err(Refusal::NoMemory) => return Err(placeless(Status::NoMemory)),
    };
    match check(alloc, &file) {
        Ok(typed) => Ok(typed),
        Err(Refusal::Fault(fault)) => Err(bad_patterns(bytes, fault)),
        Err(Refusal::NoMemory) => Err(placeless(Status::NoMemory)),
    }
}

/// The accepted pattern file of this name.
pub fn read_patterns<H: Host>(alloc: Global, host: &mut H, name: &str) -> Result<Typed, Stop>
    ensures found { IfOk result (λ typed. IfSome (H.file host.old name.now) (AcceptsPatterns typed.file)) }
    ensures stopped { IfErr result (λ stop. StopsPatterns (H.file host.old name.now) (H.faults host.old name.now) (H.faults host.new name.now) stop.place stop.status) }
    ensures never_falls { (n : List ℕ) → H.faults host.old n ≤ H.faults host.new n }
    ensures files { (n : List ℕ) → H.file host.new n ≡ H.file host.old n }
{
    let bytes = match take_all(alloc, host, name, MAX_BYTES) {
        Ok(bytes) => bytes,
        Err(TakeErr::ReadFault) => return Err(placeless(Status::ReadFault)),
        Err(TakeErr::TooLong) => return Err(pattern_fault(PatKind::TooLong, MAX_BYTES)),
        Err(TakeErr::NoMemory) => return Err(placeless(Status::NoMemory)),
    };
    typed_of(alloc, &bytes)
}

fn bad_module(bytes: &[u8], fault: ModFault) -> Stop
    ensures status { result.status ≡ statuses.ModuleFault fault }
    ensures place { result.place ≡ position_of bytes.now fault.at }
{
    Stop {
        status: Status::ModuleFault(fault),
        place: position_of(bytes, fault.at),
    }
}

fn module_fault(kind: ModKind, at: usize) -> Stop
    ensures status { result.status ≡ statuses.ModuleFault (record { kind = kind; at = at }) }
{
    placeless(Status::ModuleFault(ModFault { kind, at }))
}

// The operations that these bytes spell.
fn tree_of(alloc: Global, bytes: &[u8]) -> Result<Syn, Stop>
    requires { length bytes.now ≤ 67108864 }
    ensures found { IfOk result (λ file. IsModuleFile bytes.now file) }
    ensures limits { IfOk result (λ file. KeepsLimits file) }
    ensures stopped { IfErr result (λ stop. (stop.status ≡ statuses.NoMemory) ⊎ ((f : ModuleFault) × (stop.status ≡ statuses.ModuleFault f) × RefusesModule stop.place f bytes.now)) }
{
    match parse_module(alloc, bytes) {
        Ok(file) => Ok(file),
        Err(Refusal::Fault(fault)) => Err(bad_module(bytes, fault)),
        Err(Refusal::NoMemory) => Err(placeless(Status::NoMemory)),
    }
}

// The rows of the module that these bytes spell.
fn rows_of(alloc: Global, bytes: &[u8]) -> Result<Rows, Stop>
    requires { length bytes.now ≤ 67108864 }
    ensures found { IfOk result (λ m. AcceptsModule m bytes.now) }
    ensures well_formed { IfOk result (λ m. IsWellFormed m) }
    ensures stopped { IfErr result (λ stop. (stop.status ≡ statuses.NoMemory) ⊎ ((f : ModuleFault) × (stop.status ≡ statuses.ModuleFault f) × RefusesModule stop.place f bytes.now)) }
{
    let file = tree_of(alloc, bytes)?;
    match resolve(alloc, &file) {
        Ok(rows) => Ok(rows),
        Err(Refusal::Fault(fault)) => Err(bad_module(bytes, fault)),
        Err(Refusal::NoMemory) => Err(placeless(Status::NoMemory)),
    }
}

/// The module of the file of this name.
pub fn read_module<H: Host>(alloc: Global, host: &mut H, name: &str) -> Result<Rows, Stop>
    ensures found { IfOk result (λ m. IfSome (H.file host.old name.now) (AcceptsModule m)) }
    ensures well_formed { IfOk result (λ m. IsWellFormed m) }
    ensures stopped { IfErr result (λ stop. StopsModule (H.file host.old name.now) (H.faults host.old name.now) (H.faults host.new name.now) stop.place stop.status) }
    ensures never_falls { (n : List ℕ) → H.faults host.old n ≤ H.faults host.new n }
    ensures files { (n : List ℕ) → H.file host.new n ≡ H.file host.old n }
{
    let bytes = match take_all(alloc, host, name, MAX_BYTES) {
        Ok(bytes) => bytes,
        Err(TakeErr::ReadFault) => return Err(placeless(Status::ReadFault)),
        Err(TakeErr::TooLong) => return Err(module_fault(ModKind::TooLong, MAX_BYTES)),
        Err(TakeErr::NoMemory) => return Err(placeless(Status::NoMemory)),
    };
    rows_of(alloc, &bytes)
}
