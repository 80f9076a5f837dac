// The whole command, from its words to the written bytes.
ghost use Rattle.std.specs.Prelude.{◌≡◌, ◌≤◌, ◌⊎◌, [], ℕ, List, Some, map, length, drop, string_bytes, IfOk};
ghost use Rattle.rw_outside.specs.Outside.{Rose, appended, PutsFront};
ghost use Rattle.mlir_tree.specs.WellFormed.{IsWellFormed};
ghost use Rattle.mlir_print.specs.NumberMaps.{AreNumbersOf};
ghost use Rattle.mlir_print.specs.ModuleText.{module_text};
ghost use Rattle.run_model.specs.LogText.{log_text};
ghost use Rattle.rw_outside.specs.Puts.{Puts};
ghost use Rattle.pdllrw_command.specs.declared.status.Status.TheVariants as statuses;
ghost use Rattle.pdllrw_command.specs.Outcome.{IsOutcome, placed_line, patterns_line, module_line, plain_line, line_of, kind_of_ending};
ghost use Rattle.pdllrw_command.specs.Written.{Tells, Shows, Writes};

use crate::pieces::put_pieces;
use crate::position::Position;
use crate::reading::{Stop, placeless, read_module, read_patterns};
use crate::status::Status;
use command_line::{Failure, command};
use greedy_driver::drive_rows;
use itoa::Buffer;
use mlir_attributes::fault::ModKind;
use mlir_print::{Numbers, number, print_rows};
use mlir_tree::rows::Rows;
use pdll_syntax::fault::PatKind;
use rewrite_model::laws::runs_keep_well_formed;
use rewrite_model::run::{Ending, Order};
use run_log::put_log;
use run_model::run::Run;
use rw_outside::{BufferedSink, Failed, Host, Sink, put_all};
use std::alloc::{AllocError, Global};

// How many bytes are gathered before they are written.
const GATHERED: usize = 65_536;

fn put_patterns_line<G: Sink>(log: &mut G, place: Position, kind: PatKind) -> Result<(), Failed>
    ensures { Puts (G.state log.old) (G.state log.new) result (patterns_line place kind) }
{
    match kind {
        PatKind::TooLong => put_all(log, b"pdllrw: patterns: P1 TooLong\n"),
        _ => put_placed(log, b"patterns", place, kind.code_text()),
    }
}

// Puts the line of a fault of this file at a place.
fn put_placed<G: Sink>(log: &mut G, file: &[u8], place: Position, code: &[u8]) -> Result<(), Failed>
    ensures { Puts (G.state log.old) (G.state log.new) result (placed_line file.now place code.now) }
{
    let mut line = Buffer::new();
    let mut column = Buffer::new();
    put_pieces(
        log,
        &[
            b"pdllrw: ",
            file,
            b": ",
            line.format(place.line).as_bytes(),
            b":",
            column.format(place.column).as_bytes(),
            b": ",
            code,
            b"\n",
        ],
    )
}

fn put_module_line<G: Sink>(log: &mut G, place: Position, kind: ModKind) -> Result<(), Failed>
    ensures { Puts (G.state log.old) (G.state log.new) result (module_line place kind) }
{
    match kind {
        ModKind::TooLong => put_all(log, b"pdllrw: module: M1 TooLong\n"),
        _ => put_placed(log, b"module", place, kind.code_text()),
    }
}

// The line of a refusal that names no place of a file.
fn plain_line(status: Status) -> &'static [u8]
    ensures { result.now ≡ plain_line status }
{
    match status {
        Status::Usage =>
            b"pdllrw: usage: pdllrw [--max-rewrites N] PATTERNS MODULE or --emit KIND PATTERNS or --generate N\n",
        Status::ReadFault => b"pdllrw: read fault\n",
        _ => b"",
    }
}

// Puts the line of a refusal.
#[tactic(auto, unfolding(crate::specs::Outcome::line_of))]
fn put_line<G: Sink>(log: &mut G, stop: Stop) -> Result<(), Failed>
    ensures { Puts (G.state log.old) (G.state log.new) result (line_of stop.place stop.status) }
{
    match stop.status {
        Status::PatternFault(fault) => put_patterns_line(log, stop.place, fault.kind),
        Status::ModuleFault(fault) => put_module_line(log, stop.place, fault.kind),
        status => put_all(log, plain_line(status)),
    }
}

// Writes the line of a refusal.
fn refuse<G: Sink>(log: &mut G, stop: Stop) -> Status
    ensures tells { Tells (G.state log.old) (G.state log.new) (line_of stop.place stop.status) stop.status result }
    // Without memory nothing is written.
    ensures silent { stop.status ≡ statuses.NoMemory → (result ≡ statuses.NoMemory) × ((G.state log.new).bytes ≡ (G.state log.old).bytes) }
{
    if let Status::NoMemory = stop.status {
        return Status::NoMemory;
    }
    match put_line(log, stop) {
        Ok(()) => stop.status,
        Err(_) => Status::WriteFault,
    }
}

fn status_of(ending: &Ending) -> Status
    ensures { result ≡ kind_of_ending ending.now }
{
    match ending {
        Ending::Converged => Status::Done,
        Ending::Bound(kind, _) => Status::Bound(*kind),
        Ending::Broken(broken) => Status::Broken(*broken),
    }
}

// Gathers the module, and hands all of it on.
fn gather_module<S: Sink>(
    gathered: &mut BufferedSink<'_, S>,
    rows: &Rows,
    numbers: &Numbers,
) -> Result<(), Failed>
    requires empty { drop gathered.old.done gathered.old.held.now.items ≡ [] }
    requires well_formed { IsWellFormed rows.now }
    requires numbers { AreNumbersOf rows.now.rows numbers.now }
    ensures writes { Writes (S.state gathered.old.sink.now) (S.state gathered.new.sink.now) result (module_text rows.now.rows) }
    ensures same_sink { gathered.new.sink.ghost_name ≡ gathered.old.sink.ghost_name }
{
    print_rows(rows, numbers, gathered)?;
    gathered.flush()
}

// Writes the module, gathered in this buffer.
fn write_module<S: Sink>(
    out: &mut S,
    buffer: &mut Vec<u8>,
    rows: &Rows,
    numbers: &Numbers,
) -> Result<(), Failed>
    requires well_formed { IsWellFormed rows.now }
    requires numbers { AreNumbersOf rows.now.rows numbers.now }
    ensures { Writes (S.state out.old) (S.state out.new) result (module_text rows.now.rows) }
{
    let mut gathered = BufferedSink::new(out, buffer);
    gather_module(&mut gathered, rows, numbers)
}

// Gathers the log, and hands all of it on.
fn gather_log<S: Sink>(gathered: &mut BufferedSink<'_, S>, run: &Run) -> Result<(), Failed>
    requires { drop gathered.old.done gathered.old.held.now.items ≡ [] }
    ensures writes { Writes (S.state gathered.old.sink.now) (S.state gathered.new.sink.now) result (log_text run.now.taken run.now.ending) }
    ensures same_sink { gathered.new.sink.ghost_name ≡ gathered.old.sink.ghost_name }
{
    put_log(run, gathered)?;
    gathered.flush()
}

// Writes the log, gathered in this buffer.
fn write_log<S: Sink>(log: &mut S, buffer: &mut Vec<u8>, run: &Run) -> Result<(), Failed>
    ensures { Writes (S.state log.old) (S.state log.new) result (log_text run.now.taken run.now.ending) }
{
    let mut gathered = BufferedSink::new(log, buffer);
    gather_log(&mut gathered, run)
}

// Writes the module, and behind it the log.
fn show<S: Sink, G: Sink>(
    out: &mut S,
    log: &mut G,
    buffer: &mut Vec<u8>,
    rows: &Rows,
    run: &Run,
    numbers: &Numbers,
) -> Status
    requires well_formed { IsWellFormed rows.now }
    requires numbers { AreNumbersOf rows.now.rows numbers.now }
    ensures { Shows (S.state out.old) (S.state out.new) (G.state log.old) (G.state log.new)
        (module_text rows.now.rows) (log_text run.now.taken run.now.ending) (kind_of_ending run.now.ending) result }
{
    let Ok(()) = write_module(out, buffer, rows, numbers) else {
        return Status::WriteFault;
    };
    let Ok(()) = write_log(log, buffer, run) else {
        return Status::WriteFault;
    };
    status_of(&run.ending)
}

/// Rewrites the module file by the pattern file: the whole of what the program does. The words are without the
/// program's own name.
pub fn run<H: Host, S: Sink, G: Sink>(
    alloc: Global,
    words: &[String],
    host: &mut H,
    out: &mut S,
    log: &mut G,
) -> Status
    ensures { IsOutcome
        (record { files = H.file host.old; faults = H.faults host.old; out = S.state out.old; log = G.state log.old })
        (record { files = H.file host.new; faults = H.faults host.new; out = S.state out.new; log = G.state log.new })
        (map string_bytes words.entry.now) result }
{
    let command = match command(alloc, words) {
        Ok(command) => command,
        Err(Failure::Usage) => return refuse(log, placeless(Status::Usage)),
        Err(Failure::Memory) => return Status::NoMemory,
    };
    let typed = match read_patterns(alloc, host, command.patterns) {
        Ok(typed) => typed,
        Err(stop) => return refuse(log, stop),
    };
    let mut rows = match read_module(alloc, host, command.module_file) {
        Ok(rows) => rows,
        Err(stop) => return refuse(log, stop),
    };
    let Ok(run) = drive_rows(alloc, &mut rows, &typed, Order::First, command.bound) else {
        return Status::NoMemory;
    };
    // From the well-formed module that was read, the run leads through well-formed ones.
    runs_keep_well_formed();
    // All that writing needs is made before the first byte.
    let Ok(numbers) = number(alloc, &rows) else {
        return Status::NoMemory;
    };
    let Ok(mut buffer) = Vec::with_capacity(alloc, GATHERED) else {
        return Status::NoMemory;
    };
    show(out, log, &mut buffer, &rows, &run, &numbers)
}
