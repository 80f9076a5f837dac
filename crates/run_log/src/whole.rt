// Reading a whole log.
ghost use Rattle.std.specs.Prelude.{◌≡◌, ◌≤◌, true, List, length, IfOk, IfErr};
ghost use Rattle.rewrite_model.specs.declared.run.Ending.{Ending};
ghost use Rattle.rewrite_model.specs.Taken.{Taken};
ghost use Rattle.run_model.specs.LogText.{log_text};
ghost use Rattle.run_log.specs.Walk.{EndsWalk};
ghost use Rattle.run_log.specs.ReadLog.{IsLogOf, IsFault};

use crate::cursor::Cursor;
use crate::fault::LogFault;
use crate::reading::step;
use crate::reading_ending::ending;
use mlir_tree::refusal::Refusal;
use run_model::run::{Run, StepList};
use sqlite_items::Items;
use std::alloc::{AllocError, Global};

// Takes the lines of the steps.
fn steps<'a>(alloc: Global, cursor: &mut Cursor<'a>) -> Result<StepList, AllocError>
    requires well { cursor.old.ok ≡ true }
    requires small { length cursor.old.rest ≤ 67108864 }
    ensures walk { IfOk result (λ steps. EndsWalk cursor.old cursor.new steps) }
    ensures few { IfOk result (λ steps. length steps ≤ length cursor.old.rest) }
{
    let mut taken = Items::new(alloc);
    while cursor.ok && cursor.byte_at(0) == b's' {
        let next = step(alloc, cursor, taken.len() + 1)?;
        if cursor.ok {
            taken.push(next)?;
        }
    }
    Ok(taken)
}

/// Reads the log of a run. What it gives is the run that the text tells. It refuses every text that is no log, and tells the
/// first line with which no log goes on. A text that ends too early has the line behind its last line feed.
pub fn read_log(alloc: Global, bytes: &[u8]) -> Result<Run, Refusal<LogFault>>
    requires { length bytes.now ≤ 67108864 }
    ensures found { IfOk result (λ run. bytes.now ≡ log_text run.taken run.ending) }
    ensures again { (steps : List Taken) (end : Ending) → IsLogOf steps end bytes.now → IfOk result (λ run. (run.taken ≡ steps) × (run.ending ≡ end)) }
    ensures fault { IfErr result (λ e. IsFault bytes.now e) }
{
    let mut cursor = Cursor {
        rest: bytes,
        ok: true,
    };
    cursor.literal(b"pdllrw-log 1\n");
    if !cursor.ok {
        return Err(Refusal::Fault(LogFault::BadLine(1)));
    }
    let taken = steps(alloc, &mut cursor)?;
    let line = taken.len() as u32 + 2;
    let ending = ending(&mut cursor, taken.len());
    if !cursor.ok {
        return Err(Refusal::Fault(LogFault::BadLine(line)));
    }
    if !cursor.rest.is_empty() {
        return Err(Refusal::Fault(LogFault::BadLine(line + 1)));
    }
    Ok(Run { taken, ending })
}
