// Reading the parts of a step: its name, and the operations that it made and removed.
ghost use Rattle.std.specs.Prelude.{◌≡◌, ◌<◌, ◌^◌, ◌++◌, ◌∷◌, ℕ, List, codes, decimal, IfOk};
ghost use Rattle.std.specs.List.{flat_map};
ghost use Rattle.mlir_print.specs.Text.{byte_text, string_text};
ghost use Rattle.rewrite_model.specs.Taken.{Taken, IsRising};
ghost use Rattle.run_model.specs.LogText.{numbers_text, step_line};
ghost use Rattle.run_log.specs.Cursor.{Takes, good, EndsNumbers};
ghost use Rattle.run_log.specs.Written.{AreBytes, AreWords, IsStep};
ghost use Rattle.run_log.specs.Reading.{TakesNumbers};

use crate::cursor::Cursor;
use mlir_tree::row::IdList;
use mlir_tree::text::Text;
use run_model::run::StepRec;
use shared_text::SharedText;
use sqlite_items::Items;
use std::alloc::{AllocError, Global};

// Takes the bytes of a string up to its closing quote.
fn inside<'a>(alloc: Global, cursor: &mut Cursor<'a>) -> Result<Items<u8>, AllocError>
    ensures bytes { IfOk result (λ t. AreBytes t) }
    ensures sound { IfOk result (λ t. Takes cursor.old cursor.new (flat_map byte_text t)) }
    ensures complete { (bytes r : List ℕ) → AreBytes bytes → cursor.old ≡ good (flat_map byte_text bytes ++ (34 ∷ r)) → IfOk result (λ t. (t ≡ bytes) × (cursor.new ≡ good (34 ∷ r))) }
{
    let mut bytes = Items::new(alloc);
    while cursor.ok && cursor.byte_at(0) != b'"' {
        bytes.push(cursor.byte())?;
    }
    Ok(bytes)
}

// Takes a string.
fn string<'a>(alloc: Global, cursor: &mut Cursor<'a>) -> Result<Text, AllocError>
    ensures bytes { IfOk result (λ t. AreBytes t) }
    ensures sound { IfOk result (λ t. Takes cursor.old cursor.new (string_text t)) }
    ensures complete { (bytes r : List ℕ) → AreBytes bytes → cursor.old ≡ good (string_text bytes ++ r) → IfOk result (λ t. (t ≡ bytes) × (cursor.new ≡ good r)) }
{
    cursor.literal(b"\"");
    let bytes = inside(alloc, cursor)?;
    cursor.literal(b"\"");
    let text = SharedText::new(alloc, bytes)?;
    Ok(text)
}

// Takes the numbers behind the first one, each behind a comma.
fn more_numbers<'a>(
    alloc: Global,
    cursor: &mut Cursor<'a>,
    first: u32,
) -> Result<IdList, AllocError>
    ensures sound { IfOk result (λ ns. TakesNumbers cursor.old cursor.new first ns) }
    ensures complete { (more r : List ℕ) → AreWords more → IsRising (first ∷ more) → EndsNumbers r → cursor.old ≡ good (flat_map (λ n. codes "," ++ decimal n) more ++ r) → IfOk result (λ ns. (ns ≡ first ∷ more) × (cursor.new ≡ good r)) }
{
    let mut numbers = Items::new(alloc);
    numbers.push(first)?;
    let mut last = first;
    while cursor.ok && cursor.byte_at(0) == b',' {
        cursor.literal(b",");
        let next = cursor.number();
        if next <= last {
            cursor.ok = false;
        } else {
            numbers.push(next)?;
            last = next;
        }
    }
    Ok(numbers)
}

// Takes numbers that rise, or a dash.
fn numbers<'a>(alloc: Global, cursor: &mut Cursor<'a>) -> Result<IdList, AllocError>
    ensures words { IfOk result (λ ns. AreWords ns) }
    ensures sound { IfOk result (λ ns. Takes cursor.old cursor.new (numbers_text ns)) }
    ensures rising { IfOk result (λ ns. IsRising ns) }
    ensures complete { (numbers r : List ℕ) → AreWords numbers → IsRising numbers → EndsNumbers r → cursor.old ≡ good (numbers_text numbers ++ r) → IfOk result (λ ns. (ns ≡ numbers) × (cursor.new ≡ good r)) }
{
    if cursor.byte_at(0) == b'-' {
        cursor.literal(b"-");
        return Ok(Items::new(alloc));
    }
    let first = cursor.number();
    more_numbers(alloc, cursor, first)
}

// Takes the line of the step with this number.
pub fn step<'a>(alloc: Global, cursor: &mut Cursor<'a>, count: usize) -> Result<StepRec, AllocError>
    ensures is { IfOk result (λ s. IsStep s) }
    ensures sound { IfOk result (λ s. Takes cursor.old cursor.new (step_line count s)) }
    ensures complete { (s : Taken) (r : List ℕ) → IsStep s → cursor.old ≡ good (step_line count s ++ r) → IfOk result (λ t. (t ≡ s) × (cursor.new ≡ good r)) }
{
    cursor.literal(b"step ");
    cursor.count(count);
    cursor.literal(b" pattern ");
    let pattern = cursor.number();
    cursor.literal(b" ");
    let name = string(alloc, cursor)?;
    cursor.literal(b" root ");
    let root = cursor.number();
    cursor.literal(b" made ");
    let made = numbers(alloc, cursor)?;
    cursor.literal(b" removed ");
    let removed = numbers(alloc, cursor)?;
    cursor.literal(b"\n");
    Ok(StepRec {
        pattern,
        name,
        root,
        made,
        removed,
    })
}
