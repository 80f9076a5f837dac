// Reading the line that says how a run ended.
ghost use Rattle.std.specs.Prelude.{◌≡◌, ◌<◌, ◌^◌, ◌++◌, ℕ, List, decimal, slice_index};
ghost use Rattle.rewrite_model.specs.declared.run.Hit.{Hit as HitData};
ghost use Rattle.rewrite_model.specs.declared.run.Broken.{Broken as BrokenData};
ghost use Rattle.rewrite_model.specs.declared.run.Break.{Break as BreakData};
ghost use Rattle.rewrite_model.specs.declared.run.BoundKind.{BoundKind as KindData};
ghost use Rattle.rewrite_model.specs.declared.run.Ending.{Ending as EndingData};
ghost use Rattle.rewrite_model.specs.declared.run.Ending.TheVariants as endings;
ghost use Rattle.rewrite_model.specs.declared.run.Break.TheVariants.{BadUse};
ghost use Rattle.run_model.specs.LogText.{place_text, break_text, bound_text, ending_line};
ghost use Rattle.run_log.specs.Cursor.{Takes, good, EndsNumber};
ghost use Rattle.run_log.specs.Written.{IsBreak, IsEnding};
ghost use Rattle.run_log.specs.Choosing as choosing;

use crate::cursor::Cursor;
use rewrite_model::run::{BoundKind, Break, Broken, Ending, Hit};

// Takes where the next step would be.
fn place<'a>(cursor: &mut Cursor<'a>) -> Hit
    ensures sound { Takes cursor.old cursor.new (place_text result.pattern result.row) }
    ensures complete { (h : HitData) (r : List ℕ) → h.pattern < 2 ^ 32 → h.row < 2 ^ 32 → EndsNumber r → cursor.old ≡ good (place_text h.pattern h.row ++ r) → (result ≡ h) × (cursor.new ≡ good r) }
{
    cursor.literal(b" pattern ");
    let pattern = cursor.number();
    cursor.literal(b" root ");
    let row = cursor.number();
    Hit { pattern, row }
}

// Takes a number below 2^16.
fn short_number<'a>(cursor: &mut Cursor<'a>) -> u16
    ensures sound { Takes cursor.old cursor.new (decimal result) }
    ensures complete { (n : ℕ) (r : List ℕ) → n < 2 ^ 16 → EndsNumber r → cursor.old ≡ good (decimal n ++ r) → (result ≡ n) × (cursor.new ≡ good r) }
{
    let number = cursor.number();
    if number < 65536 {
        number as u16
    } else {
        cursor.ok = false;
        0
    }
}

fn bad_use<'a>(cursor: &mut Cursor<'a>) -> Break
    ensures sound { Takes cursor.old cursor.new (break_text result) }
    ensures complete { (row place : ℕ) (r : List ℕ) → row < 2 ^ 32 → place < 2 ^ 16 → EndsNumber r → cursor.old ≡ good (break_text (BadUse row place) ++ r) → (result ≡ BadUse row place) × (cursor.new ≡ good r) }
{
    cursor.literal(b"bad-use row ");
    let row = cursor.number();
    cursor.literal(b" place ");
    let place = short_number(cursor);
    Break::BadUse(row, place)
}

// The cause whose word may stand here.
fn break_here<'a>(cursor: &Cursor<'a>) -> Break
    ensures { result ≡ choosing.break_of cursor.now.rest }
{
    match cursor.byte_at(0) {
        b'g' => Break::Gone,
        b'c' => Break::Count,
        b'n' => Break::NativeRefused,
        b'b' => Break::BadUse(0, 0),
        _ => {
            if cursor.byte_at(1) == b'y' {
                Break::Types
            } else {
                Break::Top
            }
        }
    }
}

// Takes why a step can't be done.
fn cause<'a>(cursor: &mut Cursor<'a>) -> Break
    ensures sound { Takes cursor.old cursor.new (break_text result) }
    ensures complete { (w : BreakData) (r : List ℕ) → IsBreak w → EndsNumber r → cursor.old ≡ good (break_text w ++ r) → (result ≡ w) × (cursor.new ≡ good r) }
{
    let why = break_here(cursor);
    match why {
        Break::Gone => cursor.literal(b"gone"),
        Break::Count => cursor.literal(b"count"),
        Break::Types => cursor.literal(b"types"),
        Break::Top => cursor.literal(b"top"),
        Break::NativeRefused => cursor.literal(b"native-refused"),
        Break::BadUse(_, _) => return bad_use(cursor),
    }
    why
}

// The bound whose word may stand here.
fn bound_here<'a>(cursor: &Cursor<'a>) -> BoundKind
    ensures { result ≡ choosing.bound_of cursor.now.rest }
{
    match cursor.byte_at(1) {
        b'e' => BoundKind::Rewrites,
        b'o' => BoundKind::RowLimit,
        _ => BoundKind::SlotLimit,
    }
}

// Takes what bounds a run.
fn bound_kind<'a>(cursor: &mut Cursor<'a>) -> BoundKind
    ensures sound { Takes cursor.old cursor.new (bound_text result) }
    ensures complete { (k : KindData) (r : List ℕ) → cursor.old ≡ good (bound_text k ++ r) → (result ≡ k) × (cursor.new ≡ good r) }
{
    let kind = bound_here(cursor);
    match kind {
        BoundKind::Rewrites => cursor.literal(b"rewrites"),
        BoundKind::RowLimit => cursor.literal(b"rows"),
        BoundKind::SlotLimit => cursor.literal(b"slots"),
    }
    kind
}

fn converged<'a>(cursor: &mut Cursor<'a>, count: usize) -> Ending
    ensures is { result ≡ endings.Converged }
    ensures sound { Takes cursor.old cursor.new (ending_line count result) }
    ensures complete { (r : List ℕ) → cursor.old ≡ good (ending_line count endings.Converged ++ r) → cursor.new ≡ good r }
{
    cursor.literal(b"end converged steps ");
    cursor.count(count);
    cursor.literal(b"\n");
    Ending::Converged
}

fn bound<'a>(cursor: &mut Cursor<'a>, count: usize) -> Ending
    ensures is { IsEnding result }
    ensures sound { Takes cursor.old cursor.new (ending_line count result) }
    ensures complete { (k : KindData) (h : HitData) (r : List ℕ) → IsEnding (endings.Bound k h) → cursor.old ≡ good (ending_line count (endings.Bound k h) ++ r) → (result ≡ endings.Bound k h) × (cursor.new ≡ good r) }
{
    cursor.literal(b"end bound ");
    let kind = bound_kind(cursor);
    cursor.literal(b" steps ");
    cursor.count(count);
    let hit = place(cursor);
    cursor.literal(b"\n");
    Ending::Bound(kind, hit)
}

fn broken<'a>(cursor: &mut Cursor<'a>, count: usize) -> Ending
    ensures is { IsEnding result }
    ensures sound { Takes cursor.old cursor.new (ending_line count result) }
    ensures complete { (b : BrokenData) (r : List ℕ) → IsEnding (endings.Broken b) → cursor.old ≡ good (ending_line count (endings.Broken b) ++ r) → (result ≡ endings.Broken b) × (cursor.new ≡ good r) }
{
    cursor.literal(b"end broken steps ");
    cursor.count(count);
    let hit = place(cursor);
    cursor.literal(b" ");
    let why = cause(cursor);
    cursor.literal(b"\n");
    Ending::Broken(Broken {
        pattern: hit.pattern,
        root: hit.row,
        why,
    })
}

// Takes the line that says how a run of so many steps ended.
pub fn ending<'a>(cursor: &mut Cursor<'a>, count: usize) -> Ending
    ensures is { IsEnding result }
    ensures sound { Takes cursor.old cursor.new (ending_line count result) }
    ensures complete { (e : EndingData) (r : List ℕ) → IsEnding e → cursor.old ≡ good (ending_line count e ++ r) → (result ≡ e) × (cursor.new ≡ good r) }
{
    if cursor.byte_at(4) == b'c' {
        converged(cursor, count)
    } else if cursor.byte_at(5) == b'o' {
        bound(cursor, count)
    } else {
        broken(cursor, count)
    }
}
