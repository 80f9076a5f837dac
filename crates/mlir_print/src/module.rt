// Modules.
ghost use Rattle.std.specs.Prelude.{◌≡◌, ◌&&◌, not, ◌≤◌, ◌<◌, ◌+◌, [], length, get_or, slice_get, Some};
ghost use Rattle.rw_outside.specs.Puts.{Puts};
ghost use Rattle.mlir_tree.specs.WellFormed.{IsWellFormed};
ghost use Rattle.mlir_print.specs.Prints.{Prints};
ghost use Rattle.mlir_print.specs.NumberMaps.{AreNumbersOf};
ghost use Rattle.mlir_print.specs.Printable.{IsPrintable, AreArguments};
ghost use Rattle.mlir_print.specs.ModuleText as spec;
ghost use Rattle.mlir_print.specs.Cursor.{stands_at, IsOpen, EndsRow, EndsRegion, row_text_at};

use crate::latch::{outcome, put};
use crate::numbers::Numbers;
use crate::row::{put_head, put_indent, put_tail};
use crate::ty::{put_number, put_ty};
use crate::value::{argument_number, put_separator};
use mlir_tree::row::Row;
use mlir_tree::rows::Rows;
use mlir_tree::ty::Ty;
use rw_outside::{Failed, Sink};

fn put_argument<S: Sink>(sink: &mut S, ok: &mut bool, number: u128, ty: &Ty)
    ensures { Prints ok.old ok.new (S.state sink.old) (S.state sink.new) (spec.argument_text number ty.now) }
{
    put(sink, ok, b"%arg");
    put_number(sink, ok, number);
    put(sink, ok, b": ");
    put_ty(sink, ok, ty);
}

// Puts the arguments of a region, with commas between.
fn put_arguments<S: Sink>(
    sink: &mut S,
    ok: &mut bool,
    rows: &[Row],
    numbers: &Numbers,
    id: u32,
    region: usize,
    arguments: &[Ty],
)
    requires numbers { AreNumbersOf rows.now numbers.now }
    requires there { AreArguments rows.now id region arguments.now }
    ensures { Prints ok.old ok.new (S.state sink.old) (S.state sink.new) (spec.arguments_text rows.now id region 0 arguments.now) }
{
    for i in 0..arguments.len() {
        put_separator(sink, ok, i);
        let ty = &arguments[i];
        put_argument(sink, ok, argument_number(rows, numbers, id, region, i), ty);
    }
}

// Puts the line of a block's label, where the block has arguments.
fn put_label<S: Sink>(
    sink: &mut S,
    ok: &mut bool,
    rows: &[Row],
    numbers: &Numbers,
    depth: usize,
    id: u32,
    region: usize,
    arguments: &[Ty],
)
    requires numbers { AreNumbersOf rows.now numbers.now }
    requires there { AreArguments rows.now id region arguments.now }
    ensures { Prints ok.old ok.new (S.state sink.old) (S.state sink.new) (spec.label_text rows.now depth id region arguments.now) }
{
    if arguments.is_empty() {
        return;
    }
    put_indent(sink, ok, depth);
    put(sink, ok, b"^bb0(");
    put_arguments(sink, ok, rows, numbers, id, region, arguments);
    put(sink, ok, b"):\n");
}

// Whether the row at this place stands in the region.
fn stands_at(rows: &[Row], at: usize, id: u32, region: usize) -> bool
    ensures { result ≡ stands_at rows.now at (record { row = id; region = region }) }
{
    match rows.get(at) {
        None => false,
        Some(row) => match row.home {
            None => false,
            Some(home) => home.row == id && usize::from(home.region) == region,
        },
    }
}

// Whether the region has neither arguments nor rows, where its rows stand from this place on.
fn is_blank(rows: &[Row], from: usize, id: u32, region: usize, arguments: &[Ty]) -> bool
    ensures { result ≡ (spec.is_empty arguments.now && not (stands_at rows.now from (record { row = id; region = region }))) }
{
    arguments.is_empty() && !stands_at(rows, from, id, region)
}

// Puts the row at this place with the rows inside it, and gives the place behind them.
#[cycle(put_row)]
fn put_row<S: Sink>(
    sink: &mut S,
    ok: &mut bool,
    rows: &[Row],
    numbers: &Numbers,
    at: usize,
    depth: usize,
) -> usize
    requires printable { IsPrintable rows.now numbers.now }
    requires within { at < length rows.now }
    requires deep { depth ≤ at }
    ensures text { Prints ok.old ok.new (S.state sink.old) (S.state sink.new) (row_text_at rows.now depth at) }
    ensures end { EndsRow rows.now at result }
{
    let row = &rows[at];
    put_head(sink, ok, rows, numbers, depth, row);
    let end = put_regions(sink, ok, rows, numbers, at, row, depth);
    put_tail(sink, ok, rows, numbers, row);
    end
}

// Puts the regions of the row at this place, and gives the place behind the rows inside it.
#[cycle(put_row)]
fn put_regions<S: Sink>(
    sink: &mut S,
    ok: &mut bool,
    rows: &[Row],
    numbers: &Numbers,
    at: usize,
    row: &Row,
    depth: usize,
) -> usize
    requires printable { IsPrintable rows.now numbers.now }
    requires here { slice_get rows.now at ≡ Some row.now }
    requires deep { depth ≤ at }
    ensures text { Prints ok.old ok.new (S.state sink.old) (S.state sink.new) (spec.regions_text rows.now depth row.now (spec.inside_text rows.now (at + 1) (depth + 1) row.now)) }
    ensures end { EndsRow rows.now at result }
{
    let mut end = at + 1;
    if row.regions.is_empty() {
        return end;
    }
    put(sink, ok, b" (");
    for region in 0..row.regions.len() {
        put_separator(sink, ok, region);
        end = put_region(sink, ok, rows, numbers, at, row, region, end, depth);
    }
    put(sink, ok, b")");
    end
}

// Puts a region of the row at place `at`, whose rows stand from place `from` on, and gives the place behind them.
#[cycle(put_row)]
fn put_region<S: Sink>(
    sink: &mut S,
    ok: &mut bool,
    rows: &[Row],
    numbers: &Numbers,
    at: usize,
    row: &Row,
    region: usize,
    from: usize,
    depth: usize,
) -> usize
    requires printable { IsPrintable rows.now numbers.now }
    requires here { slice_get rows.now at ≡ Some row.now }
    requires deep { depth ≤ at }
    requires region { region < length row.now.regions }
    requires behind { at < from }
    requires opened { IsOpen rows.now at region from }
    ensures text { Prints ok.old ok.new (S.state sink.old) (S.state sink.new) (spec.region_text rows.now depth row.now.id region (get_or row.now.regions region []) (spec.inside_text rows.now from (depth + 1) row.now region)) }
    ensures end { EndsRegion rows.now at region from result }
{
    let arguments = row.regions.as_slice()[region].as_slice();
    if is_blank(rows, from, row.id, region, arguments) {
        put(sink, ok, b"{}");
        return from;
    }
    put(sink, ok, b"{\n");
    put_label(sink, ok, rows, numbers, depth, row.id, region, arguments);
    let end = put_block(sink, ok, rows, numbers, at, row, region, from, depth + 1);
    put_indent(sink, ok, depth);
    put(sink, ok, b"}");
    end
}

// Puts the rows of a region.
#[cycle(put_row)]
fn put_block<S: Sink>(
    sink: &mut S,
    ok: &mut bool,
    rows: &[Row],
    numbers: &Numbers,
    at: usize,
    row: &Row,
    region: usize,
    from: usize,
    depth: usize,
) -> usize
    requires printable { IsPrintable rows.now numbers.now }
    requires here { slice_get rows.now at ≡ Some row.now }
    requires deep { depth ≤ at + 1 }
    requires behind { at < from }
    requires opened { IsOpen rows.now at region from }
    ensures text { Prints ok.old ok.new (S.state sink.old) (S.state sink.new) (spec.inside_text rows.now from depth row.now region) }
    ensures end { EndsRegion rows.now at region from result }
{
    let mut end = from;
    while stands_at(rows, end, row.id, region) {
        end = put_row(sink, ok, rows, numbers, end, depth);
    }
    end
}

/// Prints a module in the generic form (MLIR Language Reference, "Operations"), with the numbers of its values. It fails
/// only where the sink's count of faults rises, and a front of the text was put then.
#[tactic(auto, unfolding(crate::specs::ModuleText::module_text))]
pub fn print_rows<S: Sink>(rows: &Rows, numbers: &Numbers, sink: &mut S) -> Result<(), Failed>
    requires well_formed { IsWellFormed rows.now }
    requires numbers { AreNumbersOf rows.now.rows numbers.now }
    ensures { Puts (S.state sink.old) (S.state sink.new) result (spec.module_text rows.now.rows) }
{
    let mut ok = true;
    let rows = rows.rows.as_slice();
    if !rows.is_empty() {
        put_row(sink, &mut ok, rows, numbers, 0, 0);
    }
    outcome(ok)
}
