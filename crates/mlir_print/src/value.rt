// Values: their numbers and types.
ghost use Rattle.std.specs.Prelude.{◌≡◌, ◌++◌, false, codes, decimal, IsTrue};
ghost use Rattle.std.specs.Option.{option_map_or, option_copied};
ghost use Rattle.mlir_tree.specs.Module as tree;
ghost use Rattle.mlir_tree.specs.declared.value.Val.TheVariants.{Arg};
ghost use Rattle.mlir_print.specs.Prints.{Prints};
ghost use Rattle.mlir_print.specs.Numbering as numbering;
ghost use Rattle.mlir_print.specs.NumberMaps.{AreNumbersOf};
ghost use Rattle.mlir_print.specs.Printable.{AreValues};
ghost use Rattle.mlir_print.specs.ModuleText as spec;

use crate::latch::put;
use crate::numbers::Numbers;
use crate::ty::{put_number, put_ty};
use itoa::Buffer;
use mlir_tree::row::Row;
use mlir_tree::ty::Ty;
use mlir_tree::value::Val;
use row_index::index::row_of;
use rw_outside::Sink;

pub fn put_count<S: Sink>(sink: &mut S, ok: &mut bool, count: usize)
    ensures { Prints ok.old ok.new (S.state sink.old) (S.state sink.new) (decimal count) }
{
    let mut buffer = Buffer::new();
    put(sink, ok, buffer.format(count).as_bytes());
}

// Puts the comma before a member that isn't the first.
pub fn put_separator<S: Sink>(sink: &mut S, ok: &mut bool, place: usize)
    ensures { Prints ok.old ok.new (S.state sink.old) (S.state sink.new) (spec.separator place) }
{
    if place > 0 {
        put(sink, ok, b", ");
    }
}

// The number of the results of a row.
pub fn result_number(rows: &[Row], numbers: &Numbers, id: u32) -> usize
    requires { AreNumbersOf rows.now numbers.now }
    ensures { result ≡ numbering.result_number rows.now id }
{
    match numbers.entry(id) {
        None => 0,
        Some(found) => found.result,
    }
}

// The number of an argument that is there.
pub fn argument_number(
    rows: &[Row],
    numbers: &Numbers,
    id: u32,
    region: usize,
    place: usize,
) -> u128
    requires numbers { AreNumbersOf rows.now numbers.now }
    requires there { IsTrue (tree.is_value rows.now (Arg id region place)) }
    ensures { result ≡ numbering.argument_number rows.now id region place }
{
    match numbers.entry(id) {
        None => 0,
        Some(found) => found.arguments[region] + place as u128,
    }
}

// Whether the row is there and has more than one result.
fn is_group(rows: &[Row], numbers: &Numbers, id: u32) -> bool
    requires { AreNumbersOf rows.now numbers.now }
    ensures { result ≡ option_map_or spec.is_group (tree.row_of rows.now id) false }
{
    match row_of(rows, &numbers.index, id) {
        None => false,
        Some(row) => row.results.len() > 1,
    }
}

// Puts the place of a result that is one of a group.
fn put_place<S: Sink>(
    sink: &mut S,
    ok: &mut bool,
    rows: &[Row],
    numbers: &Numbers,
    id: u32,
    place: u16,
)
    requires { AreNumbersOf rows.now numbers.now }
    ensures { Prints ok.old ok.new (S.state sink.old) (S.state sink.new) (spec.place_text rows.now id place) }
{
    if is_group(rows, numbers, id) {
        put(sink, ok, b"#");
        put_count(sink, ok, usize::from(place));
    }
}

#[tactic(auto, unfolding(crate::specs::ModuleText::value_text))]
fn put_value<S: Sink>(sink: &mut S, ok: &mut bool, rows: &[Row], numbers: &Numbers, value: Val)
    requires numbers { AreNumbersOf rows.now numbers.now }
    requires there { IsTrue (tree.is_value rows.now value) }
    ensures { Prints ok.old ok.new (S.state sink.old) (S.state sink.new) (spec.value_text rows.now value) }
{
    match value {
        Val::Res(id, place) => {
            put(sink, ok, b"%");
            put_count(sink, ok, result_number(rows, numbers, id));
            put_place(sink, ok, rows, numbers, id, place);
        }
        Val::Arg(id, region, place) => {
            put(sink, ok, b"%arg");
            put_number(
                sink,
                ok,
                argument_number(rows, numbers, id, usize::from(region), usize::from(place)),
            );
        }
    }
}

// Puts values with commas between.
pub fn put_values<S: Sink>(
    sink: &mut S,
    ok: &mut bool,
    rows: &[Row],
    numbers: &Numbers,
    values: &[Val],
)
    requires numbers { AreNumbersOf rows.now numbers.now }
    requires there { AreValues rows.now values.now }
    ensures { Prints ok.old ok.new (S.state sink.old) (S.state sink.new) (spec.listed (spec.value_text rows.now) 0 values.now) }
{
    for i in 0..values.len() {
        put_separator(sink, ok, i);
        let value = &values[i];
        put_value(sink, ok, rows, numbers, *value);
    }
}

// The type of a value.
#[tactic(auto, unfolding(crate::specs::ModuleText::value_type))]
fn value_ty<'a>(rows: &'a [Row], numbers: &Numbers, value: Val) -> Option<&'a Ty>
    requires { AreNumbersOf rows.now numbers.now }
    ensures { option_copied result ≡ spec.value_type rows.now value }
{
    match value {
        Val::Res(id, place) => match row_of(rows, &numbers.index, id) {
            None => None,
            Some(row) => row.results.get(usize::from(place)),
        },
        Val::Arg(id, region, place) => match row_of(rows, &numbers.index, id) {
            None => None,
            Some(row) => argument_ty(row, usize::from(region), usize::from(place)),
        },
    }
}

// The type of an argument of the row.
fn argument_ty(row: &Row, region: usize, place: usize) -> Option<&Ty>
    ensures { option_copied result ≡ spec.argument_type region place row.now }
{
    match row.regions.get(region) {
        None => None,
        Some(arguments) => arguments.get(place),
    }
}

fn put_value_ty<S: Sink>(sink: &mut S, ok: &mut bool, rows: &[Row], numbers: &Numbers, value: Val)
    requires { AreNumbersOf rows.now numbers.now }
    ensures { Prints ok.old ok.new (S.state sink.old) (S.state sink.new) (spec.value_type_text rows.now value) }
{
    if let Some(ty) = value_ty(rows, numbers, value) {
        put_ty(sink, ok, ty);
    }
}

// Puts the types of values with commas between.
pub fn put_value_tys<S: Sink>(
    sink: &mut S,
    ok: &mut bool,
    rows: &[Row],
    numbers: &Numbers,
    values: &[Val],
)
    requires { AreNumbersOf rows.now numbers.now }
    ensures { Prints ok.old ok.new (S.state sink.old) (S.state sink.new) (spec.listed (spec.value_type_text rows.now) 0 values.now) }
{
    for i in 0..values.len() {
        put_separator(sink, ok, i);
        let value = &values[i];
        put_value_ty(sink, ok, rows, numbers, *value);
    }
}
