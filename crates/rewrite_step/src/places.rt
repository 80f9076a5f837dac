// Where rows stand, and what they have.
ghost use Rattle.std.specs.Prelude.{◌≡◌, ◌<◌, ◌==◌, length, map, position, slice_get, IfSome};
ghost use Rattle.std.specs.Option.{option_and_then, option_copied, option_map};
ghost use Rattle.mlir_tree.specs.Module as rows_of;
ghost use Rattle.mlir_tree.specs.Laws as laws;
ghost use Rattle.rewrite_model.specs.Things as spec;
ghost use Rattle.rewrite_model.specs.Making as model;
ghost use Rattle.row_matcher.specs.View.{thing_of};
ghost use Rattle.rewrite_step.specs.Typing.{has_type};

use mlir_tree::row::Row;
use mlir_tree::ty::Ty;
use mlir_tree::value::Val;
use row_matcher::thing::Thing;

fn first_place(rows: &[Row], id: u32) -> Option<usize>
    ensures place { result ≡ position (λ r. r.id == id) rows.now }
    ensures within { IfSome result (λ k. k < length rows.now) }
{
    rows.iter().position(|row| row.id == id)
}

/// The place of the row of this number.
pub fn place_of(rows: &[Row], id: u32) -> Option<usize>
    ensures place { result ≡ position (λ r. r.id == id) rows.now }
    ensures row { option_and_then (slice_get rows.now) result ≡ rows_of.row_of rows.now id }
    ensures within { IfSome result (λ k. k < length rows.now) }
{
    first_place(rows, id)
}

/// The row of this number.
pub fn row_of(rows: &[Row], id: u32) -> Option<&Row>
    ensures { option_copied result ≡ rows_of.row_of rows.now id }
{
    match place_of(rows, id) {
        None => None,
        Some(at) => Some(&rows[at]),
    }
}

/// The row of an operation, where it is live.
pub fn row_at<'r>(rows: &'r [Row], x: Option<&Thing>) -> Option<&'r Row>
    ensures { option_copied result ≡ option_and_then (spec.row_at rows.now) (option_map thing_of (option_copied x.entry)) }
{
    match x {
        Some(Thing::Op(id)) => row_of(rows, *id),
        _ => None,
    }
}

fn result_type(row: &Row, index: u16) -> Option<&Ty>
    ensures { option_copied result ≡ slice_get row.now.results index }
{
    row.results.get(index as usize)
}

fn argument_type(row: &Row, region: u16, index: u16) -> Option<&Ty>
    ensures { option_copied result ≡ option_and_then (λ arguments. slice_get arguments index) (slice_get row.now.regions region) }
{
    match row.regions.get(region as usize) {
        None => None,
        Some(arguments) => arguments.get(index as usize),
    }
}

fn type_of_result(rows: &[Row], id: u32, index: u16) -> Option<&Ty>
    ensures { option_copied result ≡ option_and_then (λ r. slice_get r.results index) (rows_of.row_of rows.now id) }
{
    match row_of(rows, id) {
        None => None,
        Some(row) => result_type(row, index),
    }
}

fn type_of_argument(rows: &[Row], id: u32, region: u16, index: u16) -> Option<&Ty>
    ensures { option_copied result ≡ option_and_then (λ r. option_and_then (λ arguments. slice_get arguments index) (slice_get r.regions region)) (rows_of.row_of rows.now id) }
{
    match row_of(rows, id) {
        None => None,
        Some(row) => argument_type(row, region, index),
    }
}

/// The type of a value.
pub fn type_of(rows: &[Row], value: Val) -> Option<&Ty>
    ensures { option_copied result ≡ spec.type_of rows.now value }
{
    match value {
        Val::Res(id, index) => type_of_result(rows, id, index),
        Val::Arg(id, region, index) => type_of_argument(rows, id, region, index),
    }
}

fn has_row(rows: &[Row], id: u32) -> bool
    ensures { result ≡ rows_of.has_row rows.now id }
{
    rows.iter().any(|row| row.id == id)
}

fn owner_of(value: Val) -> u32
    ensures { result ≡ laws.owner_of value }
{
    match value {
        Val::Res(id, _) => id,
        Val::Arg(id, _, _) => id,
    }
}

/// Whether the operations that have these values are live.
pub fn are_live(rows: &[Row], values: &[Val]) -> bool
    ensures { result ≡ model.are_live rows.now values.now }
{
    values.iter().all(|value| has_row(rows, owner_of(*value)))
}

/// The result of this index.
pub fn result_at(index: u16, row: &Row) -> Option<Thing>
    ensures { option_map thing_of result ≡ spec.result_at index row.now }
{
    if (index as usize) < row.results.len() {
        return Some(Thing::Value(Val::Res(row.id, index)));
    }
    None
}

/// The result of a row that has exactly one.
pub fn only_result_at(row: &Row) -> Option<Thing>
    ensures { option_map thing_of result ≡ spec.only_result_at row.now }
{
    if row.results.len() == 1 {
        return Some(Thing::Value(Val::Res(row.id, 0)));
    }
    None
}

fn has_type(rows: &[Row], value: Val, ty: &Ty) -> bool
    ensures { result ≡ has_type rows.now value ty.now }
{
    match type_of(rows, value) {
        None => false,
        Some(other) => other.cmp(ty).is_eq(),
    }
}

/// Whether the values have these types, place by place.
pub fn have_types(rows: &[Row], values: &[Val], types: &[Ty]) -> bool
    ensures { result ≡ model.have_types rows.now values.now types.now }
{
    if values.len() != types.len() {
        return false;
    }
    for i in 0..values.len() {
        if !has_type(rows, values[i], &types[i]) {
            return false;
        }
    }
    true
}
