// The parts of an operation before and behind its regions.
ghost use Rattle.std.specs.Prelude.{◌≡◌};
ghost use Rattle.mlir_tree.specs.Tree.{entries};
ghost use Rattle.mlir_print.specs.Prints.{Prints};
ghost use Rattle.mlir_print.specs.NumberMaps.{AreNumbersOf};
ghost use Rattle.mlir_print.specs.Printable.{AreValues};
ghost use Rattle.mlir_print.specs.ModuleText as spec;

use crate::attr::put_entries;
use crate::latch::put;
use crate::numbers::Numbers;
use crate::string::put_string;
use crate::ty::put_results;
use crate::value::{put_count, put_value_tys, put_values, result_number};
use mlir_tree::attr::Attr;
use mlir_tree::row::Row;
use mlir_tree::text::Text;
use rw_outside::Sink;

// Puts two spaces a depth.
pub fn put_indent<S: Sink>(sink: &mut S, ok: &mut bool, depth: usize)
    ensures { Prints ok.old ok.new (S.state sink.old) (S.state sink.new) (spec.indent depth) }
{
    let mut left = depth;
    while left > 0 {
        put(sink, ok, b"  ");
        left -= 1;
    }
}

fn put_group<S: Sink>(sink: &mut S, ok: &mut bool, row: &Row)
    ensures { Prints ok.old ok.new (S.state sink.old) (S.state sink.new) (spec.group_text row.now) }
{
    if row.results.len() > 1 {
        put(sink, ok, b":");
        put_count(sink, ok, row.results.len());
    }
}

#[tactic(auto, unfolding(crate::specs::ModuleText::results_text))]
fn put_defined<S: Sink>(sink: &mut S, ok: &mut bool, rows: &[Row], numbers: &Numbers, row: &Row)
    requires { AreNumbersOf rows.now numbers.now }
    ensures { Prints ok.old ok.new (S.state sink.old) (S.state sink.new) (spec.results_text rows.now row.now) }
{
    if row.results.len() > 0 {
        put(sink, ok, b"%");
        put_count(sink, ok, result_number(rows, numbers, row.id));
        put_group(sink, ok, row);
        put(sink, ok, b" = ");
    }
}

#[tactic(auto, unfolding(crate::specs::ModuleText::properties_text))]
fn put_properties<S: Sink>(sink: &mut S, ok: &mut bool, properties: &[(Text, Attr)])
    ensures { Prints ok.old ok.new (S.state sink.old) (S.state sink.new) (spec.properties_text properties.now) }
{
    if properties.is_empty() {
        return;
    }
    put(sink, ok, b" <{");
    put_entries(sink, ok, properties);
    put(sink, ok, b"}>");
}

#[tactic(auto, unfolding(crate::specs::ModuleText::attributes_text))]
fn put_attributes<S: Sink>(sink: &mut S, ok: &mut bool, attributes: &[(Text, Attr)])
    ensures { Prints ok.old ok.new (S.state sink.old) (S.state sink.new) (spec.attributes_text attributes.now) }
{
    if attributes.is_empty() {
        return;
    }
    put(sink, ok, b" {");
    put_entries(sink, ok, attributes);
    put(sink, ok, b"}");
}

#[tactic(auto, unfolding(crate::specs::ModuleText::function_text))]
fn put_function<S: Sink>(sink: &mut S, ok: &mut bool, rows: &[Row], numbers: &Numbers, row: &Row)
    requires { AreNumbersOf rows.now numbers.now }
    ensures { Prints ok.old ok.new (S.state sink.old) (S.state sink.new) (spec.function_text rows.now row.now) }
{
    put(sink, ok, b"(");
    put_value_tys(sink, ok, rows, numbers, row.operands.as_slice());
    put(sink, ok, b") -> ");
    put_results(sink, ok, row.results.as_slice());
}

// Puts what stands before the regions.
#[tactic(auto, unfolding(crate::specs::ModuleText::head_text))]
pub fn put_head<S: Sink>(
    sink: &mut S,
    ok: &mut bool,
    rows: &[Row],
    numbers: &Numbers,
    depth: usize,
    row: &Row,
)
    requires numbers { AreNumbersOf rows.now numbers.now }
    requires operands { AreValues rows.now row.now.operands }
    ensures { Prints ok.old ok.new (S.state sink.old) (S.state sink.new) (spec.head_text rows.now depth row.now) }
{
    put_indent(sink, ok, depth);
    put_defined(sink, ok, rows, numbers, row);
    put_string(sink, ok, row.name.as_slice());
    put(sink, ok, b"(");
    put_values(sink, ok, rows, numbers, row.operands.as_slice());
    put(sink, ok, b")");
    put_properties(sink, ok, row.props.as_slice());
}

// Puts what stands behind the regions.
#[tactic(auto, unfolding(crate::specs::ModuleText::tail_text))]
pub fn put_tail<S: Sink>(sink: &mut S, ok: &mut bool, rows: &[Row], numbers: &Numbers, row: &Row)
    requires { AreNumbersOf rows.now numbers.now }
    ensures { Prints ok.old ok.new (S.state sink.old) (S.state sink.new) (spec.tail_text rows.now row.now) }
{
    put_attributes(sink, ok, row.attrs.as_slice());
    put(sink, ok, b" : ");
    put_function(sink, ok, rows, numbers, row);
    put(sink, ok, b"\n");
}
