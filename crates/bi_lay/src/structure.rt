//! Writing the structure block (Devicetree Specification, 5.4).

ghost use Rattle.std.specs.Prelude.{◌≡◌, ◌-◌, ◌^◌, [], ◌∷◌, ◌++◌, length, min};
ghost use Rattle.bi_base.specs.Cells.{cell};
ghost use Rattle.bi_blob.specs.Tokens.{BeginNode, Prop, token_bytes};
ghost use Rattle.bi_lay.specs.Items.{item_encoding, item_token, structure_of_items};
ghost use Rattle.bi_lay.specs.Values.{value_bytes};

use crate::items::{Item, Property, Value};
use bi_base::{CountSink, Pen, SinkPen, up4};
use bi_blob::format::{BEGIN_NODE, END, END_NODE, PROP};

/// Returns how many bytes the structure block of these items has, or the greatest u64 if it has
/// more.
pub(crate) fn structure_size(items: &[Item<'_>]) -> u64
    ensures { result ≡ min (length (structure_of_items items.now)) (2 ^ 64 - 1) }
{
    let mut sink = CountSink::new();
    let mut pen = SinkPen::new(&mut sink);
    put_structure(items, &mut pen);
    pen.result().unwrap();
    sink.count()
}

/// Puts the structure block of these items.
#[tactic(auto, unfolding(bi_base::specs::Cells::cell))]
pub(crate) fn put_structure<P: Pen>(items: &[Item<'_>], pen: &mut P)
    ensures { P.puts pen.old (structure_of_items items.now) pen.new }
{
    for item in items {
        put_item(*item, pen);
    }
    put_cell(END, pen);
}

/// Puts the token of an item, and zeros up to a multiple of four bytes.
fn put_item<P: Pen>(item: Item<'_>, pen: &mut P)
    ensures { P.puts pen.old (item_encoding item.entry) pen.new }
{
    put_token(item, pen);
    let size = item.token_size();
    pen.put(&[0; 3][..up4(size) - size]);
}

/// Puts the token of an item without its padding.
fn put_token<P: Pen>(item: Item<'_>, pen: &mut P)
    ensures { P.puts pen.old (token_bytes (item_token item.entry)) pen.new }
{
    match item {
        Item::Begin(name) => put_begin(name, pen),
        Item::Property(property) => put_property(property, pen),
        Item::End => put_cell(END_NODE, pen),
    }
}

/// Puts the token that begins a node with this name.
fn put_begin<P: Pen>(name: &[u8], pen: &mut P)
    ensures { P.puts pen.old (token_bytes (BeginNode name.now)) pen.new }
{
    put_cell(BEGIN_NODE, pen);
    put_string(name, pen);
}

/// Puts the token of a property.
fn put_property<P: Pen>(property: Property<'_>, pen: &mut P)
    ensures { let value = value_bytes property.entry.value in
        P.puts pen.old (token_bytes (Prop property.entry.name_offset value)) pen.new }
{
    put_cell(PROP, pen);
    put_low_cell(property.value.len(), pen);
    put_low_cell(property.name_offset, pen);
    put_value(property.value, pen);
}

/// Puts the bytes of a value.
fn put_value<P: Pen>(value: Value<'_>, pen: &mut P)
    ensures { P.puts pen.old (value_bytes value.entry) pen.new }
{
    match value {
        Value::Slice(bytes) => pen.put(bytes),
        Value::Cell(number) => put_cell(number, pen),
        Value::Text(bytes) => put_string(bytes, pen),
    }
}

/// Puts a number as a cell: its four bytes, the highest first (Devicetree Specification, 2.2.4.2:
/// u32).
#[tactic(auto, unfolding(bi_base::specs::Cells::cell))]
pub(crate) fn put_cell<P: Pen>(number: u32, pen: &mut P)
    ensures { P.puts pen.old (cell number) pen.new }
{
    pen.put(&number.to_be_bytes());
}

/// Puts the low 32 bits of a number, which are all that a cell has.
#[tactic(auto, unfolding(bi_base::specs::Cells::cell))]
fn put_low_cell<P: Pen>(number: usize, pen: &mut P)
    ensures { P.puts pen.old (cell number) pen.new }
{
    put_cell((number % 0x1_0000_0000) as u32, pen);
}

/// Puts a string: the given bytes and a zero (Devicetree Specification, 2.2.4.2).
pub(crate) fn put_string<P: Pen>(bytes: &[u8], pen: &mut P)
    ensures { P.puts pen.old (bytes.now ++ 0 ∷ []) pen.new }
{
    pen.put(bytes);
    pen.put(&[0]);
}
