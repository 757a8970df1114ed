//! The events of a tree, as a document stores them.
#![tactic(auto, unfolding(bi_base::specs::Cells::cell))]

ghost use Rattle.std.specs.Prelude.{◌≡◌, ◌+◌, ◌<◌, ◌≤◌, ◌^◌, length};

/// The value of a property.
#[derive(Clone, Copy)]
pub enum Value<'a> {
    /// These bytes.
    Slice(&'a [u8]),
    /// The four big-endian bytes of this number (Devicetree Specification, 2.2.4.2: u32).
    Cell(u32),
    /// These bytes and a zero (Devicetree Specification, 2.2.4.2: string).
    Text(&'a [u8]),
}

impl<'a> Value<'a> {
    ghost use Rattle.bi_lay.specs.Values.{value_bytes};

    /// Returns the length of the value in bytes.
    pub(crate) fn len(&self) -> usize
        ensures length { result ≡ length (value_bytes self.now) }
        ensures small { result ≤ 2 ^ 63 }
    {
        match self {
            Value::Slice(bytes) => bytes.len(),
            Value::Cell(_) => 4,
            Value::Text(bytes) => bytes.len() + 1,
        }
    }
}

/// A property, with the offset of its name in the strings block.
#[derive(Clone, Copy)]
pub(crate) struct Property<'a> {
    pub(crate) name: &'a [u8],
    pub(crate) name_offset: usize,
    pub(crate) value: Value<'a>,
}

/// One event of the tree.
#[derive(Clone, Copy)]
pub(crate) enum Item<'a> {
    /// A node begins, and has this name.
    Begin(&'a [u8]),
    /// The innermost open node has this property.
    Property(Property<'a>),
    /// The innermost open node ends.
    End,
}

impl<'a> Item<'a> {
    ghost use Rattle.bi_blob.specs.Tokens.{token_bytes};
    ghost use Rattle.bi_lay.specs.Items.{item_token};

    /// Returns the length of the item's token in bytes, without its padding.
    pub(crate) fn token_size(&self) -> usize
        ensures size { result ≡ length (token_bytes (item_token self.now)) }
        ensures small { result + 3 < 2 ^ 64 }
    {
        match self {
            Item::Begin(name) => 4 + name.len() + 1,
            Item::Property(property) => 12 + property.value.len(),
            Item::End => 4,
        }
    }
}
