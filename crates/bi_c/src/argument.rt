//! The arguments of a call that can be out of their ranges.

ghost use Rattle.std.specs.Prelude.{◌≡◌};
ghost use Rattle.bi_c.specs.Checks.{IsWrongLimit, argument_number};

/// An argument of a call that can be out of its range. Of several that are, a call names the first
/// in this order.
#[derive(Clone, Copy)]
pub(crate) enum Argument {
    /// The struct of options: its size, or a member that has no name of its own here.
    Options,
    /// The greatest number of bytes of a file.
    Limit,
    /// The greatest depth of a tree.
    Depth,
    /// The number of a form.
    Form,
    /// The bits of changes.
    Changes,
    /// The number of a layout.
    Layout,
    /// The bits of kinds of concerns.
    Kinds,
    /// The number of a key.
    Key,
    /// The number of a field that has codes.
    Field,
    /// A code.
    Code,
    /// The number of a cause.
    Number,
    /// The words that name a value.
    Place,
    /// The fields of a legacy image.
    Fields,
    /// The parts of a legacy image.
    Parts,
    /// The words of what is left out.
    Words,
    /// The edits.
    Edits,
    /// The images to be built.
    Images,
    /// The texts of images to be built.
    Texts,
    /// The regions that configurations list.
    Lists,
    /// The algorithms of hash nodes.
    Algorithms,
    /// The configurations to be built.
    Configurations,
}

/// Returns the number of an argument.
pub(crate) fn number_of(argument: Argument) -> u32
    ensures { result ≡ argument_number argument }
{
    match argument {
        Argument::Options => 1,
        Argument::Limit => 2,
        Argument::Depth => 3,
        Argument::Form => 4,
        Argument::Changes => 5,
        Argument::Layout => 6,
        Argument::Kinds => 7,
        Argument::Key => 8,
        Argument::Field => 9,
        Argument::Code => 10,
        Argument::Number => 11,
        Argument::Place => 12,
        Argument::Fields => 13,
        Argument::Parts => 14,
        Argument::Words => 15,
        Argument::Edits => 16,
        Argument::Images => 17,
        Argument::Texts => 18,
        Argument::Lists => 19,
        Argument::Algorithms => 20,
        Argument::Configurations => 21,
    }
}

/// Returns the limit if it is out of its range, and else the depth: of the two, the first that is
/// wrong, if one is.
pub(crate) fn wrong_limit(limit: u32) -> Argument
    ensures { IsWrongLimit limit result }
{
    if (64..=0x7fff_ffff).contains(&limit) {
        Argument::Depth
    } else {
        Argument::Limit
    }
}
