//! The arrays and structs that calls fill for small files. Each function does nothing: what it
//! ensures is a fact about the definitions. One of them calls the function of a law, from which its
//! facts follow.

ghost use Rattle.bi_c.specs.KnownElements.{PlaceNumbersAreKnown, IndicesAreKnown};
ghost use Rattle.bi_c.specs.KnownElements.{LegacyElementsAreKnown, TreeElementsAreKnown};

/// The numbers of what places a payload are those of the header.
pub fn place_numbers_are_known()
    ensures { PlaceNumbersAreKnown }
{}

/// The indices of images and configurations are known, and so are the numbers of the reasons why
/// nothing is listed.
pub fn indices_are_known()
    ensures { IndicesAreKnown }
{}

/// The fields and parts of a kernel image and of a multi-file image are known.
pub fn legacy_elements_are_known()
    ensures { LegacyElementsAreKnown }
{
    bi_legacy::laws::one_meaning();
}

/// The elements of a small flattened image tree are known: its images, hash nodes, configurations,
/// nodes and properties.
pub fn tree_elements_are_known()
    ensures { TreeElementsAreKnown }
{}
