//! Small boot images with their pages. Each function does nothing: what it ensures is a fact about
//! the definitions. Two of them call the function of a law, from which their facts follow.

ghost use Rattle.bi_show.specs.KnownObjects.{ObjectValuesAreKnown, ObjectsAreKnown};
ghost use Rattle.bi_show.specs.KnownPages.{CellsAreKnown, PagesAreKnown, TablesAreKnown};
ghost use Rattle.bi_show.specs.KnownPages.{TimesAreKnown};
ghost use Rattle.bi_show.specs.KnownTreePages.{TreePagesAreKnown};

/// Times have known texts: the first and the last time of 32 bits, and seconds before and after a
/// day, a leap day and a year begin.
pub fn times_are_known()
    ensures { TimesAreKnown }
{}

/// Small tables have known texts: with a short row, with one row, and with none.
pub fn tables_are_known()
    ensures { TablesAreKnown }
{}

/// Cells are known words: codes with a name and without one, numbers, texts, and values of
/// properties.
pub fn cells_are_known()
    ensures { CellsAreKnown }
{}

/// The pages of a kernel image and of a multi-file image are known texts, with their layout and
/// without it.
pub fn pages_are_known()
    ensures { PagesAreKnown }
{
    bi_legacy::laws::one_meaning();
}

/// Values of properties are texts or numbers in JSON, or none; codes are names that can be given,
/// or numbers.
pub fn object_values_are_known()
    ensures { ObjectValuesAreKnown }
{}

/// The JSON of a kernel image with bytes after it is a known text.
pub fn objects_are_known()
    ensures { ObjectsAreKnown }
{
    bi_legacy::laws::one_meaning();
}

/// The page of a flattened image tree with a hash node, a configuration and a signature node is a
/// known text, with its layout and without it.
pub fn tree_pages_are_known()
    ensures { TreePagesAreKnown }
{
    bi_legacy::laws::one_meaning();
}
