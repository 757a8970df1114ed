//! Laws of plain trees. The functions do nothing: what each one ensures is the law.

ghost use Rattle.bi_plain.specs.Laws.{EachImageTreeHasPlainTree, EachPlainTreeIsOfImageTree};
ghost use Rattle.bi_plain.specs.Laws.{PlainTreesReturn};

/// A flattened image tree has a plain tree of the same depth, which has no other flattened image
/// tree, and whose text is that of the flattened image tree in the form Embedded.
pub fn each_image_tree_has_plain_tree()
    ensures { EachImageTreeHasPlainTree }
{}

/// A plain tree, with the boot processor and the memory reservations of a flattened image tree, is
/// that of a flattened image tree.
pub fn each_plain_tree_is_of_image_tree()
    ensures { EachPlainTreeIsOfImageTree }
{}

/// The text of a plain tree is accepted under limits that hold it, and means the flattened image
/// tree that the plain tree is of.
pub fn plain_trees_return()
    ensures { PlainTreesReturn }
{}
