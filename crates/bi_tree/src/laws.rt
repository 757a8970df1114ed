//! Laws of changes of trees. The functions do nothing: what each one ensures is the law.

ghost use Rattle.bi_tree.specs.Laws.{ChangesByName, NumbersStayInTrees};

/// A change of a tree is the same change of the tree with the properties of each node by name.
pub fn changes_by_name()
    ensures { ChangesByName }
{}

/// If no node has two properties with one name, and each gives the number of its name, so it is
/// after changes, and among more names.
pub fn numbers_stay()
    ensures { NumbersStayInTrees }
{}
