//! Laws about the names of properties. The functions do nothing: what each one ensures is the law.

ghost use Rattle.bi_fdt.specs.Laws.{NumbersAreOfNames, NamesAreDistinct};

/// Two properties of a blob have the same number if and only if their names are equal.
pub fn numbers_are_of_names()
    ensures { NumbersAreOfNames }
{}

/// The names of the properties of a table are distinct.
pub fn names_are_distinct()
    ensures { NamesAreDistinct }
{}
