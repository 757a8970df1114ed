//! The order in which the properties of two trees are compared.

ghost use Rattle.std.specs.Prelude.{◌≡◌, List, ℕ, IfOk};
ghost use Rattle.std.specs.List.{AllZip};
ghost use Rattle.bi_base.specs.Slices.{bytes_of};
ghost use Rattle.bi_blob.specs.Tree.{AreDistinct};
ghost use Rattle.bi_fdt.specs.declared.node.NodeRef.{NodeRef};
ghost use Rattle.bi_fdt.specs.Numbers.{FindsNumber};
ghost use Rattle.bi_fdt.specs.Views.{table_of_node};
ghost use Rattle.bi_fit.specs.CommonNumbers.{HaveNumbersAfter};

use bi_fdt::{Blob, PropertyOrder, keys_at};
use std::alloc::{AllocError, Global};

/// The properties of each node of two blobs, in the order of the numbers of their names in one list
/// of names.
#[derive(Drop)]
pub(super) struct Orders {
    /// The properties of the first blob.
    pub(super) own: PropertyOrder,
    /// The properties of the second blob.
    pub(super) other: PropertyOrder,
}

impl Orders {
    ghost use Rattle.bi_fit.specs.ComparedNodes.{HaveOneOrder};

    /// Returns the order of the properties of two blobs. Takes n log n comparisons of numbers for n
    /// properties. Fails if memory runs out.
    pub(super) fn new<'a>(
        alloc: Global,
        own: &Blob<'a>,
        other: &Blob<'a>,
    ) -> Result<Orders, AllocError>
        ensures { IfOk result (λ orders. (node other_node : NodeRef)
            → table_of_node node ≡ own.now.table → table_of_node other_node ≡ other.now.table
            → HaveOneOrder node other_node orders) }
    {
        let found = other.names_in_terms_of(alloc, own)?;
        // The call tells the proof that these names are distinct too.
        let _ = other.names();
        let numbers = common_numbers(alloc, own.names(), &found)?;
        let keys = own.name_numbers(alloc)?;
        let other_keys = keys_at(alloc, &numbers, &other.name_numbers(alloc)?)?;
        Ok(Orders {
            own: PropertyOrder::new(alloc, own, &keys)?,
            other: PropertyOrder::new(alloc, other, &other_keys)?,
        })
    }
}

/// Returns the numbers of other names in a list that begins with these names. `found` has the
/// number of each of the other names among these, or None if it is not among these. Fails if memory
/// runs out.
fn common_numbers(
    alloc: Global,
    names: &[&[u8]],
    found: &[Option<usize>],
) -> Result<Vec<usize>, AllocError>
    ensures { IfOk result (λ numbers. (others : List (List ℕ)) → AreDistinct (bytes_of names.now)
        → AreDistinct others → AllZip (FindsNumber (bytes_of names.now)) others found.now
        → HaveNumbersAfter (bytes_of names.now) others numbers.items) }
{
    let mut numbers = Vec::with_capacity(alloc, found.len())?;
    let mut next = names.len();
    for number in found {
        match number {
            Some(number) => numbers.push(*number)?,
            None => {
                numbers.push(next)?;
                next += 1;
            }
        }
    }
    Ok(numbers)
}
