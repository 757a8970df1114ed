//! Paths of nodes.

ghost use Rattle.std.specs.Prelude.{◌≡◌, ◌==◌, Some};
ghost use Rattle.std.specs.List.{slice_split};
ghost use Rattle.std.specs.Option.{option_map};
ghost use Rattle.bi_blob.specs.Lookups.{root_node};
ghost use Rattle.bi_fdt.specs.Content.{root_of};
ghost use Rattle.bi_fdt.specs.Views.{node_of};
ghost use Rattle.bi_c.specs.NodeElements.{node_at_path, node_below as found_below};

use bi_fdt::NodeRef;
use bi_fit::Fit;

/// Returns the node at a path of a flattened image tree, if there is one.
pub(crate) fn node_at<'a, 'b>(fit: &'b Fit<'a>, path: &[u8]) -> Option<NodeRef<'a, 'b>>
    ensures { option_map node_of result
        ≡ node_at_path (root_node (root_of fit.entry.now.blob)) path.now }
{
    let (first, names) = path.split_first()?;
    if *first != b'/' {
        return None;
    }
    let root = fit.blob().root();
    if names.is_empty() {
        return Some(root);
    }
    node_below(root, names)
}

/// Returns the node that these names lead to, with a slash between each two, if there is one.
fn node_below<'a, 'b>(root: NodeRef<'a, 'b>, names: &[u8]) -> Option<NodeRef<'a, 'b>>
    ensures { option_map node_of result
        ≡ found_below (Some (node_of root.entry)) (slice_split (λ byte. byte == 47) names.now) }
{
    let mut node = root;
    for name in names.split(|byte| *byte == b'/') {
        node = node.child(name)?;
    }
    Some(node)
}
