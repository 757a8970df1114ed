//! Laws for callers that build the document of a tree. The functions do nothing: what each one
//! ensures is the law.

ghost use Rattle.bi_lay.specs.Laws.{PropertiesAddTheirNames, NodesAddTheirNames, EachMayFollow};

/// Properties in turn add their names to the innermost open node, and change nothing else.
pub fn properties_add_their_names()
    ensures { PropertiesAddTheirNames }
{}

/// Nodes in turn, with all below them, add their names to the children of the innermost open node,
/// and change nothing else.
pub fn nodes_add_their_names()
    ensures { NodesAddTheirNames }
{}

/// If events may follow one another in a normal text, as those of a normal tree may
/// (`bi_blob::text_laws::normal_events_have_one_tree`), each may come at the stage after those
/// before it. So a caller that adds the events of such a tree in turn meets what `begin`,
/// `property` and `end` of a document require.
pub fn each_event_may_follow()
    ensures { EachMayFollow }
{}
