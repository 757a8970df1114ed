//! Laws of the text of a blob, and of the normal text. The functions do nothing: what each one
//! ensures is the law.

ghost use Rattle.bi_blob.specs.TextLaws.{EachNameIsThereOnce, StringsGrowByUse, EachNameIsFound};
ghost use Rattle.bi_blob.specs.TextLaws.{OffsetsStay, NewOffsetIsAtEnd, TextEncodesItsTree};
ghost use Rattle.bi_blob.specs.TextLaws.{EachTextHasItsLength, TextOfEventsHasItsLength};
ghost use Rattle.bi_blob.specs.TextLaws.{HasEventWidths, TextIsBlob, TextIsAccepted};
ghost use Rattle.bi_blob.specs.TextLaws.{NormalTextIsAccepted, BlobHasContent, TextHasOneContent};
ghost use Rattle.bi_blob.specs.TextLaws.{EachTreeHasOneOrder, ContentMayBeOrdered};
ghost use Rattle.bi_blob.specs.TextLaws.{NormalTextTellsContent, TextWithRestHasOneContent};
ghost use Rattle.bi_blob.specs.TextLaws.{NormalTextWithRestTellsContent, NormalEventsHaveOneTree};
ghost use Rattle.bi_blob.specs.KnownTexts.{HasSmallestText, IsLaidOut};
ghost use Rattle.bi_blob.specs.NamesByPrefix.{PrefixesKeepByteOrder};

/// The strings block of a text has each name that the events use once, and no other name (profile
/// of this project; Devicetree Specification, 5.5).
pub fn each_name_is_there_once()
    ensures { EachNameIsThereOnce }
{}

/// The strings block of a text has names in the order of their first use. A property with a name
/// that was not used before adds this name and a zero byte at the end of the block. Any other
/// event leaves the block unchanged (profile of this project).
pub fn strings_grow_by_use()
    ensures { StringsGrowByUse }
{}

/// Each name that events use, if it has no zero byte, is at its offset in the strings block of
/// their text, with a zero byte after it (Devicetree Specification, 5.5).
pub fn each_name_is_found()
    ensures { EachNameIsFound }
{}

/// Once an event has used a name, later events do not change the offset of the name in the strings
/// block. A name that is used for the first time comes after all names that were used before
/// (profile of this project).
pub fn offsets_stay()
    ensures used { OffsetsStay }
    ensures new { NewOffsetIsAtEnd }
{}

/// The structure block of a text of at most 0x7fffffff bytes is the encoding of tokens with
/// FDT_END after them. Over the strings block of the text these tokens encode the tree, each at
/// the place that the layout gives it (Devicetree Specification, 5.4).
pub fn text_encodes_its_tree()
    ensures { TextEncodesItsTree }
{}

/// A text of a tree, and a text of any events, is as long as its header, memory reservation block,
/// structure block and strings block together, padded to a multiple of its alignment. The token of
/// a node's start has five bytes and the name, that of a property twelve bytes and the value, each
/// padded to a multiple of four, and that of a node's end four bytes (profile of this project;
/// Devicetree Specification, 5.4.1).
pub fn each_text_has_its_length()
    ensures trees { EachTextHasItsLength }
    ensures events { TextOfEventsHasItsLength }
    ensures widths { HasEventWidths }
{}

/// The text of a boot processor, memory reservations and a tree, if it has at most 0x7fffffff
/// bytes, and with any bytes after it, is a blob of exactly these, whatever the order of the
/// properties. The tree has the places of the layout and the same depth, and `totalsize` is the
/// length of the text (Devicetree Specification, chapter 5).
pub fn text_is_a_blob()
    ensures { TextIsBlob }
{}

/// The text of a boot processor, memory reservations and a tree, if it has at most 0x7fffffff
/// bytes, and with any bytes after it, is within limits of at least its whole length and the depth
/// of the tree, and has no fault under them.
pub fn text_is_accepted()
    ensures { TextIsAccepted }
{}

/// The normal text of a boot processor, memory reservations and a tree, if it has at most
/// 0x7fffffff bytes, and with any bytes after it, is a blob of exactly these, and has no fault
/// under limits of at least its whole length and the depth of the tree.
pub fn normal_text_is_accepted()
    ensures { NormalTextIsAccepted }
{}

/// The boot processor, the memory reservations and the tree of a file that is a blob can be laid
/// out as a text: numbers, names and values are in their ranges.
pub fn blob_has_content()
    ensures { BlobHasContent }
{}

/// Boot processors, memory reservations and trees that differ have texts that differ, if both texts
/// have the same alignment and one of them has at most 0x7fffffff bytes. Two equal files that each
/// begin with a text of at most 0x7fffffff bytes, with the same alignment, have texts of the same
/// boot processor, memory reservations and tree, and the same bytes after the texts.
pub fn text_has_one_content()
    ensures text { TextHasOneContent }
    ensures rest { TextWithRestHasOneContent }
{}

/// A tree with properties by name has one normal order of them: the byte order of their names
/// (profile of this project).
pub fn each_tree_has_one_order()
    ensures { EachTreeHasOneOrder }
{}

/// What may be laid out as a text may be laid out in normal order, and then has the same depth.
pub fn content_may_be_ordered()
    ensures { ContentMayBeOrdered }
{}

/// If one of two normal texts has at most 0x7fffffff bytes, the texts are the same if and only if
/// they are of the same boot processor, the same memory reservations and the same tree, with nodes
/// in order and properties by name. Two files that each begin with a normal text of at most
/// 0x7fffffff bytes are equal if and only if this holds for the texts and the bytes after the texts
/// are equal.
pub fn normal_text_tells_content()
    ensures text { NormalTextTellsContent }
    ensures rest { NormalTextWithRestTellsContent }
{}

/// Events are those of a tree that a blob can hold, of depth 64 at most and with the properties of
/// each node in byte order of their names, if and only if each of them may follow those before it
/// in a normal text and the last ends the root. They are then the events of no other tree (profile
/// of this project; Devicetree Specification, 5.4.2).
pub fn normal_events_have_one_tree()
    ensures { NormalEventsHaveOneTree }
{}

/// Names in the order of their prefixes, and names with the same prefix in the order of their
/// bytes, are in byte order (profile of this project).
pub fn prefixes_keep_byte_order()
    ensures { PrefixesKeepByteOrder }
{}

/// The normal text of the smallest tree, a root with one child `images`, is 88 known bytes.
pub fn smallest_text()
    ensures text { HasSmallestText }
{}

/// The normal text of a tree with two properties has blocks of known sizes at known offsets, and
/// its names are at known offsets of the strings block.
pub fn text_with_properties()
    ensures layout { IsLaidOut }
{}
