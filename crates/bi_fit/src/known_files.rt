//! Small flattened image trees with known meanings, texts and faults. The functions do nothing:
//! what each one ensures is a fact about the definitions.

ghost use Rattle.bi_fit.specs.KnownFiles.{SmallestIsFit, OffsetIsFromAlignedEnd};
ghost use Rattle.bi_fit.specs.KnownFiles.{PositionIsBeforeData, OffsetIsBeforeData};
ghost use Rattle.bi_fit.specs.KnownFiles.{PositionIsBeforeOffset, NoneIsNotEmpty};
ghost use Rattle.bi_fit.specs.KnownFiles.{ThreeImagesHaveTexts, SharedRegionIsRepeated};
ghost use Rattle.bi_fit.specs.KnownFiles.{ThreeImagesAreAligned, PayloadsAreAligned};
ghost use Rattle.bi_fit.specs.KnownFiles.{ChildrenKeepOrder, OnlyImagesHavePayloads};
ghost use Rattle.bi_fit.specs.KnownFiles.{UnusedHaveNoMeaning};
ghost use Rattle.bi_fit.specs.KnownFaults.{WithoutImages, RegionsHaveFaults, FirstFaultCounts};
ghost use Rattle.bi_fit.specs.KnownJudgements.{ListsAreRead, HashesAreJudged};
ghost use Rattle.bi_fit.specs.KnownBuilds.{BuiltIsKnown, EachKeyIsKnown, BoardsAreKnown};
ghost use Rattle.bi_fit.specs.KnownBuilds.{HashNodesAreKnown, OwnTextsAreKnown};
ghost use Rattle.bi_fit.specs.KnownUpdates.{UpdatesAreKnown};
ghost use Rattle.bi_fit.specs.KnownKept.{KeptOfFilesIsKnown, KeptOfPayloadsIsKnown};

/// A file of 88 bytes with a root and its child `images` is a flattened image tree, and is its own
/// text in both forms.
pub fn smallest_is_fit()
    ensures smallest { SmallestIsFit }
{}

/// `data-offset` is counted from the first multiple of four that is not before the end of the
/// blob: the payload of a file whose `totalsize` is 157 begins at 160.
pub fn offset_is_from_aligned_end()
    ensures offset { OffsetIsFromAlignedEnd }
{}

/// `data-position` gives the payload even if there is `data`.
pub fn position_is_before_data()
    ensures position { PositionIsBeforeData }
{}

/// `data-offset` gives the payload even if there is `data`.
pub fn offset_is_before_data()
    ensures offset { OffsetIsBeforeData }
{}

/// `data-position` gives the payload of an image that has all four properties.
pub fn position_is_before_offset()
    ensures position { PositionIsBeforeOffset }
{}

/// An image without a payload is not one with an empty payload.
pub fn none_is_not_empty()
    ensures none { NoneIsNotEmpty }
{}

/// Three images with payloads of 5, 0 and 1 bytes have texts of 180 and 253 bytes. In the external
/// one the payloads are at offsets 0, 8 and 8 from the end of the blob.
pub fn three_images_have_texts()
    ensures three { ThreeImagesHaveTexts }
{}

/// With the alignment 8 the text of the same three images has a blob of 248 bytes and payloads at
/// offsets 0, 8 and 8 from its end: 257 bytes. With 16 the text has 273 bytes, with 4096 it has
/// 8,193, and with 4 it is the text in the form External.
pub fn three_images_are_aligned()
    ensures aligned { ThreeImagesAreAligned }
{}

/// External payloads begin at multiples of four: those of 1, 0 and 1 bytes are at offsets 0, 4 and
/// 4 from the end of the blob.
pub fn payloads_are_aligned()
    ensures aligned { PayloadsAreAligned }
{}

/// Three images that share a region of 1,000 bytes in a file of 1,244 bytes have texts of 3,168
/// and 3,244 bytes.
pub fn shared_region_is_repeated()
    ensures shared { SharedRegionIsRepeated }
{}

/// The children of a node stay in their order in a text.
pub fn children_keep_order()
    ensures order { ChildrenKeepOrder }
{}

/// The properties that hold payloads in image nodes are ordinary properties in all other nodes, and
/// nodes `images` below any node other than the root are ordinary nodes.
pub fn only_images_have_payloads()
    ensures others { OnlyImagesHavePayloads }
{}

/// Of the four properties of an image node, those that do not give its payload have no meaning.
pub fn unused_have_no_meaning()
    ensures unused { UnusedHaveNoMeaning }
{}

/// Files without image nodes have the fault NoImages at the token of the root.
pub fn without_images()
    ensures images { WithoutImages }
{}

/// Files with a region that cannot be read have known faults: each check is the first that fails
/// in one of them.
pub fn regions_have_faults()
    ensures regions { RegionsHaveFaults }
{}

/// Of two checks that fail, the first in their order gives the fault.
pub fn first_fault_counts()
    ensures first { FirstFaultCounts }
{}

/// The lists of small configurations are read as the images that they name, or refused for the
/// first reason that applies.
pub fn lists_are_read()
    ensures lists { ListsAreRead }
{}

/// Hash nodes of small images have known verdicts.
pub fn hashes_are_judged()
    ensures hashes { HashesAreJudged }
{}

/// The tree that is built from a small kernel and a small ramdisk has known nodes and properties,
/// and a text of 824 bytes.
pub fn built_is_known()
    ensures built { BuiltIsKnown }
{}

/// The keys have known names, types of images and an order, and the configuration of a tree that is
/// built by types lists the images of each of them in this order.
pub fn each_key_is_known()
    ensures keys { EachKeyIsKnown }
{}

/// The tree of two boards that share a kernel has known nodes and properties. Each configuration
/// lists the images that it names, and the second is the default.
pub fn boards_are_known()
    ensures boards { BoardsAreKnown }
{}

/// An image has as many hash nodes as there are algorithms, with known names.
pub fn hash_nodes_are_known()
    ensures hashes { HashNodesAreKnown }
{}

/// An image and a configuration with a description of their own have it, and a configuration with
/// boards has their texts under `compatible`. Without any of them, each has the description of the
/// tree, and no configuration has `compatible`.
pub fn own_texts_are_known()
    ensures texts { OwnTextsAreKnown }
{}

/// A small tree has known nodes and properties after an update of the time, of the digests and of
/// both.
pub fn updates_are_known()
    ensures updates { UpdatesAreKnown }
{}

/// What texts in the form External keep of where the payloads of small files are is known: of a
/// file whose payloads are at multiples of 4096, of one with a fixed position, and of one that
/// loses nothing. So is what they keep of payloads at known offsets.
pub fn kept_is_known()
    ensures files { KeptOfFilesIsKnown }
    ensures payloads { KeptOfPayloadsIsKnown }
{}
