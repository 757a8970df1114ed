//! What `compare` leaves out, and the words for it.

mod inside;
mod matching;
mod path_words;

ghost use Rattle.std.specs.Prelude.{◌≡◌, ◌++◌, OnOk, IfOk, IfErr, IfSome, IfNone};
ghost use Rattle.bi_base.specs.declared.fault.Error.TheVariants.{OutOfMemory};
ghost use Rattle.bi_common.specs.MadeFields.{bytes_of_names};
ghost use Rattle.bi_describe.specs.IgnoredWords.{AreWordsOfValue, AreWordsOfValues};
ghost use Rattle.bi_describe.specs.IgnoredWords.{IsBadIgnoredValue};
ghost use Rattle.bi_describe.specs.IgnoredWords.{IsPlainWord, IsNoPlainWord, ArePlainWords};
ghost use Rattle.bi_describe.specs.IgnoredWords.{AreNoPlainWords};
ghost use Rattle.bi_describe.specs.IgnoredErrors.{IsParseError};
ghost use Rattle.bi_describe.specs.MadeWords.{ignored_word, ignored_words};

use bi_base::Error;
pub(crate) use inside::{
    has_image, has_part, is_payload_ignored, is_payload_of_one, payload_of_word, words_inside,
};
pub(crate) use matching::{is_node_ignored, is_part_ignored, is_property_ignored, is_time_ignored};
use path_words::path_word;
use std::alloc::{AllocError, Global};

/// Where a devicetree is that is inside an image.
#[derive(Drop)]
pub enum PayloadPlace {
    /// In the payload of the image with this name.
    Image(Vec<u8>),
    /// In the part of a legacy image with this index.
    Part(u64),
}

/// The tree that a node is in.
#[derive(Drop)]
pub enum TreePlace {
    /// The tree of the image itself.
    Itself,
    /// A devicetree that is inside it.
    Inside(PayloadPlace),
}

/// A node: the tree that it is in, and the names of the nodes on the way to it.
#[derive(Drop)]
pub struct NodePlace {
    /// The tree.
    pub tree: TreePlace,
    /// The names of the nodes on the way to the node, the first of which is a child of the root.
    /// There are none for the root.
    pub names: Vec<Vec<u8>>,
}

/// What `compare` leaves out of both images.
#[derive(Drop)]
pub enum Ignored {
    /// The time of a legacy image, and the property `timestamp` of the root of a flattened image
    /// tree.
    Time,
    /// Each child of an image or a configuration whose name begins with `signature`, with all nodes
    /// below it.
    Signatures,
    /// A node, with its payload and all nodes below it.
    Node(NodePlace),
    /// A property of a node.
    Property(NodePlace, Vec<u8>),
    /// The part of a legacy image with this index. Other parts keep their indices.
    Part(u64),
}

/// Why words for what is ignored were not read.
#[derive(Clone, Copy, Debug, PartialEq, Eq, thiserror::Error)]
pub enum IgnoredError {
    /// The value with this index is for no words. It is the first such value.
    #[error("a value is for no words")]
    BadValue(usize),
    /// Memory ran out.
    #[error("out of memory")]
    OutOfMemory,
}

impl From<AllocError> for IgnoredError {
    ghost use Rattle.bi_describe.specs.declared.ignored.IgnoredError.TheVariants.{OutOfMemory};

    ghost from_gives = { λ _ error. error ≡ OutOfMemory };

    fn from(_error: AllocError) -> IgnoredError {
        IgnoredError::OutOfMemory
    }
}

impl Ignored {
    /// Returns what the values of an option leave out, in their order. A value is `time` or
    /// `signatures`, or several of these with a comma between each two. Or it is one word: PATH, or
    /// PATH, a space and the name of a property, both as a description prints them. PATH is the
    /// path of a node, or `part-` and the index of a part of a legacy image. The path of a node
    /// inside a payload is the path of the payload, `/`, and the path in its tree: such a word has
    /// an effect only if what is inside is compared by itself, as by `compare_ignoring_deep`.
    ///
    /// Errors: BadValue with the index of the first value that is of another form, as the empty one
    /// is; OutOfMemory.
    pub fn parse_all(alloc: Global, values: &[&[u8]]) -> Result<Vec<Ignored>, IgnoredError>
        ensures words { IfOk result (λ words.
            AreWordsOfValues (bytes_of_names values.now) (ignored_words words.items)) }
        ensures failed { IfErr result (IsParseError (bytes_of_names values.now)) }
    {
        let mut all = Vec::new(alloc);
        let mut index = 0;
        for value in values {
            let Some(words) = read_value(alloc, value)? else {
                return Err(IgnoredError::BadValue(index));
            };
            append_words(&mut all, words)?;
            index += 1;
        }
        Ok(all)
    }
}

/// Appends words to others. Fails if memory runs out.
fn append_words(all: &mut Vec<Ignored>, words: Vec<Ignored>) -> Result<(), AllocError>
    ensures { OnOk result (ignored_words all.new.items
        ≡ ignored_words all.old.items ++ ignored_words words.items) }
{
    all.reserve(words.as_slice().len())?;
    for word in words {
        all.push(word)?;
    }
    Ok(())
}

/// Returns what a value leaves out. Returns None if it is of no known form. Fails if memory runs
/// out.
fn read_value(alloc: Global, value: &[u8]) -> Result<Option<Vec<Ignored>>, AllocError>
    ensures some { IfOk result (λ found. IfSome found (λ words.
        AreWordsOfValue value.now (ignored_words words.items))) }
    ensures none { IfOk result (λ found. IfNone found (IsBadIgnoredValue value.now)) }
{
    match words_of_value(alloc, value) {
        Ok(found) => Ok(found),
        Err(_) => Err(AllocError),
    }
}

/// Returns what a value leaves out. Returns None if it is of no known form. Fails if memory runs
/// out.
fn words_of_value(alloc: Global, value: &[u8]) -> Result<Option<Vec<Ignored>>, Error>
    ensures some { IfOk result (λ found. IfSome found (λ words.
        AreWordsOfValue value.now (ignored_words words.items))) }
    ensures none { IfOk result (λ found. IfNone found (IsBadIgnoredValue value.now)) }
    ensures failed { IfErr result (λ error. error ≡ OutOfMemory) }
{
    if let Some(words) = plain_words(alloc, value)? {
        return Ok(Some(words));
    }
    match path_word(alloc, value)? {
        Some(word) => Ok(Some(Vec::from_array(alloc, [word])?)),
        None => Ok(None),
    }
}

/// Returns what words without a path leave out, with a comma between each two. Returns None if one
/// of them is no such word. Fails if memory runs out.
fn plain_words(alloc: Global, value: &[u8]) -> Result<Option<Vec<Ignored>>, AllocError>
    ensures some { IfOk result (λ found. IfSome found (λ words.
        ArePlainWords value.now (ignored_words words.items))) }
    ensures none { IfOk result (λ found. IfNone found (AreNoPlainWords value.now)) }
{
    let mut words = Vec::new(alloc);
    for text in value.split(|&byte| byte == b',') {
        let Some(word) = plain_word(text) else {
            return Ok(None);
        };
        words.push(word)?;
    }
    Ok(Some(words))
}

/// Returns what a word without a path leaves out. Returns None for any other text.
fn plain_word(text: &[u8]) -> Option<Ignored>
    ensures some { IfSome result (λ word. IsPlainWord text.now (ignored_word word)) }
    ensures none { IfNone result (IsNoPlainWord text.now) }
{
    if text == b"time".as_slice() {
        return Some(Ignored::Time);
    }
    if text == b"signatures".as_slice() {
        return Some(Ignored::Signatures);
    }
    None
}
