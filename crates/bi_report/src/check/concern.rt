//! A concern about a boot image.

ghost use Rattle.std.specs.Prelude.{◌≡◌};
ghost use Rattle.bi_coverage.specs.Values.{signature_concern};
ghost use Rattle.bi_report.specs.Checking.{concern_details, kind_of as kind_of_concern};
ghost use Rattle.bi_report.specs.Checking.{kind_of_signature as kind_of_signature_concern};
ghost use Rattle.bi_report.specs.Checking.{path_details};
ghost use Rattle.bi_report.specs.ConcernValues.{concern_value};
ghost use Rattle.bi_report.specs.MadeDetails.{details_in, made_details};

use super::ConcernKind;
use crate::details::Detail;
use crate::used_hashes::UsedHashes;
use crate::verify::verdict_word;
use bi_coverage::SignatureConcern;
use bi_fdt::{NodeRef, Property};
use bi_fit::{Checked, Key};

/// A concern about a boot image.
#[derive(Clone, Copy)]
pub enum Concern<'a, 'b> {
    /// The verdict on a hash node is not Good. The nodes are those of the image and of the hash.
    BadHash(NodeRef<'a, 'b>, NodeRef<'a, 'b>, Checked<'a>),
    /// U-Boot skips this hash node. The nodes are those of the image and of the hash.
    SkippedHash(NodeRef<'a, 'b>, NodeRef<'a, 'b>, Checked<'a>),
    /// The image of this node has a payload and no Good verdict, apart from hash nodes that U-Boot
    /// skips.
    UnhashedImage(NodeRef<'a, 'b>),
    /// The image of this node has a payload and Good verdicts, and none of these is of a strong
    /// algorithm. These are all of its hash nodes that U-Boot does not skip.
    WeakHash(NodeRef<'a, 'b>, UsedHashes<'a, 'b>),
    /// The value of this key of the configuration of this node is not a list of names.
    BadKey(NodeRef<'a, 'b>, Key),
    /// The configuration of this node lists, under this key and at this index, a name that no image
    /// has. It is the first such name.
    MissingImage(NodeRef<'a, 'b>, Key, usize),
    /// The configuration with this name has no signed node, or there is no configuration.
    Unsigned(Option<&'a [u8]>),
    /// A signed node of a configuration does not cover all of it. The names are those of the
    /// configuration and of the node.
    OfSignature(&'a [u8], &'a [u8], &'b SignatureConcern<'a>),
    /// The name of a node has a unit address. These are the names of the nodes on the way to it,
    /// without the root.
    UnitAddress(&'b [&'a [u8]]),
    /// The default names no configuration, or is not there. It is the name in this property.
    BadDefault(Option<&'a [u8]>, Option<Property<'a>>),
    /// This many bytes follow the image, and one of them is not zero.
    TrailingBytes(usize),
}

impl<'a, 'b> Concern<'a, 'b> {
    /// Returns the kind of the concern.
    pub fn kind(self) -> ConcernKind
        ensures { result ≡ kind_of_concern (concern_value self.entry) }
    {
        match self {
            Concern::BadHash(..) => ConcernKind::BadHash,
            Concern::SkippedHash(..) => ConcernKind::SkippedHash,
            Concern::UnhashedImage(_) => ConcernKind::Unhashed,
            Concern::WeakHash(..) => ConcernKind::WeakHash,
            Concern::BadKey(..) => ConcernKind::BadList,
            Concern::MissingImage(..) => ConcernKind::Missing,
            Concern::Unsigned(_) => ConcernKind::Unsigned,
            Concern::OfSignature(_, _, concern) => kind_of_signature(concern),
            Concern::UnitAddress(_) => ConcernKind::UnitAddress,
            Concern::BadDefault(..) => ConcernKind::BadDefault,
            Concern::TrailingBytes(_) => ConcernKind::Trailing,
        }
    }

    /// Returns the details of the concern: the word for its kind, and at most four after it.
    pub(crate) fn details(self) -> [Detail<'a, 'b>; 5]
        ensures { made_details result ≡ concern_details (concern_value self.entry) }
    {
        let kind: Detail<'a, 'b> = Detail::Word("concern", self.kind().word());
        let none: Detail<'a, 'b> = Detail::Nothing;
        match self {
            Concern::BadHash(_, _, hash) => [
                kind,
                Detail::Name("image", Some(hash.image)),
                Detail::Name("node", Some(hash.node)),
                Detail::Name("algorithm", hash.algo),
                Detail::Word("verdict", verdict_word(hash.verdict)),
            ],
            Concern::SkippedHash(_, _, hash) => {
                let image = Detail::Name("image", Some(hash.image));
                let node = Detail::Name("node", Some(hash.node));
                [kind, image, node, none, none]
            }
            Concern::UnhashedImage(image) => {
                let image = Detail::Name("image", Some(image.name()));
                [kind, image, none, none, none]
            }
            Concern::WeakHash(image, hashes) => {
                let image = Detail::Name("image", Some(image.name()));
                let algorithms = Detail::Algorithms("algorithms", hashes);
                [kind, image, algorithms, none, none]
            }
            Concern::BadKey(configuration, key) => {
                let configuration = Detail::Name("configuration", Some(configuration.name()));
                let key = Detail::Word("key", key.name());
                [kind, configuration, key, none, none]
            }
            Concern::MissingImage(configuration, key, index) => {
                let configuration = Detail::Name("configuration", Some(configuration.name()));
                let key = Detail::Word("key", key.name());
                let index = Detail::Number("index", index as u64);
                [kind, configuration, key, index, none]
            }
            Concern::Unsigned(configuration) => {
                let configuration = Detail::Name("configuration", configuration);
                [kind, configuration, none, none, none]
            }
            Concern::OfSignature(configuration, signature, concern) => {
                let configuration = Detail::Name("configuration", Some(configuration));
                let signature = Detail::Name("signature", Some(signature));
                let path = path_detail(concern);
                [kind, configuration, signature, path, none]
            }
            Concern::UnitAddress(names) => {
                let path = Detail::Path("path", names);
                [kind, path, none, none, none]
            }
            Concern::BadDefault(default, _) => {
                let default = Detail::Name("default", default);
                [kind, default, none, none, none]
            }
            Concern::TrailingBytes(count) => {
                let size = Detail::Number("size", count as u64);
                [kind, size, none, none, none]
            }
        }
    }
}

/// Returns the kind of a concern about a signed node.
fn kind_of_signature(concern: &SignatureConcern) -> ConcernKind
    ensures { result ≡ kind_of_signature_concern (signature_concern concern.now) }
{
    match concern {
        SignatureConcern::NoNodes => ConcernKind::NoNodes,
        SignatureConcern::NoImages => ConcernKind::NoImages,
        SignatureConcern::Uncovered(_) => ConcernKind::Uncovered,
        SignatureConcern::Foreign(_) => ConcernKind::Foreign,
        SignatureConcern::Strings => ConcernKind::Strings,
    }
}

/// Returns the detail for the path that a concern about a signed node names.
fn path_detail<'a, 'b>(concern: &'b SignatureConcern<'a>) -> Detail<'a, 'b>
    ensures { details_in result ≡ path_details (signature_concern concern.entry.now) }
{
    match concern {
        SignatureConcern::Uncovered(path) => Detail::Needed("path", path),
        SignatureConcern::Foreign(path) => Detail::Name("path", Some(*path)),
        SignatureConcern::NoNodes | SignatureConcern::NoImages | SignatureConcern::Strings => {
            Detail::Nothing
        }
    }
}
