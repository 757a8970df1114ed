//! The names of values.

ghost use Rattle.std.specs.Prelude.{◌≡◌, ◌≢◌, ◌∷◌, ◌<◌, ◌≤◌, [], IfOk, IfErr, IfSome, IfNone};
ghost use Rattle.std.specs.Prelude.{bytes_eq, drop, length};
ghost use Rattle.std.specs.List.{find};
ghost use Rattle.bi_base.specs.declared.fault.Error.TheVariants.{OutOfMemory};
ghost use Rattle.bi_common.specs.MadeFields.{bytes_of_names};
ghost use Rattle.bi_values.specs.NameWords.{AreNoWords, AreWordsOf, BeginWithName};
ghost use Rattle.bi_values.specs.NameWords.{BeginWithNoName, IsNoProperty};
ghost use Rattle.bi_values.specs.declared.value_name.HeaderField.{HeaderField as Field};
ghost use Rattle.bi_values.specs.ValueNames.{field_word, value_name_model, value_name_models};

use crate::paths::{path_shown_as, property_name_shown_as};
use bi_base::Error;
use std::alloc::Global;

/// A field of a legacy header.
#[derive(Clone, Copy, Debug, PartialEq, Eq)]
pub enum HeaderField {
    /// The name.
    Name,
    /// The time of creation.
    Time,
    /// The address that the data is loaded to.
    Load,
    /// The address of the entry point.
    Entry,
    /// The code of the operating system.
    Os,
    /// The code of the processor architecture.
    Arch,
    /// The code of the image type.
    ImageType,
    /// The code of the compression.
    Compression,
}

/// The name of a value of a boot image.
#[derive(Drop)]
pub enum ValueName {
    /// A property of a node of a flattened image tree.
    Property {
        /// The names of the nodes on the way to the node, the first of which is a child of the
        /// root. There are none for the root.
        path: Vec<Vec<u8>>,
        /// The name of the property.
        name: Vec<u8>,
    },
    /// A field of a legacy image.
    Field(HeaderField),
}

/// The fields, in the order of a listing.
const FIELDS: [HeaderField; 8] = [
    HeaderField::Name,
    HeaderField::Time,
    HeaderField::Load,
    HeaderField::Entry,
    HeaderField::Os,
    HeaderField::Arch,
    HeaderField::ImageType,
    HeaderField::Compression,
];

impl HeaderField {
    /// Returns the field with this word. Returns None if no field has it.
    pub fn from_word(word: &[u8]) -> Option<HeaderField>
        ensures some { IfSome result (λ field. field_word field ≡ word.now) }
        ensures none { IfNone result ((field : Field) → field_word field ≢ word.now) }
    {
        find_by_word(&FIELDS, word)
    }

    /// Returns the word for the field: the first of its line in a listing.
    pub fn word(self) -> &'static str
        ensures { result.now ≡ field_word self }
    {
        match self {
            HeaderField::Name => "name",
            HeaderField::Time => "time",
            HeaderField::Load => "load",
            HeaderField::Entry => "entry",
            HeaderField::Os => "os",
            HeaderField::Arch => "arch",
            HeaderField::ImageType => "type",
            HeaderField::Compression => "compression",
        }
    }
}

/// Finds the first of these fields with the given word.
fn find_by_word(fields: &[HeaderField], word: &[u8]) -> Option<HeaderField>
    ensures { result ≡ find (λ field. bytes_eq (field_word field) word.now) fields.now }
{
    fields
        .iter()
        .copied()
        .find(|field| field.word().as_bytes() == word)
}

impl ValueName {
    /// Returns the names of values that these words name, in their order. A word that begins with a
    /// slash is the path of a node, and the next word is the name of a property: both as a
    /// description prints them. The path is one slash, or has 1 to 63 names, each after a slash.
    /// Any other word is that of a field of a legacy image: `name`, `time`, `load`, `entry`, `os`,
    /// `arch`, `type` or `compression`. Returns None if the words are not of this form.
    ///
    /// Fails only with OutOfMemory.
    pub fn parse_all(alloc: Global, words: &[&[u8]]) -> Result<Option<Vec<ValueName>>, Error>
        ensures some { IfOk result (λ found. IfSome found (λ names.
            AreWordsOf (bytes_of_names words.now) (value_name_models names.items))) }
        ensures none { IfOk result (λ found. IfNone found
            (AreNoWords (bytes_of_names words.now))) }
        ensures failed { IfErr result (λ error. error ≡ OutOfMemory) }
    {
        let mut names = Vec::new(alloc);
        let mut at = 0;
        while at < words.len() {
            let Some((name, count)) = first_name(alloc, &words[at..])? else {
                return Ok(None);
            };
            names.push(name)?;
            at += count;
        }
        Ok(Some(names))
    }
}

/// Returns the name of a value that the first words name, and their number, which is 1 or 2.
/// Returns None without a word, or if they do not name a value. Fails if memory runs out.
fn first_name(alloc: Global, words: &[&[u8]]) -> Result<Option<(ValueName, usize)>, Error>
    ensures some { IfOk result (λ found. IfSome found (λ first.
        BeginWithName (bytes_of_names words.now) (value_name_model first.0)
        (bytes_of_names (drop first.1 words.now)))) }
    ensures more { IfOk result (λ found. IfSome found (λ first. 0 < first.1)) }
    ensures within { IfOk result (λ found. IfSome found (λ first.
        first.1 ≤ length words.now)) }
    ensures none { IfOk result (λ found. IfNone found
        (BeginWithNoName (bytes_of_names words.now))) }
    ensures failed { IfErr result (λ error. error ≡ OutOfMemory) }
{
    let [word, later @ ..] = words else {
        return Ok(None);
    };
    if word.starts_with(b"/") {
        let [name, ..] = later else {
            return Ok(None);
        };
        return Ok(match property_named(alloc, word, name)? {
            Some(property) => Some((property, 2)),
            None => None,
        });
    }
    Ok(match HeaderField::from_word(word) {
        Some(field) => Some((ValueName::Field(field), 1)),
        None => None,
    })
}

/// Returns the name of the property with this path and this name, both as they are printed. Returns
/// None if the path is that of no node, or the name that of no property. Fails if memory runs out.
fn property_named(alloc: Global, path: &[u8], name: &[u8]) -> Result<Option<ValueName>, Error>
    ensures some { IfOk result (λ found. IfSome found (λ property.
        BeginWithName (path.now ∷ name.now ∷ []) (value_name_model property) [])) }
    ensures none { IfOk result (λ found. IfNone found (IsNoProperty path.now name.now)) }
    ensures failed { IfErr result (λ error. error ≡ OutOfMemory) }
{
    let Some(path) = path_shown_as(alloc, path)? else {
        return Ok(None);
    };
    let Some(name) = property_name_shown_as(alloc, name)? else {
        return Ok(None);
    };
    Ok(Some(ValueName::Property { path, name }))
}
