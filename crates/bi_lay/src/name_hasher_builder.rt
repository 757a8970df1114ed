//! Hashers of names, with a key that depends on all names that have numbers.

use sha2::{Digest, Sha256};
use std::hash::{BuildHasher, DefaultHasher, Hasher};

/// Builds hashers of names. Their key is the SHA-256 digest of all names that have numbers. So a
/// file cannot choose such names with equal hashes: a different choice of names has a different
/// key. Feeding the names to the hasher itself would give a weaker key, since the hasher is made
/// for secret keys. No result depends on a hash.
#[derive(Clone, Copy)]
pub(crate) struct NameHasherBuilder {
    /// The hasher that was fed with the key.
    keyed_hasher: DefaultHasher,
}

impl NameHasherBuilder {
    /// Returns the builder for these names. Takes time linear in their total length.
    pub(crate) fn new(names: &[&[u8]]) -> NameHasherBuilder {
        let mut digest = Sha256::new();
        for name in names {
            digest.update(name);
            digest.update(&[0]);
        }
        let mut keyed_hasher = DefaultHasher::new();
        keyed_hasher.write(&digest.finalize());
        NameHasherBuilder { keyed_hasher }
    }
}

impl BuildHasher for NameHasherBuilder {
    type Hasher = DefaultHasher;

    ghost build_hasher = { λ builder. builder.keyed_hasher };

    fn build_hasher(&self) -> DefaultHasher {
        self.keyed_hasher
    }
}
