//! The algorithms of hash nodes.
#![tactic(auto, unfolding(crate::specs::Algos::find_algorithm, crate::specs::Digests::digest_of))]

ghost use Rattle.std.specs.Prelude.{◌≡◌, ◌↔◌, ◌-◌, ◌++◌, length, replicate};
ghost use Rattle.std.specs.List.{find};
ghost use Rattle.std.specs.Str.{bytes_eq};
ghost use Rattle.bi_hash.specs.Algos.{algorithm_index, algorithm_name, find_algorithm};
ghost use Rattle.bi_hash.specs.Digests.{digest_of, digest_size};

use crate::pieces::digest_in_pieces;
use bi_base::Crc32;
use md5::Md5;
use sha1::Sha1;
use sha2::{Sha256, Sha384, Sha512};

/// An algorithm that a hash node can name.
#[derive(Clone, Copy, Debug, PartialEq, Eq)]
pub enum Algo {
    /// CRC-32, as four big-endian bytes (ISO/IEC 3309, RFC 1952, chapter 8).
    Crc32,
    /// MD5 (RFC 1321).
    Md5,
    /// SHA-1 (FIPS 180-4, chapter 6.1).
    Sha1,
    /// SHA-256 (FIPS 180-4, chapter 6.2).
    Sha256,
    /// SHA-384 (FIPS 180-4, chapter 6.5).
    Sha384,
    /// SHA-512 (FIPS 180-4, chapter 6.4).
    Sha512,
}

impl Algo {
    /// Every algorithm.
    const ALL: [Algo; 6] = [
        Algo::Crc32,
        Algo::Md5,
        Algo::Sha1,
        Algo::Sha256,
        Algo::Sha384,
        Algo::Sha512,
    ];

    /// Finds the algorithm with exactly the given name. Returns None if no algorithm has it.
    pub fn from_name(name: &[u8]) -> Option<Algo>
        ensures named { (algo : Algo) → (result ≡ Some algo) ↔ (name.now ≡ algorithm_name algo) }
        ensures value { result ≡ find_algorithm name.now }
    {
        find_by_name(&Algo::ALL, name)
    }

    /// Returns the name of the algorithm in the property `algo` of a hash node.
    pub fn name(self) -> &'static str
        ensures name { result.now ≡ algorithm_name self }
        ensures inverse { find_algorithm result.now ≡ Some self }
    {
        match self {
            Algo::Crc32 => "crc32",
            Algo::Md5 => "md5",
            Algo::Sha1 => "sha1",
            Algo::Sha256 => "sha256",
            Algo::Sha384 => "sha384",
            Algo::Sha512 => "sha512",
        }
    }

    /// Returns the length of a digest in bytes: 4, 16, 20, 32, 48 or 64.
    pub fn digest_size(self) -> usize
        ensures { result ≡ digest_size self }
    {
        match self {
            Algo::Crc32 => 4,
            Algo::Md5 => 16,
            Algo::Sha1 => 20,
            Algo::Sha256 => 32,
            Algo::Sha384 => 48,
            Algo::Sha512 => 64,
        }
    }

    /// Returns the index of the algorithm in the order of `Algo`.
    pub(crate) fn index(self) -> usize
        ensures { result ≡ algorithm_index self }
    {
        self as usize
    }

    /// Writes the digest of a payload to the first bytes of `out`, and zeros after it. Returns the
    /// length of the digest in bytes: 4, 16, 20, 32, 48 or 64.
    pub fn digest(self, payload: &[u8], out: &mut [u8; 64]) -> usize
        ensures length { result ≡ length (digest_of self payload.now) }
        ensures size { result ≡ digest_size self }
        ensures digest { out.new ≡ digest_of self payload.now ++ replicate (64 - result) 0 }
    {
        match self {
            Algo::Crc32 => digest_in_pieces::<Crc32>(payload, out),
            Algo::Md5 => digest_in_pieces::<Md5>(payload, out),
            Algo::Sha1 => digest_in_pieces::<Sha1>(payload, out),
            Algo::Sha256 => digest_in_pieces::<Sha256>(payload, out),
            Algo::Sha384 => digest_in_pieces::<Sha384>(payload, out),
            Algo::Sha512 => digest_in_pieces::<Sha512>(payload, out),
        }
    }
}

/// Finds the first of these algorithms with the given name.
fn find_by_name(algos: &[Algo], name: &[u8]) -> Option<Algo>
    ensures { result ≡ find (λ algo. bytes_eq (algorithm_name algo) name.now) algos.now }
{
    algos
        .iter()
        .copied()
        .find(|algo| algo.name().as_bytes() == name)
}
