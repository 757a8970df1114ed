//! Digests that are computed piece by piece.

ghost use Rattle.std.specs.Prelude.{◌≡◌, ◌-◌, ◌≤◌, ◌++◌, ℕ, List, [], length, replicate};
ghost use Rattle.bi_base.specs.Cells.{cell};
ghost use Rattle.bi_base.specs.Crc.{crc32, crc_after};
ghost use Rattle.md5.specs.Md5.{md5, Holds as HoldsMd5};
ghost use Rattle.sha1.specs.Sha1.{sha1, Holds as HoldsSha1};
ghost use Rattle.sha2.specs.Hashers.{Holds256, Holds384, Holds512};
ghost use Rattle.sha2.specs.Sha256.{sha256};
ghost use Rattle.sha2.specs.Sha512.{sha384, sha512};

use bi_base::Crc32;
use md5::{Digest as _, Md5};
use sha1::Sha1;
use sha2::{Digest as _, Sha256, Sha384, Sha512};

/// The size of a piece in bytes. The last piece may be shorter.
const PIECE: usize = 4096;

/// An algorithm in the middle of a message, which comes in pieces.
pub(crate) trait Hasher {
    // The message so far.
    ghost holds: { Self → List ℕ → Type 0 };

    // The digest of a message.
    ghost digest_of: { List ℕ → List ℕ };

    /// Begins with the empty message.
    fn start() -> Self
        ensures { holds result [] };

    /// Adds a piece to the message.
    fn add(&mut self, piece: &[u8])
        ensures { (message : List ℕ) → holds self.old message →
            holds self.new (message ++ piece.now) };

    /// Writes the digest of the message to the first bytes of `out`, and zeros after it. Returns
    /// the length of the digest in bytes.
    fn finish(self, out: &mut [u8; 64]) -> usize
        ensures length { (message : List ℕ) → holds self message →
            result ≡ length (digest_of message) }
        ensures digest { (message : List ℕ) → holds self message →
            out.new ≡ digest_of message ++ replicate (64 - result) 0 };
}

/// Writes the digest of a payload to the first bytes of `out`, and zeros after it. Returns the
/// length of the digest in bytes. The algorithm takes the payload in pieces of at most 4,096 bytes.
pub(crate) fn digest_in_pieces<H: Hasher>(payload: &[u8], out: &mut [u8; 64]) -> usize
    ensures length { result ≡ length (H.digest_of payload.now) }
    ensures digest { out.new ≡ H.digest_of payload.now ++ replicate (64 - result) 0 }
{
    let mut hasher = H::start();
    for piece in payload.chunks(PIECE) {
        hasher.add(piece);
    }
    hasher.finish(out)
}

impl Hasher for Crc32 {
    ghost holds = { λ sum message. sum ≡ crc_after 0xFFFFFFFF message };

    ghost digest_of = { λ message. cell (crc32 message) };

    #[tactic(auto, unfolding(bi_base::specs::Crc::crc_after))]
    fn start() -> Crc32 {
        Crc32::new()
    }

    fn add(&mut self, piece: &[u8]) {
        self.update(piece);
    }

    #[tactic(auto, unfolding(bi_base::specs::Crc::crc32, bi_base::specs::Cells::cell))]
    fn finish(self, out: &mut [u8; 64]) -> usize {
        let sum = Crc32::finish(self);
        write_digest(&sum.to_be_bytes(), out)
    }
}

impl Hasher for Md5 {
    ghost holds = { HoldsMd5 };

    ghost digest_of = { md5 };

    fn start() -> Md5 {
        Md5::new()
    }

    fn add(&mut self, piece: &[u8]) {
        self.update(piece);
    }

    fn finish(self, out: &mut [u8; 64]) -> usize {
        write_digest(&self.finalize(), out)
    }
}

impl Hasher for Sha1 {
    ghost holds = { HoldsSha1 };

    ghost digest_of = { sha1 };

    fn start() -> Sha1 {
        Sha1::new()
    }

    fn add(&mut self, piece: &[u8]) {
        self.update(piece);
    }

    fn finish(self, out: &mut [u8; 64]) -> usize {
        write_digest(&self.finalize(), out)
    }
}

impl Hasher for Sha256 {
    ghost holds = { Holds256 };

    ghost digest_of = { sha256 };

    fn start() -> Sha256 {
        Sha256::new()
    }

    fn add(&mut self, piece: &[u8]) {
        self.update(piece);
    }

    fn finish(self, out: &mut [u8; 64]) -> usize {
        write_digest(&self.finalize(), out)
    }
}

impl Hasher for Sha384 {
    ghost holds = { Holds384 };

    ghost digest_of = { sha384 };

    fn start() -> Sha384 {
        Sha384::new()
    }

    fn add(&mut self, piece: &[u8]) {
        self.update(piece);
    }

    fn finish(self, out: &mut [u8; 64]) -> usize {
        write_digest(&self.finalize(), out)
    }
}

impl Hasher for Sha512 {
    ghost holds = { Holds512 };

    ghost digest_of = { sha512 };

    fn start() -> Sha512 {
        Sha512::new()
    }

    fn add(&mut self, piece: &[u8]) {
        self.update(piece);
    }

    fn finish(self, out: &mut [u8; 64]) -> usize {
        write_digest(&self.finalize(), out)
    }
}

/// Writes a digest to the first bytes of `out`, and zeros after it. Returns its length in bytes.
/// Requires: the digest has at most 64 bytes.
fn write_digest(digest: &[u8], out: &mut [u8; 64]) -> usize
    requires { length digest.now ≤ 64 }
    ensures length { result ≡ length digest.now }
    ensures filled { out.new ≡ digest.now ++ replicate (64 - length digest.now) 0 }
{
    let (front, rest) = out.split_at_mut(digest.len());
    front.copy_from_slice(digest);
    rest.fill(0);
    digest.len()
}
