//! Alignments of the payloads that follow a blob.

ghost use Rattle.std.specs.Prelude.{◌≡◌, ◌+◌, ◌^◌, ◌<◌, ◌↔◌, IsSome, IfSome};
ghost use Rattle.bi_base.specs.Alignments.{IsAlignment, IsAlignment-prop};
ghost use Rattle.bi_base.specs.Cells.{up_to as up_to_of};

/// An alignment in bytes: a power of two from 4 to 1048576.
#[derive(Clone, Copy, Debug, PartialEq, Eq)]
pub struct Align {
    bytes: u32,
    pub ghost is_alignment: { IsAlignment bytes } by { IsAlignment-prop bytes },
}

impl Align {
    ghost use Rattle.bi_base.specs.Aligns.{align_bytes};

    /// Returns the alignment of this many bytes. Returns None unless `bytes` is a power of two from
    /// 4 to 1048576.
    ///
    /// # Example
    ///
    /// ```
    /// use bi_base::Align;
    ///
    /// assert!(rt; Align::new(4096).is_some());
    /// assert!(rt; Align::new(3).is_none());
    /// ```
    pub fn new(bytes: u32) -> Option<Align>
        ensures in_range { IsSome result ↔ IsAlignment bytes }
        ensures value { IfSome result (λ align. align_bytes align ≡ bytes) }
    {
        for exponent in 2..21_u32 {
            if bytes == 1 << exponent {
                return Some(Align { bytes });
            }
        }
        None
    }

    /// Returns the alignment of a cell: four bytes.
    pub fn four() -> Align
        ensures { align_bytes result ≡ 4 }
    {
        Align { bytes: 4 }
    }

    /// Returns the number of bytes: a power of two from 4 to 1048576.
    pub fn get(self) -> u32
        ensures value { result ≡ align_bytes self }
        ensures in_range { IsAlignment result }
    {
        self.bytes
    }

    /// Returns the least multiple of this alignment that is at least `n`. Requires: `n` is at most
    /// `usize::MAX - 0xfffff`.
    pub fn up_to(self, n: usize) -> usize
        requires { n + 0xfffff < 2 ^ 64 }
        ensures { result ≡ up_to_of (align_bytes self) n }
    {
        let align = self.bytes as usize;
        (n + (align - 1)) / align * align
    }
}
