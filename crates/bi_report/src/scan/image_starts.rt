//! The offsets in a file at which an image may begin.

ghost use Rattle.std.specs.Prelude.{◌≡◌, ◌<◌, ◌≤◌, ◌⊎◌, length};
ghost use Rattle.bi_report.specs.ImageStarts.{HasMagic, HasNoMagic, IsNextMagic};

use bi_blob::format::MAGIC as BLOB_MAGIC;
use bi_legacy::MAGIC as LEGACY_MAGIC;
use memchr::memmem;
use std::marker::Model;

/// The offsets that are left at which a file has the magic number of a kind, in their order.
#[derive(Drop)]
pub(super) struct ImageStarts<'a> {
    file: &'a [u8],
    /// The first offset that is left.
    from: usize,
    /// The offset after the last one that is left.
    end: usize,
    /// The next offset of the magic number of a legacy image, or the end.
    legacy: usize,
    /// The next offset of the magic number of a blob, or the end.
    blob: usize,
}

impl<'a> Model for ImageStarts<'a> {
    ghost use Rattle.bi_report.specs.ImageStarts.{AreNextMagics, ImageStartsModel};

    ghost Value = { ImageStartsModel };

    ghost view = { λ starts. record {
      input = starts.file.now;
      from = starts.from;
      end = starts.end;
    } };

    ghost invariant = { λ starts. AreNextMagics
        (record { input = starts.file.now; from = starts.from; end = starts.end })
        starts.legacy starts.blob };
}

impl<'a> ImageStarts<'a> {
    /// Returns the offsets before `end`. Requires: the file does not end before `end`.
    pub(super) fn new(file: &'a [u8], end: usize) -> ImageStarts<'a>
        requires { end ≤ length file.now }
        ensures { result ≡ record { input = file.entry.now; from = 0; end = end } }
    {
        ImageStarts {
            file,
            from: 0,
            end,
            legacy: find_magic(file, LEGACY_MAGIC, 0, end),
            blob: find_magic(file, BLOB_MAGIC, 0, end),
        }
    }
}

impl<'a> Iterator for ImageStarts<'a> {
    ghost use Rattle.std.specs.Prelude.{◌-◌};
    ghost use Rattle.std.specs.Iterator.{at_most};
    ghost use Rattle.bi_report.specs.ImageStarts.{GivesNextStart};

    type Item = usize;

    ghost next_gives = { GivesNextStart };

    ghost remaining = { λ left. at_most (left.end - left.from) };

    fn next(&mut self) -> Option<usize> {
        let offset = self.legacy.min(self.blob);
        if offset == self.end {
            return None;
        }
        let from = offset + 1;
        self.legacy = next_magic(self.file, LEGACY_MAGIC, self.legacy, from, self.end);
        self.blob = next_magic(self.file, BLOB_MAGIC, self.blob, from, self.end);
        self.from = from;
        Some(offset)
    }
}

/// Returns the first offset, from `from` on and before `end`, at which a file has a magic number.
/// Returns `end` if there is none. If `known` is not before `from`, it is that offset, and there is
/// no search.
///
/// Requires: `from` and `known` are not after `end`, and the file does not end before `end`. The
/// file has the magic number at no offset from `from` on and before `known`. It has it at `known`,
/// unless `known` is before `from` or is the end.
fn next_magic(file: &[u8], magic: u32, known: usize, from: usize, end: usize) -> usize
    requires order { from ≤ end }
    requires within { end ≤ length file.now }
    requires known_within { known ≤ end }
    requires none_before { HasNoMagic file.now magic from known }
    requires known { (known < from) ⊎ ((known ≡ end) ⊎ HasMagic file.now magic known) }
    ensures { IsNextMagic file.now magic from end result }
{
    if from <= known {
        return known;
    }
    find_magic(file, magic, from, end)
}

/// Searches a file for a magic number. Returns the first offset, from `from` on and before `end`,
/// at which the file has it, or `end` if there is none. Requires: `from` is not after `end`, and
/// the file does not end before `end`.
fn find_magic(file: &[u8], magic: u32, from: usize, end: usize) -> usize
    requires order { from ≤ end }
    requires within { end ≤ length file.now }
    ensures { IsNextMagic file.now magic from end result }
{
    // A magic number at the last offset has three bytes more.
    let last = file.len().min(end + 3);
    match memmem::find(&file[from..last], &magic.to_be_bytes()) {
        Some(place) => from + place,
        None => end,
    }
}
