//! The bound on the payloads that a command hashes.

ghost use Rattle.std.specs.Prelude.{◌≡◌, ◌<◌, ◌≤◌, ◌^◌, OnOk, IfOk, IfErr};
ghost use Rattle.std.specs.Option.{option_map};
ghost use Rattle.bi_base.specs.Reading.{too_large};
ghost use Rattle.bi_fit.specs.Content.{tree_of};
ghost use Rattle.bi_fit.specs.NormalNodes.{payloads_of};
ghost use Rattle.bi_norm.specs.Meaning.{OfFit};
ghost use Rattle.bi_common.specs.PayloadBounds.{IsOverPayloadBound, payload_length};
ghost use Rattle.bi_common.specs.PayloadBounds.{payloads_length};

use bi_base::{Cause, Fault, Limits, refuse};
use bi_fit::{Fit, Image};

/// A flattened image tree whose payloads together are no longer than the limit for files. Only
/// `new` makes one, so what takes it has the bound. That nothing is hashed before is tested
/// (`tests/costs/fit_costs.sh`), and in no clause: the calls of `Fit` need no bound.
#[derive(Clone, Copy)]
pub struct BoundedFit<'b, 'a> {
    fit: &'b Fit<'a>,
}

impl<'b, 'a> BoundedFit<'b, 'a> {
    /// Checks that the payloads of the images together are no longer than the limit for files.
    ///
    /// Error: TooLarge at that limit, if they are longer.
    pub fn new(fit: &'b Fit<'a>, limits: Limits) -> Result<BoundedFit<'b, 'a>, Fault>
        ensures same { IfOk result (λ bounded. bounded.fit.now ≡ fit.entry.now) }
        ensures within { OnOk result (¬ (IsOverPayloadBound limits (OfFit (tree_of fit.now)))) }
        ensures fault { IfErr result (λ fault. (fault ≡ too_large limits.file)
            × IsOverPayloadBound limits (OfFit (tree_of fit.now))) }
    {
        check_payloads(fit.images(), limits.file())?;
        Ok(BoundedFit { fit })
    }

    /// Returns the tree.
    pub fn fit(self) -> &'b Fit<'a>
        ensures { result.now ≡ self.entry.fit.now }
    {
        self.fit
    }
}

/// Checks that the payloads of images together are no longer than a limit.
///
/// Error: TooLarge at the limit, if they are longer.
fn check_payloads(images: &[Image], limit: u32) -> Result<(), Fault>
    ensures ok { OnOk result (payloads_length (payloads_of images.now) ≤ limit) }
    ensures fault { IfErr result (λ fault. (fault ≡ too_large limit)
        × (limit < payloads_length (payloads_of images.now))) }
{
    let mut total = 0;
    for image in images {
        total += length_of(image.payload);
        if total > limit as usize {
            return refuse(Cause::TooLarge, limit);
        }
    }
    Ok(())
}

/// Returns the length of a payload, 0 if there is none.
pub fn length_of(payload: Option<&[u8]>) -> usize
    ensures length { result ≡ payload_length (option_map (λ payload. payload.now) payload.entry) }
    ensures small { result < 2 ^ 63 }
{
    match payload {
        Some(payload) => payload.len(),
        None => 0,
    }
}
