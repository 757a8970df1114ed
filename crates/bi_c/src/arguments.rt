//! The options and limits that C passes as numbers.

ghost use Rattle.std.specs.Prelude.{◌≡◌, ◌↔◌, ◌<◌, IfNone, IsSome, IfSome};
ghost use Rattle.bi_base.specs.Limits.{IsInRange};
ghost use Rattle.bi_fit.specs.declared.form.Form.{Form};
ghost use Rattle.bi_c.specs.Arguments.{allowed_of as allowed_of_number, bounds};
ghost use Rattle.bi_c.specs.Arguments.{number_of_form};
ghost use Rattle.bi_c.specs.Arguments.{has_bit as is_set, is_yes, key_of as key_of_number};
ghost use Rattle.bi_c.specs.Arguments.{policy_of as policy_of_number};

use bi_base::{Align, Limits};
use bi_commands::check::{Allowed, Policy};
use bi_fit::Key;
use bi_norm::Form;

/// Returns the limits with these bounds, if they are in range.
pub(crate) fn limits_of(limit: u32, depth: u32) -> Option<Limits>
    ensures in_range { IsSome result ↔ IsInRange limit depth }
    ensures value { IfSome result (λ limits. limits ≡ bounds limit depth) }
{
    if depth > 64 {
        return None;
    }
    Limits::new(limit, depth as u8)
}

/// Returns the form with this number, if there is one.
pub(crate) fn form_of(number: u32) -> Option<Form>
    ensures some { IfSome result (λ form. number_of_form form ≡ number) }
    ensures none { IfNone result ((form : Form) → ¬ (number_of_form form ≡ number)) }
{
    match number {
        0 => Some(Form::Embedded),
        1 => Some(Form::External),
        _ => Some(Form::Aligned(Align::new(number)?)),
    }
}

/// Returns whether a number is a yes, if it is a yes or a no.
pub(crate) fn yes_of(number: u32) -> Option<bool>
    ensures in_range { IsSome result ↔ number < 2 }
    ensures value { IfSome result (λ yes. yes ≡ is_yes number) }
{
    match number {
        0 => Some(false),
        1 => Some(true),
        _ => None,
    }
}

/// Returns the key with this number, if there is one.
pub(crate) fn key_of(number: u32) -> Option<Key>
    ensures in_range { IsSome result ↔ number < 6 }
    ensures value { IfSome result (λ key. key ≡ key_of_number number) }
{
    match number {
        0 => Some(Key::Kernel),
        1 => Some(Key::Fdt),
        2 => Some(Key::Ramdisk),
        3 => Some(Key::Firmware),
        4 => Some(Key::Loadables),
        5 => Some(Key::Script),
        _ => None,
    }
}

/// Returns whether a number has the bit of a mask, which is a power of two. Requires: the mask is
/// not 0.
pub(crate) fn has_bit(mask: u32, number: u32) -> bool
    requires { 0 < mask }
    ensures { result ≡ is_set mask number }
{
    (number / mask) % 2 == 1
}

/// Returns the policy with these bits, if there are no other bits: one for each kind that is
/// allowed, and one if signatures are asked for.
pub(crate) fn policy_of(kinds: u32) -> Option<Policy>
    ensures in_range { IsSome result ↔ kinds < 65536 }
    ensures value { IfSome result (λ policy. policy ≡ policy_of_number kinds) }
{
    if kinds >= 65536 {
        return None;
    }
    Some(Policy {
        allowed: allowed_of(kinds),
        signed: has_bit(32768, kinds),
    })
}

/// Returns the kinds that these bits allow.
fn allowed_of(kinds: u32) -> Allowed
    ensures { result ≡ allowed_of_number kinds }
{
    Allowed {
        bad_hash: has_bit(1, kinds),
        skipped_hash: has_bit(128, kinds),
        unhashed: has_bit(2, kinds),
        weak_hash: has_bit(4, kinds),
        bad_list: has_bit(8, kinds),
        missing: has_bit(16, kinds),
        unsigned: has_bit(256, kinds),
        no_nodes: has_bit(512, kinds),
        no_images: has_bit(1024, kinds),
        uncovered: has_bit(2048, kinds),
        foreign: has_bit(4096, kinds),
        strings: has_bit(8192, kinds),
        unit_address: has_bit(16384, kinds),
        bad_default: has_bit(32, kinds),
        trailing: has_bit(64, kinds),
    }
}
