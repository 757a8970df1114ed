//! Tests of deep descriptions, and of comparing with what is inside.

use crate::compare::{
    CompareError, Comparison, IgnoringOptions, compare_deep, compare_ignoring,
    compare_ignoring_deep,
};
use crate::describe::{describe_deep, describe_deep_to};
use crate::ignored::Ignored;
use bi_base::Limits;
use bi_common::format::Format;
use std::alloc::Global;
use std::process::Abort;
use std::test::Fail;

/// A flattened image tree with one image, `a`, whose payload is a devicetree: its root has the
/// model `m`.
#[rattlefmt::skip]
const FIT_M: &[u8; 213] =
    b"\xd0\x0d\xfe\xed\x00\x00\x00\xd5\x00\x00\x00\x38\x00\x00\x00\xd0\x00\x00\x00\x28\
      \x00\x00\x00\x11\x00\x00\x00\x10\x00\x00\x00\x00\x00\x00\x00\x05\x00\x00\x00\x98\
      \x00\x00\x00\x00\x00\x00\x00\x00\x00\x00\x00\x00\x00\x00\x00\x00\x00\x00\x00\x01\
      \x00\x00\x00\x00\x00\x00\x00\x01\x69\x6d\x61\x67\x65\x73\x00\x00\x00\x00\x00\x01\
      \x61\x00\x00\x00\x00\x00\x00\x03\x00\x00\x00\x60\x00\x00\x00\x00\xd0\x0d\xfe\xed\
      \x00\x00\x00\x60\x00\x00\x00\x38\x00\x00\x00\x58\x00\x00\x00\x28\x00\x00\x00\x11\
      \x00\x00\x00\x10\x00\x00\x00\x00\x00\x00\x00\x06\x00\x00\x00\x20\x00\x00\x00\x00\
      \x00\x00\x00\x00\x00\x00\x00\x00\x00\x00\x00\x00\x00\x00\x00\x01\x00\x00\x00\x00\
      \x00\x00\x00\x03\x00\x00\x00\x02\x00\x00\x00\x00\x6d\x00\x00\x00\x00\x00\x00\x02\
      \x00\x00\x00\x09\x6d\x6f\x64\x65\x6c\x00\x00\x00\x00\x00\x00\x02\x00\x00\x00\x02\
      \x00\x00\x00\x02\x00\x00\x00\x09\x64\x61\x74\x61\x00";

/// The same with the model `n`.
#[rattlefmt::skip]
const FIT_N: &[u8; 213] =
    b"\xd0\x0d\xfe\xed\x00\x00\x00\xd5\x00\x00\x00\x38\x00\x00\x00\xd0\x00\x00\x00\x28\
      \x00\x00\x00\x11\x00\x00\x00\x10\x00\x00\x00\x00\x00\x00\x00\x05\x00\x00\x00\x98\
      \x00\x00\x00\x00\x00\x00\x00\x00\x00\x00\x00\x00\x00\x00\x00\x00\x00\x00\x00\x01\
      \x00\x00\x00\x00\x00\x00\x00\x01\x69\x6d\x61\x67\x65\x73\x00\x00\x00\x00\x00\x01\
      \x61\x00\x00\x00\x00\x00\x00\x03\x00\x00\x00\x60\x00\x00\x00\x00\xd0\x0d\xfe\xed\
      \x00\x00\x00\x60\x00\x00\x00\x38\x00\x00\x00\x58\x00\x00\x00\x28\x00\x00\x00\x11\
      \x00\x00\x00\x10\x00\x00\x00\x00\x00\x00\x00\x06\x00\x00\x00\x20\x00\x00\x00\x00\
      \x00\x00\x00\x00\x00\x00\x00\x00\x00\x00\x00\x00\x00\x00\x00\x01\x00\x00\x00\x00\
      \x00\x00\x00\x03\x00\x00\x00\x02\x00\x00\x00\x00\x6e\x00\x00\x00\x00\x00\x00\x02\
      \x00\x00\x00\x09\x6d\x6f\x64\x65\x6c\x00\x00\x00\x00\x00\x00\x02\x00\x00\x00\x02\
      \x00\x00\x00\x02\x00\x00\x00\x09\x64\x61\x74\x61\x00";

/// A flattened image tree with the image `-`, whose payload is a devicetree with a memory
/// reservation, and with signature nodes.
#[rattlefmt::skip]
const E1: &[u8; 431] =
    b"\xd0\x0d\xfe\xed\x00\x00\x01\xaf\x00\x00\x00\x38\x00\x00\x01\x98\x00\x00\x00\x28\
      \x00\x00\x00\x11\x00\x00\x00\x10\x00\x00\x00\x00\x00\x00\x00\x17\x00\x00\x01\x60\
      \x00\x00\x00\x00\x00\x00\x00\x00\x00\x00\x00\x00\x00\x00\x00\x00\x00\x00\x00\x01\
      \x00\x00\x00\x00\x00\x00\x00\x03\x00\x00\x00\x04\x00\x00\x00\x00\x00\x00\x00\x01\
      \x00\x00\x00\x01\x69\x6d\x61\x67\x65\x73\x00\x00\x00\x00\x00\x01\x2d\x00\x00\x00\
      \x00\x00\x00\x03\x00\x00\x00\x92\x00\x00\x00\x0a\xd0\x0d\xfe\xed\x00\x00\x00\x92\
      \x00\x00\x00\x48\x00\x00\x00\x90\x00\x00\x00\x28\x00\x00\x00\x11\x00\x00\x00\x10\
      \x00\x00\x00\x01\x00\x00\x00\x02\x00\x00\x00\x48\x00\x00\x00\x00\x00\x00\x10\x00\
      \x00\x00\x00\x00\x00\x00\x00\x20\x00\x00\x00\x00\x00\x00\x00\x00\x00\x00\x00\x00\
      \x00\x00\x00\x00\x00\x00\x00\x01\x00\x00\x00\x00\x00\x00\x00\x01\x63\x68\x6f\x73\
      \x65\x6e\x00\x00\x00\x00\x00\x03\x00\x00\x00\x02\x00\x00\x00\x00\x78\x00\x00\x00\
      \x00\x00\x00\x01\x2d\x00\x00\x00\x00\x00\x00\x02\x00\x00\x00\x02\x00\x00\x00\x01\
      \x7a\x00\x00\x00\x00\x00\x00\x02\x00\x00\x00\x02\x00\x00\x00\x09\x62\x00\x00\x00\
      \x00\x00\x00\x01\x73\x69\x67\x6e\x61\x74\x75\x72\x65\x2d\x31\x00\x00\x00\x00\x03\
      \x00\x00\x00\x01\x00\x00\x00\x0f\x31\x00\x00\x00\x00\x00\x00\x01\x78\x00\x00\x00\
      \x00\x00\x00\x02\x00\x00\x00\x02\x00\x00\x00\x02\x00\x00\x00\x02\x00\x00\x00\x01\
      \x63\x6f\x6e\x66\x69\x67\x75\x72\x61\x74\x69\x6f\x6e\x73\x00\x00\x00\x00\x00\x01\
      \x63\x00\x00\x00\x00\x00\x00\x01\x73\x69\x67\x6e\x61\x74\x75\x72\x65\x00\x00\x00\
      \x00\x00\x00\x03\x00\x00\x00\x00\x00\x00\x00\x15\x00\x00\x00\x02\x00\x00\x00\x01\
      \x6f\x74\x68\x65\x72\x00\x00\x00\x00\x00\x00\x02\x00\x00\x00\x02\x00\x00\x00\x02\
      \x00\x00\x00\x02\x00\x00\x00\x09\x74\x69\x6d\x65\x73\x74\x61\x6d\x70\x00\x64\x61\
      \x74\x61\x00\x76\x61\x6c\x75\x65\x00\x71\x00";

/// One like it, of which much differs.
#[rattlefmt::skip]
const E2: &[u8; 373] =
    b"\xd0\x0d\xfe\xed\x00\x00\x01\x75\x00\x00\x00\x38\x00\x00\x01\x60\x00\x00\x00\x28\
      \x00\x00\x00\x11\x00\x00\x00\x10\x00\x00\x00\x00\x00\x00\x00\x15\x00\x00\x01\x28\
      \x00\x00\x00\x00\x00\x00\x00\x00\x00\x00\x00\x00\x00\x00\x00\x00\x00\x00\x00\x01\
      \x00\x00\x00\x00\x00\x00\x00\x03\x00\x00\x00\x04\x00\x00\x00\x00\x00\x00\x00\x02\
      \x00\x00\x00\x01\x69\x6d\x61\x67\x65\x73\x00\x00\x00\x00\x00\x01\x2d\x00\x00\x00\
      \x00\x00\x00\x03\x00\x00\x00\x86\x00\x00\x00\x0a\xd0\x0d\xfe\xed\x00\x00\x00\x86\
      \x00\x00\x00\x48\x00\x00\x00\x84\x00\x00\x00\x28\x00\x00\x00\x11\x00\x00\x00\x10\
      \x00\x00\x00\x02\x00\x00\x00\x02\x00\x00\x00\x3c\x00\x00\x00\x00\x00\x00\x20\x00\
      \x00\x00\x00\x00\x00\x00\x00\x20\x00\x00\x00\x00\x00\x00\x00\x00\x00\x00\x00\x00\
      \x00\x00\x00\x00\x00\x00\x00\x01\x00\x00\x00\x00\x00\x00\x00\x01\x63\x68\x6f\x73\
      \x65\x6e\x00\x00\x00\x00\x00\x03\x00\x00\x00\x02\x00\x00\x00\x00\x79\x00\x00\x00\
      \x00\x00\x00\x02\x00\x00\x00\x01\x7a\x00\x00\x00\x00\x00\x00\x02\x00\x00\x00\x02\
      \x00\x00\x00\x09\x62\x00\x00\x00\x00\x00\x00\x01\x73\x69\x67\x6e\x61\x74\x75\x72\
      \x65\x2d\x31\x00\x00\x00\x00\x03\x00\x00\x00\x01\x00\x00\x00\x0f\x32\x00\x00\x00\
      \x00\x00\x00\x02\x00\x00\x00\x02\x00\x00\x00\x02\x00\x00\x00\x01\x63\x6f\x6e\x66\
      \x69\x67\x75\x72\x61\x74\x69\x6f\x6e\x73\x00\x00\x00\x00\x00\x01\x63\x00\x00\x00\
      \x00\x00\x00\x01\x6f\x74\x68\x65\x72\x00\x00\x00\x00\x00\x00\x02\x00\x00\x00\x02\
      \x00\x00\x00\x02\x00\x00\x00\x02\x00\x00\x00\x09\x74\x69\x6d\x65\x73\x74\x61\x6d\
      \x70\x00\x64\x61\x74\x61\x00\x76\x61\x6c\x75\x65\x00";

/// A legacy image with two parts, the second of which is the devicetree with the model `m`.
#[rattlefmt::skip]
const LEGACY_M: &[u8; 176] =
    b"\x27\x05\x19\x56\x62\x7a\x90\xc1\x00\x00\x00\x00\x00\x00\x00\x70\x00\x00\x80\x00\
      \x00\x00\x80\x00\xdf\x90\x9a\x4e\x05\x02\x04\x00\x6b\x00\x00\x00\x00\x00\x00\x00\
      \x00\x00\x00\x00\x00\x00\x00\x00\x00\x00\x00\x00\x00\x00\x00\x00\x00\x00\x00\x00\
      \x00\x00\x00\x00\x00\x00\x00\x03\x00\x00\x00\x5e\x00\x00\x00\x00\x61\x62\x63\x00\
      \xd0\x0d\xfe\xed\x00\x00\x00\x5e\x00\x00\x00\x38\x00\x00\x00\x58\x00\x00\x00\x28\
      \x00\x00\x00\x11\x00\x00\x00\x10\x00\x00\x00\x00\x00\x00\x00\x06\x00\x00\x00\x20\
      \x00\x00\x00\x00\x00\x00\x00\x00\x00\x00\x00\x00\x00\x00\x00\x00\x00\x00\x00\x01\
      \x00\x00\x00\x00\x00\x00\x00\x03\x00\x00\x00\x02\x00\x00\x00\x00\x6d\x00\x00\x00\
      \x00\x00\x00\x02\x00\x00\x00\x09\x6d\x6f\x64\x65\x6c\x00\x00\x00";

/// The same with the time 5 and the model `n`.
#[rattlefmt::skip]
const LEGACY_N: &[u8; 176] =
    b"\x27\x05\x19\x56\x1a\xf1\xcb\x4d\x00\x00\x00\x05\x00\x00\x00\x70\x00\x00\x80\x00\
      \x00\x00\x80\x00\x70\x39\xd7\x84\x05\x02\x04\x00\x6b\x00\x00\x00\x00\x00\x00\x00\
      \x00\x00\x00\x00\x00\x00\x00\x00\x00\x00\x00\x00\x00\x00\x00\x00\x00\x00\x00\x00\
      \x00\x00\x00\x00\x00\x00\x00\x03\x00\x00\x00\x5e\x00\x00\x00\x00\x61\x62\x63\x00\
      \xd0\x0d\xfe\xed\x00\x00\x00\x5e\x00\x00\x00\x38\x00\x00\x00\x58\x00\x00\x00\x28\
      \x00\x00\x00\x11\x00\x00\x00\x10\x00\x00\x00\x00\x00\x00\x00\x06\x00\x00\x00\x20\
      \x00\x00\x00\x00\x00\x00\x00\x00\x00\x00\x00\x00\x00\x00\x00\x00\x00\x00\x00\x01\
      \x00\x00\x00\x00\x00\x00\x00\x03\x00\x00\x00\x02\x00\x00\x00\x00\x6e\x00\x00\x00\
      \x00\x00\x00\x02\x00\x00\x00\x09\x6d\x6f\x64\x65\x6c\x00\x00\x00";

/// A flattened image tree whose image has a flattened image tree as its payload.
#[rattlefmt::skip]
const NESTED: &[u8; 205] =
    b"\xd0\x0d\xfe\xed\x00\x00\x00\xcd\x00\x00\x00\x38\x00\x00\x00\xc8\x00\x00\x00\x28\
      \x00\x00\x00\x11\x00\x00\x00\x10\x00\x00\x00\x00\x00\x00\x00\x05\x00\x00\x00\x90\
      \x00\x00\x00\x00\x00\x00\x00\x00\x00\x00\x00\x00\x00\x00\x00\x00\x00\x00\x00\x01\
      \x00\x00\x00\x00\x00\x00\x00\x01\x69\x6d\x61\x67\x65\x73\x00\x00\x00\x00\x00\x01\
      \x61\x00\x00\x00\x00\x00\x00\x03\x00\x00\x00\x58\x00\x00\x00\x00\xd0\x0d\xfe\xed\
      \x00\x00\x00\x58\x00\x00\x00\x38\x00\x00\x00\x58\x00\x00\x00\x28\x00\x00\x00\x11\
      \x00\x00\x00\x10\x00\x00\x00\x00\x00\x00\x00\x00\x00\x00\x00\x20\x00\x00\x00\x00\
      \x00\x00\x00\x00\x00\x00\x00\x00\x00\x00\x00\x00\x00\x00\x00\x01\x00\x00\x00\x00\
      \x00\x00\x00\x01\x69\x6d\x61\x67\x65\x73\x00\x00\x00\x00\x00\x02\x00\x00\x00\x02\
      \x00\x00\x00\x09\x00\x00\x00\x02\x00\x00\x00\x02\x00\x00\x00\x02\x00\x00\x00\x09\
      \x64\x61\x74\x61\x00";

fn limits() -> Limits {
    Limits::new(0x7fff_ffff, 64).unwrap()
}

/// Returns what differs between two files without what the values of `--ignore` leave out.
fn differences(
    rt: &impl Abort,
    alloc: Global,
    values: &[&[u8]],
    deep: bool,
    one: &[u8],
    other: &[u8],
) -> Result<String, Fail> {
    let words = Ignored::parse_all(alloc, values)?;
    let options = IgnoringOptions {
        words: &words,
        quiet: false,
        format: Format::Lines,
    };
    let quiet = IgnoringOptions {
        words: &words,
        quiet: true,
        format: Format::Lines,
    };
    let result = compared(alloc, one, other, deep, options)?;
    assert_eq!(rt; result.same, result.differences.is_empty());
    let short = compared(alloc, one, other, deep, quiet)?;
    assert_eq!(rt; result.same, short.same);
    assert!(rt; short.differences.is_empty());
    Ok(result.differences)
}

/// Compares two files without what is left out.
fn compared(
    alloc: Global,
    one: &[u8],
    other: &[u8],
    deep: bool,
    options: IgnoringOptions,
) -> Result<Comparison, CompareError> {
    if deep {
        compare_ignoring_deep(alloc, one, other, limits(), options)
    } else {
        compare_ignoring(alloc, one, other, limits(), options)
    }
}

#[test]
fn deep_descriptions(rt: HostRuntime) -> Result<(), Fail> {
    for (file, expected) in [
        (
            E1.as_slice(),
            "kind fit\nboot-cpu 0\nnode /\nproperty / timestamp 0x00000001\nnode /images\n\
             node /images/%2D\n\
             payload /images/%2D size 146 sha256 \
             c91a1d8f2d99513739b0c78f39a257103a20f677ae7c6f4d676a5f07630d106e\n\
             inside /images/%2D boot-cpu 1\n\
             inside /images/%2D reservation 0x0000000000001000 0x0000000000000020\n\
             node /images/%2D//\nnode /images/%2D//chosen\nproperty /images/%2D//chosen b \"x\"\n\
             node /images/%2D//chosen/%2D\nnode /images/%2D//z\nnode /images/%2D/signature-1\n\
             property /images/%2D/signature-1 value 0x31\nnode /images/%2D/signature-1/x\n\
             node /configurations\nnode /configurations/c\nnode /configurations/c/signature\n\
             property /configurations/c/signature q\nnode /configurations/c/other\n",
        ),
        (
            LEGACY_M.as_slice(),
            "kind legacy\nname k\ntime 0\nload 0x00008000\nentry 0x00008000\nos linux\narch arm\n\
             type multi\ncompression none\n\
             part 0 size 3 sha256 \
             ba7816bf8f01cfea414140de5dae2223b00361a396177a9cb410ff61f20015ad\n\
             part 1 size 94 sha256 \
             a2da98827f29682186a6fb1d62bc191099a4cd1e214d311f00b927ee74748e4b\n\
             inside part-1 boot-cpu 0\nnode part-1//\nproperty part-1// model \"m\"\n",
        ),
        (
            NESTED.as_slice(),
            "kind fit\nboot-cpu 0\nnode /\nnode /images\nnode /images/a\n\
             payload /images/a size 88 sha256 \
             60c5768e123f0ec4da80197039e621111d107da6a86b77a35c080b331a93395a\n",
        ),
    ] {
        let text = describe_deep(rt.alloc(), file, limits(), Format::Lines)?;
        assert_eq!(rt; text.as_str(), expected);
        let short = Limits::new(text.len() as u32 - 1, 64).unwrap();
        assert!(rt; describe_deep(rt.alloc(), file, short, Format::Lines).is_err());
    }
    let json = describe_deep(rt.alloc(), FIT_M, limits(), Format::Json)?;
    assert_eq!(rt;
        json.as_str(),
        "{\"kind\":\"fit\",\"boot_cpu\":0,\"reservations\":[],\"root\":{\"properties\":[],\
         \"children\":[{\"name\":\"images\",\"properties\":[],\"children\":[{\"name\":\"a\",\
         \"payload\":{\"size\":96,\
         \"sha256\":\"ff0b63de1f60df58dccfc46cce9fe816adb8fc59d7ac6c7cc20d7c4539b71fb4\",\
         \"devicetree\":{\"boot_cpu\":0,\"reservations\":[],\
         \"root\":{\"properties\":[{\"name\":\"model\",\"strings\":[\"m\"]}],\"children\":[]}}},\
         \"properties\":[],\"children\":[]}]}]}}\n"
    );
    Ok(())
}

#[test]
fn comparing_with_what_is_inside(rt: HostRuntime) -> Result<(), Fail> {
    let all = [
        b"time,signatures".as_slice(),
        b"/images/%2D//chosen b".as_slice(),
        b"/images/%2D//chosen/%2D".as_slice(),
    ];
    for (words, deep, one, other, expected) in [
        (
            [].as_slice(),
            true,
            FIT_M.as_slice(),
            FIT_N.as_slice(),
            "-payload /images/a size 96 sha256 \
             ff0b63de1f60df58dccfc46cce9fe816adb8fc59d7ac6c7cc20d7c4539b71fb4\n\
             +payload /images/a size 96 sha256 \
             445a6ab14b173e197a745ab47cd76f1b0abd9cd424b0c3daa0cb064f41990aef\n\
             -property /images/a// model \"m\"\n+property /images/a// model \"n\"\n",
        ),
        (
            [b"/images/a// model".as_slice()].as_slice(),
            true,
            FIT_M.as_slice(),
            FIT_N.as_slice(),
            "",
        ),
        (
            [b"/images/a".as_slice()].as_slice(),
            false,
            FIT_M.as_slice(),
            FIT_N.as_slice(),
            "",
        ),
        (
            [b"/".as_slice()].as_slice(),
            true,
            FIT_M.as_slice(),
            FIT_N.as_slice(),
            "",
        ),
        (
            [b"/images/a//".as_slice()].as_slice(),
            true,
            FIT_M.as_slice(),
            FIT_N.as_slice(),
            "",
        ),
        (
            [b"/nothing".as_slice()].as_slice(),
            true,
            FIT_M.as_slice(),
            FIT_N.as_slice(),
            "-payload /images/a size 96 sha256 \
             ff0b63de1f60df58dccfc46cce9fe816adb8fc59d7ac6c7cc20d7c4539b71fb4\n\
             +payload /images/a size 96 sha256 \
             445a6ab14b173e197a745ab47cd76f1b0abd9cd424b0c3daa0cb064f41990aef\n\
             -property /images/a// model \"m\"\n+property /images/a// model \"n\"\n",
        ),
        (
            [b"time".as_slice()].as_slice(),
            false,
            LEGACY_M.as_slice(),
            LEGACY_N.as_slice(),
            "-part 1 size 94 sha256 \
             a2da98827f29682186a6fb1d62bc191099a4cd1e214d311f00b927ee74748e4b\n\
             +part 1 size 94 sha256 \
             a019631b743709e5515fea35e5234e36c7848999333912460df83d458cc063b3\n",
        ),
        (
            [b"time".as_slice(), b"part-1"].as_slice(),
            true,
            LEGACY_M.as_slice(),
            LEGACY_N.as_slice(),
            "",
        ),
        (
            [b"time".as_slice(), b"part-1// model"].as_slice(),
            true,
            LEGACY_M.as_slice(),
            LEGACY_N.as_slice(),
            "",
        ),
        (
            [].as_slice(),
            true,
            E1.as_slice(),
            E2.as_slice(),
            "-property / timestamp 0x00000001\n+property / timestamp 0x00000002\n\
             -payload /images/%2D size 146 sha256 \
             c91a1d8f2d99513739b0c78f39a257103a20f677ae7c6f4d676a5f07630d106e\n\
             +payload /images/%2D size 134 sha256 \
             209b38eee22a8d6d3fa2a7acb6c4a9b8e09f588677f9871d73d6fb9ea7d82d12\n\
             -inside /images/%2D boot-cpu 1\n+inside /images/%2D boot-cpu 2\n\
             -inside /images/%2D reservation 0x0000000000001000 0x0000000000000020\n\
             -property /images/%2D//chosen b \"x\"\n+property /images/%2D//chosen b \"y\"\n\
             -node /images/%2D//chosen/%2D\n-property /images/%2D/signature-1 value 0x31\n\
             +property /images/%2D/signature-1 value 0x32\n-node /images/%2D/signature-1/x\n\
             -node /configurations/c/signature\n-property /configurations/c/signature q\n\
             +inside /images/%2D reservation 0x0000000000002000 0x0000000000000020\n",
        ),
        (
            all.as_slice(),
            true,
            E1.as_slice(),
            E2.as_slice(),
            "-inside /images/%2D boot-cpu 1\n+inside /images/%2D boot-cpu 2\n\
             -inside /images/%2D reservation 0x0000000000001000 0x0000000000000020\n\
             +inside /images/%2D reservation 0x0000000000002000 0x0000000000000020\n",
        ),
        (
            [b"time".as_slice()].as_slice(),
            true,
            LEGACY_M.as_slice(),
            E2.as_slice(),
            "-kind legacy\n+kind fit\n",
        ),
    ] {
        let text = differences(&rt, rt.alloc(), words, deep, one, other)?;
        assert_eq!(rt; text.as_str(), expected);
    }
    Ok(())
}

#[test]
fn comparing_deep_descriptions(rt: HostRuntime) -> Result<(), Fail> {
    for (one, other, expected) in [
        (FIT_M.as_slice(), FIT_M.as_slice(), ""),
        (
            FIT_M.as_slice(),
            FIT_N.as_slice(),
            "-payload /images/a size 96 sha256 \
             ff0b63de1f60df58dccfc46cce9fe816adb8fc59d7ac6c7cc20d7c4539b71fb4\n\
             +payload /images/a size 96 sha256 \
             445a6ab14b173e197a745ab47cd76f1b0abd9cd424b0c3daa0cb064f41990aef\n\
             -property /images/a// model \"m\"\n+property /images/a// model \"n\"\n",
        ),
        (
            FIT_M.as_slice(),
            LEGACY_M.as_slice(),
            "-kind fit\n+kind legacy\n",
        ),
    ] {
        let result = compare_deep(rt.alloc(), one, other, limits(), Format::Lines)?;
        assert_eq!(rt; result.differences.as_str(), expected);
        assert_eq!(rt; result.same, expected.is_empty());
    }
    let short = Limits::new(220, 64).unwrap();
    assert!(rt; compare_deep(rt.alloc(), FIT_M, FIT_M, short, Format::Lines).is_ok());
    let refused = match compare_deep(rt.alloc(), FIT_M, FIT_N, short, Format::Lines) {
        Err(CompareError::One(_)) => true,
        _ => false,
    };
    assert!(rt; refused);
    Ok(())
}

#[test]
fn piping_deep_descriptions(rt: HostRuntime) -> Result<(), Fail> {
    for format in [Format::Lines, Format::Json] {
        for file in [
            FIT_M.as_slice(),
            E1.as_slice(),
            LEGACY_M.as_slice(),
            NESTED.as_slice(),
        ] {
            let mut reader = file;
            let mut written = Vec::new(rt.alloc());
            describe_deep_to(rt.alloc(), &mut reader, &mut written, limits(), format)?;
            let text = describe_deep(rt.alloc(), file, limits(), format)?;
            assert!(rt; written.as_slice() == text.as_bytes());
        }
    }
    Ok(())
}

/// Without `--deep` a word for something inside leaves out nothing. A word for something inside a
/// payload that is a devicetree in one image alone leaves it out there, and the payload is compared
/// by its bytes.
#[test]
fn words_for_something_inside(rt: HostRuntime) -> Result<(), Fail> {
    let model = [b"/images/a// model".as_slice()];
    let payload = "-payload /images/a size 96 sha256 \
         ff0b63de1f60df58dccfc46cce9fe816adb8fc59d7ac6c7cc20d7c4539b71fb4\n";
    let plain = differences(&rt, rt.alloc(), &model, false, FIT_M, FIT_N)?;
    assert!(rt; plain.as_str().starts_with(payload));
    let alone = differences(&rt, rt.alloc(), &model, true, FIT_M, NESTED)?;
    assert_eq!(rt;
        alone.as_str(),
        "-payload /images/a size 96 sha256 \
         ff0b63de1f60df58dccfc46cce9fe816adb8fc59d7ac6c7cc20d7c4539b71fb4\n\
         +payload /images/a size 88 sha256 \
         60c5768e123f0ec4da80197039e621111d107da6a86b77a35c080b331a93395a\n\
         -inside /images/a boot-cpu 0\n-node /images/a//\n"
    );
    let image = [b"/images/a".as_slice(), b"/images/a//".as_slice()];
    assert!(rt; differences(&rt, rt.alloc(), &image, true, FIT_M, FIT_N)?.is_empty());
    let part = [b"time".as_slice(), b"part-1//".as_slice()];
    assert!(rt; differences(&rt, rt.alloc(), &part, true, LEGACY_M, LEGACY_N)?.is_empty());
    let other_part = [b"time".as_slice(), b"part-0//".as_slice()];
    assert!(rt; !differences(&rt, rt.alloc(), &other_part, true, LEGACY_M, LEGACY_N)?.is_empty());
    Ok(())
}
