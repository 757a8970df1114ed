//! The options and arguments of the commands.

use super::{GREATEST_LIMIT, KERNEL_KEY, NO_COMPRESSION, OptionForm, OptionText, ZERO};
use crate::codes::CodeField;
use crate::command_line::takes::Takes;

pub const FILE: OptionText = OptionText {
    name: "file",
    value_name: "IMAGE",
    help: "The image: a file. Without IMAGE, or if it is -, standard input is read",
    form: OptionForm::Positional,
    takes: Takes::Anything,
};

pub const FILES: OptionText = OptionText {
    help: "Each image: a file, or standard input if it is -. Without IMAGE, standard input is read",
    form: OptionForm::Positionals,
    ..FILE
};

pub const REQUIRED_FILE: OptionText = OptionText {
    help: "The image: a file, or standard input if it is -",
    form: OptionForm::RequiredPositional,
    ..FILE
};

pub const WHERE: OptionText = OptionText {
    name: "where",
    value_name: "WHERE",
    help: "Each value: the PATH of a node and the NAME of a property, as describe prints them, or \
         of a legacy image one of name, time, load, entry, os, arch, type, compression",
    form: OptionForm::RequiredPositionals,
    takes: Takes::Anything,
};

pub const AS: OptionText = OptionText {
    name: "as",
    value_name: "FORM",
    help: "How values are written: text, each text of a value without quotes; number, 0x and \
         hexadecimal digits; raw, the bytes of one value",
    form: OptionForm::Optional,
    takes: Takes::ValueForm,
};

pub const ONE: OptionText = OptionText {
    name: "one",
    value_name: "ONE",
    help: "The first image: a file, or standard input if it is -",
    form: OptionForm::RequiredPositional,
    takes: Takes::Anything,
};

pub const OTHER: OptionText = OptionText {
    name: "other",
    value_name: "OTHER",
    help: "The second image: a file, or standard input if it is -",
    form: OptionForm::RequiredPositional,
    takes: Takes::Anything,
};

pub const IGNORE: OptionText = OptionText {
    name: "ignore",
    value_name: "WORD[,WORD]..",
    help: "What is left out of both images: time, signatures, or alone in its option the PATH of a \
         node or 'PATH NAME' of a property, as describe prints them, or part-N; may be given any \
         number of times",
    form: OptionForm::Repeated,
    takes: Takes::LeftOut,
};

pub const DEEP: OptionText = OptionText {
    name: "deep",
    value_name: "",
    help: "Also look inside each payload or part that is a devicetree: at its nodes and properties",
    form: OptionForm::Flag,
    takes: Takes::Anything,
};

pub const QUIET: OptionText = OptionText {
    name: "quiet",
    value_name: "",
    help: "Write nothing: the exit status is the result",
    form: OptionForm::Flag,
    takes: Takes::Anything,
};

pub const JSON: OptionText = OptionText {
    name: "json",
    value_name: "",
    help: "Write JSON instead of lines",
    form: OptionForm::Flag,
    takes: Takes::Anything,
};

pub const LAYOUT: OptionText = OptionText {
    name: "layout",
    value_name: "",
    help: "Also show the regions of the file by their offsets",
    form: OptionForm::Flag,
    takes: Takes::Anything,
};

pub const LIMIT: OptionText = OptionText {
    name: "limit",
    value_name: "N",
    help: "Refuse an image of more than N bytes: 64 to 2147483647, or in hexadecimal with 0x",
    form: OptionForm::Default(GREATEST_LIMIT),
    takes: Takes::Limit,
};

pub const OUTPUT: OptionText = OptionText {
    name: "output",
    value_name: "FILE",
    help: "Write the output to FILE, which is replaced atomically, instead of standard output",
    form: OptionForm::Short('o'),
    takes: Takes::Anything,
};

pub const ALLOW: OptionText = OptionText {
    name: "allow",
    value_name: "KIND[,KIND]..",
    help: "Leave out the lines of these kinds, a comma-separated list",
    form: OptionForm::Optional,
    takes: Takes::Kinds,
};

pub const SIGNED: OptionText = OptionText {
    name: "signed",
    value_name: "",
    help: "Also find each configuration that has no signature, and that there is none",
    form: OptionForm::Flag,
    takes: Takes::Anything,
};

pub const REMOVE: OptionText = OptionText {
    name: "remove",
    value_name: "WORD",
    help: "Remove the node at a PATH with all below it, or a property: 'PATH NAME', as describe \
         prints them; may be given any number of times",
    form: OptionForm::Repeated,
    takes: Takes::Removal,
};

pub const SET: OptionText = OptionText {
    name: "set",
    value_name: "WORD",
    help: "Set a property: 'PATH NAME VALUE' as describe prints it, or 0x and digits as VALUE, or \
         'PATH NAME' for an empty value. Nodes that are not there are added. Or a field of a \
         legacy image: 'FIELD VALUE', FIELD one of name, time, load, entry, os, arch, compression; \
         may be given any number of times",
    form: OptionForm::Repeated,
    takes: Takes::NewValue,
};

pub const PAYLOAD: OptionText = OptionText {
    name: "payload",
    value_name: "IMAGE=@FILE",
    help: "Take the payload of an image of a FIT, or of part IMAGE of a legacy image, from the \
         file FILE; may be given any number of times",
    form: OptionForm::Repeated,
    takes: Takes::NewPayload,
};

pub const KEEP_FORM: OptionText = OptionText {
    name: "keep-form",
    value_name: "",
    help: "Leave the payloads of a FIT where they are: inside the blob, or after it with the \
         alignment that they have",
    form: OptionForm::Flag,
    takes: Takes::Anything,
};

pub const NEW_TIME: OptionText = OptionText {
    name: "time",
    value_name: "N",
    help: "Set the time of creation: seconds since 1970, as a number below 2^32",
    form: OptionForm::Optional,
    takes: Takes::Number,
};

pub const HASHES: OptionText = OptionText {
    name: "hashes",
    value_name: "",
    help: "Compute the digest of each hash node with a known algorithm again",
    form: OptionForm::Flag,
    takes: Takes::Anything,
};

pub const EXTERNAL_NORMAL: OptionText = OptionText {
    name: "external",
    value_name: "",
    help: "Write the payloads of a FIT after the tree, not inside it",
    form: OptionForm::Flag,
    takes: Takes::Anything,
};

pub const ALIGN: OptionText = OptionText {
    name: "align",
    value_name: "N",
    help: "With --external: place payloads at multiples of N, a power of two from 4 to 1048576",
    form: OptionForm::Optional,
    takes: Takes::Alignment,
};

pub const EXTERNAL_BUILT: OptionText = OptionText {
    help: "Write the payloads after the tree, not inside it",
    ..EXTERNAL_NORMAL
};

pub const PART: OptionText = OptionText {
    name: "part",
    value_name: "N",
    help: "Write part N, counted from 0, of a legacy image",
    form: OptionForm::Optional,
    takes: Takes::Number,
};

pub const IMAGE: OptionText = OptionText {
    name: "image",
    value_name: "NAME",
    help: "Write the payload of image NAME of a FIT",
    form: OptionForm::Optional,
    takes: Takes::Anything,
};

pub const CONFIG: OptionText = OptionText {
    name: "config",
    value_name: "NAME",
    help: "Write a payload that configuration NAME of a FIT lists",
    form: OptionForm::Optional,
    takes: Takes::Anything,
};

pub const DEFAULT: OptionText = OptionText {
    name: "default",
    value_name: "",
    help: "Write a payload that the default configuration of a FIT lists",
    form: OptionForm::Flag,
    takes: Takes::Anything,
};

pub const ALL: OptionText = OptionText {
    name: "all",
    value_name: "",
    help: "Write each part or payload to a file of its own in the new directory DIR, with -o DIR",
    form: OptionForm::Flag,
    takes: Takes::Anything,
};

pub const ESCAPED: OptionText = OptionText {
    name: "escaped",
    value_name: "",
    help: "NAME is as list prints it: percent-encoded",
    form: OptionForm::Flag,
    takes: Takes::Anything,
};

pub const OFFSET: OptionText = OptionText {
    name: "offset",
    value_name: "N",
    help: "Where the image begins in the input: its first N bytes are skipped",
    form: OptionForm::Default(ZERO),
    takes: Takes::Number,
};

pub const KEY: OptionText = OptionText {
    name: "key",
    value_name: "KEY",
    help: "With --config or --default: the list, one of kernel, fdt, ramdisk, firmware, \
         loadables, script",
    form: OptionForm::Default(KERNEL_KEY),
    takes: Takes::Key,
};

pub const INDEX: OptionText = OptionText {
    name: "index",
    value_name: "N",
    help: "With --config or --default: the entry of the list, counted from 0",
    form: OptionForm::Default(ZERO),
    takes: Takes::Number,
};

pub const CAUSE: OptionText = OptionText {
    name: "cause",
    value_name: "NAME",
    help: "A cause or another message as an error prints it, or a kind of concerns as check prints \
         it; without NAME each one is explained",
    form: OptionForm::Positional,
    takes: Takes::Topic,
};

pub const OS: OptionText = OptionText {
    name: "os",
    value_name: "OS",
    help: "The operating system: a name that mkimage has, or a number of at most 255",
    form: OptionForm::Required,
    takes: Takes::Code(CodeField::Os),
};

pub const ARCH: OptionText = OptionText {
    name: "arch",
    value_name: "ARCH",
    help: "The processor architecture: a name that mkimage has, or a number of at most 255",
    form: OptionForm::Required,
    takes: Takes::Code(CodeField::Arch),
};

pub const TYPE: OptionText = OptionText {
    name: "type",
    value_name: "TYPE",
    help: "The image type: a name that mkimage has, or a number of at most 255",
    form: OptionForm::Required,
    takes: Takes::Code(CodeField::ImageType),
};

pub const COMPRESSION: OptionText = OptionText {
    name: "compression",
    value_name: "COMPRESSION",
    help: "The compression: a name that mkimage has, or a number of at most 255",
    form: OptionForm::Default(NO_COMPRESSION),
    takes: Takes::Code(CodeField::Compression),
};

pub const NAME: OptionText = OptionText {
    name: "name",
    value_name: "NAME",
    help: "The name of the image: at most 32 bytes",
    form: OptionForm::Optional,
    takes: Takes::Anything,
};

pub const TIME: OptionText = OptionText {
    name: "time",
    value_name: "N",
    help: "The time of creation: seconds since 1970, as a number below 2^32",
    form: OptionForm::Default(ZERO),
    takes: Takes::Number,
};

pub const LOAD: OptionText = OptionText {
    name: "load",
    value_name: "N",
    help: "The load address: a decimal number, or hexadecimal with 0x",
    form: OptionForm::Default(ZERO),
    takes: Takes::Number,
};

pub const ENTRY: OptionText = OptionText {
    name: "entry",
    value_name: "N",
    help: "The entry point: a decimal number, or hexadecimal with 0x",
    form: OptionForm::Default(ZERO),
    takes: Takes::Number,
};

pub const LENGTHS: OptionText = OptionText {
    name: "lengths",
    value_name: "LEN",
    help: "Each part: its length in bytes, in standard input, or @FILE for the bytes of FILE",
    form: OptionForm::Positionals,
    takes: Takes::Part,
};

pub const CONFIGURATIONS: OptionText = OptionText {
    name: "config",
    value_name: "NAME:KEY=IMAGE[,IMAGE]..[:KEY=..]..",
    help: "A configuration with its lists of images, KEY one of kernel, fdt, ramdisk, firmware, \
         loadables, script; may be given any number of times",
    form: OptionForm::Repeated,
    takes: Takes::Anything,
};

pub const DEFAULT_NAME: OptionText = OptionText {
    name: "default",
    value_name: "NAME",
    help: "The default configuration, one of those of --config; else it is the first",
    form: OptionForm::Optional,
    takes: Takes::Anything,
};

pub const COMPATIBLE: OptionText = OptionText {
    name: "compatible",
    value_name: "NAME:TEXT",
    help: "A board that configuration NAME of --config is for, such as acme,one; may be given any \
         number of times",
    form: OptionForm::Repeated,
    takes: Takes::OwnText,
};

pub const DESCRIBE_CONFIGURATION: OptionText = OptionText {
    name: "describe-config",
    value_name: "NAME:TEXT",
    help: "The description of configuration NAME of --config, once for each; else that of the tree",
    form: OptionForm::Repeated,
    takes: Takes::OwnText,
};

pub const DESCRIBE_IMAGE: OptionText = OptionText {
    name: "describe-image",
    value_name: "NAME:TEXT",
    help: "The description of image NAME, once for each; else that of the tree",
    form: OptionForm::Repeated,
    takes: Takes::OwnText,
};

pub const HASH: OptionText = OptionText {
    name: "hash",
    value_name: "ALGO[,ALGO]..",
    help: "The hash nodes of each image: of crc32, md5, sha1, sha256, sha384, sha512, in this \
         order, or none; without the option sha256",
    form: OptionForm::Optional,
    takes: Takes::Algorithms,
};

pub const DESCRIPTION: OptionText = OptionText {
    name: "description",
    value_name: "TEXT",
    help: "The description of the tree, and of each image and configuration without its own",
    form: OptionForm::Optional,
    takes: Takes::Anything,
};

pub const IMAGES: OptionText = OptionText {
    name: "images",
    value_name: "IMAGE",
    help: "Each image, with the length of its payload or @FILE",
    form: OptionForm::Positionals,
    takes: Takes::Anything,
};

/// The options and arguments whose words can be judged one by one. Those of the same name take the
/// same words in each command.
pub static TAKING_OPTIONS: [OptionText; 25] = [
    OS,
    ARCH,
    TYPE,
    COMPRESSION,
    TIME,
    LOAD,
    ENTRY,
    LENGTHS,
    HASH,
    ALLOW,
    AS,
    PART,
    KEY,
    INDEX,
    REMOVE,
    SET,
    PAYLOAD,
    IGNORE,
    COMPATIBLE,
    DESCRIBE_CONFIGURATION,
    DESCRIBE_IMAGE,
    CAUSE,
    ALIGN,
    OFFSET,
    LIMIT,
];
