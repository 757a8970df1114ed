//! The program with its commands and options: a table, and what builds clap's command of it.

ghost use Rattle.std.specs.Prelude.{◌≡◌, ◌&&◌, false, IfOk, bytes_eq, map};
ghost use Rattle.std.specs.List.{list_any};
ghost use Rattle.clap.specs.Words.{app_of, new_rule, rule_of, shape_of};
ghost use Rattle.bootimg.specs.Program.{building_commands, changing_commands, checking_commands};
ghost use Rattle.bootimg.specs.Program.{program_app, reading_commands, value_option};
ghost use Rattle.bootimg.specs.Program.{building_writers, changing_writers, is_writer_of};
ghost use Rattle.bootimg.specs.Program.{reading_writers, writes_image as writes_image_of};
ghost use Rattle.bootimg.specs.Table.{place_of_option, rule_of_option, shape_of_text};
ghost use Rattle.bootimg.specs.Table.{with_subcommands};
ghost use Rattle.clap.specs.declared.builder.command.Command.TheViews.{out-Command};

mod options;

use crate::command_line::takes::{Place, Takes};
use clap::{Arg, ArgAction, Command};
pub use options::TAKING_OPTIONS;
use options::{
    ALIGN, ALL, ALLOW, ARCH, AS, CAUSE, COMPATIBLE, COMPRESSION, CONFIG, CONFIGURATIONS, DEEP,
    DEFAULT, DEFAULT_NAME, DESCRIBE_CONFIGURATION, DESCRIBE_IMAGE, DESCRIPTION, ENTRY, ESCAPED,
    EXTERNAL_BUILT, EXTERNAL_NORMAL, FILE, FILES, HASH, HASHES, IGNORE, IMAGE, IMAGES, INDEX, JSON,
    KEEP_FORM, KEY, LAYOUT, LENGTHS, LIMIT, LOAD, NAME, NEW_TIME, OFFSET, ONE, OS, OTHER, OUTPUT,
    PART, PAYLOAD, QUIET, REMOVE, REQUIRED_FILE, SET, SIGNED, TIME, TYPE, WHERE,
};
use std::alloc::{AllocError, Global};

/// The default of `--limit`, in bytes: the greatest limit.
pub const GREATEST_LIMIT: &str = "2147483647";

/// The default of `--key`.
pub const KERNEL_KEY: &str = "kernel";

/// The default of `--compression`.
pub const NO_COMPRESSION: &str = "none";

/// The default of each option for an address, a time or an index.
pub const ZERO: &str = "0";

/// The version that `--version` prints, and the logic of the kit that the program is proved with.
const VERSION: &str = "0.4.0 (Rattle logic dac8208d650f15bf)";

/// The text of `--help` before the usage.
const ABOUT: &str =
    "Normalises, shows, lists, describes, compares, verifies, checks, finds, updates, reads, \
     extracts, converts and builds U-Boot boot images";

/// The text of `--help` after the options.
const AFTER_HELP: &str =
    "An image is a legacy image, or a flattened image tree (FIT). It is read from the file IMAGE,\n\
     or from standard input without IMAGE or if it is -. The output is written to standard\n\
     output, or to the file FILE with -o:\n\n\
     \x20   bootimg list kernel.uimage\n\n\
     The exit status is 0 after success. A failure is reported on standard error, and the exit\n\
     status is then 2. It is 1 if verify wrote a verdict that is not good, if check found what is\n\
     not protected, if compare found that two images do not mean the same thing, or if scan found\n\
     no image.";

/// How an option is given.
#[derive(Clone, Copy)]
pub enum OptionForm {
    /// `--NAME`.
    Flag,
    /// `--NAME VALUE`, required.
    Required,
    /// `--NAME VALUE`, without a default.
    Optional,
    /// `--NAME VALUE`, any number of times.
    Repeated,
    /// The same, or `-SHORT VALUE`.
    Short(char),
    /// `--NAME VALUE`, with this default.
    Default(&'static str),
    /// A positional argument, which may be left out.
    Positional,
    /// A positional argument, which has to be given.
    RequiredPositional,
    /// Any number of positional arguments.
    Positionals,
    /// One or more positional arguments.
    RequiredPositionals,
}

/// An option of a command.
#[derive(Clone, Copy)]
pub struct OptionText {
    /// Its name, without `--`.
    pub name: &'static str,
    /// The name of its value in the usage.
    pub value_name: &'static str,
    /// What `--help` says of it.
    pub help: &'static str,
    /// How it is given.
    pub form: OptionForm,
    /// Which words it takes.
    pub takes: Takes,
}

impl OptionText {
    /// Returns where the words of the option stand.
    pub fn place(&self) -> Place
        ensures { result ≡ place_of_option self.now }
    {
        match self.form {
            OptionForm::Positional
            | OptionForm::RequiredPositional
            | OptionForm::Positionals
            | OptionForm::RequiredPositionals => Place::Argument(self.value_name),
            _ => Place::Option(self.name),
        }
    }
}

/// A command of the program.
#[derive(Clone, Copy)]
struct CommandText {
    name: &'static str,
    aliases: &'static [&'static str],
    about: &'static str,
    usage: &'static str,
    after_help: &'static str,
    /// Whether its output is an image or a payload, and not text.
    writes_image: bool,
    options: &'static [OptionText],
}

/// Returns whether the command of this name writes an image or a payload, and not text.
pub fn writes_image(name: &str) -> bool
    ensures { result ≡ writes_image_of name.now }
{
    reading_writes_image(name)
        || changing_writes_image(name)
        || building_writes_image(name)
        || some_writes_image(&CHECKING_COMMANDS, name)
}

/// Returns whether a command that reads an image has this name, and writes an image.
fn reading_writes_image(name: &str) -> bool
    ensures { result ≡ is_writer_of reading_writers name.now }
{
    some_writes_image(&READING_COMMANDS, name)
}

/// Returns whether a command that changes an image has this name, and writes an image.
fn changing_writes_image(name: &str) -> bool
    ensures { result ≡ is_writer_of changing_writers name.now }
{
    some_writes_image(&CHANGING_COMMANDS, name)
}

/// Returns whether a command that builds an image has this name, and writes an image.
fn building_writes_image(name: &str) -> bool
    ensures { result ≡ is_writer_of building_writers name.now }
{
    some_writes_image(&BUILDING_COMMANDS, name)
}

/// Returns whether one of these commands has a name, and writes an image or a payload.
fn some_writes_image(texts: &[CommandText], name: &str) -> bool
    ensures { result ≡ list_any (λ text. text.writes_image && bytes_eq text.name.now name.now)
        texts.now }
{
    texts
        .iter()
        .any(|text| text.writes_image && text.name == name)
}

/// Builds the program with its commands and options. Fails if memory runs out.
pub fn program<'a>(alloc: Global) -> Result<Command<'a>, AllocError>
    ensures { IfOk result (λ program. app_of program ≡ program_app) }
{
    let program = Command::new(alloc, "bootimg")
        .bin_name("bootimg")?
        .no_binary_name(true)
        .version(VERSION)
        .about(ABOUT)
        .after_help(AFTER_HELP)
        .subcommand_required(true);
    let program = with_reading_commands(alloc, program)?;
    let program = with_checking_commands(alloc, program)?;
    let program = with_changing_commands(alloc, program)?;
    let program = with_building_commands(alloc, program)?;
    program.subcommand(command(alloc, &EXPLAIN)?)
}

/// Adds the commands that write what an image is.
fn with_reading_commands<'a>(alloc: Global, program: Command<'a>) -> Result<Command<'a>, AllocError>
    ensures { IfOk result (λ all. app_of all
        ≡ with_subcommands (app_of program.entry) reading_commands) }
{
    with_commands(alloc, program, &READING_COMMANDS)
}

/// Adds the commands that compare images, check one, and find the images in a file.
fn with_checking_commands<'a>(
    alloc: Global,
    program: Command<'a>,
) -> Result<Command<'a>, AllocError>
    ensures { IfOk result (λ all. app_of all
        ≡ with_subcommands (app_of program.entry) checking_commands) }
{
    with_commands(alloc, program, &CHECKING_COMMANDS)
}

/// Adds the commands that make something else of an image.
fn with_changing_commands<'a>(
    alloc: Global,
    program: Command<'a>,
) -> Result<Command<'a>, AllocError>
    ensures { IfOk result (λ all. app_of all
        ≡ with_subcommands (app_of program.entry) changing_commands) }
{
    with_commands(alloc, program, &CHANGING_COMMANDS)
}

/// Adds the commands that build an image.
fn with_building_commands<'a>(
    alloc: Global,
    program: Command<'a>,
) -> Result<Command<'a>, AllocError>
    ensures { IfOk result (λ all. app_of all
        ≡ with_subcommands (app_of program.entry) building_commands) }
{
    with_commands(alloc, program, &BUILDING_COMMANDS)
}

/// Adds commands to the program.
fn with_commands<'a>(
    alloc: Global,
    mut program: Command<'a>,
    texts: &[CommandText],
) -> Result<Command<'a>, AllocError>
    ensures { IfOk result (λ all. app_of all
        ≡ with_subcommands (app_of program.entry) (map shape_of_text texts.now)) }
{
    for text in texts {
        program = program.subcommand(command(alloc, text)?)?;
    }
    Ok(program)
}

/// Builds a command with its options.
fn command<'a>(alloc: Global, text: &CommandText) -> Result<Command<'a>, AllocError>
    ensures shape { IfOk result (λ command. shape_of command ≡ shape_of_text text.now) }
    ensures local { IfOk result (λ command. (out-Command command).has_globals ≡ false) }
{
    let mut command = Command::new(alloc, text.name)
        .about(text.about)
        .override_usage(text.usage)
        .after_help(text.after_help)
        .visible_aliases(text.aliases)?;
    for option in text.options {
        command = command.arg(argument(alloc, option))?;
    }
    Ok(command)
}

/// Builds an option.
fn argument<'a>(alloc: Global, option: &OptionText) -> Arg<'a>
    ensures rule { rule_of result ≡ rule_of_option option.now }
    ensures local { result.global ≡ false }
{
    let argument = Arg::new(alloc, option.name).help(option.help);
    match option.form {
        OptionForm::Flag => argument.long(option.name).action(ArgAction::SetTrue),
        OptionForm::Required => with_value(argument, option).required(true),
        OptionForm::Optional => with_value(argument, option),
        OptionForm::Repeated => with_value(argument, option).action(ArgAction::Append),
        OptionForm::Short(letter) => with_value(argument, option).short(letter),
        OptionForm::Default(value) => with_value(argument, option).default_value(value),
        OptionForm::Positional => argument.value_name(option.value_name),
        OptionForm::RequiredPositional => argument.value_name(option.value_name).required(true),
        OptionForm::Positionals => argument
            .value_name(option.value_name)
            .num_args(0..)
            .action(ArgAction::Append),
        OptionForm::RequiredPositionals => argument
            .value_name(option.value_name)
            .num_args(1..)
            .action(ArgAction::Append)
            .required(true),
    }
}

/// Makes the option take a value.
fn with_value<'a>(argument: Arg<'a>, option: &OptionText) -> Arg<'a>
    ensures rule { rule_of argument.entry ≡ new_rule option.now.name.now
        → rule_of result ≡ value_option option.now.name.now }
    ensures local { result.global ≡ argument.entry.global }
{
    argument
        .long(option.name)
        .value_name(option.value_name)
        .action(ArgAction::Set)
}

/// The commands that write what an image is.
static READING_COMMANDS: [CommandText; 4] = [
    CommandText {
        name: "normalise",
        aliases: &["normalize"],
        about: "Write the normal form of an image",
        usage: "bootimg normalise [OPTIONS] [IMAGE] > NORMAL",
        after_help: "\
                 Reads an image, and writes its normal form to standard output. Two images of the\n\
                 same kind have the same normal form if and only if they mean the same thing. A\n\
                 FIT has one normal form with --external, and another without.\n\n\
                 Signature nodes are kept, and not checked: a signature may no longer be valid. A\n\
                 note on standard error has their number, if there are any.\n\n\
                 With --external, another note says when the payloads of a file were aligned to\n\
                 more bytes than those of the output, as mkimage -E -B aligns them: --align keeps\n\
                 that. Unless N is 4, the output is not a normal form but means the same thing.\n\n\
                 Example: bootimg normalise kernel.uimage > normal.uimage",
        writes_image: true,
        options: &[EXTERNAL_NORMAL, ALIGN, OFFSET, LIMIT, OUTPUT, FILE],
    },
    CommandText {
        name: "show",
        aliases: &[],
        about: "Print an overview of an image",
        usage: "bootimg show [OPTIONS] [IMAGE]",
        after_help: "\
                 Reads an image, and writes to standard output a page for a person, in aligned\n\
                 columns: what the image is, its date and size; its parts or payloads, with the\n\
                 verdict on each hash node; its configurations; its signature nodes, which are \
                 not\n\
                 verified, with what each of them covers; with --layout, the regions of the file\n\
                 by their offsets, padding and free space too; and last the lines of check. The\n\
                 form of the page may change with each version: for scripts is --json, which\n\
                 writes the same as one text, without the regions, and is not for --layout.\n\n\
                 --limit also bounds the payloads of a FIT together, and so the paths that its\n\
                 signatures must cover. The exit status is 0 even if a verdict is not good.\n\n\
                 Example: bootimg show --layout kernel.itb",
        writes_image: false,
        options: &[LAYOUT, JSON, OFFSET, LIMIT, OUTPUT, FILE],
    },
    CommandText {
        name: "list",
        aliases: &[],
        about: "List what an image holds",
        usage: "bootimg list [OPTIONS] [IMAGE]...",
        after_help: "\
                 Reads an image, and writes to standard output what it holds. Of a legacy image:\n\
                 its fields, the size and offset of each part, and the number of bytes after the\n\
                 last part. Of a FIT: its memory reservations, the size and offset of each\n\
                 payload, and what each configuration lists, but not where loaders put it:\n\
                 describe does. Sizes and offsets are in bytes.\n\n\
                 Example: bootimg list kernel.uimage",
        writes_image: false,
        options: &[JSON, OFFSET, LIMIT, OUTPUT, FILES],
    },
    CommandText {
        name: "describe",
        aliases: &[],
        about: "Describe what an image means",
        usage: "bootimg describe [OPTIONS] [IMAGE]",
        after_help: "\
                 Reads an image, and writes to standard output what it means, in lines for diff.\n\
                 Images that mean the same thing have the same lines, which show no offsets,\n\
                 padding or versions, and not whether payloads are inside a FIT or after it. Each\n\
                 payload or part has a line with its size and SHA-256. Neither the payloads\n\
                 together nor the description may be longer than the limit.\n\n\
                 With --deep, after the line of a payload or part that is a devicetree come its\n\
                 boot processor, memory reservations, nodes and properties. The path of a node\n\
                 inside it is the path of the payload, /, and its path in the devicetree:\n\
                 /images/fdt-1//chosen, or part-1//chosen. A FIT is not a devicetree.\n\n\
                 Example: bootimg describe kernel.itb\n\
                 Example: bootimg describe --deep kernel.itb",
        writes_image: false,
        options: &[DEEP, JSON, OFFSET, LIMIT, OUTPUT, FILE],
    },
];

/// The commands that compare images, check one, and find the images in a file.
static CHECKING_COMMANDS: [CommandText; 4] = [
    CommandText {
        name: "compare",
        aliases: &["diff"],
        about: "Compare what two images mean",
        usage: "bootimg compare [OPTIONS] <ONE> <OTHER>",
        after_help: "\
                 Reads two images, and writes to standard output what differs between what they\n\
                 mean: the lines of describe that only ONE has, each after -, and those that only\n\
                 OTHER has, each after +. Writes nothing if both mean the same thing, whatever\n\
                 their layout. At most one of the two is standard input.\n\n\
                 --ignore leaves something out of both before they are compared: time, the time\n\
                 of a legacy image and the timestamp of a FIT; signatures, all signature nodes;\n\
                 a node with all that is below it and its payload; a property; or a part of a\n\
                 legacy image. A node or a part that is not there is no error. Images of\n\
                 different kinds differ, whatever is left out.\n\n\
                 With --deep, the lines are those of describe --deep, and --ignore can leave out\n\
                 something inside: /images/fdt-1//chosen. Then that payload is compared by what\n\
                 stays of its devicetree, if it is one in both images, and not by its bytes. All\n\
                 other payloads are compared byte by byte.\n\n\
                 The exit status is 0 if both mean the same thing, and 1 if they do not.\n\n\
                 Example: bootimg compare yesterday.itb today.itb\n\
                 Example: bootimg compare --ignore time \
                 --ignore '/images/kernel-1 load' a.itb b.itb\n\
                 Example: bootimg compare --deep --ignore /images/fdt-1//chosen a.itb b.itb",
        writes_image: false,
        options: &[IGNORE, DEEP, QUIET, JSON, LIMIT, OUTPUT, ONE, OTHER],
    },
    CommandText {
        name: "verify",
        aliases: &[],
        about: "Check the checksums and digests of an image",
        usage: "bootimg verify [OPTIONS] [IMAGE]...",
        after_help: "\
                 Reads an image, and writes to standard output a verdict on each checksum of a\n\
                 legacy image, or on each hash node of a FIT. Signatures are not checked.\n\n\
                 The exit status is 0 if each verdict is good, and 1 if one is not. It is also 0\n\
                 if a FIT has no hash node, so that nothing is checked: bootimg check finds what\n\
                 is not protected.\n\n\
                 Example: bootimg verify kernel.itb",
        writes_image: false,
        options: &[JSON, OFFSET, LIMIT, OUTPUT, FILES],
    },
    CommandText {
        name: "check",
        aliases: &[],
        about: "Find what is not protected in an image",
        usage: "bootimg check [OPTIONS] [IMAGE]...",
        after_help: "\
                 Reads an image, and writes to standard output a line for each thing in it that\n\
                 is not protected: nothing if all is. The first word of a line is its kind:\n\n\
                 \x20 bad-hash      the verdict on a hash node is not good\n\
                 \x20 skipped-hash  U-Boot skips a hash node, which has uboot-ignore\n\
                 \x20 unhashed      an image with a payload has no good hash node but \
                 skipped ones\n\
                 \x20 weak-hash     it has good ones, and none of SHA-256, SHA-384 or SHA-512\n\
                 \x20 bad-list      a value in a configuration is not a list of names\n\
                 \x20 missing       a configuration lists an image that is not there\n\
                 \x20 unsigned      with --signed: a configuration has no signature\n\
                 \x20 no-nodes      a signature does not say which nodes it covers\n\
                 \x20 no-images     the configuration of a signature names no image\n\
                 \x20 uncovered     a signature does not cover a node that it must cover\n\
                 \x20 foreign       a signature covers a node that the configuration does not use\n\
                 \x20 strings       a signature does not cover the names of all properties\n\
                 \x20 unit-address  there is a signature, and the name of a node has an @\n\
                 \x20 bad-default   the default is none of the configurations\n\
                 \x20 trailing      bytes follow the image, and not all of them are zero\n\n\
                 No signature is verified: what is checked is what it covers if it is valid.\n\n\
                 A legacy image can only have trailing, and unsigned with --signed: its checksums\n\
                 are always checked, and an image with a wrong one is refused. --limit also\n\
                 bounds the payloads of a FIT together, and so the paths that its signatures must\n\
                 cover.\n\n\
                 The exit status is 0 if nothing was found, and 1 if something was.\n\n\
                 Example: bootimg check --allow weak-hash,trailing kernel.itb\n\
                 Example: bootimg check --signed kernel.itb",
        writes_image: false,
        options: &[ALLOW, SIGNED, JSON, OFFSET, LIMIT, OUTPUT, FILES],
    },
    CommandText {
        name: "scan",
        aliases: &[],
        about: "Find the images inside a file",
        usage: "bootimg scan [OPTIONS] [IMAGE]...",
        after_help: "\
                 Reads a file, such as what a flash chip holds, and writes to standard output a\n\
                 line for each image in it, even one that is inside another: the offset of its\n\
                 first byte, legacy or fit, how many bytes it has, and the name of a legacy image\n\
                 or the number of images of a FIT. An image may begin at any offset. Bytes that\n\
                 other commands would refuse have no line.\n\n\
                 --limit also bounds the bytes that the headers inside the file name together.\n\n\
                 The exit status is 0 if an image was found, and 1 if none was.\n\n\
                 Example: bootimg scan flash.bin",
        writes_image: false,
        options: &[JSON, OFFSET, LIMIT, OUTPUT, FILES],
    },
];

/// The commands that make something else of an image, or take something out of it.
static CHANGING_COMMANDS: [CommandText; 4] = [
    CommandText {
        name: "update",
        aliases: &[],
        about: "Edit an image: its properties and payloads, its time, its digests",
        usage: "bootimg update [OPTIONS] [IMAGE]",
        after_help: "\
                 Reads an image, and writes to standard output its normal form with the changes\n\
                 that the options request. At least one of --remove, --set, --payload, --time,\n\
                 --hashes and --keep-form must be given. They are made in this order, whatever\n\
                 their order on the command line. Nothing is written if there is nothing to\n\
                 remove, or no image or part for a payload.\n\n\
                 Hash nodes with an unknown algorithm, and those of images without a payload, are\n\
                 kept as they are. A legacy image has no hash nodes, and its checksums are always\n\
                 computed. With --hashes, --limit also bounds the payloads of a FIT together.\n\
                 Signature nodes are kept, and not checked: a note on standard error has their\n\
                 number, if there are any.\n\n\
                 Example: bootimg update --hashes --time 1700000000 kernel.itb > new.itb\n\
                 Example: bootimg update --set '/images/kernel-1 load 0x80200000' kernel.itb\n\
                 Example: bootimg update --keep-form --payload kernel-1=@Image --hashes kernel.itb",
        writes_image: true,
        options: &[
            REMOVE,
            SET,
            PAYLOAD,
            NEW_TIME,
            HASHES,
            KEEP_FORM,
            EXTERNAL_NORMAL,
            ALIGN,
            OFFSET,
            LIMIT,
            OUTPUT,
            FILE,
        ],
    },
    CommandText {
        name: "get",
        aliases: &[],
        about: "Print values of properties of an image",
        usage: "bootimg get [OPTIONS] <IMAGE> <WHERE>...",
        after_help: "\
                 Reads an image, and writes a line for each WHERE to standard output. In a FIT a\n\
                 WHERE is two words, the path of a node and the name of a property, and the line\n\
                 is its value, both as describe prints them. In a legacy image it is one word, a\n\
                 field, and the line is the field as list prints it.\n\n\
                 With --as text, a line for each text of a value, without quotes. With --as\n\
                 number, 0x and 8 or 16 digits for a value of 4 or 8 bytes, and for a code of a\n\
                 legacy image 0x and 2. With --as raw, the bytes of one value, and no newline.\n\n\
                 Nothing is written if one of the values is not there, or not in that form. The\n\
                 payload of an image is no property: extract writes it.\n\n\
                 Example: bootimg get kernel.itb /images/kernel-1 load /configurations default\n\
                 Example: bootimg get --as number kernel.uimage load",
        writes_image: false,
        options: &[AS, OFFSET, LIMIT, OUTPUT, REQUIRED_FILE, WHERE],
    },
    CommandText {
        name: "extract",
        aliases: &[],
        about: "Write one part or payload of an image",
        usage: "bootimg extract (--part <N> | --image <NAME> | --config <NAME> | --default) \
             [OPTIONS] [IMAGE] > PAYLOAD\n       \
             bootimg extract --all -o <DIR> [OPTIONS] [IMAGE]",
        after_help: "\
                 Reads an image, and writes the bytes that are selected to standard output. A\n\
                 legacy image has parts: those in the list of sizes of a multi-file image or a\n\
                 script, and one part in any other image. The images of a FIT have payloads.\n\n\
                 With --all, each part of a legacy image is the file part-N, and each payload of\n\
                 a FIT has the name of its image, as list prints it, where a dot that comes first\n\
                 is %2E. DIR must not be there yet. It is made last, with all files, or not at\n\
                 all.\n\n\
                 Hash nodes are not checked: verify does that.\n\n\
                 Numbers are decimal, or hexadecimal with 0x.\n\n\
                 Example: bootimg extract --part 1 multi.uimage > ramdisk\n\
                 Example: bootimg extract --default --key fdt kernel.itb > board.dtb\n\
                 Example: bootimg extract --all -o parts kernel.itb",
        writes_image: true,
        options: &[
            PART, IMAGE, CONFIG, DEFAULT, ALL, KEY, INDEX, ESCAPED, OFFSET, LIMIT, OUTPUT, FILE,
        ],
    },
    CommandText {
        name: "convert",
        aliases: &[],
        about: "Convert a legacy image to a FIT",
        usage: "bootimg convert [OPTIONS] [IMAGE] > FIT",
        after_help: "\
                 Reads a legacy image, and writes a FIT with the same payloads to standard\n\
                 output. The parts of a multi-file image become a kernel, a ramdisk and a\n\
                 devicetree, in this order. Each payload has its SHA-256, and configuration\n\
                 conf-1 lists the images.\n\n\
                 Example: bootimg convert kernel.uimage > kernel.itb",
        writes_image: true,
        options: &[OFFSET, LIMIT, OUTPUT, FILE],
    },
];

/// The commands that build an image.
static BUILDING_COMMANDS: [CommandText; 2] = [
    CommandText {
        name: "build-legacy",
        aliases: &[],
        about: "Build a legacy image",
        usage: "bootimg build-legacy --os <OS> --arch <ARCH> --type <TYPE> [OPTIONS] [LEN]... \
             < PARTS > IMAGE",
        after_help: "\
             Builds a legacy image, and writes it to standard output. LEN is the length of a\n\
             part in bytes. The parts are read from standard input, one after another, and\n\
             together are the whole input. Without LEN the whole input is the one part. A part\n\
             may be in a file: LEN is then @FILE. If each part is, standard input is not read.\n\
             An image of type multi or script has any number of parts, and any other image\n\
             has one.\n\n\
             OS, ARCH, TYPE and COMPRESSION are names that mkimage has, or numbers of at most\n\
             255. Numbers are decimal, or hexadecimal with 0x. mkimage reads addresses as\n\
             hexadecimal without 0x, too.\n\n\
             Example: bootimg build-legacy --os linux --arch arm --type kernel --load 0x8000 \
             --entry 0x8000 < zImage > uImage\n\
             Example: bootimg build-legacy --os linux --arch arm --type multi --load 0x8000 \
             --entry 0x8000 @zImage @initrd > uImage",
        writes_image: true,
        options: &[
            OS,
            ARCH,
            TYPE,
            COMPRESSION,
            NAME,
            TIME,
            LOAD,
            ENTRY,
            LIMIT,
            OUTPUT,
            LENGTHS,
        ],
    },
    CommandText {
        name: "build-fit",
        aliases: &[],
        about: "Build a FIT",
        usage: "bootimg build-fit [OPTIONS] [IMAGE]... < PAYLOADS > FIT",
        after_help: "\
             Builds a FIT, and writes it to standard output. Each payload has its SHA-256, or\n\
             what --hash names. Without --config, configuration conf-1 lists the images by\n\
             their types, and of two devicetrees in it the second is an overlay, which U-Boot\n\
             applies to the first. With --config there are these configurations instead.\n\n\
             An IMAGE is NAME:TYPE:ARCH:OS:COMPRESSION:LOAD:ENTRY:LEN. TYPE, ARCH, OS and\n\
             COMPRESSION are names that mkimage has, or numbers of at most 255. LOAD and ENTRY\n\
             are addresses, or - for none. LEN is the length of the payload in bytes. The\n\
             payloads are read from standard input, one after another, and together are the\n\
             whole input. A payload may be in a file, whose name has no colon: LEN is then\n\
             @FILE. If each payload is, standard input is not read. Numbers are decimal, or\n\
             hexadecimal with 0x.\n\n\
             Example: bootimg build-fit kernel-1:kernel:arm:linux:none:0x8000:0x8000:@zImage \
             > kernel.itb\n\
             Example: bootimg build-fit --config a:kernel=k:fdt=d --config b:kernel=k:fdt=e,o \
             k:kernel:arm64:linux:gzip:0x80000:0x80000:@Image.gz \
             d:flat_dt:arm64:linux:none:-:-:@a.dtb e:flat_dt:arm64:linux:none:-:-:@b.dtb \
             o:flat_dt:arm64:linux:none:-:-:@b.dtbo > boards.itb",
        writes_image: true,
        options: &[
            CONFIGURATIONS,
            DEFAULT_NAME,
            COMPATIBLE,
            DESCRIBE_CONFIGURATION,
            DESCRIBE_IMAGE,
            HASH,
            EXTERNAL_BUILT,
            ALIGN,
            DESCRIPTION,
            TIME,
            LIMIT,
            OUTPUT,
            IMAGES,
        ],
    },
];

/// The command that needs no image.
static EXPLAIN: CommandText = CommandText {
    name: "explain",
    aliases: &[],
    about: "Say what the cause of an error or a concern means",
    usage: "bootimg explain [OPTIONS] [NAME]",
    after_help: "\
             Writes to standard output what the cause of an error, another message or a kind of\n\
             concerns that check finds means, and what can be done. A line of bootimg can be\n\
             given as it is, in quotes. Without NAME, writes a line for each cause and each\n\
             kind, with its name. Reads no image.\n\n\
             Example: bootimg explain BadMagic\n\
             Example: bootimg explain 'Truncated at 12'\n\
             Example: bootimg explain uncovered",
    writes_image: false,
    options: &[OUTPUT, CAUSE],
};
