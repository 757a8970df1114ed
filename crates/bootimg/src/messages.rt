//! The messages of the program that have no cause, and what they mean.

ghost use Rattle.std.specs.Prelude.{◌≡◌};
ghost use Rattle.bootimg.specs.Explanations.{name_of_message, sentence_of_message};

/// What a line on standard error says if it has no cause. A number or a word may follow it.
#[derive(Clone, Copy)]
pub enum Message {
    /// An option or an argument of another form.
    BadValue,
    /// An image word of another form.
    BadImage,
    /// A `--config` of another form.
    BadConfiguration,
    /// A file that cannot be opened.
    CannotOpen,
    /// A read that failed.
    ReadFailed,
    /// A write that failed.
    WriteFailed,
    /// Memory that is missing.
    OutOfMemory,
}

impl Message {
    /// Returns the words of the message.
    pub fn name(self) -> &'static str
        ensures { result.now ≡ name_of_message self }
    {
        match self {
            Message::BadValue => "bad value",
            Message::BadImage => "bad image",
            Message::BadConfiguration => "bad configuration",
            Message::CannotOpen => "cannot be opened",
            Message::ReadFailed => "read failed",
            Message::WriteFailed => "write failed",
            Message::OutOfMemory => "out of memory",
        }
    }

    /// Returns what the message means, and what a user can do.
    pub fn sentence(self) -> &'static str
        ensures { result.now ≡ sentence_of_message self }
    {
        match self {
            Message::BadValue => {
                "An option or an argument has a form that the command does not take, or a number \
                 that is too large: bootimg COMMAND --help says what it takes."
            }
            Message::BadImage => {
                "The image word with this number, counted from 0, does not have the fields of an \
                 image, or one of them has an unknown name: bootimg build-fit --help says what an \
                 image word is."
            }
            Message::BadConfiguration => {
                "The --config with this number, counted from 0, has another form, or it names an \
                 image that is not built: bootimg build-fit --help says what it takes."
            }
            Message::CannotOpen => {
                "The file is not there, or this user may not read it: check its name and its \
                 permissions."
            }
            Message::ReadFailed => {
                "The file, pipe or device failed before its end: read it again, or copy it to \
                 another place first."
            }
            Message::WriteFailed => {
                "The output could not be written as a whole, for example because a disk is full \
                 or a pipe was closed. A file that -o names is as it was."
            }
            Message::OutOfMemory => {
                "This process may not have as much memory as the file needs: free memory, or \
                 raise the limit of the process."
            }
        }
    }
}
