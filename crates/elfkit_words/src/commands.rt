//! The commands of elfkit, with their options and operands as the arguments give them.

use crate::notices::Notice;
use crate::usages::Usage;
use calls_tool::update::CallsOutput;
use elfkit_outcomes::StripOptions;
use nm_tool::NmOptions;
use readelf_tool::ReadelfParts;
use rebuild_changes::CopyChanges;
use strings_tool::StringsOptions;
use tool_text::{Args, Text};

/// A command with its options and operands.
#[derive(Drop)]
pub enum Command {
    /// `readelf`: shows the parts of images.
    Readelf {
        /// The parts.
        parts: ReadelfParts,
        /// The files, at least one.
        files: Args,
    },
    /// `nm`: lists the symbols of images.
    Nm {
        /// The options.
        options: NmOptions,
        /// The files, at least one.
        files: Args,
    },
    /// `size`: adds up the sections of images.
    Size {
        /// The files, at least one.
        files: Args,
    },
    /// `strings`: shows the printable runs of files.
    Strings {
        /// The options.
        options: StringsOptions,
        /// The files, at least one.
        files: Args,
    },
    /// `strip`: copies an image without what running it needs not.
    Strip {
        /// The options.
        options: StripOptions,
        /// The file. No two of it, the output and the file for debugging have the same name.
        file: Text,
    },
    /// `elflint`: checks images against the rules.
    Elflint {
        /// The files, at least one.
        files: Args,
    },
    /// `calls`: runs a script of calls on an image.
    Calls {
        /// `-o` and `-i`: where the image goes then.
        output: Option<CallsOutput>,
        /// The file.
        file: Text,
        /// The script.
        script: Text,
    },
    /// `selftest`: writes a generated image and reads it again.
    Selftest {
        /// `-o`: the output.
        out: Text,
        /// How many sections the image has, from 1 to 60000.
        count: u32,
    },
    /// `rehash`: copies an image with its hash sections rebuilt.
    Rehash {
        /// `-o`: the output, another name than the file.
        out: Text,
        /// The file.
        file: Text,
    },
    /// `copy`: copies an image with changes.
    Copy {
        /// The changes.
        changes: CopyChanges,
        /// `-o`: the output, another name than the file and the files of `-u` and `-a`.
        out: Text,
        /// The file.
        file: Text,
    },
    /// `unstrip`: joins what strip split. No two of the three files have the same name.
    Unstrip {
        /// `-o`: the output.
        out: Text,
        /// The stripped file.
        stripped: Text,
        /// The file for debugging.
        debug: Text,
    },
    /// `lines`: shows the line tables of images.
    Lines {
        /// The files, at least one.
        files: Args,
    },
}

/// What the arguments ask for.
#[derive(Drop)]
pub enum Request {
    /// A command.
    Run(Command),
    /// `--help` or `--version`: that elfkit tells of itself.
    Tell(Notice),
}

/// Why the arguments give no request.
#[derive(Clone, Copy, PartialEq, Eq)]
pub enum WordsFault {
    /// There was no memory.
    Memory,
    /// The arguments are not of the form that this usage line states.
    Usage(Usage),
}
