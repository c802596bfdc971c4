//! What `elfkit_words` passes on of the crates below it: the options of the commands.

pub use calls_tool::update::CallsOutput;
pub use elfkit_outcomes::StripOptions;
pub use nm_tool::NmOptions;
pub use readelf_tool::ReadelfParts;
pub use rebuild_changes::{CopyChanges, NamedBits, NamedFile, Renaming};
pub use strings_tool::StringsOptions;
