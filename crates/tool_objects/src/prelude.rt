//! What `tool_objects` passes on of the crates below it.

pub use crate::{
    SectionTool, each_section, is_out, item_there, section_header, section_name_or_stop, string_at,
};
pub use gelf_view::prelude::{
    Elf, Held, Item, ended_len, item_size, reopen_law, settling_keeps_items,
};
pub use gelf_view::{
    AuxPlace, NoteAt, SymPlace, Verdaux, Verdef, Vernaux, Verneed, VersionEntry, VersionName,
    bytes, first_entry, item_count, note, shndx_table, string_from, string_in, sym, verdaux_in,
    vernaux_in,
};
pub use tool_output::prelude::{Sink, Source};
pub use tool_output::{FileName, InSection, Line, Message, Outputs, Stop};
