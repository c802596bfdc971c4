//! The rules of elflint on the ELF header, program headers and section headers (sizes, alignments,
//! addresses, a link to no section), on the names of sections, and on the layout.
//!
//! A rule on a section's header alone is in src/sections.rt, whatever the section's type;
//! elf_lint_links has the rules that follow a link or read bytes.
#![tactic(auto)]

pub mod headers;
pub mod layout;
pub mod names;
mod odd;
pub mod sections;

pub use headers::{segments_larger_than_memory, segments_outside_the_file, wrong_header_size};
pub use layout::overlapping_parts;
pub use names::{missing_name_table, unreadable_section_names};
pub use odd::is_odd_section;
pub use sections::{
    infos_of_no_section, links_to_no_section, odd_alignments, ragged_sections, section_0_in_use,
    sections_outside_the_file, unaligned_addresses, unallocated_thread_storage, wrong_entry_sizes,
};
