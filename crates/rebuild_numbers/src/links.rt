//! The links of a section.

ghost use Rattle.std.specs.Prelude.{◌≡◌, if◌then◌else◌};
ghost use Rattle.rebuild_select.specs.elf_object.Sections.{info_is_section};
ghost use Rattle.rebuild_select.specs.rebuild_model.Followed as rules;

use crate::numbering::Numbering;
use elf_types::constants::SHF_INFO_LINK;
use elf_types::{Shdr, has_flag};
use rebuild_select::is_relocations;

/// Whether `sh_info` is a section's number.
///
/// Source: gABI chapter 4, "Section Header", sh_info; "Sections", SHF_INFO_LINK.
#[tactic(auto, unfolding(rebuild_select::specs::Passed::info_is_section))]
fn info_is_section(h: &Shdr) -> bool
    ensures { result ≡ info_is_section h.now }
{
    is_relocations(h) || has_flag(h, SHF_INFO_LINK)
}

/// What `sh_info` becomes: it follows where it is a section's number.
fn followed_info(numbering: &Numbering, h: &Shdr) -> u32
    ensures { result ≡ if info_is_section h.now
        then rules.followed numbering.now h.now.info else h.now.info }
{
    if info_is_section(h) {
        return numbering.followed(h.info);
    }
    h.info
}

/// A header whose `sh_link`, and `sh_info` where that is a section's number, follow the new
/// numbers. It takes no memory.
///
/// Source: gABI chapter 4, "Section Header", sh_link and sh_info.
#[tactic(auto, unfolding(rebuild_select::specs::Passed::followed_header))]
pub fn followed_header(numbering: &Numbering, h: &Shdr) -> Shdr
    ensures { result ≡ rules.followed_header numbering.now h.now }
{
    Shdr {
        link: numbering.followed(h.link),
        info: followed_info(numbering, h),
        ..*h
    }
}
