//! The lines of `set`.

ghost use Rattle.std.specs.Prelude.{◌≡◌};
ghost use Rattle.elf_calls_script.specs.Parts.{◌&◌, ◌⇒◌, one_of, u32};
ghost use Rattle.elf_calls_script.specs.Fields.{ehdr_field_phrases, phdr_field_phrases, shdr_field_phrases};
ghost use Rattle.elf_calls_script.specs.Lines.{section, item_set, set_line};
ghost use Rattle.elf_calls_script.specs.Said.{Says};

use crate::calls::Call;
use crate::faults::{CallFault, Why};
use crate::fields::{read_ehdr_field, read_item_field, read_phdr_field, read_shdr_field};
use crate::words::Words;
use elf_types::Kind;

/// What follows `set`.
pub(crate) fn read_set(words: &mut Words) -> Result<(Call, bool), CallFault>
    ensures { Says set_line words.old result words.new }
{
    let target = words.read_text()?;
    match target {
        "ehdr" => set_ehdr(words),
        "phdr" => set_phdr(words),
        "shdr" => set_shdr(words),
        "half" => set_item(words, Kind::Half),
        "word" => set_item(words, Kind::Word),
        "addr" => set_item(words, Kind::Addr),
        "sym" => set_item(words, Kind::Sym),
        "rel" => set_item(words, Kind::Rel),
        "rela" => set_item(words, Kind::Rela),
        "dyn" => set_item(words, Kind::Dyn),
        _ => Err(CallFault::Why(Why::BadWords)),
    }
}

/// `set ehdr FIELD N`.
#[tactic(auto, using(crate::proofs::Said::said))]
fn set_ehdr(words: &mut Words) -> Result<(Call, bool), CallFault>
    ensures { Says (one_of ehdr_field_phrases ⇒ λ set. Call.SetEhdr set) words.old result words.new }
{
    let (set, fits) = read_ehdr_field(words)?;
    Ok((Call::SetEhdr { set }, fits))
}

/// `set phdr I FIELD N`.
#[tactic(auto, using(crate::proofs::Said::said))]
fn set_phdr(words: &mut Words) -> Result<(Call, bool), CallFault>
    ensures { Says (u32 & one_of phdr_field_phrases ⇒ λ (i, set). Call.SetPhdr i set)
        words.old result words.new }
{
    let (i, i_fits) = words.read_u32()?;
    let (set, set_fits) = read_phdr_field(words)?;
    Ok((Call::SetPhdr { i, set }, i_fits & set_fits))
}

/// `set shdr S FIELD N`.
#[tactic(auto, using(crate::proofs::Said::said))]
fn set_shdr(words: &mut Words) -> Result<(Call, bool), CallFault>
    ensures { Says (section & one_of shdr_field_phrases ⇒ λ (s, set). Call.SetShdr s set)
        words.old result words.new }
{
    let (s, s_fits) = words.read_section()?;
    let (set, set_fits) = read_shdr_field(words)?;
    Ok((Call::SetShdr { s, set }, s_fits & set_fits))
}

/// `set KIND S P I FIELD N`.
#[tactic(auto, using(crate::proofs::Said::said))]
fn set_item(words: &mut Words, kind: Kind) -> Result<(Call, bool), CallFault>
    ensures { Says (item_set kind) words.old result words.new }
{
    let (d, d_fits) = words.read_piece()?;
    let (i, i_fits) = words.read_u64()?;
    let (set, set_fits) = read_item_field(words, kind)?;
    Ok((Call::SetItem { d, i, set }, d_fits & i_fits & set_fits))
}
