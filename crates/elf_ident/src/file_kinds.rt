//! What a file is, by its first bytes.

ghost use Rattle.std.specs.Prelude.{◌≡◌, length, IfSome, IfErr};
ghost use Rattle.elf_types.specs.Answers.{Follows};
ghost use Rattle.elf_outside.specs.Asks.{Asks};
ghost use Rattle.elf_ident.specs.FileKinds.{file_kind};

use elf_outside::Source;
use elf_outside::reads::read;
use elf_types::ElfError;
use elf_types::constants::{ARMAG, ELFMAG};

/// What a file is, `elf_kind` of elf(3E).
#[derive(Clone, Copy, Debug, PartialEq, Eq)]
pub enum FileKind {
    /// An archive of files, which begins with `!<arch>` and a newline.
    Archive,
    /// An ELF image, which begins with the bytes 7f 45 4c 46.
    Elf,
    /// Something else.
    Other,
}

/// What the first bytes of a file, at most eight, say that it is.
#[tactic(auto, unfolding(crate::specs::FileKinds::file_kind))]
fn kind_by(head: &[u8]) -> FileKind
    ensures { result ≡ file_kind head.now }
{
    if head.starts_with(&ARMAG) {
        FileKind::Archive
    } else if head.starts_with(&ELFMAG) {
        FileKind::Elf
    } else {
        FileKind::Other
    }
}

/// What a source holds, `elf_kind` of elf(3E): an archive, an ELF image, or something else, also
/// where it is shorter than eight bytes. It reads at most eight bytes, takes no memory and fails
/// with `Read` alone.
///
/// Source: gABI chapter 4, "ELF Identification", and chapter 7, "Archive File".
pub fn kind_of_source<S: Source>(src: &mut S) -> Result<FileKind, ElfError>
    ensures kind { IfSome (S.holds src.old) (λ image. Follows result (Ok (file_kind image))) }
    ensures asks { Asks S.Source result src.old src.new 8 }
    ensures err { IfErr result (λ e. e ≡ ElfError.Read) }
{
    let mut head = [0u8; 8];
    kind_with(src, &mut head)
}

/// What a source holds, read into a buffer of eight bytes.
fn kind_with<S: Source>(src: &mut S, head: &mut [u8]) -> Result<FileKind, ElfError>
    requires { length head.old ≡ 8 }
    ensures kind { IfSome (S.holds src.old) (λ image. Follows result (Ok (file_kind image))) }
    ensures asks { Asks S.Source result src.old src.new 8 }
    ensures err { IfErr result (λ e. e ≡ ElfError.Read) }
{
    let count = src.len().min(8) as usize;
    let start = &mut head[..count];
    read(src, 0, start)?;
    Ok(kind_by(start))
}
