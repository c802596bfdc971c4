//! Writes an image with another entry to a new file: an example of a whole program over the
//! library.
#![tactic(auto)]

ghost use Rattle.std.specs.Prelude.{◌≡◌, Some, OnOk, IsTrue};
ghost use Rattle.elf_update.specs.elf_object.Image.{image};
ghost use Rattle.elf_update.specs.elf_object.Layout.{placed};
ghost use Rattle.example_set_entry.specs.Entries.{with_entry};

use elf_descriptor::Elf;
use elf_outside::{DeviceSink, Files, RealFiles, Source};
use elf_types::{ElfError, LAYOUT, Part};
use elf_update::{update_null, update_to};
use std::alloc::Global;
use std::env::{self, Args};
use std::io;
use std::process::ExitCode;

/// The arguments of the command line.
#[derive(Drop)]
struct Words {
    file: String,
    out: String,
    entry: u64,
}

/// FILE, OUT and ENTRY; None where there are more or fewer words, or OUT is FILE.
fn read_words(mut words: Args) -> Option<Words> {
    let _program = words.next()?;
    let file = words.next()?;
    let out = words.next()?;
    let entry = words.next()?.as_str().parse().ok()?;
    if words.next().is_some() || file.as_str() == out.as_str() {
        return None;
    }
    Some(Words { file, out, entry })
}

/// Stores another entry in the header. The layout becomes the caller's, so each part stays where it
/// is.
fn set_entry<S: Source>(elf: &mut Elf<S>, entry: u64) -> Result<(), ElfError>
    ensures { OnOk result (elf.new.o ≡ with_entry entry elf.old.o) }
{
    elf.flag(Part::Object, true, LAYOUT)?;
    let mut header = elf.ehdr();
    header.entry = entry;
    elf.update_ehdr(&header)
}

/// Writes the image of an object to a new file, and returns its length. What an update rejects is
/// rejected before the file is made.
fn write_new<S: Source, F: Files>(
    alloc: Global,
    elf: &mut Elf<S>,
    files: &mut F,
    name: &str,
) -> Result<u64, ElfError>
    ensures { IsTrue elf.old.told → IsTrue (F.tells files.old) →
        OnOk result (F.named files.new name.now ≡ Some (image (placed elf.old.o))) }
{
    update_null(elf)?;
    let Ok(file) = files.create(alloc, name) else {
        return Err(ElfError::Write);
    };
    let mut sink = DeviceSink::new(file);
    let written = update_to(elf, &mut sink);
    files.close(name, sink.into_inner());
    written
}

/// Opens FILE, makes OUT of it with another entry, and returns OUT's length.
fn change_entry<F: Files>(alloc: Global, files: &mut F, words: &Words) -> Result<u64, ElfError> {
    let Ok(file) = files.open(alloc, words.file.as_str()) else {
        return Err(ElfError::Read);
    };
    let (file, written) = match Elf::begin(alloc, file) {
        Ok(mut elf) => {
            let changed = set_entry(&mut elf, words.entry);
            let written = match changed {
                Ok(()) => write_new(alloc, &mut elf, files, words.out.as_str()),
                Err(e) => Err(e),
            };
            (elf.end(), written)
        }
        Err((file, e)) => (file, Err(e)),
    };
    files.close(words.file.as_str(), file);
    written
}

fn main(rt: HostRuntime) -> io::Result<ExitCode> {
    let Some(words) = read_words(env::args(&rt)?) else {
        eprintln!(rt; "usage: example_set_entry FILE OUT ENTRY")?;
        return Ok(ExitCode::from(2));
    };
    let Ok(system) = rt.clone() else {
        return Ok(ExitCode::from(5));
    };
    match change_entry(rt.alloc(), &mut RealFiles::new(rt.alloc(), system), &words) {
        Ok(len) => {
            println!(rt; "{len} bytes")?;
            Ok(ExitCode::SUCCESS)
        }
        Err(e) => {
            eprintln!(rt; "{e:?}")?;
            Ok(ExitCode::from(1))
        }
    }
}
