//! Objects whose sections overlap: there, what goes over the sections lets each go again.

ghost use Rattle.std.specs.Prelude.{◌≡◌, ◌<◌, [], length, if◌then◌else◌};
ghost use Rattle.gelf_view.specs.elf_object.Object.{section_at};
ghost use Rattle.gelf_view.specs.elf_object.Due.{home_due};
ghost use Rattle.gelf_view.specs.elf_descriptor.Rooms.{unloaded};
ghost use Rattle.tool_objects.specs.Steps.{is_crowded};

use elf_types::ScnId;
use gelf_view::prelude::Elf;
use tool_output::prelude::Source;

/// Whether the home of a section that is there is out of the file.
#[tactic(auto, unfolding(gelf_view::specs::Passed::out_answer))]
pub fn is_out<S: Source>(elf: &Elf<S>, s: ScnId) -> bool
    requires { s.0 < length elf.now.o.sections }
    ensures { result ≡ (section_at elf.now.o s.0).home.out }
{
    match elf.is_out_of_file(s) {
        Ok(out) => out,
        Err(_) => unreachable!(),
    }
}

/// The length of the home of a section that is there.
#[tactic(auto, unfolding(gelf_view::specs::Passed::home_answer))]
fn home_len<S: Source>(elf: &Elf<S>, s: ScnId) -> u64
    requires { s.0 < length elf.now.o.sections }
    ensures { result ≡ (section_at elf.now.o s.0).home.len }
{
    match elf.home(s) {
        Ok(home) => home.1,
        Err(_) => unreachable!(),
    }
}

/// How many bytes of the file the home of a section that is there has: none where it is out of it.
fn home_bytes<S: Source>(elf: &Elf<S>, s: ScnId) -> u64
    requires { s.0 < length elf.now.o.sections }
    ensures { result ≡ home_due elf.now.o [] s.0 }
{
    if is_out(elf, s) {
        return 0;
    }
    home_len(elf, s)
}

/// Whether the homes of an object are longer together than its image, so that some of them overlap.
/// Nothing is read.
pub fn is_crowded<S: Source>(elf: &Elf<S>) -> bool
    ensures { result ≡ is_crowded elf.now.o }
{
    let mut left = elf.base_len();
    for s in 0..elf.shnum() {
        let len = home_bytes(elf, ScnId(s));
        if left < len {
            return true;
        }
        left -= len;
    }
    false
}

/// Frees a section that was gone over, where sections overlap.
pub(crate) fn let_go<S: Source>(crowded: bool, elf: &mut Elf<S>, s: ScnId)
    ensures { elf.new ≡ (if crowded then unloaded s.0 elf.old else elf.old) }
{
    if !crowded {
        return;
    }
    let _there = elf.unload(s);
}
