//! The tool of the command nm.

ghost use Rattle.std.specs.Prelude.{◌≡◌, ◌+◌, ◌-◌, ◌<◌, ◌≤◌, None, Ok, length, IfSome, OnOk, IsTrue, codes};
ghost use Rattle.std.specs.Option.{option_map};
ghost use Rattle.elf_types.specs.declared.records.Kind.TheVariants as kinds;
ghost use Rattle.elf_types.specs.declared.constants.TheConstants.{MAX_IMAGE};
ghost use Rattle.elf_ident.specs.Reading.{IsFittingFront, IsCounted};
ghost use Rattle.elf_object.specs.Object.{section_at};
ghost use Rattle.elf_object.specs.Open.{begun, opened};
ghost use Rattle.elf_object.specs.Answers.{lend_refusal};
ghost use Rattle.tool_output.specs.Names.{file_name};
ghost use Rattle.tool_output.specs.Reports.{Reports, noted};
ghost use Rattle.tool_output.specs.Sources.{ReportsOn};
ghost use Rattle.tool_output.specs.Steps.{LeavesOutputs};
ghost use Rattle.tool_objects.specs.Images.{image_report};
ghost use Rattle.tool_objects.specs.Looks.{looks_over};
ghost use Rattle.tool_objects.specs.Steps.{ReportsElf, homes_total};
ghost use Rattle.tool_objects.specs.AtHand.Strings.{EndsAt};
ghost use Rattle.tool_objects.specs.Shows.{ShowsElf};
ghost use Rattle.nm_tool.specs.Tables.{AreTables};
ghost use Rattle.nm_tool.specs.Listed.{is_table, symbol_table, symbols_in_table as stated_symbols};
ghost use Rattle.nm_tool.specs.Tool.{rows_report, table_report, nm_report};
ghost use Rattle.nm_tool.specs.Kept.{kept_of as stated_kept};

use crate::at_hand::show_at_hand;
use crate::copied::show_copied;
use crate::form::ListingForm;
use crate::front::show_plain;
use crate::kept::{Kept, kept_of};
use crate::options::NmOptions;
use crate::ordered::show_order;
use crate::ranked::order_at_hand;
use crate::symbols::{Tables, table_bytes, tables_of};
use elf_ident::{Front, read_front};
use elf_outside::{Sink, Source};
use elf_types::constants::SHT_SYMTAB;
use elf_types::{DataId, List, ScnId, Sym, is_compressed};
use nm_front::{FrontSymbols, front_symbols};
use std::alloc::Global;
use tool_objects::at_hand::{load, strings_end};
use tool_objects::prelude::{Elf, item_count};
use tool_objects::{ObjectTool, refuse, section_header, show_object};
use tool_output::{FileName, Message, Outputs, Stop};

/// As many symbols as have indexes of 32 bits.
const MOST_KEPT: u64 = 1 << 32;

/// Shows the rows of the kept symbols of a table by calls on the descriptor, in the order of their
/// names where these are.
fn show_in_order<S: Source, O: Sink, E: Sink>(
    elf: &mut Elf<S>,
    t: Tables,
    end: Option<u64>,
    list: List<Kept>,
    count: u64,
    form: ListingForm<'_>,
    outputs: &mut Outputs<'_, O, E>,
) -> Result<bool, Stop>
    requires tables { AreTables elf.old.o t }
    requires end { IsTrue elf.old.told → IfSome end (EndsAt elf.old.o t.names.0) }
    requires list { IsTrue elf.old.told → list
        ≡ stated_kept form.options.now elf.old.o t.symbols.0 (count - 1) }
    requires count { count ≡ length (stated_symbols elf.old.o t.symbols.0) }
    ensures { ReportsElf S.Source O.Sink E.Sink
        (λ o. rows_report form.entry.options.now form.entry.file.now o t.symbols.0)
        result elf.old elf.new outputs.old outputs.new }
{
    match order_at_hand(elf, t, list, form.options.by_value) {
        Some(order) => show_order(elf, t, end, form, order.as_slice(), outputs),
        None => show_copied(elf, t, count, form, outputs),
    }
}

/// Shows the rows of the kept symbols of a table by calls on the descriptor. Where its strings end
/// is looked for first, where that can be told.
fn show_by_calls<S: Source, O: Sink, E: Sink>(
    elf: &mut Elf<S>,
    t: Tables,
    list: List<Kept>,
    count: u64,
    form: ListingForm<'_>,
    outputs: &mut Outputs<'_, O, E>,
) -> Result<bool, Stop>
    requires tables { AreTables elf.old.o t }
    requires list { IsTrue elf.old.told → list
        ≡ stated_kept form.options.now elf.old.o t.symbols.0 (count - 1) }
    requires count { count ≡ length (stated_symbols elf.old.o t.symbols.0) }
    ensures { ReportsElf S.Source O.Sink E.Sink
        (λ o. rows_report form.entry.options.now form.entry.file.now o t.symbols.0)
        result elf.old elf.new outputs.old outputs.new }
{
    match strings_end(elf, t.names) {
        Ok(end) => show_in_order(elf, t, end, list, count, form, outputs),
        Err(stop) => Err(stop),
    }
}

/// Shows the rows of the kept symbols of a table whose strings were read, from bytes alone where
/// these are in memory.
fn show_loaded<S: Source, O: Sink, E: Sink>(
    elf: &mut Elf<S>,
    t: Tables,
    list: List<Kept>,
    count: u64,
    form: ListingForm<'_>,
    outputs: &mut Outputs<'_, O, E>,
) -> Result<bool, Stop>
    requires tables { AreTables elf.old.o t }
    requires list { IsTrue elf.old.told → list
        ≡ stated_kept form.options.now elf.old.o t.symbols.0 (count - 1) }
    requires count { count ≡ length (stated_symbols elf.old.o t.symbols.0) }
    ensures { ReportsElf S.Source O.Sink E.Sink
        (λ o. rows_report form.entry.options.now form.entry.file.now o t.symbols.0)
        result elf.old elf.new outputs.old outputs.new }
{
    match table_bytes(elf, t) {
        Some(bytes) => show_at_hand(&*elf, bytes, list, form, outputs),
        None => show_by_calls(elf, t, list, count, form, outputs),
    }
}

/// Shows the rows of the kept symbols of a table. Where there are none, nothing is read.
fn show_kept<S: Source, O: Sink, E: Sink>(
    elf: &mut Elf<S>,
    t: Tables,
    list: List<Kept>,
    count: u64,
    form: ListingForm<'_>,
    outputs: &mut Outputs<'_, O, E>,
) -> Result<bool, Stop>
    requires tables { AreTables elf.old.o t }
    requires list { IsTrue elf.old.told → list
        ≡ stated_kept form.options.now elf.old.o t.symbols.0 (count - 1) }
    requires count { count ≡ length (stated_symbols elf.old.o t.symbols.0) }
    ensures { ReportsElf S.Source O.Sink E.Sink
        (λ o. rows_report form.entry.options.now form.entry.file.now o t.symbols.0)
        result elf.old elf.new outputs.old outputs.new }
{
    if list.is_empty() {
        return Ok(false);
    }
    match load(elf, t.names) {
        Ok(()) => show_loaded(elf, t, list, count, form, outputs),
        Err(stop) => Err(stop),
    }
}

/// Shows the rows of a table of so many symbols.
fn show_listed<S: Source, O: Sink, E: Sink>(
    elf: &mut Elf<S>,
    t: Tables,
    count: u64,
    form: ListingForm<'_>,
    outputs: &mut Outputs<'_, O, E>,
) -> Result<bool, Stop>
    requires tables { AreTables elf.old.o t }
    requires count { count ≡ length (stated_symbols elf.old.o t.symbols.0) }
    ensures { ReportsElf S.Source O.Sink E.Sink
        (λ o. rows_report form.entry.options.now form.entry.file.now o t.symbols.0)
        result elf.old elf.new outputs.old outputs.new }
{
    if count > MOST_KEPT {
        return show_copied(elf, t, count, form, outputs);
    }
    match kept_of(elf.alloc(), elf, t, form.options, count) {
        Ok(list) => show_kept(elf, t, list, count, form, outputs),
        Err(stop) => Err(stop),
    }
}

/// Shows the rows of a section whose symbols can be told.
fn show_told<S: Source, O: Sink, E: Sink>(
    elf: &mut Elf<S>,
    s: ScnId,
    count: u64,
    form: ListingForm<'_>,
    outputs: &mut Outputs<'_, O, E>,
) -> Result<bool, Stop>
    requires section { s.0 < length elf.old.o.sections }
    requires passed { lend_refusal elf.old.o kinds.Sym s.0 0 ≡ None }
    requires count { count ≡ length (stated_symbols elf.old.o s.0) }
    ensures { ReportsElf S.Source O.Sink E.Sink
        (λ o. rows_report form.entry.options.now form.entry.file.now o s.0)
        result elf.old elf.new outputs.old outputs.new }
{
    let t = tables_of(elf, s);
    show_listed(elf, t, count, form, outputs)
}

/// Shows the symbols of a section that is there, or rejects the object where they can not be told.
fn show_table<S: Source, O: Sink, E: Sink>(
    elf: &mut Elf<S>,
    s: ScnId,
    form: ListingForm<'_>,
    outputs: &mut Outputs<'_, O, E>,
) -> Result<bool, Stop>
    requires { s.0 < length elf.old.o.sections }
    ensures { ReportsElf S.Source O.Sink E.Sink
        (λ o. table_report form.entry.options.now form.entry.file.now o s.0
        (lend_refusal o kinds.Sym s.0 0))
        result elf.old elf.new outputs.old outputs.new }
{
    let d = DataId {
        section: s.0,
        piece: 0,
    };
    match item_count::<S, Sym>(elf, d) {
        Ok(count) => show_told(elf, s, count, form, outputs),
        Err(e) => outputs.refuse(&Message {
            command: "nm",
            name: form.file,
            text: e,
        }),
    }
}

/// Whether a section that is there is of type `SHT_SYMTAB`, and its data not compressed.
fn is_table<S: Source>(elf: &Elf<S>, s: ScnId) -> bool
    requires { s.0 < length elf.now.o.sections }
    ensures { result ≡ is_table (section_at elf.now.o s.0) }
{
    let header = section_header(elf, s);
    header.stype == SHT_SYMTAB && !is_compressed(header.flags)
}

/// The first such section. Nothing is read.
#[tactic(auto, unfolding(crate::specs::Listed::symbol_table))]
fn symbol_table<S: Source>(elf: &Elf<S>) -> Option<ScnId>
    ensures found { option_map (λ s. s.0) result ≡ symbol_table elf.now.o }
    ensures there { IfSome result (λ s. s.0 < length elf.now.o.sections) }
{
    for s in 0..elf.shnum() {
        if is_table(elf, ScnId(s)) {
            return Some(ScnId(s));
        }
    }
    None
}

/// Says that an object has no symbols, which rejects nothing.
fn note_none<O: Sink, E: Sink>(
    form: ListingForm<'_>,
    outputs: &mut Outputs<'_, O, E>,
) -> Result<bool, Stop>
    ensures reports { Reports O.Sink E.Sink result outputs.old outputs.new
        (noted (codes "nm") form.entry.file.now (codes "no symbols")) }
    ensures leaves { LeavesOutputs O.Sink E.Sink ⊥ result outputs.old outputs.new }
{
    outputs.note(&Message {
        command: "nm",
        name: form.file,
        text: "no symbols",
    })
}

/// Shows the symbols of an object, or says that it has none, which rejects nothing.
fn show_symbols<S: Source, O: Sink, E: Sink>(
    elf: &mut Elf<S>,
    form: ListingForm<'_>,
    outputs: &mut Outputs<'_, O, E>,
) -> Result<bool, Stop>
    ensures { ReportsElf S.Source O.Sink E.Sink
        (nm_report form.entry.options.now form.entry.file.now)
        result elf.old elf.new outputs.old outputs.new }
{
    match symbol_table(elf) {
        Some(s) => show_table(elf, s, form, outputs),
        None => note_none(form, outputs),
    }
}

/// Shows the symbols of the image that a source holds, over which a descriptor begins with its
/// front, and hands the source back.
fn show_begun<S: Source, O: Sink, E: Sink>(
    alloc: Global,
    src: S,
    front: Front,
    form: ListingForm<'_>,
    outputs: &mut Outputs<'_, O, E>,
) -> (S, Result<bool, Stop>)
    requires fitting { IsFittingFront front }
    requires counted { IsCounted front }
    requires small { S.size src ≤ MAX_IMAGE }
    requires told { IfSome (S.holds src) (λ image. opened image ≡ Ok (begun front image)) }
    ensures reports { ReportsOn S.Source O.Sink E.Sink
        (image_report (codes "nm") (nm_report form.entry.options.now) form.entry.file.now)
        result.1 src result.0 outputs.old outputs.new }
    ensures asked { OnOk result.1 (IfSome (S.holds src) (λ image.
        S.taken result.0 ≤ S.taken src + homes_total (begun front image))) }
{
    match Elf::begin_with(alloc, src, front) {
        Ok(mut elf) => {
            let shown = show_symbols(&mut elf, form, outputs);
            (elf.end(), shown)
        }
        Err((src, e)) => {
            let refused = refuse("nm", form.file, e, outputs);
            (src, refused)
        }
    }
}

/// Shows the symbols of the image that a source holds and whose front was read, and hands the
/// source back. A descriptor is begun only where the front does not tell where they and their names
/// are.
fn show_front<S: Source, O: Sink, E: Sink>(
    alloc: Global,
    mut src: S,
    front: Front,
    form: ListingForm<'_>,
    outputs: &mut Outputs<'_, O, E>,
) -> (S, Result<bool, Stop>)
    requires fitting { IsFittingFront front }
    requires counted { IsCounted front }
    requires small { S.size src ≤ MAX_IMAGE }
    requires told { IfSome (S.holds src) (λ image. opened image ≡ Ok (begun front image)) }
    ensures reports { ReportsOn S.Source O.Sink E.Sink
        (image_report (codes "nm") (nm_report form.entry.options.now) form.entry.file.now)
        result.1 src result.0 outputs.old outputs.new }
    ensures asked { OnOk result.1 (IfSome (S.holds src) (λ image.
        S.taken result.0 ≤ S.taken src + homes_total (begun front image))) }
{
    match front_symbols(&front, src.len()) {
        FrontSymbols::Missing => {
            let noted = note_none(form, outputs);
            (src, noted)
        }
        FrontSymbols::Plain(table) => {
            let shown = show_plain(alloc, &mut src, &front, table, form, outputs);
            (src, shown)
        }
        FrontSymbols::Other => show_begun(alloc, src, front, form, outputs),
    }
}

/// The tool of the command nm. Of an image whose symbols and their names can be told from two
/// ranges of its bytes it begins no descriptor.
#[derive(Clone, Copy)]
pub struct NmTool<'a> {
    /// The options.
    pub options: &'a NmOptions,
}

impl NmTool<'_> {
    /// Gives the report on the image that a source holds and whose front was read by `read_front`
    /// of elf_ident, under a name, and hands the source back. Of each home that lies in the file no
    /// more than its bytes are asked for. It stops by `Read` where a read of the source failed, by
    /// `Write` where a put failed, and by `Memory`.
    pub fn show_front<S: Source, O: Sink, E: Sink>(
        &self,
        alloc: Global,
        src: S,
        front: Front,
        name: &FileName<'_>,
        outputs: &mut Outputs<'_, O, E>,
    ) -> (S, Result<bool, Stop>)
        requires fitting { IsFittingFront front }
        requires counted { IsCounted front }
        requires small { S.size src ≤ MAX_IMAGE }
        requires told { IfSome (S.holds src) (λ image. opened image ≡ Ok (begun front image)) }
        ensures reports { ReportsOn S.Source O.Sink E.Sink
            (image_report (codes "nm") (nm_report self.now.options.now) name.now)
            result.1 src result.0 outputs.old outputs.new }
        ensures asked { OnOk result.1 (IfSome (S.holds src) (λ image.
            S.taken result.0 ≤ S.taken src + homes_total (begun front image))) }
    {
        let form = ListingForm {
            options: self.options,
            file: name,
        };
        show_front(alloc, src, front, form, outputs)
    }
}

impl ObjectTool for NmTool<'_> {
    ghost command = { λ _. codes "nm" };

    ghost report = { λ t. nm_report t.options.now };

    ghost looks = { λ _. looks_over 0 };

    fn command(&self) -> &'static str {
        "nm"
    }

    fn show<S: Source, O: Sink, E: Sink>(
        &self,
        elf: &mut Elf<S>,
        name: &FileName<'_>,
        outputs: &mut Outputs<'_, O, E>,
    ) -> Result<bool, Stop> {
        let form = ListingForm {
            options: self.options,
            file: name,
        };
        show_symbols(elf, form, outputs)
    }

    /// The report of `show`, of a source: a descriptor is begun only where it is needed.
    fn show_source<S: Source, O: Sink, E: Sink>(
        &self,
        alloc: Global,
        mut src: S,
        name: &FileName<'_>,
        outputs: &mut Outputs<'_, O, E>,
    ) -> (S, Result<bool, Stop>) {
        match read_front(alloc, &mut src) {
            Ok(front) => self.show_front(alloc, src, front, name, outputs),
            Err(e) => {
                let refused = refuse(self.command(), name, e, outputs);
                (src, refused)
            }
        }
    }
}

/// Shows the symbols of the first section of type `SHT_SYMTAB` whose data is not compressed, as the
/// command nm does, on two outputs. Messages, and rows with `-A`, name the object by `name`. It
/// returns whether something was rejected. It stops by `Read` where a read of the source failed, by
/// `Write` where a put failed, and by `Memory`.
pub fn nm<S: Source, O: Sink, E: Sink>(
    alloc: Global,
    elf: &mut Elf<S>,
    options: &NmOptions,
    name: &[u8],
    out: &mut O,
    err: &mut E,
) -> Result<bool, Stop>
    ensures { ShowsElf S.Source O.Sink E.Sink
        (nm_report options.now (file_name name.now))
        result elf.old elf.new out.old out.new err.old err.new }
{
    show_object(
        alloc,
        &NmTool { options },
        elf,
        &FileName::of(name),
        out,
        err,
    )
}
