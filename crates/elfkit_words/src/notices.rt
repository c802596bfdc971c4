//! What elfkit tells of itself.

ghost use Rattle.std.specs.Prelude.{◌≡◌};
ghost use Rattle.elfkit_words.specs.Notices.{notice_named, notice_text, help_text, general_help};

use crate::usages::Usage;

/// What is told in place of a command's work.
#[derive(Clone, Copy, PartialEq, Eq)]
pub enum Notice {
    /// `--help`: how a command is called, and elfkit where the usage is the general one.
    Help(Usage),
    /// `--version`: the name and the version.
    Version,
}

impl Notice {
    /// The notice that a first word asks for, or None exactly where it asks for none. It takes no
    /// memory.
    #[tactic(auto, unfolding(crate::specs::Notices::notice_named, crate::specs::Notices::notices))]
    pub fn named(word: &str) -> Option<Notice>
        ensures { result ≡ notice_named word.now }
    {
        match word {
            "--help" => Some(Notice::Help(Usage::General)),
            "--version" => Some(Notice::Version),
            _ => None,
        }
    }

    /// The lines of the notice, each with its newline. It takes no memory. The version is here
    /// alone.
    #[tactic(auto, unfolding(crate::specs::Notices::notice_text, crate::specs::Notices::version_text))]
    pub fn text(self) -> &'static str
        ensures { result.now ≡ notice_text self }
    {
        match self {
            Notice::Help(usage) => help_text(usage),
            Notice::Version => "elfkit 1.0.0\n",
        }
    }
}

/// How a command is called, with a line for each of its options.
#[tactic(auto, unfolding(crate::specs::Notices::help_text, crate::specs::Notices::command_help, crate::specs::Notices::letters_told, crate::specs::Notices::told_line, crate::specs::Usages::usage_line))]
fn help_text(usage: Usage) -> &'static str
    ensures { result.now ≡ help_text usage }
{
    match usage {
        Usage::Readelf => concat!(
            "usage: elfkit readelf [-hlSsrdnV] FILE..\n",
            "  -h            the ELF header\n",
            "  -l            program headers\n",
            "  -S            section headers\n",
            "  -s            symbols\n",
            "  -r            relocations\n",
            "  -d            the dynamic section\n",
            "  -n            notes\n",
            "  -V            symbol versions\n",
        ),
        Usage::Nm => concat!(
            "usage: elfkit nm [-AguvP] [-t d|o|x] FILE..\n",
            "  -A            write the file name before each symbol\n",
            "  -g            leave out local symbols\n",
            "  -u            list only undefined symbols\n",
            "  -v            sort by value, not by name\n",
            "  -P            portable form: name, letter, value and size\n",
            "  -t d|o|x      radix of values: decimal, octal or hexadecimal (default)\n",
        ),
        Usage::Size => "usage: elfkit size FILE..\n",
        Usage::Strings => concat!(
            "usage: elfkit strings [-a] [-n N] [-t d|o|x] FILE..\n",
            "  -a            search the whole file, not only its allocated sections\n",
            "  -n N          write runs of at least N bytes, 1 to 4096, by default 4\n",
            "  -t d|o|x      write the offset of each run: decimal, octal or hexadecimal\n",
        ),
        Usage::Strip => concat!(
            "usage: elfkit strip [-g] [-R NAME].. [-f DEBUG] -o OUT FILE\n",
            "  -g            remove debug sections only, keep symbols\n",
            "  -R NAME       also remove the sections of this name\n",
            "  -f DEBUG      write a second file, for a debugger, with what is removed\n",
            "  -o OUT        the file to write\n",
        ),
        Usage::Elflint => "usage: elfkit elflint FILE..\n",
        Usage::Calls => concat!(
            "usage: elfkit calls [-o OUT | -i] FILE SCRIPT\n",
            "  -o OUT        write the changed image to this new file\n",
            "  -i            change FILE in place\n",
        ),
        Usage::Selftest => concat!(
            "usage: elfkit selftest -o OUT N\n",
            "  -o OUT        the file to write\n",
        ),
        Usage::Rehash => concat!(
            "usage: elfkit rehash -o OUT FILE\n",
            "  -o OUT        the file to write\n",
        ),
        Usage::Copy => concat!(
            "usage: elfkit copy [-R NAME].. [-u NAME=FILE].. [-n OLD=NEW]..",
            " [-f NAME=BITS].. [-a NAME=FILE].. -o OUT FILE\n",
            "  -R NAME       remove the sections of this name\n",
            "  -u NAME=FILE  replace the bytes of a section by those of a file\n",
            "  -n OLD=NEW    rename a section\n",
            "  -f NAME=BITS  set the flags of a section to a number\n",
            "  -a NAME=FILE  add a section with the bytes of a file\n",
            "  -o OUT        the file to write\n",
        ),
        Usage::Unstrip => concat!(
            "usage: elfkit unstrip -o OUT STRIPPED DEBUG\n",
            "  -o OUT        the file to write\n",
        ),
        Usage::Lines => "usage: elfkit lines FILE..\n",
        Usage::General => general_help(),
    }
}

/// What elfkit is, how it is called, and a line for each command.
fn general_help() -> &'static str
    ensures { result.now ≡ general_help }
{
    concat!(
        "elfkit shows, checks and changes ELF object files.\n",
        "\n",
        "usage: elfkit readelf [-hlSsrdnV] FILE..\n",
        "       elfkit nm [-AguvP] [-t d|o|x] FILE..\n",
        "       elfkit size FILE..\n",
        "       elfkit strings [-a] [-n N] [-t d|o|x] FILE..\n",
        "       elfkit strip [-g] [-R NAME].. [-f DEBUG] -o OUT FILE\n",
        "       elfkit elflint FILE..\n",
        "       elfkit calls [-o OUT | -i] FILE SCRIPT\n",
        "       elfkit selftest -o OUT N\n",
        "       elfkit rehash -o OUT FILE\n",
        "       elfkit copy [-R NAME].. [-u NAME=FILE].. [-n OLD=NEW]..",
        " [-f NAME=BITS].. [-a NAME=FILE].. -o OUT FILE\n",
        "       elfkit unstrip -o OUT STRIPPED DEBUG\n",
        "       elfkit lines FILE..\n",
        "       elfkit COMMAND --help\n",
        "       elfkit --version\n",
        "\n",
        "  readelf   show headers, symbols, relocations, dynamic section, notes, versions\n",
        "  nm        list symbols with their values\n",
        "  size      sum the sizes of text, data and bss\n",
        "  strings   list runs of printable bytes\n",
        "  strip     copy without debug data and symbols\n",
        "  elflint   check files by 32 rules\n",
        "  calls     run a script of library calls on a file\n",
        "  selftest  make, change, write and reread an image\n",
        "  rehash    copy with the hash sections of dynamic symbols rebuilt\n",
        "  copy      copy with sections removed, replaced, renamed or added\n",
        "  unstrip   join the two files that strip -f makes\n",
        "  lines     show line tables of DWARF 2 to 4\n",
    )
}
