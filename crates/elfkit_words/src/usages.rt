//! The commands of elfkit by their names, their option letters and their usage lines.

ghost use Rattle.std.specs.Prelude.{◌≡◌, ◌<◌};
ghost use Rattle.std.specs.Bool.{OnTrue};
ghost use Rattle.elfkit_words.specs.Usages.{command_named, usage_line, letters_alone, letters_with_option_argument, stands_alone, takes_option_argument};

/// Which usage line is due: that of a command, or the general one.
#[derive(Clone, Copy, PartialEq, Eq)]
pub enum Usage {
    /// `elfkit readelf`.
    Readelf,
    /// `elfkit nm`.
    Nm,
    /// `elfkit size`.
    Size,
    /// `elfkit strings`.
    Strings,
    /// `elfkit strip`.
    Strip,
    /// `elfkit elflint`.
    Elflint,
    /// `elfkit calls`.
    Calls,
    /// `elfkit selftest`.
    Selftest,
    /// `elfkit rehash`.
    Rehash,
    /// `elfkit copy`.
    Copy,
    /// `elfkit unstrip`.
    Unstrip,
    /// `elfkit lines`.
    Lines,
    /// No command, or none that there is.
    General,
}

impl Usage {
    /// The command that a word names, or None exactly where it names none. It takes no memory.
    #[tactic(auto, unfolding(crate::specs::Usages::command_named, crate::specs::Usages::commands))]
    pub fn named(word: &str) -> Option<Usage>
        ensures { result ≡ command_named word.now }
    {
        match word {
            "readelf" => Some(Usage::Readelf),
            "nm" => Some(Usage::Nm),
            "size" => Some(Usage::Size),
            "strings" => Some(Usage::Strings),
            "strip" => Some(Usage::Strip),
            "elflint" => Some(Usage::Elflint),
            "calls" => Some(Usage::Calls),
            "selftest" => Some(Usage::Selftest),
            "rehash" => Some(Usage::Rehash),
            "copy" => Some(Usage::Copy),
            "unstrip" => Some(Usage::Unstrip),
            "lines" => Some(Usage::Lines),
            _ => None,
        }
    }

    /// The usage line, without a newline. It takes no memory.
    #[tactic(auto, unfolding(crate::specs::Usages::usage_line))]
    pub fn line(self) -> &'static str
        ensures { result.now ≡ usage_line self }
    {
        match self {
            Usage::Readelf => "usage: elfkit readelf [-hlSsrdnV] FILE..",
            Usage::Nm => "usage: elfkit nm [-AguvP] [-t d|o|x] FILE..",
            Usage::Size => "usage: elfkit size FILE..",
            Usage::Strings => "usage: elfkit strings [-a] [-n N] [-t d|o|x] FILE..",
            Usage::Strip => "usage: elfkit strip [-g] [-R NAME].. [-f DEBUG] -o OUT FILE",
            Usage::Elflint => "usage: elfkit elflint FILE..",
            Usage::Calls => "usage: elfkit calls [-o OUT | -i] FILE SCRIPT",
            Usage::Selftest => "usage: elfkit selftest -o OUT N",
            Usage::Rehash => "usage: elfkit rehash -o OUT FILE",
            Usage::Copy => concat!(
                "usage: elfkit copy [-R NAME].. [-u NAME=FILE].. [-n OLD=NEW]..",
                " [-f NAME=BITS].. [-a NAME=FILE].. -o OUT FILE"
            ),
            Usage::Unstrip => "usage: elfkit unstrip -o OUT STRIPPED DEBUG",
            Usage::Lines => "usage: elfkit lines FILE..",
            Usage::General => concat!(
                "usage: elfkit readelf|nm|size|strings|strip|elflint|calls|selftest",
                "|rehash|copy|unstrip|lines"
            ),
        }
    }

    /// The option letters without an option-argument.
    #[tactic(auto, unfolding(crate::specs::Usages::letters_alone))]
    fn letters_alone(self) -> &'static [u8]
        ensures { result.now ≡ letters_alone self }
    {
        match self {
            Usage::Readelf => b"hlSsrdnV",
            Usage::Nm => b"AguvP",
            Usage::Strings => b"a",
            Usage::Strip => b"g",
            Usage::Calls => b"i",
            _ => b"",
        }
    }

    /// The option letters that take an option-argument.
    #[tactic(auto, unfolding(crate::specs::Usages::letters_with_option_argument))]
    fn letters_with_option_argument(self) -> &'static [u8]
        ensures { result.now ≡ letters_with_option_argument self }
    {
        match self {
            Usage::Nm => b"t",
            Usage::Strings => b"nt",
            Usage::Strip => b"Rfo",
            Usage::Copy => b"Runfao",
            Usage::Calls | Usage::Selftest | Usage::Rehash | Usage::Unstrip => b"o",
            _ => b"",
        }
    }

    /// Whether a letter is an option without an option-argument.
    pub fn stands_alone(self, letter: u8) -> bool
        ensures { result ≡ stands_alone self letter }
    {
        self.letters_alone().contains(&letter)
    }

    /// Whether a letter takes an option-argument. Such a letter is ASCII.
    pub fn takes_option_argument(self, letter: u8) -> bool
        ensures value { result ≡ takes_option_argument self letter }
        ensures ascii { OnTrue result (letter < 128) }
    {
        self.letters_with_option_argument().contains(&letter)
    }
}
