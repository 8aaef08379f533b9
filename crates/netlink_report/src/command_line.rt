//! The words of a command line.

ghost use Rattle.std.specs.Prelude.{◌≡◌, ◌∷◌, [], map, string_bytes, IfSome, IsNone};
ghost use Rattle.netlink_report.specs.{CommandLine.{Asks}, declared.command_line.Command.{Command}};

use netlink_packet_route::MessageKind;

/// The line for a command line that names no kind of message.
pub const USAGE: &str =
    "usage: nlroute address|route|rule|neighbour|link|nexthop|nsid|netconf|address-label|neighbour-table|prefix|tc|tc-action|stats";

/// What `--help` says behind the usage.
pub const HELP: &str =
    "nlroute reads one message of this kind as hexadecimal text from standard input, without its envelope, and
prints its attributes and its canonical bytes. Blanks, colons, 0x and comments behind # may stand between
pairs of digits.

  --where     a refusal has a second line: the byte and the attribute that it stands at, or the line and
              the column of what is no text
  -h, --help  this text
  --version   the version

Status 1: the bytes are no message of this kind; 2: no hexadecimal text, or wrong words; 3: the message
has no canonical bytes; 4: no memory; 5: a failed read or write.";

/// Which message is reported on: `Which::of` reads the words after the program's name.
pub type Which = MessageKind;

/// What a command line asks for.
#[derive(Clone, Copy, Debug)]
pub enum Command {
    /// The text that says how to call.
    Help,
    /// The version.
    Version,
    /// A report on a message of this kind, and whether the place of a refusal is told.
    Report(Which, bool),
}

impl Command {
    /// What the words after the program's name ask for.
    pub fn of(words: &[String]) -> Option<Command>
        ensures asked { IfSome result (λ command. Asks command (map string_bytes words.now)) }
        ensures other { IsNone result → (command : Command) → ¬ Asks command (map string_bytes words.now) }
    {
        match words {
            [word] => Command::of_word(word.as_str()),
            [first, second] => Command::of_words(first.as_str(), second.as_str()),
            _ => None,
        }
    }

    /// What one word asks for.
    fn of_word(word: &str) -> Option<Command>
        ensures asked { IfSome result (λ command. Asks command (word.now ∷ [])) }
        ensures other { IsNone result → (command : Command) → ¬ Asks command (word.now ∷ []) }
    {
        match word {
            "--help" | "-h" => Some(Command::Help),
            "--version" => Some(Command::Version),
            _ => match MessageKind::named(word) {
                Some(kind) => Some(Command::Report(kind, false)),
                None => None,
            },
        }
    }

    /// What two words ask for.
    fn of_words(first: &str, second: &str) -> Option<Command>
        ensures asked { IfSome result (λ command. Asks command (first.now ∷ second.now ∷ [])) }
        ensures other { IsNone result → (command : Command) → ¬ Asks command (first.now ∷ second.now ∷ []) }
    {
        let name = match (first, second) {
            ("--where", name) => name,
            (name, "--where") => name,
            _ => return None,
        };
        match MessageKind::named(name) {
            Some(kind) => Some(Command::Report(kind, true)),
            None => None,
        }
    }
}
