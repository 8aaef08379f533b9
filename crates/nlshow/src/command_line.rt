//! The words of a command line.

use netlink_packet_route::MessageKind;
use std::alloc::{AllocError, Global};
use std::fmt;

/// The line for a command line that says nothing that can be done.
pub const USAGE: &str =
    "usage: nlshow [--json | --count] [--numeric] [--hex] [--as KIND] [--links FILE] [--keep FILE] [KIND..] [--] [FILE..]";

/// What `--help` says.
pub const HELP: &str =
    "nlshow shows messages of rtnetlink as ip does: datagrams with their envelopes, from files or standard input,
also as `ip route save` and its like keep them, and captures of nlmon (pcap, pcapng).

  -j, --json  an object for each message, with the keys of ip -j -d
  --count     how many messages there are, of each kind
  --numeric   numbers in place of names
  --hex       the input is hexadecimal text, a message a line
  --as KIND   messages of this kind without an envelope: address, route, rule, neighbour, link,
              nexthop, nsid, netconf, address-label, neighbour-table, prefix, tc, tc-action or stats
  --links FILE
              the names of interfaces are those of the links in FILE, a dump that is not shown;
              a link that is shown tells its name to what stands behind it
  --keep FILE writes the messages that are refused to FILE, which is made anew at the first
  -h, --help  this text
  --version   the version
  KIND        only messages of this kind, as in `nlshow route link FILE`; ./route is a file
  --          what follows are files
  FILE        a file that is read; - is standard input; where one fails the next is read

A word behind an option may be joined to it by =, as in --as=route.

Status 1: a message was refused; 2: a wrong word; 4: no memory; 5: a file failed.";

/// What is told of messages.
#[derive(Clone, Copy, PartialEq, Eq)]
pub enum Form {
    /// A line each.
    Lines,
    /// An object of JSON each.
    Json,
    /// How many there are.
    Count,
}

/// How messages are read and told.
#[derive(Clone, Copy)]
pub struct Options {
    /// What is told.
    pub form: Form,
    /// Whether numbers stand in place of names.
    pub numeric: bool,
    /// Whether the input is hexadecimal text.
    pub is_hex: bool,
    /// The kind of messages without an envelope.
    pub kind: Option<MessageKind>,
    /// The kinds that are told of, a bit each; of none all.
    only: u32,
}

impl Options {
    /// Whether messages of this kind are told of.
    pub fn tells_of(&self, kind: Option<MessageKind>) -> bool {
        match kind {
            Some(kind) => self.only == 0 || self.only & bit_of(kind) != 0,
            None => self.only == 0,
        }
    }
}

/// The bit of a kind.
fn bit_of(kind: MessageKind) -> u32 {
    1u32.checked_shl(kind as u32).unwrap_or(0)
}

/// Lines of datagrams.
pub const PLAIN: Options = Options {
    form: Form::Lines,
    numeric: false,
    is_hex: false,
    kind: None,
    only: 0,
};

/// What is to be shown.
#[derive(Drop)]
pub struct Request<'a> {
    /// How.
    pub options: Options,
    /// The file that tells the names of interfaces.
    pub links: Option<&'a str>,
    /// The file for what is refused.
    pub keep: Option<&'a str>,
    /// The files; of none standard input.
    pub files: Vec<&'a str>,
}

/// What a command line asks for.
#[derive(Drop)]
pub enum Command<'a> {
    /// The text that says how to call.
    Help,
    /// The version.
    Version,
    /// Messages.
    Show(Request<'a>),
    /// Nothing that can be done.
    Wrong(WrongWord<'a>),
}

/// A word that is wrong.
#[derive(Clone, Copy)]
pub enum WrongWord<'a> {
    /// No option has this name.
    Option(&'a str),
    /// The option wants a word behind it.
    Alone(&'a str),
    /// No kind of message has this name.
    Kind(&'a str),
    /// A file that is read would be made anew.
    Kept(&'a str),
    /// Objects and counts are wanted.
    Forms,
}

impl<'a> fmt::Display for WrongWord<'a> {
    fn fmt<W: fmt::Write>(&self, f: &mut fmt::Formatter<W>) -> fmt::Result {
        match *self {
            WrongWord::Option(word) => write!(f, "`{word}` is no option"),
            WrongWord::Alone(word) => write!(f, "`{word}` wants a word behind it"),
            WrongWord::Kind(word) => write!(f, "`{word}` is no kind of message"),
            WrongWord::Kept(word) => write!(f, "`{word}` is read, and `--keep` would empty it"),
            WrongWord::Forms => write!(f, "`--json` and `--count` do not go together"),
        }
    }
}

/// What the words after the program's name ask for.
pub fn command_of<'a>(alloc: Global, words: &'a [String]) -> Result<Command<'a>, AllocError> {
    let mut request = Request {
        options: PLAIN,
        links: None,
        keep: None,
        files: Vec::new(alloc),
    };
    // The option whose word comes next, and whether all that comes are files.
    let mut waiting = None;
    let mut is_over = false;
    for word in words {
        let word = word.as_str();
        match (waiting, word) {
            (Some(option), _) if take_word(&mut request, option, word) => waiting = None,
            (Some(_), _) => return Ok(Command::Wrong(WrongWord::Kind(word))),
            (None, _) if is_over => request.files.push(word)?,
            (None, "--") => is_over = true,
            (None, "--help" | "-h") => return Ok(Command::Help),
            (None, "--version") => return Ok(Command::Version),
            (None, "--as" | "--links" | "--keep") => waiting = Some(word),
            (None, "--json" | "-j") if take_form(&mut request.options, Form::Json) => {}
            (None, "--count") if take_form(&mut request.options, Form::Count) => {}
            (None, "--json" | "-j" | "--count") => return Ok(Command::Wrong(WrongWord::Forms)),
            (None, _) if set_option(&mut request.options, word) => {}
            (None, _) if take_joined(&mut request, word) => {}
            (None, _) if is_option(word) => return Ok(Command::Wrong(wrong_option(word))),
            (None, _) if request.files.is_empty() && take_kind(&mut request.options, word) => {}
            (None, _) => request.files.push(word)?,
        }
    }
    Ok(match waiting {
        Some(word) => Command::Wrong(WrongWord::Alone(word)),
        None => Command::Show(request),
    })
}

/// Takes what is to be told, and answers whether nothing else was before.
fn take_form(options: &mut Options, form: Form) -> bool {
    let is_alone = options.form == Form::Lines || options.form == form;
    options.form = form;
    is_alone
}

/// Takes a kind that is told of, and answers whether the word is one.
fn take_kind(options: &mut Options, word: &str) -> bool {
    match MessageKind::named(word) {
        Some(kind) => {
            options.only |= bit_of(kind);
            true
        }
        None => false,
    }
}

/// Takes the word behind an option, and answers whether it can stand there.
fn take_word<'a>(request: &mut Request<'a>, option: &str, word: &'a str) -> bool {
    match option {
        "--links" => request.links = Some(word),
        "--keep" => request.keep = Some(word),
        _ => {
            request.options.kind = MessageKind::named(word);
            return request.options.kind.is_some();
        }
    }
    true
}

/// Takes an option with its word behind `=`, and answers whether this is one whose word can stand there.
fn take_joined<'a>(request: &mut Request<'a>, word: &'a str) -> bool {
    match word.split_once('=') {
        Some((option @ ("--as" | "--links" | "--keep"), word)) => take_word(request, option, word),
        _ => false,
    }
}

/// What is wrong with an option.
fn wrong_option(word: &str) -> WrongWord<'_> {
    match word.split_once('=') {
        Some(("--as", kind)) => WrongWord::Kind(kind),
        _ => WrongWord::Option(word),
    }
}

/// Whether a word is an option and no file; `-` is standard input.
fn is_option(word: &str) -> bool {
    word.len() > 1 && word.starts_with('-')
}

/// Sets what an option without a word behind it says, and answers whether it is one.
fn set_option(options: &mut Options, word: &str) -> bool {
    match word {
        "--numeric" => options.numeric = true,
        "--hex" => options.is_hex = true,
        _ => return false,
    }
    true
}
