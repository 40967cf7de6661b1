//! The arguments of the program.
use crate::input::Mode;
use crate::place::Columns;
use std::alloc::{AllocError, Global};

/// What one argument asks for.
#[derive(Clone, Copy, Debug, PartialEq, Eq)]
pub enum Argument {
    /// How to report.
    Report(Mode),
    /// What a column is.
    Columns(Columns),
    /// The names of the files are in the file that the next argument names.
    NamesInNext,
    /// The names of the files are in the file whose name starts at this index of the argument.
    NamesIn(usize),
    /// The help text.
    Help,
    /// The version.
    Version,
    /// All arguments after this one are files.
    EndOfOptions,
    /// A file, or standard input.
    Input,
    /// No option, and why.
    Wrong(&'static str),
}

/// What `--files0-from` and its file are joined by.
const NAMES_IN: &[u8] = b"--files0-from=";

/// Returns what the letter of a short option asks for.
fn short_option(letter: u8) -> Argument {
    match letter {
        b'l' => Argument::Report(Mode::List),
        b'c' => Argument::Report(Mode::Count),
        b'q' => Argument::Report(Mode::Quiet),
        b'h' => Argument::Help,
        b'V' => Argument::Version,
        _ => Argument::Wrong("no such option"),
    }
}

/// Returns what an argument asks for.
pub fn argument_of(word: &[u8]) -> Argument {
    match word {
        b"--list" => Argument::Report(Mode::List),
        b"--count" => Argument::Report(Mode::Count),
        b"--quiet" => Argument::Report(Mode::Quiet),
        b"--column=character" => Argument::Columns(Columns::Characters),
        b"--column=byte" => Argument::Columns(Columns::Bytes),
        b"--files0-from" => Argument::NamesInNext,
        b"--help" => Argument::Help,
        b"--version" => Argument::Version,
        b"--" => Argument::EndOfOptions,
        [b'-', letter] => short_option(*letter),
        [b'-', _, ..] => {
            if word.starts_with(NAMES_IN) {
                Argument::NamesIn(NAMES_IN.len())
            } else if word.starts_with(b"--column") {
                Argument::Wrong("it is --column=byte or --column=character")
            } else {
                Argument::Wrong("no such option")
            }
        }
        _ => Argument::Input,
    }
}

/// What all arguments ask for.
#[derive(Drop)]
pub struct Request {
    /// How to report.
    pub mode: Mode,
    /// What a column is.
    pub columns: Columns,
    /// The files, in order.
    pub files: Vec<Vec<u8>>,
    /// The file that has the names of the files.
    pub names: Option<Vec<u8>>,
}

/// Why nothing is checked.
#[derive(Drop)]
pub enum Instead {
    /// The help text is asked for.
    Help,
    /// The version is asked for.
    Version,
    /// An argument is wrong, and why.
    Wrong(Vec<u8>, &'static str),
    /// Memory is exhausted.
    OutOfMemory,
}

impl From<AllocError> for Instead {
    fn from(_error: AllocError) -> Instead {
        Instead::OutOfMemory
    }
}

/// Returns what the arguments after the program's name ask for.
pub fn request_of(alloc: Global, words: Vec<Vec<u8>>) -> Result<Request, Instead> {
    let mut request = Request {
        mode: Mode::List,
        columns: Columns::Characters,
        files: Vec::new(alloc),
        names: None,
    };
    let mut options = true;
    let mut names_next = false;
    for word in words {
        let argument = if names_next {
            Argument::NamesIn(0)
        } else if options {
            argument_of(word.as_slice())
        } else {
            Argument::Input
        };
        names_next = false;
        match argument {
            Argument::Report(mode) => request.mode = mode,
            Argument::Columns(columns) => request.columns = columns,
            Argument::NamesInNext => names_next = true,
            Argument::NamesIn(start) => {
                let name = word.get(start..).unwrap_or(&[]);
                request.names = Some(Vec::from_slice(alloc, name)?);
            }
            Argument::EndOfOptions => options = false,
            Argument::Input => {
                if request.files.push(word).is_err() {
                    return Err(Instead::OutOfMemory);
                }
            }
            Argument::Help => return Err(Instead::Help),
            Argument::Version => return Err(Instead::Version),
            Argument::Wrong(cause) => return Err(Instead::Wrong(word, cause)),
        }
    }
    if names_next {
        return Err(Instead::Wrong(Vec::from_slice(alloc, b"--files0-from")?, "it needs a file"));
    }
    if request.names.is_some() && !request.files.is_empty() {
        return Err(Instead::Wrong(
            Vec::from_slice(alloc, b"--files0-from")?,
            "it goes with no other file",
        ));
    }
    Ok(request)
}
