//! One run of the program: its inputs, and what it writes.
ghost use Rattle.std.specs.Prelude.{◌≤◌};

use std::fs::File;
use std::io::{self, BufRead, BufReader, BufWriter, ErrorKind, Read, Stdout, Write};
use utf8_check_library::arguments::{Instead, Request, request_of};
use utf8_check_library::names::{STANDARD_INPUT, arguments, shown};
use utf8_check_library::{Fault, Mode, check};

const SOUND: u8 = 0;

const MALFORMED: u8 = 1;

const USAGE: u8 = 2;

const READ_ERROR: u8 = 3;

const WRITE_ERROR: u8 = 4;

const USAGE_LINE: &str =
    "usage: utf8_check [--quiet | --list | --count] [--column=UNIT] [--help | --version] [--files0-from LIST | FILE..]";

/// What `--help` writes after that line.
const HELP: &str = "
Writes FILE:LINE:COLUMN: error: malformed UTF-8: E2 98: cut short (offset N) for each
malformed sequence. Reads standard input if no FILE is given, and for -.

  -l, --list              write a line for each malformed sequence (the default)
  -c, --count             write the number of malformed sequences of each FILE
  -q, --quiet             write nothing, and stop at the first malformed sequence
      --column=byte       count columns in bytes, not in characters
      --files0-from LIST  read the names of the files, separated by NUL, from LIST
  -h, --help              write this text
  -V, --version           write the version

Status: 0 all is well-formed, 1 something is malformed, 2 wrong arguments,
3 a read failed, 4 a write failed. If several apply, the greatest.
";

const VERSION: &str = "utf8_check 0.1.1";

/// The name that means standard input.
const DASH: &[u8] = b"-";

/// The buffered standard output.
type Output = BufWriter<Stdout>;

/// Writes a message with a name and a cause. Its own errors change nothing.
fn complain<C: std::fmt::Display + Drop>(rt: &HostRuntime, name: &[u8], cause: C) {
    let mut errors = rt.stderr();
    match shown(rt.alloc(), name) {
        Ok(name) => {
            let _ = writeln!(errors, "utf8_check: {name}: {cause}");
        }
        Err(_) => {
            let _ = writeln!(errors, "utf8_check: {cause}");
        }
    }
}

/// Returns the status after a failed write. A pipe whose reader went gets no message.
fn write_failed(rt: &HostRuntime, error: io::Error) -> u8
    ensures { result ≤ 4 }
{
    if error.kind() != ErrorKind::BrokenPipe {
        complain(rt, b"(standard output)", error);
    }
    WRITE_ERROR
}

/// Checks one input, and returns the status.
fn check_input<R: Read>(
    rt: &HostRuntime,
    request: &Request,
    name: &[u8],
    reader: &mut R,
    output: &mut Output,
) -> u8
    ensures { result ≤ 4 }
{
    let Ok(text) = shown(rt.alloc(), name) else {
        complain(rt, name, "out of memory");
        return READ_ERROR;
    };
    match check(text.as_str(), request.columns, request.mode, reader, output) {
        Ok(count) => {
            if request.mode == Mode::Count {
                if let Err(error) = writeln!(output, "{text}: {count}") {
                    return write_failed(rt, error);
                }
            }
            if count == 0 { SOUND } else { MALFORMED }
        }
        Err(Fault::Read(error)) => {
            complain(rt, name, error);
            READ_ERROR
        }
        Err(Fault::Write(error)) => write_failed(rt, error),
        Err(Fault::TooLong) => {
            complain(rt, name, "too long");
            READ_ERROR
        }
    }
}

/// Opens a file, again as long as that is interrupted, or says why it can't. std opens names in UTF-8 only.
fn open(rt: &HostRuntime, name: &[u8]) -> Option<File> {
    let Ok(path) = std::str::from_utf8(name) else {
        complain(rt, name, "a name that is not UTF-8 cannot be opened");
        return None;
    };
    for _ in 0..u64::MAX {
        match File::open(rt, path) {
            Ok(file) => return Some(file),
            Err(error) => {
                if error.kind() != ErrorKind::Interrupted {
                    complain(rt, name, error);
                    return None;
                }
            }
        }
    }
    None
}

/// Checks a file, or standard input if its name is `-`, and returns the status.
fn check_named(rt: &HostRuntime, request: &Request, name: &[u8], output: &mut Output) -> u8
    ensures { result ≤ 4 }
{
    if name == DASH {
        return check_input(rt, request, STANDARD_INPUT, &mut rt.stdin(), output);
    }
    match open(rt, name) {
        Some(mut file) => check_input(rt, request, name, &mut file, output),
        None => READ_ERROR,
    }
}

/// Returns whether a run ends after an input with this status.
fn ends_after(mode: Mode, status: u8) -> bool {
    status == WRITE_ERROR || (mode == Mode::Quiet && status == MALFORMED)
}

/// Checks the files of the arguments, and returns the status.
fn check_files(rt: &HostRuntime, request: &Request, output: &mut Output) -> u8 {
    let mut status = SOUND;
    for name in &request.files {
        let next = check_named(rt, request, name.as_slice(), output);
        status = status.max(next);
        if ends_after(request.mode, next) {
            break;
        }
    }
    status
}

/// Checks the files that a list names, and returns the status.
fn check_list<R: Read + Drop>(
    rt: &HostRuntime,
    request: &Request,
    list: &[u8],
    reader: R,
    output: &mut Output,
) -> u8 {
    let Ok(mut reader) = BufReader::new(rt.alloc(), reader) else {
        complain(rt, list, "out of memory");
        return READ_ERROR;
    };
    let mut status = SOUND;
    for _ in 0..u64::MAX {
        if let Err(error) = output.flush() {
            return write_failed(rt, error);
        }
        let mut name = Vec::new(rt.alloc());
        match reader.read_until(0, &mut name) {
            Ok(0) => return status,
            Ok(_) => {}
            Err(error) => {
                complain(rt, list, error);
                return READ_ERROR;
            }
        }
        if name.last() == Some(&0) {
            name.pop();
        }
        let next = if list == STANDARD_INPUT && name.as_slice() == DASH {
            complain(rt, DASH, "standard input has the names");
            READ_ERROR
        } else {
            check_named(rt, request, name.as_slice(), output)
        };
        status = status.max(next);
        if ends_after(request.mode, next) {
            return status;
        }
    }
    status
}

/// Checks all that is asked for, and returns the status.
fn check_all(rt: &HostRuntime, request: &Request, output: &mut Output) -> u8 {
    match &request.names {
        None => {
            if request.files.is_empty() {
                return check_named(rt, request, DASH, output);
            }
            check_files(rt, request, output)
        }
        Some(list) => {
            if list.as_slice() == DASH {
                return check_list(rt, request, STANDARD_INPUT, rt.stdin(), output);
            }
            match open(rt, list.as_slice()) {
                Some(file) => check_list(rt, request, list.as_slice(), file, output),
                None => READ_ERROR,
            }
        }
    }
}

/// Writes a line and the text after it to standard output, and returns the status.
fn say(rt: &HostRuntime, line: &str, text: &str) -> u8
    ensures { result ≤ 4 }
{
    let mut output = rt.stdout();
    match write!(output, "{line}\n{text}") {
        Ok(()) => SOUND,
        Err(error) => write_failed(rt, error),
    }
}

/// Says why nothing is checked, and returns the status.
fn answer(rt: &HostRuntime, instead: Instead) -> u8
    ensures { result ≤ 4 }
{
    match instead {
        Instead::Help => say(rt, USAGE_LINE, HELP),
        Instead::Version => say(rt, VERSION, ""),
        Instead::Wrong(word, cause) => {
            complain(rt, word.as_slice(), cause);
            let mut errors = rt.stderr();
            let _ = writeln!(errors, "{USAGE_LINE}");
            USAGE
        }
        Instead::OutOfMemory => {
            complain(rt, b"(arguments)", "out of memory");
            USAGE
        }
    }
}

/// Serves one run, and returns the status.
pub(crate) fn run(rt: &HostRuntime) -> u8 {
    let Ok(words) = arguments(rt) else {
        return answer(rt, Instead::OutOfMemory);
    };
    let request = match request_of(rt.alloc(), words) {
        Ok(request) => request,
        Err(instead) => return answer(rt, instead),
    };
    let Ok(mut output) = BufWriter::new(rt.alloc(), rt.stdout()) else {
        complain(rt, b"(standard output)", "out of memory");
        return WRITE_ERROR;
    };
    let status = check_all(rt, &request, &mut output);
    if status == WRITE_ERROR {
        return status;
    }
    match output.flush() {
        Ok(()) => status,
        Err(error) => write_failed(rt, error),
    }
}
