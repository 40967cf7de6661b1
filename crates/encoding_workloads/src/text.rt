//! Texts of the kinds that users have.

ghost use Rattle.std.specs.Prelude.{◌<◌, ◌≤◌, ◌≡◌, length};

use crate::random::Random;
use std::alloc::{AllocError, Global};

/// A kind of text.
#[derive(Clone, Copy)]
pub(crate) enum Kind {
    /// A page: tags in ASCII, and words of one script between them.
    Html,
    /// Objects whose strings now and then have other characters than ASCII.
    Json,
    /// English with typographic quotation marks and dashes.
    Prose,
    /// Chinese with line feeds, numbers and Latin words.
    Chinese,
    /// Messages with emoji.
    Chat,
    /// Russian.
    Cyrillic,
    /// Lines of ASCII, each with one to six other characters.
    Logs,
    /// A program with comments.
    Code,
    /// A Western European language: only characters of Latin1.
    Western,
    /// Names and identifiers of ASCII.
    Names,
}

/// The letters of a word.
#[derive(Clone, Copy)]
enum Script {
    Ascii,
    Western,
    Cyrillic,
    Hebrew,
    Ideographs,
    Emoji,
}

/// How long a text may become beyond what was asked for, in bytes.
const SPARE: usize = 4096;

/// Returns a text of the kind, of at least `length` bytes.
pub(crate) fn make_text(
    alloc: Global,
    kind: Kind,
    length: usize,
    random: &mut Random,
) -> Result<String, AllocError>
    requires { length ≤ 0x1000000 }
{
    let mut text = String::with_capacity(alloc, length + SPARE)?;
    for _ in 0..length {
        if text.len() >= length {
            break;
        }
        push_part(&mut text, kind, random)?;
    }
    Ok(text)
}

/// Appends an element, an object, a sentence or a line.
fn push_part(text: &mut String, kind: Kind, random: &mut Random) -> Result<(), AllocError> {
    match kind {
        Kind::Html => push_element(text, random),
        Kind::Json => push_object(text, random),
        Kind::Prose => push_prose(text, random),
        Kind::Chinese => push_chinese(text, random),
        Kind::Chat => push_message(text, random),
        Kind::Cyrillic => push_words(text, Script::Cyrillic, 12, random),
        Kind::Logs => push_log_line(text, random),
        Kind::Code => push_line_of_code(text, random),
        Kind::Western => push_words(text, Script::Western, 12, random),
        Kind::Names => push_name(text, random),
    }
}

/// Returns a character of the block that starts at `first`.
pub(crate) fn character(first: u32, count: usize, random: &mut Random) -> char
    requires { (0 < count) × (count ≤ 0x10000) }
{
    char::from_u32(first.wrapping_add(random.below(count) as u32)).unwrap_or('?')
}

/// Returns a small letter of ASCII.
fn small_letter(random: &mut Random) -> char {
    // in English half of all letters are these
    if random.is_one_in(2) {
        return match random.below(8) {
            0 => 'e',
            1 => 't',
            2 => 'a',
            3 => 'o',
            4 => 'i',
            5 => 'n',
            6 => 's',
            _ => 'r',
        };
    }
    character(0x61, 26, random)
}

/// Returns a letter of the script.
fn letter(script: Script, random: &mut Random) -> char {
    match script {
        Script::Ascii => small_letter(random),
        Script::Western if random.is_one_in(20) => character(0xE0, 31, random),
        Script::Western => small_letter(random),
        Script::Cyrillic => character(0x430, 32, random),
        Script::Hebrew => character(0x5D0, 27, random),
        Script::Ideographs => character(0x4E00, 0x5000, random),
        Script::Emoji => character(0x1F600, 0x50, random),
    }
}

/// Appends a word of one to twelve letters; ideographs have no more than four.
fn push_word(text: &mut String, script: Script, random: &mut Random) -> Result<(), AllocError> {
    let longest = match script {
        Script::Ideographs | Script::Emoji => 4,
        _ => 12,
    };
    for _ in 0..1 + random.below(longest) {
        text.push(letter(script, random))?;
    }
    Ok(())
}

/// Appends up to `most` words, each with what separates it from the next.
fn push_words(
    text: &mut String,
    script: Script,
    most: usize,
    random: &mut Random,
) -> Result<(), AllocError>
    requires { (0 < most) × (most < 0x10000) }
{
    for _ in 0..1 + random.below(most) {
        push_word(text, script, random)?;
        text.push_str(match random.below(20) {
            0 => ".\n",
            1 | 2 => ", ",
            _ => " ",
        })?;
    }
    Ok(())
}

/// Appends a number.
fn push_number(text: &mut String, below: usize, random: &mut Random) -> Result<(), AllocError>
    requires { 0 < below }
{
    let mut number = random.below(below);
    for _ in 0..20 {
        text.push(char::from(b'0' + (number % 10) as u8))?;
        number /= 10;
        if number == 0 {
            break;
        }
    }
    Ok(())
}

/// Appends an element of a page.
fn push_element(text: &mut String, random: &mut Random) -> Result<(), AllocError> {
    let script = match random.below(6) {
        0 | 1 => Script::Ascii,
        2 => Script::Western,
        3 => Script::Cyrillic,
        4 => Script::Ideographs,
        _ => Script::Hebrew,
    };
    let (open, close) = match random.below(5) {
        0 => ("<p>", "</p>\n"),
        1 => ("<li class='item'>", "</li>\n"),
        2 => ("<h2 id='s1'>", "</h2>\n"),
        3 => ("<a href='https://example.org/wiki?id=12'>", "</a> "),
        _ => ("<td>", "</td>"),
    };
    text.push_str(open)?;
    push_words(text, script, 12, random)?;
    text.push_str(close)
}

/// Appends a string of an object. One in six isn't ASCII.
fn push_string(text: &mut String, name: &str, random: &mut Random) -> Result<(), AllocError> {
    let script = match random.below(12) {
        0 => Script::Western,
        1 => Script::Ideographs,
        _ => Script::Ascii,
    };
    text.push_str(", \"")?;
    text.push_str(name)?;
    text.push_str("\": \"")?;
    push_words(text, script, 8, random)?;
    text.push_str("\"")
}

/// Appends an object of a number and two strings.
fn push_object(text: &mut String, random: &mut Random) -> Result<(), AllocError> {
    text.push_str("  {\"id\": ")?;
    push_number(text, 1_000_000, random)?;
    push_string(text, "title", random)?;
    push_string(text, "summary", random)?;
    text.push_str(", \"visible\": true},\n")
}

/// Appends a sentence of English, in which about one character in fifty is a typographic mark.
fn push_prose(text: &mut String, random: &mut Random) -> Result<(), AllocError> {
    for _ in 0..5 + random.below(20) {
        push_word(text, Script::Ascii, random)?;
        text.push_str(match random.below(24) {
            0 => "\u{2019}s ",
            1 => " \u{2014} ",
            2 => "\u{201D} \u{201C}",
            3 => "\u{2026} ",
            4 | 5 => ", ",
            6 => ".\n",
            _ => " ",
        })?;
    }
    Ok(())
}

/// Appends some Chinese with ASCII in it.
fn push_chinese(text: &mut String, random: &mut Random) -> Result<(), AllocError> {
    for _ in 0..5 + random.below(40) {
        text.push(letter(Script::Ideographs, random))?;
    }
    match random.below(6) {
        0 => text.push_str("\u{3002}\n"),
        1 => push_number(text, 3000, random),
        2 => push_word(text, Script::Ascii, random),
        3 => text.push_str("\u{3002}"),
        _ => text.push_str("\u{FF0C}"),
    }
}

/// Appends a message, which often ends with emoji.
fn push_message(text: &mut String, random: &mut Random) -> Result<(), AllocError> {
    push_words(text, Script::Ascii, 8, random)?;
    if random.is_one_in(2) {
        push_word(text, Script::Emoji, random)?;
    }
    text.push_str("\n")
}

/// Appends a line of 50 to 1,000 bytes of ASCII with one to six other characters.
fn push_log_line(text: &mut String, random: &mut Random) -> Result<(), AllocError> {
    let length = 50 + random.below(951);
    push_number(text, 1_000_000_000, random)?;
    let begin = text.len();
    for _ in 0..length {
        if text.len().wrapping_sub(begin) >= length {
            break;
        }
        text.push(' ')?;
        push_word(text, Script::Ascii, random)?;
    }
    let script = match random.below(4) {
        0 => Script::Cyrillic,
        1 => Script::Ideographs,
        2 => Script::Emoji,
        _ => Script::Hebrew,
    };
    text.push('=')?;
    for _ in 0..1 + random.below(6) {
        text.push(letter(script, random))?;
    }
    text.push('\n')
}

/// Appends an indented line: a statement, or in one of eight a comment in a Western European language.
fn push_line_of_code(text: &mut String, random: &mut Random) -> Result<(), AllocError> {
    for _ in 0..random.below(4) {
        text.push_str("    ")?;
    }
    if random.is_one_in(8) {
        text.push_str("// ")?;
        push_words(text, Script::Western, 12, random)?;
        return text.push('\n');
    }
    text.push_str(match random.below(5) {
        0 => "return ",
        1 => "let value = ",
        2 => "if (first == ",
        3 => "state->count += ",
        _ => "} else if (!",
    })?;
    push_word(text, Script::Ascii, random)?;
    text.push('(')?;
    push_word(text, Script::Ascii, random)?;
    text.push_str(", ")?;
    push_number(text, 100, random)?;
    text.push_str(");\n")
}

/// Appends a name: words of ASCII, joined as in identifiers, headers and paths.
fn push_name(text: &mut String, random: &mut Random) -> Result<(), AllocError> {
    push_word(text, Script::Ascii, random)?;
    text.push(match random.below(6) {
        0 => '-',
        1 => '/',
        2 => '.',
        3 => ':',
        _ => '_',
    })
}
