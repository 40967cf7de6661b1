//! Pages that people read and write each day: messages in Chinese, Japanese and Korean, prose, code and JSON.

ghost use Rattle.std.specs.Prelude.{◌≤◌};

use crate::random::Random;
use crate::text::character;
use std::alloc::{AllocError, Global};

/// A kind of page. Where there is a number, one letter beyond ASCII comes in about as many bytes.
#[derive(Clone, Copy)]
pub(crate) enum Page {
    /// Messages: ideographs, marks of ASCII, emoji.
    Chinese,
    /// Messages: syllables and ideographs, marks of ASCII, emoji.
    Japanese,
    /// Words of syllables with spaces between them.
    Korean,
    Spanish,
    French,
    German,
    English(usize),
    Code(usize),
    Json(usize),
}

/// How long a page may become beyond what was asked for, in bytes.
const SPARE: usize = 4096;

/// Common words, between bars. One in nine has a letter beyond ASCII.
const SPANISH: &str = "\
de|la|que|el|en|y|los|se|del|las|por|con|una|su|para|es|al|lo|como|pero|sus|le|este|porque|esta|entre|\
cuando|muy|sin|sobre|hasta|hay|donde|quien|desde|todo|nos|durante|todos|uno|les|contra|otros|ese|eso|ante|\
ellos|antes|unos|otro|otras|tanto|mucho|nada|poco|estar|más|también|año|después|país|mañana|información";

/// Common words. One in five has a letter beyond ASCII.
const FRENCH: &str = "\
de|la|le|et|les|des|en|un|du|une|que|est|pour|qui|dans|par|plus|pas|au|sur|ne|se|ce|il|sont|la|les|ou|avec|\
son|sa|mais|comme|on|tout|nous|vous|bien|sans|deux|ses|elle|fait|leur|temps|entre|depuis|encore|à|été|même|\
très|où|être|déjà|après|français|première|développement|théâtre";

/// Common words. One in ten has a letter beyond ASCII.
const GERMAN: &str = "\
der|die|und|in|den|von|zu|das|mit|sich|des|auf|ist|im|dem|nicht|ein|eine|als|auch|es|an|werden|aus|er|hat|\
dass|sie|nach|wird|bei|einer|um|am|sind|noch|wie|einem|einen|so|zum|war|haben|nur|oder|aber|vor|zur|bis|\
mehr|durch|man|Haus|Zeit|für|über|können|größte|während|Straße";

/// Common words.
const ENGLISH: &str = "\
the|of|and|to|in|is|that|for|it|was|on|with|as|be|by|this|are|have|from|or|not|but|they|which|one|you|had|\
were|all|their|there|been|many|some|so|these|would|other|into|has|more|her|two|like|him|see|time|could|make|\
than|first|water|little|people|number|between|important|something|through|different";

/// English words and names with one letter beyond ASCII.
const RARE: &str = "\
café|naïve|façade|Müller|jalapeño|Zoë|São|fiancé";

/// What comes before a name in code.
const STATEMENTS: &str = "\
return |let value = |if (first == |state->count += |} else if (!|while (";

/// A page that is being written.
#[derive(Drop)]
struct Draft {
    text: String,
    words: Vec<&'static str>,
    rare: Vec<&'static str>,
    statements: Vec<&'static str>,
    gap: usize,
    rare_at: usize,
}

/// Returns a page of at least `length` bytes.
pub(crate) fn make_page(
    alloc: Global,
    page: Page,
    length: usize,
    random: &mut Random,
) -> Result<String, AllocError>
    requires { length ≤ 0x1000000 }
{
    let gap = match page {
        Page::English(gap) | Page::Code(gap) | Page::Json(gap) => gap,
        _ => 0,
    };
    let words = match page {
        Page::Spanish => SPANISH,
        Page::French => FRENCH,
        Page::German => GERMAN,
        _ => ENGLISH,
    };
    let mut draft = Draft {
        text: String::with_capacity(alloc, length + SPARE)?,
        words: words_of(alloc, words)?,
        rare: words_of(alloc, RARE)?,
        statements: words_of(alloc, STATEMENTS)?,
        gap,
        rare_at: random.between(0, gap),
    };
    for _ in 0..length {
        if draft.text.len() >= length {
            break;
        }
        draft.push_part(page, random)?;
    }
    Ok(draft.text)
}

/// Returns the words of a table.
fn words_of(alloc: Global, table: &'static str) -> Result<Vec<&'static str>, AllocError> {
    let mut words = Vec::new(alloc);
    for word in table.split('|') {
        words.push(word)?;
    }
    Ok(words)
}

/// Returns one of the words, or nothing if there are none.
fn one_of(words: &[&'static str], random: &mut Random) -> &'static str {
    if words.is_empty() {
        return "";
    }
    words[random.below(words.len())]
}

impl Draft {
    /// Appends a message, a sentence, a line or an object.
    fn push_part(&mut self, page: Page, random: &mut Random) -> Result<(), AllocError> {
        match page {
            Page::Chinese | Page::Japanese | Page::Korean => self.push_message(page, random),
            Page::Spanish | Page::French | Page::German => self.push_prose(random),
            Page::English(_) => self.push_english(random),
            Page::Code(_) => self.push_code(random),
            Page::Json(_) => self.push_object(random),
        }
    }

    /// Appends a character of the script of messages.
    fn push_character(&mut self, page: Page, random: &mut Random) -> Result<(), AllocError> {
        let character = match page {
            Page::Japanese if !random.is_one_in(3) => character(0x3041, 0x56, random),
            Page::Japanese if random.is_one_in(4) => character(0x30A1, 0x5A, random),
            Page::Korean if random.is_one_in(4) => ' ',
            Page::Korean => character(0xAC00, 0x2BA4, random),
            _ => character(0x4E00, 0x5000, random),
        };
        self.text.push(character)
    }

    /// Appends up to three sentences, each with a mark of ASCII after it, and then often emoji.
    fn push_message(&mut self, page: Page, random: &mut Random) -> Result<(), AllocError> {
        for _ in 0..1 + random.below(3) {
            for _ in 0..5 + random.below(21) {
                self.push_character(page, random)?;
            }
            self.text.push_str(match random.below(8) {
                0 => "...",
                1 => "?",
                2 => "~",
                3 => ". ",
                4 => " ",
                5 => ", ",
                _ => "!",
            })?;
        }
        if !random.is_one_in(3) {
            for _ in 0..1 + random.below(2) {
                self.text.push(character(0x1F600, 0x50, random))?;
            }
        }
        if random.is_one_in(2) {
            return self.text.push('\n');
        }
        Ok(())
    }

    /// Appends what separates a word from the next.
    fn push_space(&mut self, random: &mut Random) -> Result<(), AllocError> {
        self.text.push_str(match random.below(20) {
            0 => ".\n",
            1 | 2 => ", ",
            3 => ". ",
            _ => " ",
        })
    }

    /// Appends some of the words.
    fn push_prose(&mut self, random: &mut Random) -> Result<(), AllocError> {
        for _ in 0..5 + random.below(20) {
            self.text.push_str(one_of(&self.words, random))?;
            self.push_space(random)?;
        }
        Ok(())
    }

    /// Appends an English word. If the last letter beyond ASCII is far enough, the word has one.
    fn push_word(&mut self, random: &mut Random) -> Result<(), AllocError> {
        let length = self.text.len();
        if length < self.rare_at {
            return self.text.push_str(one_of(&self.words, random));
        }
        let gap = (self.gap / 2).wrapping_add(random.between(0, self.gap));
        self.rare_at = length.wrapping_add(gap);
        self.text.push_str(one_of(&self.rare, random))
    }

    /// Appends some English words.
    fn push_english(&mut self, random: &mut Random) -> Result<(), AllocError> {
        for _ in 0..2 + random.below(10) {
            self.push_word(random)?;
            self.push_space(random)?;
        }
        Ok(())
    }

    /// Appends an indented line: a statement, or in one of six a comment.
    fn push_code(&mut self, random: &mut Random) -> Result<(), AllocError> {
        for _ in 0..random.below(4) {
            self.text.push_str("    ")?;
        }
        if random.is_one_in(6) {
            self.text.push_str("// ")?;
            self.push_english(random)?;
            return self.text.push('\n');
        }
        self.text.push_str(one_of(&self.statements, random))?;
        self.text.push_str(one_of(&self.words, random))?;
        self.text.push('_')?;
        self.text.push_str(one_of(&self.words, random))?;
        self.text.push_str("(\"")?;
        self.push_word(random)?;
        self.text.push(' ')?;
        self.push_word(random)?;
        self.text.push_str("\", 16);\n")
    }

    /// Appends an object of three strings.
    fn push_object(&mut self, random: &mut Random) -> Result<(), AllocError> {
        self.text.push_str("  {\"kind\": \"")?;
        self.text.push_str(one_of(&self.words, random))?;
        self.text.push_str("\", \"title\": \"")?;
        self.push_word(random)?;
        self.text.push(' ')?;
        self.push_word(random)?;
        self.text.push_str("\", \"summary\": \"")?;
        for _ in 0..1 + random.below(8) {
            self.push_word(random)?;
            self.text.push(' ')?;
        }
        self.text.push_str("\", \"visible\": true},\n")
    }
}
