//! The words of a grammar file of yacc or bison, with their places in the file. Comments, prologues,
//! commas, names in `[]` and what stands behind the second `%%` are passed over.

use crate::text_error::{Stop, TextFault};
use std::alloc::Global;

/// What a word of a grammar file is.
#[derive(Clone, Copy, Debug, PartialEq, Eq)]
pub(crate) enum Kind {
    /// A name, as `expression`.
    Name,
    /// A name before a colon: the left side of rules.
    Left,
    /// A number, as `12`.
    Number,
    /// A character in single quotes, which are part of it, as `'+'`.
    Character,
    /// A text in double quotes, which are part of it, as `"<="`.
    Text,
    /// A type in `<>`, which are part of it, as `<number>`.
    Tag,
    /// A word that begins with `%`, as `%token`.
    Directive,
    /// Code in braces, which are part of it, with or without `%?` before them.
    Action,
    /// The `%%` before the rules, or behind them.
    Section,
    /// One of the marks `:`, `|`, `;`, `=`.
    Mark(u8),
}

/// A word of a grammar file, and the bytes where it begins and ends, counted from 0.
#[derive(Clone, Copy, Debug)]
pub(crate) struct Token {
    pub kind: Kind,
    pub start: usize,
    pub end: usize,
}

/// What the byte at hand stands within.
#[derive(Clone, Copy)]
enum Mode {
    Between,
    Word(Kind),
    Underscore,
    Translated { begins: bool },
    Quoted { kind: Kind, escaped: bool },
    Tag { depth: usize, dash: bool },
    Bracket,
    Percent,
    Predicate,
    Slash,
    Less,
    Line { spliced: bool },
    Comment { star: bool },
    Epilogue,
}

/// Which code the byte at hand stands in: none, that of a prologue, or code with open braces.
#[derive(Clone, Copy, PartialEq, Eq)]
enum Code {
    Outside,
    Prologue,
    Braces { depth: usize },
}

/// The words so far. `start` is where the one at hand begins, and `inner` where a comment, or a quote
/// within code, does. `is_translated` says that a text stands within `_()`.
#[derive(Drop)]
struct Scanner {
    tokens: Vec<Token>,
    mode: Mode,
    code: Code,
    start: usize,
    inner: usize,
    is_translated: bool,
    sections: usize,
}

/// Whether a byte can stand in a name.
fn is_in_name(byte: u8) -> bool {
    byte.is_ascii_alphanumeric() || byte == b'_' || byte == b'.' || byte == b'-'
}

/// Whether a byte is white space.
fn is_blank(byte: u8) -> bool {
    byte.is_ascii_whitespace() || byte == 0x0b
}

/// The refusal of a byte.
fn bad(at: usize) -> Stop {
    Stop {
        at,
        fault: TextFault::BadCharacter,
    }
}

/// The refusal of what is left open.
fn unclosed(at: usize) -> Stop {
    Stop {
        at,
        fault: TextFault::Unclosed,
    }
}

impl Scanner {
    /// Adds a word that ends before byte `end`, if it isn't within code.
    fn add(&mut self, kind: Kind, end: usize) -> Result<(), Stop> {
        self.mode = Mode::Between;
        if self.code == Code::Outside {
            let start = self.start;
            self.tokens.push(Token { kind, start, end })?;
        }
        Ok(())
    }

    /// Adds a mark. A name before a colon becomes the left side of rules.
    fn add_mark(&mut self, mark: u8, end: usize) -> Result<(), Stop> {
        if mark == b':' {
            if let Some(last) = self.tokens.last_mut() {
                if last.kind == Kind::Name {
                    last.kind = Kind::Left;
                }
            }
        }
        self.add(Kind::Mark(mark), end)
    }

    /// Opens a brace.
    fn open_brace(&mut self) {
        self.mode = Mode::Between;
        self.code = match self.code {
            Code::Outside => Code::Braces { depth: 1 },
            Code::Prologue => Code::Prologue,
            Code::Braces { depth } => Code::Braces {
                depth: depth.saturating_add(1),
            },
        };
    }

    /// Closes a brace, and adds the code if it was the outermost.
    fn close_brace(&mut self, at: usize, end: usize) -> Result<(), Stop> {
        self.mode = Mode::Between;
        match self.code {
            Code::Outside => Err(bad(at)),
            Code::Prologue => Ok(()),
            Code::Braces { depth } if depth > 1 => {
                self.code = Code::Braces {
                    depth: depth.saturating_sub(1),
                };
                Ok(())
            }
            Code::Braces { .. } => {
                self.code = Code::Outside;
                self.add(Kind::Action, end)
            }
        }
    }

    /// Begins what a byte begins, inside code or outside.
    fn begin(&mut self, at: usize, end: usize, byte: u8) -> Result<(), Stop> {
        if self.code == Code::Outside {
            self.start = at;
        }
        self.inner = at;
        match byte {
            b'\'' => self.mode = Mode::Quoted {
                kind: Kind::Character,
                escaped: false,
            },
            b'"' => self.mode = Mode::Quoted {
                kind: Kind::Text,
                escaped: false,
            },
            b'/' => self.mode = Mode::Slash,
            b'%' => self.mode = Mode::Percent,
            b'{' => self.open_brace(),
            b'}' => self.close_brace(at, end)?,
            b'<' if self.code != Code::Outside => self.mode = Mode::Less,
            _ => {
                self.mode = Mode::Between;
                if self.code == Code::Outside && !is_blank(byte) {
                    self.begin_word(at, end, byte)?;
                }
            }
        }
        Ok(())
    }

    /// Begins what a byte begins outside of code. A comma is white space.
    fn begin_word(&mut self, at: usize, end: usize, byte: u8) -> Result<(), Stop> {
        match byte {
            b'<' => self.mode = Mode::Tag {
                depth: 1,
                dash: false,
            },
            b'[' => self.mode = Mode::Bracket,
            b':' | b'|' | b';' | b'=' => self.add_mark(byte, end)?,
            b',' => {}
            b'0'..=b'9' => self.mode = Mode::Word(Kind::Number),
            b'_' => self.mode = Mode::Underscore,
            b'a'..=b'z' | b'A'..=b'Z' | b'.' => self.mode = Mode::Word(Kind::Name),
            _ => return Err(bad(at)),
        }
        Ok(())
    }

    /// Takes the byte behind a `%`. In code `%}` ends a prologue, and `%>` closes a brace.
    fn percent(&mut self, at: usize, end: usize, byte: u8) -> Result<(), Stop> {
        match (self.code, byte) {
            (Code::Outside, b'%') => {
                self.add(Kind::Section, end)?;
                self.sections = self.sections.saturating_add(1);
                if self.sections > 1 {
                    self.mode = Mode::Epilogue;
                }
            }
            (Code::Outside, b'{') => {
                self.code = Code::Prologue;
                self.mode = Mode::Between;
            }
            (Code::Outside, b'?') => self.mode = Mode::Predicate,
            (Code::Outside, b'a'..=b'z' | b'A'..=b'Z' | b'_' | b'.') => {
                self.mode = Mode::Word(Kind::Directive);
            }
            (Code::Outside, _) => return Err(bad(self.start)),
            (Code::Prologue, b'}') => {
                self.code = Code::Outside;
                self.mode = Mode::Between;
            }
            (Code::Braces { depth }, b'>') => {
                self.code = Code::Braces {
                    depth: depth.saturating_sub(1).max(1),
                };
                self.mode = Mode::Between;
            }
            _ => self.begin(at, end, byte)?,
        }
        Ok(())
    }

    /// Takes a byte between `%?` and its code.
    fn predicate(&mut self, byte: u8) -> Result<(), Stop> {
        match byte {
            b'{' => self.open_brace(),
            _ if is_blank(byte) => {}
            _ => return Err(bad(self.start)),
        }
        Ok(())
    }

    /// Takes the byte behind a `/`, which stands alone in code only.
    fn slash(&mut self, at: usize, end: usize, byte: u8) -> Result<(), Stop> {
        match byte {
            b'/' => self.mode = Mode::Line { spliced: false },
            b'*' => self.mode = Mode::Comment { star: false },
            _ if self.code != Code::Outside => self.begin(at, end, byte)?,
            _ => return Err(bad(self.inner)),
        }
        Ok(())
    }

    /// Takes the byte behind a `<` in code. `<%` opens a brace, and `<<` is a word of its own.
    fn less(&mut self, at: usize, end: usize, byte: u8) -> Result<(), Stop> {
        match byte {
            b'%' => self.open_brace(),
            b'<' => self.mode = Mode::Between,
            _ => self.begin(at, end, byte)?,
        }
        Ok(())
    }

    /// Takes a byte of `_("text")` that is no byte of the text.
    fn translated(&mut self, at: usize, byte: u8, begins: bool) -> Result<(), Stop> {
        self.is_translated = begins;
        match byte {
            b'"' if begins => {
                self.start = at;
                self.inner = at;
                self.mode = Mode::Quoted {
                    kind: Kind::Text,
                    escaped: false,
                };
            }
            b')' if !begins => self.mode = Mode::Between,
            _ => return Err(bad(at)),
        }
        Ok(())
    }

    /// Takes a byte between quotes, which stand on one line. In code a line goes on behind `\`.
    fn quoted(&mut self, end: usize, byte: u8, kind: Kind, escaped: bool) -> Result<(), Stop> {
        let quote = if kind == Kind::Text { b'"' } else { b'\'' };
        if byte == quote && !escaped {
            self.add(kind, end)?;
            if self.is_translated {
                self.mode = Mode::Translated { begins: false };
            }
            return Ok(());
        }
        if byte == b'\n' && !(escaped && self.code != Code::Outside) {
            return Err(unclosed(self.inner));
        }
        self.mode = Mode::Quoted {
            kind,
            escaped: byte == b'\\' && !escaped,
        };
        Ok(())
    }

    /// Takes a byte of a type, which may have types in it, and arrows.
    fn tag(&mut self, end: usize, byte: u8, depth: usize, dash: bool) -> Result<(), Stop> {
        let depth = match byte {
            b'<' => depth.saturating_add(1),
            b'>' if !dash => depth.saturating_sub(1),
            _ => depth,
        };
        if depth == 0 {
            return self.add(Kind::Tag, end);
        }
        self.mode = Mode::Tag {
            depth,
            dash: byte == b'-',
        };
        Ok(())
    }

    /// Takes a byte of a comment that ends with its line. In code the line goes on behind `\`.
    fn line(&mut self, byte: u8, spliced: bool) {
        self.mode = match byte {
            b'\n' if !spliced => Mode::Between,
            b'\\' if self.code != Code::Outside => Mode::Line { spliced: true },
            _ => Mode::Line {
                spliced: spliced && byte != b'\n' && is_blank(byte),
            },
        };
    }

    /// Takes the byte at `at`, before `end`.
    fn step(&mut self, at: usize, end: usize, byte: u8) -> Result<(), Stop> {
        match self.mode {
            Mode::Between => self.begin(at, end, byte)?,
            Mode::Word(_) if is_in_name(byte) => {}
            Mode::Underscore if byte == b'(' => self.mode = Mode::Translated { begins: true },
            Mode::Underscore if is_in_name(byte) => self.mode = Mode::Word(Kind::Name),
            Mode::Underscore => {
                self.add(Kind::Name, at)?;
                self.begin(at, end, byte)?;
            }
            Mode::Word(kind) => {
                self.add(kind, at)?;
                self.begin(at, end, byte)?;
            }
            Mode::Translated { begins } => self.translated(at, byte, begins)?,
            Mode::Quoted { kind, escaped } => self.quoted(end, byte, kind, escaped)?,
            Mode::Tag { depth, dash } => self.tag(end, byte, depth, dash)?,
            Mode::Bracket if byte == b']' => self.mode = Mode::Between,
            Mode::Bracket => {}
            Mode::Percent => self.percent(at, end, byte)?,
            Mode::Predicate => self.predicate(byte)?,
            Mode::Slash => self.slash(at, end, byte)?,
            Mode::Less => self.less(at, end, byte)?,
            Mode::Line { spliced } => self.line(byte, spliced),
            Mode::Comment { star } => {
                self.mode = if star && byte == b'/' {
                    Mode::Between
                } else {
                    Mode::Comment { star: byte == b'*' }
                };
            }
            Mode::Epilogue => {}
        }
        Ok(())
    }

    /// Ends the last word, or fails where something is left open.
    fn finish(&mut self, end: usize) -> Result<(), Stop> {
        match self.mode {
            Mode::Word(kind) => self.add(kind, end),
            Mode::Underscore => self.add(Kind::Name, end),
            Mode::Slash | Mode::Comment { .. } | Mode::Quoted { .. } => Err(unclosed(self.inner)),
            Mode::Between | Mode::Line { .. } | Mode::Epilogue if self.code == Code::Outside => {
                Ok(())
            }
            _ => Err(unclosed(self.start)),
        }
    }
}

/// Returns the words of a grammar file. Fails at the first byte that begins no word, and where something
/// is left open.
pub(crate) fn scan(alloc: Global, text: &[u8]) -> Result<Vec<Token>, Stop> {
    let mut scanner = Scanner {
        tokens: Vec::new(alloc),
        mode: Mode::Between,
        code: Code::Outside,
        start: 0,
        inner: 0,
        is_translated: false,
        sections: 0,
    };
    for at in 0..text.len() {
        scanner.step(at, at + 1, text[at])?;
    }
    scanner.finish(text.len())?;
    Ok(scanner.tokens)
}
