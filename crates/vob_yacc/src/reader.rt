//! The reader of a grammar file, word by word: its declarations.

use crate::declare::{Declares, is_symbol};
use crate::literal::{character_of, is_right, number_of, unquoted};
use crate::rules::{Alternative, RuleText, Wants};
use crate::scan::{Kind, Token};
use crate::symbols::Symbols;
use crate::text_error::{Stop, TextFault};
use std::alloc::Global;
use vob_lr::{Associativity, Precedence};

/// The directive at hand: where it stands, how many words stand behind it, what the last of them is, and the
/// type that the last of them in `<>` says.
#[derive(Clone, Copy)]
pub(crate) struct Directive<'a> {
    pub declares: Declares,
    at: usize,
    words: usize,
    last: Option<Kind>,
    variable: &'a [u8],
    tag: &'a [u8],
    symbol: (usize, usize),
}

/// A file as it is read: what it has declared, its rules, and the alternative at hand.
#[derive(Drop)]
pub(crate) struct Reader<'a> {
    pub symbols: Symbols<'a>,
    pub rules: Vec<RuleText>,
    /// The start symbol, and where it is named: that of `%start`, or the left side of the first rule.
    pub start: Option<(usize, usize)>,
    pub first: Option<(usize, usize)>,
    pub expected: (Option<usize>, Option<usize>),
    pub is_ambiguous: bool,
    pub has_default_precedence: bool,
    pub directive: Directive<'a>,
    pub sections: usize,
    pub left: Option<usize>,
    pub alternative: Option<Alternative<'a>>,
    pub wants: Wants,
    level: usize,
}

/// The refusal of a word.
pub(crate) fn refused(token: &Token, fault: TextFault) -> Stop {
    Stop {
        at: token.start,
        fault,
    }
}

/// Returns the number that a word is. Fails if it is none.
pub(crate) fn number_at(name: &[u8], token: &Token) -> Result<usize, Stop> {
    number_of(name).ok_or(refused(token, TextFault::BadCharacter))
}

impl Directive<'_> {
    /// No directive.
    fn none() -> Self {
        Directive {
            declares: Declares::Nothing,
            at: 0,
            words: 0,
            last: None,
            variable: &[],
            tag: &[],
            symbol: (0, 0),
        }
    }
}

impl<'a> Reader<'a> {
    /// Begins to read.
    pub(crate) fn new(alloc: Global) -> Result<Reader<'a>, Stop> {
        Ok(Reader {
            symbols: Symbols::new(alloc)?,
            rules: Vec::new(alloc),
            start: None,
            first: None,
            expected: (None, None),
            is_ambiguous: false,
            has_default_precedence: true,
            directive: Directive::none(),
            sections: 0,
            left: None,
            alternative: None,
            wants: Wants::Nothing,
            level: 0,
        })
    }

    /// Takes a word.
    pub(crate) fn take(
        &mut self,
        alloc: Global,
        name: &'a [u8],
        token: &Token,
    ) -> Result<(), Stop> {
        if token.kind == Kind::Text && !is_right(name) {
            return Err(refused(token, TextFault::BadCharacter));
        }
        if token.kind == Kind::Section {
            self.end_part(alloc, token.start)
        } else if self.sections > 0 {
            self.rule(alloc, name, token)
        } else {
            self.declaration(alloc, name, token)
        }
    }

    /// Ends the first part, or the rules.
    fn end_part(&mut self, alloc: Global, at: usize) -> Result<(), Stop> {
        if self.sections == 0 {
            self.end_directive(at)?;
        } else {
            self.end_rules(alloc, at)?;
        }
        self.sections = self.sections.saturating_add(1);
        Ok(())
    }

    /// Ends a file of this length. Fails there if more must follow.
    pub(crate) fn finish(&mut self, alloc: Global, len: usize) -> Result<(), Stop> {
        match self.sections {
            0 => self.end_directive(len),
            1 => self.end_rules(alloc, len),
            _ => Ok(()),
        }
    }

    /// Takes a word of the first part.
    fn declaration(&mut self, alloc: Global, name: &'a [u8], token: &Token) -> Result<(), Stop> {
        match token.kind {
            Kind::Directive => {
                self.end_directive(token.start)?;
                match Declares::of(name) {
                    Some(declares) => self.begin_directive(declares, token.start),
                    None => return Err(refused(token, TextFault::UnknownDirective)),
                }
                Ok(())
            }
            Kind::Mark(b';') => self.end_directive(token.start),
            _ => self.declare(alloc, name, token),
        }
    }

    /// Begins a directive.
    pub(crate) fn begin_directive(&mut self, declares: Declares, at: usize) {
        self.directive = Directive {
            declares,
            at,
            ..Directive::none()
        };
        match declares {
            Declares::Operators(_) => self.level = self.level.saturating_add(1),
            Declares::DefaultPrecedence(has) => self.has_default_precedence = has,
            Declares::Ambiguous => self.is_ambiguous = true,
            _ => {}
        }
    }

    /// Ends the directive at hand before the word at `at`. Fails there if more words must follow.
    pub(crate) fn end_directive(&mut self, at: usize) -> Result<(), Stop> {
        let Directive {
            declares,
            words,
            last,
            ..
        } = self.directive;
        if !declares.may_end(words, last) {
            return Err(Stop {
                at,
                fault: TextFault::Unexpected,
            });
        }
        if self.directive.variable == b"lr.type".as_slice() && words == 1 {
            return Err(Stop {
                at: self.directive.at,
                fault: TextFault::OnlyLalr,
            });
        }
        self.directive = Directive::none();
        Ok(())
    }

    /// Takes a word behind a directive.
    pub(crate) fn declare(
        &mut self,
        alloc: Global,
        name: &'a [u8],
        token: &Token,
    ) -> Result<(), Stop> {
        let kind = token.kind;
        let Directive {
            declares,
            words,
            last,
            ..
        } = self.directive;
        if !declares.takes(words, last, kind) {
            return Err(refused(token, TextFault::Unexpected));
        }
        match declares {
            Declares::Tokens => self.declare_token(alloc, name, token)?,
            Declares::Operators(associativity) => {
                self.declare_operator(alloc, name, token, associativity)?;
            }
            Declares::Nonterminals | Declares::Types if kind == Kind::Tag => {
                self.directive.tag = unquoted(name);
            }
            Declares::Nonterminals => self.declare_nonterminal(alloc, name, token)?,
            Declares::Types => self.declare_type(alloc, name, token)?,
            Declares::CodeFor if is_symbol(kind) => {
                self.symbol(alloc, name, token)?;
            }
            Declares::Start => self.declare_start(alloc, name, token)?,
            Declares::Conflicts => self.expected.0 = Some(number_at(name, token)?),
            Declares::Reductions => self.expected.1 = Some(number_at(name, token)?),
            Declares::Variable => self.define(name, token)?,
            _ => {}
        }
        self.directive.words = words.saturating_add(1);
        self.directive.last = Some(kind);
        Ok(())
    }

    /// Returns the symbol that a word names.
    pub(crate) fn symbol(
        &mut self,
        alloc: Global,
        name: &'a [u8],
        token: &Token,
    ) -> Result<usize, Stop> {
        match token.kind {
            Kind::Name => self.symbols.named(alloc, name, token.start),
            _ => self.terminal(alloc, name, token),
        }
    }

    /// Returns the terminal that a word names.
    pub(crate) fn terminal(
        &mut self,
        alloc: Global,
        name: &'a [u8],
        token: &Token,
    ) -> Result<usize, Stop> {
        if token.kind != Kind::Character {
            return self.symbols.terminal(alloc, name, token.start);
        }
        match character_of(name) {
            Some(character) => self.symbols.character(alloc, character, token.start),
            None => Err(refused(token, TextFault::BadCharacter)),
        }
    }

    /// Gives a symbol the type at hand, if there is one.
    fn set_type(&mut self, alloc: Global, symbol: usize, token: &Token) -> Result<(), Stop> {
        self.symbols
            .set_type(alloc, symbol, self.directive.tag, token.start)
    }

    /// Takes a nonterminal behind `%nterm`.
    fn declare_nonterminal(
        &mut self,
        alloc: Global,
        name: &'a [u8],
        token: &Token,
    ) -> Result<(), Stop> {
        let symbol = self.symbols.nonterminal(alloc, name, token.start)?;
        self.symbols.note_declaration(symbol, token.start, false);
        self.set_type(alloc, symbol, token)
    }

    /// Takes a symbol behind `%type`.
    fn declare_type(&mut self, alloc: Global, name: &'a [u8], token: &Token) -> Result<(), Stop> {
        let symbol = self.symbol(alloc, name, token)?;
        self.set_type(alloc, symbol, token)
    }

    /// Takes a word behind `%token`.
    fn declare_token(&mut self, alloc: Global, name: &'a [u8], token: &Token) -> Result<(), Stop> {
        let (symbol, at) = self.directive.symbol;
        match token.kind {
            Kind::Tag => {
                self.directive.tag = unquoted(name);
                Ok(())
            }
            Kind::Number => {
                let code = number_at(name, token)?;
                self.symbols.set_code(symbol, code, at, token.start)
            }
            Kind::Text => {
                let text = self.terminal(alloc, name, token)?;
                self.symbols.add_text(alloc, symbol, text)
            }
            _ => {
                let symbol = self.terminal(alloc, name, token)?;
                self.symbols.note_declaration(symbol, token.start, false);
                self.directive.symbol = (symbol, token.start);
                self.set_type(alloc, symbol, token)
            }
        }
    }

    /// Takes a word behind `%left` or its like.
    fn declare_operator(
        &mut self,
        alloc: Global,
        name: &'a [u8],
        token: &Token,
        associativity: Associativity,
    ) -> Result<(), Stop> {
        if !is_symbol(token.kind) {
            return self.declare_token(alloc, name, token);
        }
        let symbol = self.terminal(alloc, name, token)?;
        self.directive.symbol = (symbol, token.start);
        self.set_type(alloc, symbol, token)?;
        let level = self.level;
        let precedence = Precedence {
            level,
            associativity,
        };
        self.symbols
            .set_precedence(symbol, precedence, self.directive.at)
    }

    /// Takes a word behind `%start`. Fails if it is a second start symbol.
    fn declare_start(&mut self, alloc: Global, name: &'a [u8], token: &Token) -> Result<(), Stop> {
        let symbol = self.symbol(alloc, name, token)?;
        match self.start {
            Some((start, _)) if start != symbol => Err(refused(token, TextFault::SecondStart)),
            Some(_) => Ok(()),
            None => {
                self.start = Some((symbol, token.start));
                Ok(())
            }
        }
    }

    /// Takes a word behind `%define`. The one variable that matters is `lr.type`.
    fn define(&mut self, name: &'a [u8], token: &Token) -> Result<(), Stop> {
        if self.directive.words == 0 {
            self.directive.variable = name;
            return Ok(());
        }
        let value = match token.kind {
            Kind::Name => name,
            _ => unquoted(name),
        };
        if self.directive.variable == b"lr.type".as_slice() && value != b"lalr".as_slice() {
            return Err(refused(token, TextFault::OnlyLalr));
        }
        Ok(())
    }
}
