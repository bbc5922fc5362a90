//! The reader of a grammar file, word by word: its rules.

use crate::declare::{Declares, is_symbol};
use crate::literal::unquoted;
use crate::reader::{Reader, number_at, refused};
use crate::scan::{Kind, Token};
use crate::text_error::{Stop, TextFault};
use crate::values::values_of;
use std::alloc::Global;

/// A rule: its symbols, that of `%prec`, and where its right side begins.
#[derive(Drop)]
pub(crate) struct RuleText {
    pub left: usize,
    pub right: Vec<usize>,
    pub precedence: Option<usize>,
    pub at: usize,
}

/// An action: where it stands, its type, and whether its code names its own value.
#[derive(Clone, Copy)]
struct Action<'a> {
    at: usize,
    tag: &'a [u8],
    has_value: bool,
}

/// The alternative at hand: its symbols, an action that is the last of it so far, the type behind which an
/// action must follow, the places of the actions that are symbols, the numbers of the symbols whose values
/// are named, and what its directives say.
#[derive(Drop)]
pub(crate) struct Alternative<'a> {
    at: Option<usize>,
    right: Vec<usize>,
    action: Option<Action<'a>>,
    tag: &'a [u8],
    actions: Vec<usize>,
    named: Vec<usize>,
    empty: Option<usize>,
    precedence: Option<usize>,
    has_rank: bool,
    has_merger: bool,
}

/// What word must follow.
#[derive(Clone, Copy, PartialEq, Eq)]
pub(crate) enum Wants {
    /// Any that may.
    Nothing,
    /// The colon behind a left side.
    Colon,
    /// The terminal of `%prec`.
    Precedence,
    /// The number of `%expect` in a rule.
    Number,
    /// The number of `%dprec`.
    Rank,
    /// The type of `%merge`.
    Merger,
    /// The action behind its type.
    Action,
}

impl<'a> Alternative<'a> {
    /// An alternative without symbols.
    fn new(alloc: Global) -> Alternative<'a> {
        Alternative {
            at: None,
            right: Vec::new(alloc),
            action: None,
            tag: &[],
            actions: Vec::new(alloc),
            named: Vec::new(alloc),
            empty: None,
            precedence: None,
            has_rank: false,
            has_merger: false,
        }
    }
}

/// Notes that a directive stands in a rule. Fails if it does already.
fn note(has: &mut bool, token: &Token) -> Result<(), Stop> {
    if *has {
        return Err(refused(token, TextFault::Unexpected));
    }
    *has = true;
    Ok(())
}

impl<'a> Reader<'a> {
    /// Takes a word of the second part.
    pub(crate) fn rule(
        &mut self,
        alloc: Global,
        name: &'a [u8],
        token: &Token,
    ) -> Result<(), Stop> {
        if self.directive.declares != Declares::Nothing {
            return self.declaration_among_rules(alloc, name, token);
        }
        if let Some(alternative) = &mut self.alternative {
            alternative.at = alternative.at.or(Some(token.start));
        }
        if self.wants != Wants::Nothing {
            return self.wanted(alloc, name, token);
        }
        match token.kind {
            Kind::Left => self.begin_rule(alloc, name, token),
            Kind::Mark(b'|') if self.left.is_some() => {
                self.end_alternative(alloc, token.start)?;
                self.alternative = Some(Alternative::new(alloc));
                Ok(())
            }
            Kind::Mark(b';') if self.left.is_some() => self.end_alternative(alloc, token.start),
            Kind::Directive => self.direct(alloc, name, token),
            Kind::Action => self.add_action(alloc, name, token),
            Kind::Tag => self.add_tag(name, token),
            kind if is_symbol(kind) => self.add_symbol(alloc, name, token),
            _ => Err(refused(token, TextFault::Unexpected)),
        }
    }

    /// Takes a word behind a directive among the rules, which ends with `;`.
    fn declaration_among_rules(
        &mut self,
        alloc: Global,
        name: &'a [u8],
        token: &Token,
    ) -> Result<(), Stop> {
        match token.kind {
            Kind::Mark(b';') => self.end_directive(token.start),
            _ => self.declare(alloc, name, token),
        }
    }

    /// Takes the left side of rules.
    fn begin_rule(&mut self, alloc: Global, name: &'a [u8], token: &Token) -> Result<(), Stop> {
        self.end_alternative(alloc, token.start)?;
        let left = self.symbols.nonterminal(alloc, name, token.start)?;
        self.symbols.note_declaration(left, token.start, true);
        self.left = Some(left);
        self.first = self.first.or(Some((left, token.start)));
        self.wants = Wants::Colon;
        Ok(())
    }

    /// Takes the word that must follow another.
    fn wanted(&mut self, alloc: Global, name: &'a [u8], token: &Token) -> Result<(), Stop> {
        let wants = std::mem::replace(&mut self.wants, Wants::Nothing);
        match (wants, token.kind) {
            (Wants::Colon, Kind::Mark(b':')) => {
                self.alternative = Some(Alternative::new(alloc));
                Ok(())
            }
            (Wants::Precedence, kind) if is_symbol(kind) => self.add_precedence(alloc, name, token),
            (Wants::Number | Wants::Rank, Kind::Number) => {
                number_at(name, token)?;
                match &mut self.alternative {
                    Some(own) if wants == Wants::Rank => note(&mut own.has_rank, token),
                    _ => Ok(()),
                }
            }
            (Wants::Merger, Kind::Tag) => match &mut self.alternative {
                Some(own) => note(&mut own.has_merger, token),
                None => Ok(()),
            },
            (Wants::Action, Kind::Action) => self.add_action(alloc, name, token),
            _ => Err(refused(token, TextFault::Unexpected)),
        }
    }

    /// Takes a directive of a rule, or one that declares something among the rules.
    fn direct(&mut self, alloc: Global, name: &[u8], token: &Token) -> Result<(), Stop> {
        let wants = match name {
            b"%prec" => Wants::Precedence,
            b"%dprec" => Wants::Rank,
            b"%merge" => Wants::Merger,
            b"%expect" | b"%expect-rr" | b"%expect_rr" => Wants::Number,
            b"%empty" => Wants::Nothing,
            _ => return self.declare_among_rules(alloc, name, token),
        };
        self.wants = wants;
        let Some(alternative) = &mut self.alternative else {
            return Err(refused(token, TextFault::Unexpected));
        };
        if wants == Wants::Nothing {
            if alternative.empty.is_some() {
                return Err(refused(token, TextFault::Unexpected));
            }
            alternative.empty = Some(token.start);
        }
        Ok(())
    }

    /// Begins a directive among the rules.
    fn declare_among_rules(
        &mut self,
        alloc: Global,
        name: &[u8],
        token: &Token,
    ) -> Result<(), Stop> {
        match Declares::of(name) {
            Some(declares) if declares.is_of_rules() => {
                self.end_alternative(alloc, token.start)?;
                self.left = None;
                self.begin_directive(declares, token.start);
                Ok(())
            }
            Some(_) => Err(refused(token, TextFault::Unexpected)),
            None => Err(refused(token, TextFault::UnknownDirective)),
        }
    }

    /// Takes the terminal of `%prec`.
    fn add_precedence(&mut self, alloc: Global, name: &'a [u8], token: &Token) -> Result<(), Stop> {
        let terminal = self.terminal(alloc, name, token)?;
        match &mut self.alternative {
            Some(own) if own.precedence.is_none() => own.precedence = Some(terminal),
            _ => return Err(refused(token, TextFault::Unexpected)),
        }
        Ok(())
    }

    /// Lets the action that is the last of the alternative so far be a nonterminal that derives nothing,
    /// since something follows.
    fn keep_action(&mut self, alloc: Global) -> Result<(), Stop> {
        let Some(own) = &mut self.alternative else {
            return Ok(());
        };
        let Some(Action { at, tag, has_value }) = own.action.take() else {
            return Ok(());
        };
        let left = self.symbols.action(alloc, at)?;
        own.right.push(left)?;
        own.actions.push(own.right.len())?;
        self.symbols.set_type(alloc, left, tag, at)?;
        if has_value {
            self.symbols.note_value(alloc, left)?;
        }
        self.rules.push(RuleText {
            left,
            right: Vec::new(alloc),
            precedence: None,
            at,
        })?;
        Ok(())
    }

    /// Takes the type of an action, which must follow.
    fn add_tag(&mut self, name: &'a [u8], token: &Token) -> Result<(), Stop> {
        let Some(own) = &mut self.alternative else {
            return Err(refused(token, TextFault::Unexpected));
        };
        own.tag = unquoted(name);
        self.wants = Wants::Action;
        Ok(())
    }

    /// Takes an action.
    fn add_action(&mut self, alloc: Global, name: &'a [u8], token: &Token) -> Result<(), Stop> {
        self.keep_action(alloc)?;
        let Some(own) = &mut self.alternative else {
            return Err(refused(token, TextFault::Unexpected));
        };
        let (has_value, named) = values_of(alloc, name)?;
        own.named.extend_from_slice(&named)?;
        own.action = Some(Action {
            at: token.start,
            tag: std::mem::replace(&mut own.tag, &[]),
            has_value,
        });
        Ok(())
    }

    /// Takes a symbol of a right side.
    fn add_symbol(&mut self, alloc: Global, name: &'a [u8], token: &Token) -> Result<(), Stop> {
        self.keep_action(alloc)?;
        let symbol = self.symbol(alloc, name, token)?;
        self.symbols.note_use(symbol);
        match &mut self.alternative {
            Some(own) => own.right.push(symbol)?,
            None => return Err(refused(token, TextFault::Unexpected)),
        }
        Ok(())
    }

    /// Notes of which actions of an alternative that are symbols its code names the values.
    fn note_values(&mut self, alloc: Global, own: &Alternative<'a>) -> Result<(), Stop> {
        for place in own.actions.iter().filter(|place| own.named.contains(place)) {
            if let Some(symbol) = own.right.get(place.saturating_sub(1)) {
                self.symbols.note_value(alloc, *symbol)?;
            }
        }
        Ok(())
    }

    /// Ends the alternative at hand before the word at `at`, if there is one, and adds its rule. Fails at
    /// its `%empty` if it isn't empty.
    fn end_alternative(&mut self, alloc: Global, at: usize) -> Result<(), Stop> {
        let (Some(left), Some(own)) = (self.left, self.alternative.take()) else {
            return Ok(());
        };
        if let Some(at) = own.empty {
            if !own.right.is_empty() {
                let fault = TextFault::NotEmpty;
                return Err(Stop { at, fault });
            }
        }
        self.note_values(alloc, &own)?;
        self.rules.push(RuleText {
            left,
            right: own.right,
            precedence: own.precedence,
            at: own.at.unwrap_or(at),
        })?;
        Ok(())
    }

    /// Ends the rules before the word at `at`. Fails there if another word must follow.
    pub(crate) fn end_rules(&mut self, alloc: Global, at: usize) -> Result<(), Stop> {
        if self.wants != Wants::Nothing || self.directive.declares != Declares::Nothing {
            let fault = TextFault::Unexpected;
            return Err(Stop { at, fault });
        }
        self.end_alternative(alloc, at)
    }
}
