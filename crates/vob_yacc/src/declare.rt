//! The directives of a grammar file, and the words that may follow each.

use crate::scan::Kind;
use vob_lr::Associativity;

/// What a directive declares, by the words that follow it.
#[derive(Clone, Copy, PartialEq, Eq)]
pub(crate) enum Declares {
    /// Nothing: no directive is at hand.
    Nothing,
    /// Tokens, each with a number or without, and with a text or without.
    Tokens,
    /// Nonterminals.
    Nonterminals,
    /// Symbols and their types.
    Types,
    /// Terminals with a precedence, each with a number or without.
    Operators(Associativity),
    /// Start symbols.
    Start,
    /// The number of conflicts between shifts and reductions.
    Conflicts,
    /// The number of conflicts between reductions.
    Reductions,
    /// A variable and its value, if it has one.
    Variable,
    /// Whether rules without `%prec` have a precedence.
    DefaultPrecedence(bool),
    /// That a parser may do all of two actions.
    Ambiguous,
    /// Nothing that matters to tables, by a word alone.
    Flag,
    /// The same, by a text; with `=` before it, if `equals`.
    Text { equals: bool },
    /// The same, by a text or none.
    TextIfAny,
    /// The same, by code; with a name before it, if `named`.
    Code { named: bool },
    /// The same, by one code or more.
    Codes,
    /// The same, by code, and then the symbols and types that it is for.
    CodeFor,
}

/// The directives. Some have two spellings.
const DIRECTIVES: [(&[u8], Declares); 51] = [
    (b"%token", Declares::Tokens),
    (b"%term", Declares::Tokens),
    (b"%nterm", Declares::Nonterminals),
    (b"%type", Declares::Types),
    (b"%left", Declares::Operators(Associativity::Left)),
    (b"%right", Declares::Operators(Associativity::Right)),
    (b"%nonassoc", Declares::Operators(Associativity::Neither)),
    (b"%binary", Declares::Operators(Associativity::Neither)),
    (b"%precedence", Declares::Operators(Associativity::Unstated)),
    (b"%start", Declares::Start),
    (b"%expect", Declares::Conflicts),
    (b"%expect-rr", Declares::Reductions),
    (b"%expect_rr", Declares::Reductions),
    (b"%define", Declares::Variable),
    (b"%default-prec", Declares::DefaultPrecedence(true)),
    (b"%default_prec", Declares::DefaultPrecedence(true)),
    (b"%no-default-prec", Declares::DefaultPrecedence(false)),
    (b"%no_default_prec", Declares::DefaultPrecedence(false)),
    (b"%glr-parser", Declares::Ambiguous),
    (b"%nondeterministic-parser", Declares::Ambiguous),
    (b"%debug", Declares::Flag),
    (b"%error-verbose", Declares::Flag),
    (b"%error_verbose", Declares::Flag),
    (b"%fixed-output-files", Declares::Flag),
    (b"%fixed_output_files", Declares::Flag),
    (b"%locations", Declares::Flag),
    (b"%no-lines", Declares::Flag),
    (b"%no_lines", Declares::Flag),
    (b"%pure-parser", Declares::Flag),
    (b"%pure_parser", Declares::Flag),
    (b"%token-table", Declares::Flag),
    (b"%token_table", Declares::Flag),
    (b"%verbose", Declares::Flag),
    (b"%yacc", Declares::Flag),
    (b"%language", Declares::Text { equals: false }),
    (b"%require", Declares::Text { equals: false }),
    (b"%skeleton", Declares::Text { equals: false }),
    (b"%file-prefix", Declares::Text { equals: true }),
    (b"%name-prefix", Declares::Text { equals: true }),
    (b"%name_prefix", Declares::Text { equals: true }),
    (b"%output", Declares::Text { equals: true }),
    (b"%defines", Declares::TextIfAny),
    (b"%header", Declares::TextIfAny),
    (b"%initial-action", Declares::Code { named: false }),
    (b"%code", Declares::Code { named: true }),
    (b"%union", Declares::Code { named: true }),
    (b"%lex-param", Declares::Codes),
    (b"%param", Declares::Codes),
    (b"%parse-param", Declares::Codes),
    (b"%destructor", Declares::CodeFor),
    (b"%printer", Declares::CodeFor),
];

/// Whether a word can be a symbol.
pub(crate) fn is_symbol(kind: Kind) -> bool {
    kind == Kind::Name || kind == Kind::Character || kind == Kind::Text
}

/// Whether a word is a name or a character.
fn is_name(kind: Kind) -> bool {
    kind == Kind::Name || kind == Kind::Character
}

impl Declares {
    /// Returns what a directive declares, if it is one of the first part.
    pub(crate) fn of(name: &[u8]) -> Option<Declares> {
        DIRECTIVES
            .iter()
            .find(|(own, _)| *own == name)
            .map(|(_, declares)| *declares)
    }

    /// Whether the directive may also stand among the rules.
    pub(crate) fn is_of_rules(self) -> bool {
        match self {
            Declares::Tokens
            | Declares::Nonterminals
            | Declares::Types
            | Declares::Operators(_)
            | Declares::Start
            | Declares::DefaultPrecedence(_)
            | Declares::Code { named: true }
            | Declares::CodeFor => true,
            _ => false,
        }
    }

    /// Whether a word of a kind may be the next one behind the directive. `words` counts those before it,
    /// and `last` is the kind of the last.
    pub(crate) fn takes(self, words: usize, last: Option<Kind>, kind: Kind) -> bool {
        let is_list = is_symbol(kind) || kind == Kind::Tag && last != Some(Kind::Tag);
        match self {
            Declares::Tokens => match kind {
                Kind::Number => last.is_some_and(is_name),
                Kind::Text => last.is_some_and(|last| is_name(last) || last == Kind::Number),
                _ => is_list,
            },
            Declares::Operators(_) if kind == Kind::Number => last.is_some_and(is_name),
            Declares::Operators(_) | Declares::Types => is_list,
            Declares::Nonterminals => is_list && is_other(kind, &[Kind::Character, Kind::Text]),
            Declares::Start => is_symbol(kind),
            Declares::Conflicts | Declares::Reductions => words == 0 && kind == Kind::Number,
            Declares::Variable if words == 0 => kind == Kind::Name,
            Declares::Variable => {
                words == 1 && !is_other(kind, &[Kind::Name, Kind::Text, Kind::Action])
            }
            Declares::Text { equals } => match kind {
                Kind::Mark(b'=') => equals && words == 0,
                _ => kind == Kind::Text && last != Some(Kind::Text),
            },
            Declares::TextIfAny => words == 0 && kind == Kind::Text,
            Declares::Code { named } => match kind {
                Kind::Name => named && words == 0,
                _ => kind == Kind::Action && last != Some(Kind::Action),
            },
            Declares::Codes => kind == Kind::Action,
            Declares::CodeFor if words == 0 => kind == Kind::Action,
            Declares::CodeFor => is_symbol(kind) || kind == Kind::Tag,
            _ => false,
        }
    }

    /// Whether the directive may end behind so many words, the last of which is of this kind.
    pub(crate) fn may_end(self, words: usize, last: Option<Kind>) -> bool {
        match self {
            Declares::Nothing
            | Declares::DefaultPrecedence(_)
            | Declares::Ambiguous
            | Declares::Flag
            | Declares::TextIfAny => true,
            Declares::CodeFor => words > 1,
            Declares::Code { .. } => last == Some(Kind::Action),
            _ => last.is_some_and(|last| is_other(last, &[Kind::Tag, Kind::Mark(b'=')])),
        }
    }
}

/// Whether a kind is none of some others.
fn is_other(kind: Kind, others: &[Kind]) -> bool {
    others.iter().all(|other| *other != kind)
}
