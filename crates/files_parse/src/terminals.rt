//! Terminals by the words that name them.
ghost use Rattle.std.specs.Prelude.{◌≡◌, ◌≢◌, ℕ, List, [], ◌∷◌, cond, Some, IfNone, IfOk, IfSome, OnOk};
ghost use Rattle.std.specs.Borrow.{Bor};
ghost use Rattle.files_parse.specs.Terminals.{is_quoted, is_word, last_number, number_at};
ghost use Rattle.files_parse.specs.Tokens.{IsTerminal, quoted};
ghost use Rattle.vob_flow.specs.Lists.{lists_of};

use files_grammar::SymbolNames;
use indexmap::IndexMap;
use std::alloc::{AllocFailed, Global};
use std::marker::Model;

/// Numbers by words.
type Numbers<'a> = IndexMap<&'a [u8], usize>;

/// The terminals of a grammar file by the words that name them. A contract sees the names.
#[derive(Drop)]
pub struct Terminals<'a> {
    names: &'a SymbolNames,
    numbers: Numbers<'a>,
}

impl<'a> Model for Terminals<'a> {
    ghost use Rattle.files_grammar.specs.declared.file.SymbolNames.{SymbolNames as Seen};
    ghost use Rattle.files_parse.specs.Terminals.{HasTerminals};

    ghost Value = { Seen };

    ghost view = { λ terminals. terminals.names.now };

    ghost invariant = { λ terminals. HasTerminals terminals.names.now terminals.numbers };
}

/// Returns the character of a name that is one in single quotes.
fn character_of(name: &[u8]) -> Option<&[u8]>
    ensures some { IfSome result (λ text. (character : ℕ) × (text.now ≡ character ∷ [])
        × (name.now ≡ quoted character)) }
    ensures none { IfNone result ((character : ℕ) → name.now ≢ quoted character) }
{
    match name {
        [b'\'', character, b'\''] => Some(std::slice::from_ref(character)),
        _ => None,
    }
}

/// Adds numbers by names, each in place of another one at that word.
fn add_names<'a>(
    numbers: &mut Numbers<'a>,
    names: &'a [Vec<u8>],
) -> Result<(), AllocFailed<(&'a [u8], usize)>>
    ensures { OnOk result ((word : Bor (List ℕ)) → number_at numbers.new word
        ≡ last_number (is_word word.now) (lists_of names.now) 0 (number_at numbers.old word)) }
{
    for (number, name) in names.iter().enumerate() {
        numbers.insert(name.as_slice(), number)?;
    }
    Ok(())
}

/// Adds the number of a name by its character, if it is one in single quotes.
fn add_character<'a>(
    numbers: &mut Numbers<'a>,
    name: &'a [u8],
    number: usize,
) -> Result<(), AllocFailed<(&'a [u8], usize)>>
    ensures { OnOk result ((word : Bor (List ℕ)) → number_at numbers.new word
        ≡ cond (is_quoted word.now name.now) (Some number) (number_at numbers.old word)) }
{
    let Some(text) = character_of(name) else {
        return Ok(());
    };
    numbers.insert(text, number)?;
    Ok(())
}

/// Adds numbers by the characters of names that are one in single quotes.
fn add_characters<'a>(
    numbers: &mut Numbers<'a>,
    names: &'a [Vec<u8>],
) -> Result<(), AllocFailed<(&'a [u8], usize)>>
    ensures { OnOk result ((word : Bor (List ℕ)) → number_at numbers.new word
        ≡ last_number (is_quoted word.now) (lists_of names.now) 0 (number_at numbers.old word)) }
{
    for (number, name) in names.iter().enumerate() {
        add_character(numbers, name, number)?;
    }
    Ok(())
}

impl<'a> Terminals<'a> {
    /// Returns the terminals by their names and by their texts in quotes. Those of one quoted
    /// character also go by the character.
    pub fn of(
        alloc: Global,
        names: &'a SymbolNames,
    ) -> Result<Terminals<'a>, AllocFailed<(&'a [u8], usize)>>
        ensures { IfOk result (λ terminals. terminals ≡ names.now) }
    {
        let mut numbers = IndexMap::new(alloc);
        add_characters(&mut numbers, &names.identifiers)?;
        add_names(&mut numbers, &names.identifiers)?;
        add_names(&mut numbers, &names.terminals)?;
        Ok(Terminals { names, numbers })
    }

    /// Returns the terminal that a word names, or `None` if there is none.
    pub fn find(&self, word: &[u8]) -> Option<usize>
        ensures some { IfSome result (λ number. IsTerminal self.now word.now number) }
        ensures none { IfNone result ((number : ℕ) → ¬ IsTerminal self.now word.now number) }
    {
        self.numbers.get(word).copied()
    }
}
