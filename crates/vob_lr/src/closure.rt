//! Sets of items: their closures, and what is left of them when the dot passes a symbol.
ghost use Rattle.std.specs.Prelude.{◌≡◌, ◌≢◌, ◌↔◌, ℕ, ◌<◌, length, All, Contains, Err, IfOk, IsTrue, OnOk, Some};
ghost use Rattle.vob.specs.Vobs.{AreOfLength};
ghost use Rattle.vob_lr.specs.Equations.{AreEquations, At, GainEach};
ghost use Rattle.vob_lr.specs.Expansions.{Adds, Advances, AreExpansions, Expands, Gains, Gives, Has, HasOpening, HasRow, IsBrought, IsOpening};
ghost use Rattle.vob_lr.specs.Faults.{IsBadRule, IsWellFormed};
ghost use Rattle.vob_lr.specs.ItemSets.{IsAdvanced, IsItemClosure, IsGoto};
ghost use Rattle.vob_lr.specs.Items.{item_total};
ghost use Rattle.vob_lr.specs.Ahead.{AreAhead};
ghost use Rattle.vob_lr.specs.States.{IsStart};
ghost use Rattle.vob_lr.specs.Those.{AreThose};

use crate::ahead::ahead_of;
use crate::equations::Equations;
use crate::grammar::{Grammar, GrammarError, Symbol, check_rules};
use crate::items::Items;
use std::alloc::{AllocError, Global};
use std::marker::Model;
use vob::Vob;
use vob_rows::BitRows;

/// Lets the set of a left side start with a rule's first item, and draw from that of the nonterminal
/// behind its dot.
fn open_rule(
    first: usize,
    right: &[Symbol],
    left: usize,
    equations: &mut Equations,
) -> Result<(), AllocError>
    requires set { left < length equations.old.starts }
    requires place { first < equations.old.places }
    ensures { OnOk result
        (GainEach (At left (IsOpening first right.now)) equations.old equations.new) }
{
    equations.start(left, first);
    if let Some(Symbol::Nonterminal(nonterminal)) = right.first() {
        equations.draw(left, *nonterminal)?;
    }
    Ok(())
}

/// Does that for all rules.
fn open_rules(
    grammar: &Grammar,
    items: &Items<'_>,
    equations: &mut Equations,
) -> Result<(), AllocError>
    requires items { items.now ≡ grammar.now }
    requires rules { IsWellFormed grammar.now }
    requires sets { length equations.old.starts ≡ grammar.now.nonterminals }
    requires places { equations.old.places ≡ item_total grammar.now.rules.items }
    ensures { OnOk result
        (GainEach (HasOpening grammar.now.rules.items (length grammar.now.rules.items))
        equations.old equations.new) }
{
    for number in 0..grammar.rules.len() {
        let rule = &grammar.rules[number];
        open_rule(items.first(number), &rule.right, rule.left, equations)?;
    }
    Ok(())
}

/// Returns what each nonterminal brings at once, and from which others it draws.
pub(crate) fn expansion_equations(
    alloc: Global,
    grammar: &Grammar,
    items: &Items<'_>,
) -> Result<Equations, AllocError>
    requires items { items.now ≡ grammar.now }
    requires rules { IsWellFormed grammar.now }
    ensures { IfOk result (AreEquations grammar.now.nonterminals
        (item_total grammar.now.rules.items) (Expands grammar.now.rules.items)) }
{
    let mut equations = Equations::new(alloc, grammar.nonterminals, items.len())?;
    open_rules(grammar, items, &mut equations)?;
    Ok(equations)
}

/// Returns for each nonterminal of a grammar with sound rules the items that it brings.
fn expansions_of(alloc: Global, grammar: &Grammar, items: &Items<'_>) -> Result<BitRows, AllocError>
    requires items { items.now ≡ grammar.now }
    requires rules { IsWellFormed grammar.now }
    ensures { IfOk result (λ expansions. AreExpansions grammar.now expansions.rows) }
{
    let equations = expansion_equations(alloc, grammar, items)?;
    let expansions = equations.solve(alloc)?;
    Ok(expansions)
}

/// Adds to a set of items what a symbol behind a dot brings into its closure.
fn bring_by(symbol: Symbol, expansions: &BitRows, made: &mut Vob)
    requires row { HasRow (length expansions.now.rows) (Some symbol) }
    requires long { AreOfLength (length made.old.bits) expansions.now.rows }
    ensures { Gains (IsBrought expansions.now.rows (Some symbol))
        made.old.bits made.new.bits }
{
    match symbol {
        Symbol::Terminal(_) => {}
        Symbol::Nonterminal(nonterminal) => {
            expansions.row(nonterminal).or_into(made);
        }
    }
}

/// Does that if there is one.
fn bring(next: Option<Symbol>, expansions: &BitRows, made: &mut Vob)
    requires row { HasRow (length expansions.now.rows) next }
    requires long { AreOfLength (length made.old.bits) expansions.now.rows }
    ensures { Gains (IsBrought expansions.now.rows next) made.old.bits made.new.bits }
{
    match next {
        None => {}
        Some(symbol) => bring_by(symbol, expansions, made),
    }
}

/// Whether this symbol stands behind a dot.
fn stands_behind(next: Option<Symbol>, symbol: Symbol) -> bool
    ensures { IsTrue result ↔ (next ≡ Some symbol) }
{
    next == Some(symbol)
}

/// Returns the numbers that a set of bits has, in rising order.
fn numbers_of(alloc: Global, set: &Vob) -> Result<Vec<usize>, AllocError>
    ensures { IfOk result (λ numbers. AreThose (Has set.now.bits) numbers.items) }
{
    set.iter_set_bits(..).collect(alloc)
}

/// The items of a grammar with sound rules, and what each nonterminal brings into a closure. A
/// contract sees the grammar.
#[derive(Drop)]
pub struct Closures<'a> {
    items: Items<'a>,
    // A set for each nonterminal, with a bit for each item.
    expansions: BitRows,
}

impl<'a> Model for Closures<'a> {
    ghost use Rattle.vob_lr.specs.declared.grammar.Grammar.{Grammar as Seen};

    ghost Value = { Seen };

    ghost use Rattle.vob_lr.specs.Expansions.{AreExpansions};

    ghost view = { λ a. a.items };

    ghost invariant = { λ a. AreExpansions a.items a.expansions.rows };
}

impl<'a> Closures<'a> {
    /// Numbers the items of a grammar, and finds what each nonterminal brings into a closure.
    ///
    /// Fails with the first rule that names a symbol that isn't there, or if memory runs out.
    pub fn new(alloc: Global, grammar: &'a Grammar) -> Result<Closures<'a>, GrammarError>
        ensures grammar { IfOk result (λ closures. closures ≡ grammar.now) }

        // The rules are checked first.
        ensures bad_symbol { (rule : ℕ)
            → (result ≡ Err (GrammarError.BadSymbol rule)) ↔ IsBadRule grammar.now rule }
        ensures no_rule { result ≢ Err GrammarError.NoRule }
    {
        check_rules(grammar)?;
        let items = Items::new(alloc, grammar)?;
        let expansions = expansions_of(alloc, grammar, &items)?;
        Ok(Closures { items, expansions })
    }

    /// Returns the items, with their numbers.
    pub fn items(&self) -> &Items<'a>
        ensures { result.now ≡ self.now }
    {
        &self.items
    }

    /// Adds an item, whose number must be one, and what it brings.
    fn expand(&self, number: usize, made: &mut Vob)
        requires number { number < item_total self.now.rules.items }
        requires long { length made.old.bits ≡ item_total self.now.rules.items }
        ensures { Gains (Gives self.now.rules.items number) made.old.bits made.new.bits }
    {
        made.set(number, true);
        bring(self.items.next(number), &self.expansions, made);
    }

    /// Returns the closure of some items, whose numbers must be there. It rises, and has each item
    /// once. Fails if memory runs out.
    pub fn closure(&self, alloc: Global, set: &[usize]) -> Result<Vec<usize>, AllocError>
        requires { All (λ i. i < item_total self.now.rules.items) set.now }
        ensures { IfOk result (λ closure.
            IsItemClosure self.now.rules.items set.now closure.items) }
    {
        let mut made = Vob::from_elem(alloc, false, self.items.len())?;
        for place in 0..set.len() {
            self.expand(set[place], &mut made);
        }
        numbers_of(alloc, &made)
    }

    /// Adds the item behind the one with a number, if a symbol stands between their dots.
    fn advance(
        &self,
        number: usize,
        symbol: Symbol,
        made: &mut Vec<usize>,
    ) -> Result<(), AllocError>
        ensures { OnOk result (Adds (Advances self.now.rules.items symbol number)
            made.old.items made.new.items) }
    {
        // The number of items is in the range of its type: a proof knows it from this read.
        let _len = self.items.len();
        if !stands_behind(self.items.next(number), symbol) {
            return Ok(());
        }
        made.push(number + 1)?;
        Ok(())
    }

    /// Returns some items after their dots passed a symbol.
    fn advanced(
        &self,
        alloc: Global,
        set: &[usize],
        symbol: Symbol,
    ) -> Result<Vec<usize>, AllocError>
        ensures { IfOk result (λ made. (i : ℕ) → Contains made.items i
            ↔ IsAdvanced self.now.rules.items set.now symbol i) }
    {
        let mut made = Vec::new(alloc);
        for place in 0..set.len() {
            self.advance(set[place], symbol, &mut made)?;
        }
        Ok(made)
    }

    /// Returns the closure of some items after their dots passed a symbol: no item if it stands behind
    /// no dot. It rises, and has each item once. Fails if memory runs out.
    pub fn goto(
        &self,
        alloc: Global,
        set: &[usize],
        symbol: Symbol,
    ) -> Result<Vec<usize>, AllocError>
        ensures { IfOk result (λ next.
            IsGoto self.now.rules.items set.now symbol next.items) }
    {
        let made = self.advanced(alloc, set, symbol)?;
        self.closure(alloc, &made)
    }

    /// Returns the numbers of the symbols behind the dots of some items, with a bit for each symbol.
    pub(crate) fn ahead(&self, alloc: Global, set: &[usize]) -> Result<Vob, AllocError>
        ensures { IfOk result (λ ahead. AreAhead self.now set.now ahead.bits) }
    {
        ahead_of(alloc, &self.items, set)
    }

    /// Returns the closure of item 0.
    pub(crate) fn start(&self, alloc: Global) -> Result<Vec<usize>, AllocError>
        requires { 0 < length self.now.rules.items }
        ensures { IfOk result (λ set. IsStart self.now.rules.items set.items) }
    {
        let first = [0];
        self.closure(alloc, &first)
    }
}
