//! The items of a grammar: rules with a dot on their right side, each with a number.
ghost use Rattle.std.specs.Prelude.{◌≡◌, ◌↔◌, ℕ, ◌+◌, ◌<◌, length, slice_get, IfOk, OnOk};
ghost use Rattle.vob_lr.specs.ItemTables.{AreFirsts, AreItems};
ghost use Rattle.vob_lr.specs.Items.{Completes, HasNext, IsItem, first_item, item_total};

use crate::grammar::{Grammar, Rule, Symbol};
use std::alloc::{AllocError, Global};
use std::marker::Model;

/// A rule with a dot before a symbol of its right side, which is then the dot's number, or behind
/// all of them.
#[derive(Clone, Copy, Debug, PartialEq, Eq)]
pub struct Item {
    pub rule: usize,
    pub dot: usize,
}

/// The items of a grammar, numbered from 0 on: rule by rule, and dot by dot. A contract sees the
/// grammar.
#[derive(Drop)]
pub struct Items<'a> {
    grammar: &'a Grammar,
    items: Vec<Item>,
    // The number of each rule's first item.
    firsts: Vec<usize>,
}

impl<'a> Model for Items<'a> {
    ghost use Rattle.vob_lr.specs.declared.grammar.Grammar.{Grammar as Seen};

    ghost Value = { Seen };

    ghost use Rattle.vob_lr.specs.ItemTables.{AreTables};

    ghost view = { λ a. a.grammar.now };

    ghost invariant = { λ a. AreTables a.grammar.now a.items.items a.firsts.items };
}

impl<'a> Items<'a> {
    /// Numbers the items of a grammar. Fails if memory runs out.
    pub fn new(alloc: Global, grammar: &'a Grammar) -> Result<Items<'a>, AllocError>
        ensures grammar { IfOk result (λ items. items ≡ grammar.now) }
    {
        let (items, firsts) = tables(alloc, &grammar.rules)?;
        Ok(Items {
            grammar,
            items,
            firsts,
        })
    }

    /// Returns the grammar.
    pub fn grammar(&self) -> &'a Grammar
        ensures { result.now ≡ self.now }
    {
        self.grammar
    }

    /// Returns how many items there are.
    pub fn len(&self) -> usize
        ensures { result ≡ item_total self.now.rules.items }
    {
        self.items.len()
    }

    /// Returns the number of a rule's first item. The rule must be there.
    pub fn first(&self, rule: usize) -> usize
        requires { rule < length self.now.rules.items }
        ensures { result ≡ first_item self.now.rules.items rule }
    {
        self.firsts[rule]
    }

    /// Returns the number of an item, or `None` if the grammar has no such rule or its right side
    /// no such dot.
    pub fn number(&self, item: Item) -> Option<usize>
        ensures { (i : ℕ) → (result ≡ Some i) ↔ IsItem self.now.rules.items i item }
    {
        if item.rule >= self.grammar.rules.len() {
            return None;
        }
        if item.dot > self.grammar.rules[item.rule].right.len() {
            return None;
        }
        Some(self.firsts[item.rule] + item.dot)
    }

    /// Returns the item with a number, which must be one.
    pub fn item(&self, number: usize) -> Item
        requires { number < item_total self.now.rules.items }
        ensures { IsItem self.now.rules.items number result }
    {
        self.items[number]
    }

    /// Returns the symbol behind the dot of an item, or `None` if the dot is behind all or no item has
    /// the number.
    pub fn next(&self, number: usize) -> Option<Symbol>
        ensures { (x : Symbol) → (result ≡ Some x) ↔ HasNext self.now.rules.items number x }
    {
        if number >= self.items.len() {
            return None;
        }
        let item = self.item(number);
        symbol_at(&self.grammar.rules[item.rule].right, item.dot)
    }

    /// Returns the number of a rule's item with the dot behind all. The rule must be there.
    pub fn complete(&self, rule: usize) -> usize
        requires { rule < length self.now.rules.items }
        ensures { Completes self.now.rules.items rule result }
    {
        self.first(rule) + self.grammar.rules[rule].right.len()
    }

    /// Returns the rule whose item with the dot behind all has a number, or `None` if none does.
    pub fn completed(&self, number: usize) -> Option<usize>
        ensures { (rule : ℕ) → (result ≡ Some rule) ↔ Completes self.now.rules.items rule number }
    {
        if number >= self.items.len() {
            return None;
        }
        let item = self.item(number);
        if item.dot < self.grammar.rules[item.rule].right.len() {
            return None;
        }
        Some(item.rule)
    }
}

/// Returns the symbol at a place of a right side, if there is one.
fn symbol_at(right: &[Symbol], place: usize) -> Option<Symbol>
    ensures { result ≡ slice_get right.now place }
{
    right.get(place).copied()
}

/// Appends the items of a rule to those of the rules before it.
fn add_items(rules: &[Rule], rule: usize, items: &mut Vec<Item>) -> Result<(), AllocError>
    requires rule { rule < length rules.now }
    requires items { AreItems rules.now (first_item rules.now rule) items.old.items }
    ensures { OnOk result (AreItems rules.now (first_item rules.now (rule + 1)) items.new.items) }
{
    let last = rules[rule].right.len();
    for dot in 0..last {
        items.push(Item { rule, dot })?;
    }
    items.push(Item { rule, dot: last })?;
    Ok(())
}

/// Returns the items of all rules, and the number of each rule's first.
fn tables(alloc: Global, rules: &[Rule]) -> Result<(Vec<Item>, Vec<usize>), AllocError>
    ensures items { IfOk result (λ made.
        AreItems rules.now (item_total rules.now) made.0.items) }
    ensures firsts { IfOk result (λ made. AreFirsts rules.now (length rules.now) made.1.items) }
{
    let mut items = Vec::new(alloc);
    let mut firsts = Vec::with_capacity(alloc, rules.len())?;
    for rule in 0..rules.len() {
        firsts.push(items.len())?;
        add_items(rules, rule, &mut items)?;
    }
    Ok((items, firsts))
}
