//! The tree of tokens that were parsed.
ghost use Rattle.std.specs.Prelude.{◌≡◌, ◌+◌, ◌-◌, ◌<◌, ◌≤◌, ◌++◌, [], ◌∷◌, drop, length, map, reverse, slice_get, take, IfOk, OnOk, Some};
ghost use Rattle.vob_lr.specs.Derivations.{DerivesBy, IsParse};
ghost use Rattle.vob_lr.specs.Replays.{AreReplayed, CanReplay, IsJoined, IsRedone, start_of};
ghost use Rattle.vob_lr.specs.declared.grammar.Rule.{Rule};
ghost use Rattle.vob_lr.specs.TreeNodes.{IsTree, leaf_at, nodes_at};
ghost use Rattle.vob_lr.specs.Unwinding.{CanUnwind, Finishes, IsUndone};

use crate::grammar::{Rule, Symbol};
use std::alloc::{AllocError, Global};

/// A node of a tree: a token, or a rule with a child for each symbol of its right side.
#[derive(Clone, Copy, Debug, PartialEq, Eq)]
pub struct Node {
    /// The rule, or `None` of a token.
    pub rule: Option<usize>,
    /// The number of the first child. The others follow it.
    pub first: usize,
    /// How many children there are.
    pub count: usize,
    /// The index of the node's first token.
    pub from: usize,
    /// The index behind its last token.
    pub to: usize,
}

/// A tree in one array: the children of a node stand side by side before it, in the order of the reductions. The
/// last nodes, from `first` on, are the roots.
#[derive(Drop)]
pub struct Tree {
    pub nodes: Vec<Node>,
    pub first: usize,
}

/// Returns the right side of the rule with a number, which must be one.
fn right_of(rules: &[Rule], number: usize) -> &[Symbol]
    requires { number < length rules.now }
    ensures { (rule : Rule) → slice_get rules.now number ≡ Some rule → result.now ≡ rule.right.items }
{
    &rules[number].right
}

/// Takes back how the last symbol of a form came there. Returns the rule by which a parser reduced, which is the last
/// of those that are left, or `None` if it read the symbol.
fn undo(
    rules: &[Rule],
    parsed: &[usize],
    symbol: Symbol,
    form: &mut Vec<Symbol>,
    left: &mut usize,
) -> Result<Option<usize>, AllocError>
    requires { CanUnwind rules.now parsed.now (form.old.items ++ symbol ∷ []) left.old }
    ensures { IfOk result (λ made. IsUndone rules.now parsed.now (form.old.items ++ symbol ∷ []) left.old
        made form.new.items left.new) }
{
    match symbol {
        Symbol::Terminal(_) => Ok(None),
        Symbol::Nonterminal(_) => {
            let last = *left - 1;
            let rule = parsed[last];
            form.extend_from_slice(right_of(rules, rule))?;
            *left = last;
            Ok(Some(rule))
        }
    }
}

/// Returns what a parser did, the last first: it read a token, or reduced by a rule.
fn unwound(
    alloc: Global,
    rules: &[Rule],
    symbols: &[Symbol],
    tokens: &[usize],
    parsed: &[usize],
) -> Result<Vec<Option<usize>>, AllocError>
    requires { DerivesBy rules.now tokens.now symbols.now (reverse parsed.now) }
    ensures { IfOk result (λ moves.
        Finishes rules.now symbols.now [] tokens.now (reverse moves.items) parsed.now) }
{
    let mut form = symbols.to_vec(alloc)?;
    let mut moves = Vec::with_capacity(alloc, parsed.len().saturating_add(tokens.len()))?;
    let mut left = parsed.len();
    'forms: while let Some(symbol) = form.pop() {
        let made = undo(rules, parsed, symbol, &mut form, &mut left)?;
        moves.push(made)?;
    }
    Ok(moves)
}

/// Trees that grow as a parser is replayed: nodes that are children, roots so far, and how many tokens were read.
#[derive(Drop)]
struct Forest {
    nodes: Vec<Node>,
    roots: Vec<Node>,
    read: usize,
}

/// Returns where the first of some trees begins, or else the index of the next token.
fn start(trees: &[Node], read: usize) -> usize
    ensures { result ≡ start_of trees.now read }
{
    match trees.first() {
        Some(node) => node.from,
        None => read,
    }
}

impl Forest {
    /// Makes a root of a rule, whose children are the newest roots, so many.
    fn join(&mut self, rule: usize, count: usize) -> Result<(), AllocError>
        requires { count ≤ length self.old.roots.items }
        ensures { OnOk result (IsJoined rule count self.old self.new) }
    {
        let below = self.roots.len() - count;
        let children = &self.roots[below..];
        let node = Node {
            rule: Some(rule),
            first: self.nodes.len(),
            count,
            from: start(children, self.read),
            to: self.read,
        };
        self.nodes.extend_from_slice(children)?;
        self.roots.truncate(below);
        self.roots.push(node)?;
        Ok(())
    }

    /// Makes a move again: reduces by a rule, or else reads a token.
    fn redo(&mut self, rules: &[Rule], made: Option<usize>) -> Result<(), AllocError>
        requires { CanReplay rules.now made self.old }
        ensures { OnOk result (IsRedone rules.now made self.old self.new) }
    {
        match made {
            None => {
                self.roots.push(Node {
                    rule: None,
                    first: 0,
                    count: 0,
                    from: self.read,
                    to: self.read + 1,
                })?;
                self.read += 1;
                Ok(())
            }
            Some(rule) => {
                self.join(rule, right_of(rules, rule).len())?;
                Ok(())
            }
        }
    }
}

/// Returns the trees of tokens, of which symbols have a rightmost derivation.
fn replayed(
    alloc: Global,
    rules: &[Rule],
    symbols: &[Symbol],
    tokens: &[usize],
    parsed: &[usize],
) -> Result<Tree, AllocError>
    requires { DerivesBy rules.now tokens.now symbols.now (reverse parsed.now) }
    ensures { IfOk result (AreReplayed rules.now symbols.now tokens.now parsed.now) }
{
    let mut moves = unwound(alloc, rules, symbols, tokens, parsed)?;
    let mut forest = Forest {
        nodes: Vec::with_capacity(alloc, moves.len())?,
        roots: Vec::new(alloc),
        read: 0,
    };
    'moves: while let Some(made) = moves.pop() {
        forest.redo(rules, made)?;
    }
    let Forest {
        mut nodes,
        roots,
        ..
    } = forest;
    let first = nodes.len();
    nodes.extend_from_slice(&roots)?;
    Ok(Tree { nodes, first })
}

impl Tree {
    /// Returns the tree of tokens by rules that are a parse of them, as `Table::parse` returns it. Rule 0 and the end
    /// have no node. Takes 48 bytes and more for each token and each rule. Fails if memory runs out.
    pub fn of(
        alloc: Global,
        rules: &[Rule],
        tokens: &[usize],
        parsed: &[usize],
    ) -> Result<Tree, AllocError>
        requires { IsParse rules.now tokens.now parsed.now }
        ensures { IfOk result (IsTree rules.now tokens.now parsed.now) }
    {
        let right = right_of(rules, 0);
        let symbols = &right[..right.len() - 1];
        let tree = replayed(alloc, rules, symbols, tokens, parsed)?;
        Ok(tree)
    }

    /// Returns the children of a node, in the order of the symbols on its rule's right side.
    pub fn children(&self, node: Node) -> &[Node]
        ensures { result.now ≡ nodes_at self.now.nodes.items node.first node.count }
    {
        let rest = self.nodes.get(node.first..).unwrap_or_default();
        &rest[..node.count.min(rest.len())]
    }

    /// Returns the roots: the nodes of what stands before the end in rule 0.
    pub fn roots(&self) -> &[Node]
        ensures { result.now ≡ drop self.now.first self.now.nodes.items }
    {
        self.nodes.get(self.first..).unwrap_or_default()
    }
}
