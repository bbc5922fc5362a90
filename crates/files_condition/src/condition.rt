//! Conditions on the columns of a table: `city = Paris & !(age < 30)`.
ghost use Rattle.std.specs.Prelude.{◌≡◌, ◌≢◌, ◌↔◌, IfErr, IfOk, IsTrue, map};
ghost use Rattle.files_condition.specs.Conditions.{IsCondition, test_of, tree_of};
ghost use Rattle.files_condition.specs.Places.{IsConditionFault};
ghost use Rattle.files_condition.specs.Relations.{holds};

use crate::fault::ConditionFault;
use crate::reader::{Next, Reader};
use crate::words::words_of;
use std::alloc::Global;
use std::cmp::Ordering;
use vob_filter::filter::Expression;

/// How two values are compared.
#[derive(Clone, Copy, PartialEq, Eq)]
pub enum Relation {
    Equal,
    NotEqual,
    Less,
    LessOrEqual,
    Greater,
    GreaterOrEqual,
}

impl Relation {
    /// Returns whether it holds of two values in an order.
    pub fn holds(self, order: Ordering) -> bool
        ensures { result ≡ holds self order }
    {
        match self {
            Relation::Equal => order.is_eq(),
            Relation::NotEqual => order.is_ne(),
            Relation::Less => order.is_lt(),
            Relation::LessOrEqual => order.is_le(),
            Relation::Greater => order.is_gt(),
            Relation::GreaterOrEqual => order.is_ge(),
        }
    }

    /// Returns whether it asks which value is less.
    pub fn is_order(self) -> bool
        ensures { IsTrue result ↔ (self ≢ Relation.Equal) × (self ≢ Relation.NotEqual) }
    {
        self != Relation::Equal && self != Relation::NotEqual
    }
}

/// A name or a value, and the column of the condition where it begins, counted from 1.
#[derive(Clone, Copy)]
pub struct Operand<'a> {
    pub text: &'a [u8],
    pub at: usize,
    /// Whether it stands in quotes.
    pub is_quoted: bool,
}

/// What is asked of a column.
#[derive(Clone, Copy)]
pub enum Question<'a> {
    /// Whether its cell is missing, or whether it is not.
    Missing(bool),
    /// How its cell compares with a value.
    Compared(Relation, Operand<'a>),
}

/// A question about a column.
#[derive(Clone, Copy)]
pub struct Comparison<'a> {
    pub column: Operand<'a>,
    pub question: Question<'a>,
}

/// A condition: an expression over comparisons, by their numbers.
#[derive(Drop)]
pub struct Condition<'a> {
    pub comparisons: Vec<Comparison<'a>>,
    pub expression: Expression,
}

/// Reads a condition: questions such as `age < 30` and `age is missing`, joined by `!`, `&`, `|`
/// and parentheses. `!` binds most tightly, and `|` least. Names and values may stand in double
/// quotes.
///
/// Fails at the first word that can't stand where it does. Fails too if memory runs out.
pub fn read_condition(alloc: Global, text: &str) -> Result<Condition<'_>, ConditionFault>
    ensures ok { IfOk result (λ condition.
        IsCondition text.now (map test_of condition.comparisons.items)
        (tree_of condition.expression)) }
    ensures err { IfErr result (λ fault. IsConditionFault text.now fault) }
{
    let words = words_of(alloc, text.as_bytes())?;
    let mut reader = Reader::new(alloc);
    let mut next = Next::Operand;
    'words: for word in words.iter() {
        next = reader.take(next, word)?;
    }
    reader.finish(next, text.len() + 1)
}
