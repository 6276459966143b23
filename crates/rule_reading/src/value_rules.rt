// Reading a value by the rules of its grammar.
ghost use Rattle.rule_grammar.specs.ValueReading.{value_at, value_by, one_at, last_two_at, two_at, indexable_at, variable_at, bare_at, required_at, requirement_at};
ghost use Rattle.spelling.specs.Answers.{Answers};
ghost use Rattle.rule_reading.specs.Nests.{NestsValues};

use crate::heads::{requirement_head, value_head};
use crate::names::is_reserved;
use crate::scope::Scope;
use crate::value_nodes::{binary, constant, indexable, unary, with_temp, with_value};
use rule_grammar::words::{RequirementHead, ValueHead};
use spelling::{Cursor, Unread};
use sqlite_items::Boxed;
use star_model::lists::Name;
use star_model::rules::ValueExpr;
use std::alloc::Global;

/// The rules take the reader of the values inside a value as a parameter, so that each is proved by
/// itself.
#[derive(Clone, Copy)]
pub struct ValueRules<'a, F> {
    pub alloc: Global,
    pub scope: &'a Scope<'a>,
    /// How many values may still be open inside one another.
    pub depth: usize,
    pub inner: F,
}

impl<'a, F: Fn(Global, &Scope<'_>, &mut Cursor<'_>, usize) -> Result<ValueExpr, Unread>> ValueRules<
    'a,
    F,
> {
    fn inner(&self, cursor: &mut Cursor<'_>) -> Result<ValueExpr, Unread>
        requires { NestsValues self.now.depth (F.pre self.now.inner) (F.post self.now.inner) }
        ensures { Answers (value_at self.now.scope.now self.now.depth cursor.old) result
            cursor.new }
    {
        (self.inner)(self.alloc, self.scope, cursor, self.depth)
    }

    // A value in a box of its own. It is boxed as soon as it is read: a function that holds a
    // value, and may fail, has too large a proof.
    fn boxed(&self, cursor: &mut Cursor<'_>) -> Result<Boxed<ValueExpr>, Unread>
        requires { NestsValues self.now.depth (F.pre self.now.inner) (F.post self.now.inner) }
        ensures { Answers (value_at self.now.scope.now self.now.depth cursor.old) result
            cursor.new }
    {
        let value = self.inner(cursor)?;
        Ok(Boxed::new(self.alloc, value)?)
    }

    /// One value in brackets.
    #[tactic(auto, unfolding(rule_grammar::specs::ValueReading::one_at))]
    pub fn one(&self, cursor: &mut Cursor<'_>) -> Result<Boxed<ValueExpr>, Unread>
        requires { NestsValues self.now.depth (F.pre self.now.inner) (F.post self.now.inner) }
        ensures { Answers (one_at (value_at self.now.scope.now self.now.depth) cursor.old) result
            cursor.new }
    {
        cursor.the_symbol(b"(").ok_or(Unread::Strange)?;
        let value = self.boxed(cursor)?;
        cursor.the_symbol(b")").ok_or(Unread::Strange)?;
        Ok(value)
    }

    // The last two values in brackets.
    #[tactic(auto, unfolding(rule_grammar::specs::ValueReading::last_two_at))]
    fn last_two(
        &self,
        cursor: &mut Cursor<'_>,
    ) -> Result<(Boxed<ValueExpr>, Boxed<ValueExpr>), Unread>
        requires { NestsValues self.now.depth (F.pre self.now.inner) (F.post self.now.inner) }
        ensures { Answers (last_two_at (value_at self.now.scope.now self.now.depth) cursor.old)
            result cursor.new }
    {
        let first = self.boxed(cursor)?;
        cursor.the_symbol(b",").ok_or(Unread::Strange)?;
        let second = self.boxed(cursor)?;
        cursor.the_symbol(b")").ok_or(Unread::Strange)?;
        Ok((first, second))
    }

    /// Two values in brackets.
    #[tactic(auto, unfolding(rule_grammar::specs::ValueReading::two_at))]
    pub fn two(
        &self,
        cursor: &mut Cursor<'_>,
    ) -> Result<(Boxed<ValueExpr>, Boxed<ValueExpr>), Unread>
        requires { NestsValues self.now.depth (F.pre self.now.inner) (F.post self.now.inner) }
        ensures { Answers (two_at (value_at self.now.scope.now self.now.depth) cursor.old) result
            cursor.new }
    {
        cursor.the_symbol(b"(").ok_or(Unread::Strange)?;
        self.last_two(cursor)
    }

    #[tactic(auto, unfolding(rule_grammar::specs::ValueReading::indexable_at))]
    fn indexable(&self, cursor: &mut Cursor<'_>) -> Result<ValueExpr, Unread>
        requires { NestsValues self.now.depth (F.pre self.now.inner) (F.post self.now.inner) }
        ensures { Answers (indexable_at (value_at self.now.scope.now self.now.depth) cursor.old)
            result cursor.new }
    {
        cursor.the_symbol(b"(").ok_or(Unread::Strange)?;
        let stream = self.boxed(cursor)?;
        cursor.the_symbol(b",").ok_or(Unread::Strange)?;
        let (index, preds) = self.last_two(cursor)?;
        Ok(indexable(stream, index, preds))
    }

    // The variable of this name.
    #[tactic(auto, unfolding(rule_grammar::specs::ValueReading::variable_at))]
    fn variable(&self, cursor: &mut Cursor<'_>, name: &[u8]) -> Result<ValueExpr, Unread>
        ensures { Answers (variable_at self.now.scope.now name.now cursor.old) result cursor.new }
    {
        if is_reserved(self.scope.version(), name) {
            return Err(Unread::Strange);
        }
        let place = self.scope.place(name);
        let name = Name::from_slice(self.alloc, name)?;
        Ok(ValueExpr::Variable { name, place })
    }

    // A value without the requirements behind it.
    #[tactic(auto, unfolding(rule_grammar::specs::ValueReading::bare_at))]
    fn bare(&self, cursor: &mut Cursor<'_>) -> Result<ValueExpr, Unread>
        requires { NestsValues self.now.depth (F.pre self.now.inner) (F.post self.now.inner) }
        ensures { Answers (bare_at self.now.scope.now (value_at self.now.scope.now self.now.depth)
            cursor.old) result cursor.new }
    {
        let word = cursor.word().ok_or(Unread::Strange)?;
        match value_head(word) {
            ValueHead::Constant(head) => Ok(constant(head)),
            ValueHead::Unary(head) => {
                let v = self.one(cursor)?;
                Ok(unary(head, v))
            }
            ValueHead::Binary(head) => {
                let (v, w) = self.two(cursor)?;
                Ok(binary(head, v, w))
            }
            ValueHead::Indexable => self.indexable(cursor),
            ValueHead::Other => self.variable(cursor, word),
        }
    }

    // A value, and the square bracket behind it.
    #[tactic(auto, unfolding(rule_grammar::specs::ValueReading::required_at))]
    fn required(&self, cursor: &mut Cursor<'_>) -> Result<Boxed<ValueExpr>, Unread>
        requires { NestsValues self.now.depth (F.pre self.now.inner) (F.post self.now.inner) }
        ensures { Answers (required_at (value_at self.now.scope.now self.now.depth) cursor.old)
            result cursor.new }
    {
        let value = self.boxed(cursor)?;
        cursor.the_symbol(b"]").ok_or(Unread::Strange)?;
        Ok(value)
    }

    // The stream with the requirement that stands behind a square bracket.
    #[tactic(auto, unfolding(rule_grammar::specs::ValueReading::requirement_at))]
    fn requirement(&self, cursor: &mut Cursor<'_>, stream: ValueExpr) -> Result<ValueExpr, Unread>
        requires { NestsValues self.now.depth (F.pre self.now.inner) (F.post self.now.inner) }
        ensures { Answers (requirement_at (value_at self.now.scope.now self.now.depth) stream
            cursor.old) result cursor.new }
    {
        let stream = Boxed::new(self.alloc, stream)?;
        let word = cursor.word().ok_or(Unread::Strange)?;
        match requirement_head(word) {
            RequirementHead::Valued(head) => {
                let v = self.required(cursor)?;
                Ok(with_value(head, stream, v))
            }
            RequirementHead::Temp => {
                cursor.the_symbol(b"]").ok_or(Unread::Strange)?;
                Ok(with_temp(stream))
            }
            RequirementHead::Other => Err(Unread::Strange),
        }
    }

    /// A value with the requirements behind it.
    #[tactic(auto, unfolding(rule_grammar::specs::ValueReading::value_by))]
    pub fn value(&self, cursor: &mut Cursor<'_>) -> Result<ValueExpr, Unread>
        requires { NestsValues self.now.depth (F.pre self.now.inner) (F.post self.now.inner) }
        ensures { Answers (value_by self.now.scope.now (value_at self.now.scope.now self.now.depth)
            cursor.old) result cursor.new }
    {
        let mut value = self.bare(cursor)?;
        while cursor.the_symbol(b"[").is_some() {
            value = self.requirement(cursor, value)?;
        }
        Ok(value)
    }
}
