// Reading a condition by the rules of its grammar.
ghost use Rattle.rule_grammar.specs.ValueReading.{value_at, one_at, last_two_at, two_at};
ghost use Rattle.rule_grammar.specs.ConditionReading.{condition_at, condition_by, conditional};
ghost use Rattle.spelling.specs.Answers.{Answers};
ghost use Rattle.rule_reading.specs.Nests.{NestsConditions};

use crate::condition_nodes::{binary, join, negation, unary};
use crate::heads::condition_head;
use crate::scope::Scope;
use crate::value_rules::ValueRules;
use crate::values::value;
use rule_grammar::words::{BinaryTest, ConditionHead, Junction, UnaryTest};
use spelling::{Cursor, Unread};
use sqlite_items::Boxed;
use star_model::rules::{Condition, ValueExpr};
use std::alloc::Global;

/// The rules take the reader of the conditions inside a condition as a parameter, so that each is
/// proved by itself.
#[derive(Clone, Copy)]
pub struct ConditionRules<'a, F> {
    pub alloc: Global,
    pub scope: &'a Scope<'a>,
    /// How many values and conditions may still be open inside one another.
    pub depth: usize,
    pub inner: F,
}

impl<
    'a,
    F: Fn(Global, &Scope<'_>, &mut Cursor<'_>, usize) -> Result<Condition, Unread>,
> ConditionRules<'a, F> {
    fn inner(&self, cursor: &mut Cursor<'_>) -> Result<Condition, Unread>
        requires { NestsConditions self.now.depth (F.pre self.now.inner) (F.post self.now.inner) }
        ensures { Answers (condition_at self.now.scope.now self.now.depth cursor.old) result
            cursor.new }
    {
        (self.inner)(self.alloc, self.scope, cursor, self.depth)
    }

    // A condition in a box of its own. It is boxed as soon as it is read: a function that boxes two
    // has too large a proof.
    fn boxed(&self, cursor: &mut Cursor<'_>) -> Result<Boxed<Condition>, Unread>
        requires { NestsConditions self.now.depth (F.pre self.now.inner) (F.post self.now.inner) }
        ensures { Answers (condition_at self.now.scope.now self.now.depth cursor.old) result
            cursor.new }
    {
        let condition = self.inner(cursor)?;
        Ok(Boxed::new(self.alloc, condition)?)
    }

    // One condition in brackets.
    #[tactic(auto, unfolding(rule_grammar::specs::ValueReading::one_at))]
    fn one(&self, cursor: &mut Cursor<'_>) -> Result<Boxed<Condition>, Unread>
        requires { NestsConditions self.now.depth (F.pre self.now.inner) (F.post self.now.inner) }
        ensures { Answers (one_at (condition_at self.now.scope.now self.now.depth) cursor.old)
            result cursor.new }
    {
        cursor.the_symbol(b"(").ok_or(Unread::Strange)?;
        let condition = self.boxed(cursor)?;
        cursor.the_symbol(b")").ok_or(Unread::Strange)?;
        Ok(condition)
    }

    // The last two conditions in brackets.
    #[tactic(auto, unfolding(rule_grammar::specs::ValueReading::last_two_at))]
    fn last_two(
        &self,
        cursor: &mut Cursor<'_>,
    ) -> Result<(Boxed<Condition>, Boxed<Condition>), Unread>
        requires { NestsConditions self.now.depth (F.pre self.now.inner) (F.post self.now.inner) }
        ensures { Answers (last_two_at (condition_at self.now.scope.now self.now.depth) cursor.old)
            result cursor.new }
    {
        let first = self.boxed(cursor)?;
        cursor.the_symbol(b",").ok_or(Unread::Strange)?;
        let second = self.boxed(cursor)?;
        cursor.the_symbol(b")").ok_or(Unread::Strange)?;
        Ok((first, second))
    }

    // Two conditions in brackets.
    #[tactic(auto, unfolding(rule_grammar::specs::ValueReading::two_at))]
    fn two(&self, cursor: &mut Cursor<'_>) -> Result<(Boxed<Condition>, Boxed<Condition>), Unread>
        requires { NestsConditions self.now.depth (F.pre self.now.inner) (F.post self.now.inner) }
        ensures { Answers (two_at (condition_at self.now.scope.now self.now.depth) cursor.old)
            result cursor.new }
    {
        cursor.the_symbol(b"(").ok_or(Unread::Strange)?;
        self.last_two(cursor)
    }

    // One value in brackets.
    fn one_value(&self, cursor: &mut Cursor<'_>) -> Result<Boxed<ValueExpr>, Unread>
        ensures { Answers (one_at (value_at self.now.scope.now self.now.depth) cursor.old) result
            cursor.new }
    {
        ValueRules {
            alloc: self.alloc,
            scope: self.scope,
            depth: self.depth,
            inner: value,
        }
        .one(cursor)
    }

    // Two values in brackets.
    fn two_values(
        &self,
        cursor: &mut Cursor<'_>,
    ) -> Result<(Boxed<ValueExpr>, Boxed<ValueExpr>), Unread>
        ensures { Answers (two_at (value_at self.now.scope.now self.now.depth) cursor.old) result
            cursor.new }
    {
        ValueRules {
            alloc: self.alloc,
            scope: self.scope,
            depth: self.depth,
            inner: value,
        }
        .two(cursor)
    }

    // A test of one value, behind its word.
    fn on_one(&self, cursor: &mut Cursor<'_>, test: UnaryTest) -> Result<Condition, Unread>
        ensures { Answers (conditional self.now.scope.now self.now.depth
            (condition_at self.now.scope.now self.now.depth) (ConditionHead.Unary test) cursor.old)
            result cursor.new }
    {
        let v = self.one_value(cursor)?;
        Ok(unary(test, v.into_inner()))
    }

    // A test of two values, behind its word.
    fn on_two(&self, cursor: &mut Cursor<'_>, test: BinaryTest) -> Result<Condition, Unread>
        ensures { Answers (conditional self.now.scope.now self.now.depth
            (condition_at self.now.scope.now self.now.depth) (ConditionHead.Binary test) cursor.old)
            result cursor.new }
    {
        let (v, w) = self.two_values(cursor)?;
        Ok(binary(test, v.into_inner(), w.into_inner()))
    }

    // What is negated, behind `not`.
    fn negated(&self, cursor: &mut Cursor<'_>) -> Result<Condition, Unread>
        requires { NestsConditions self.now.depth (F.pre self.now.inner) (F.post self.now.inner) }
        ensures { Answers (conditional self.now.scope.now self.now.depth
            (condition_at self.now.scope.now self.now.depth) ConditionHead.Not cursor.old) result
            cursor.new }
    {
        let c = self.one(cursor)?;
        Ok(negation(c))
    }

    // Two conditions that a word joins, behind it.
    fn joined(&self, cursor: &mut Cursor<'_>, junction: Junction) -> Result<Condition, Unread>
        requires { NestsConditions self.now.depth (F.pre self.now.inner) (F.post self.now.inner) }
        ensures { Answers (conditional self.now.scope.now self.now.depth
            (condition_at self.now.scope.now self.now.depth) (ConditionHead.Junction junction)
            cursor.old) result cursor.new }
    {
        let (c, d) = self.two(cursor)?;
        Ok(join(junction, c, d))
    }

    /// A condition.
    #[tactic(auto, unfolding(rule_grammar::specs::ConditionReading::condition_by))]
    pub fn condition(&self, cursor: &mut Cursor<'_>) -> Result<Condition, Unread>
        requires { NestsConditions self.now.depth (F.pre self.now.inner) (F.post self.now.inner) }
        ensures { Answers (condition_by self.now.scope.now self.now.depth
            (condition_at self.now.scope.now self.now.depth) cursor.old) result cursor.new }
    {
        let word = cursor.word().ok_or(Unread::Strange)?;
        match condition_head(word) {
            ConditionHead::Unary(test) => self.on_one(cursor, test),
            ConditionHead::Binary(test) => self.on_two(cursor, test),
            ConditionHead::Not => self.negated(cursor),
            ConditionHead::Junction(junction) => self.joined(cursor, junction),
            ConditionHead::Other => Err(Unread::Strange),
        }
    }
}
