// Reading plans: the bodies of alternatives.
ghost use Rattle.rule_grammar.specs.ValueReading.{value_at};
ghost use Rattle.star_model.specs.Kinds.{inputs_of};
ghost use Rattle.rule_grammar.specs.PlanReading.{unary_at, inputs_at, joined_at, binary_at, operator_at, plan_by, plan_at};
ghost use Rattle.spelling.specs.Answers.{Answers};
ghost use Rattle.rule_reading.specs.PlanNests.{NestsPlans};

use crate::arguments::more_arguments;
use crate::leaves::{glue, leaf, reference};
use crate::names::is_reserved;
use crate::plan_nodes::{binary_plan, unary_plan};
use crate::scope::Scope;
use spelling::{Cursor, Unread};
use sqlite_items::Boxed;
use star_model::flavours::flavour_in;
use star_model::rules::{Flavour, PlanExpr};
use std::alloc::Global;

/// The rules take the reader of the plans inside a plan as a parameter, so that each is proved by
/// itself.
#[derive(Clone, Copy)]
pub struct PlanRules<'a, 's, F> {
    pub alloc: Global,
    pub scope: &'a Scope<'s>,
    /// How many plans and values may still be open inside one another.
    pub depth: usize,
    pub inner: F,
}

impl<F: Fn(Global, &Scope<'_>, &mut Cursor<'_>, usize) -> Result<PlanExpr, Unread>> PlanRules<
    '_,
    '_,
    F,
> {
    fn inner(&self, cursor: &mut Cursor<'_>) -> Result<PlanExpr, Unread>
        requires { NestsPlans self.now.depth (F.pre self.now.inner) (F.post self.now.inner) }
        ensures { Answers (plan_at self.now.scope.now self.now.depth cursor.old) result cursor.new }
    {
        (self.inner)(self.alloc, self.scope, cursor, self.depth)
    }

    // A plan in a box of its own, as soon as it is read.
    fn boxed(&self, cursor: &mut Cursor<'_>) -> Result<Boxed<PlanExpr>, Unread>
        requires { NestsPlans self.now.depth (F.pre self.now.inner) (F.post self.now.inner) }
        ensures { Answers (plan_at self.now.scope.now self.now.depth cursor.old) result cursor.new }
    {
        let plan = self.inner(cursor)?;
        Ok(Boxed::new(self.alloc, plan)?)
    }

    // The plan inside one that has one.
    #[tactic(auto, unfolding(rule_grammar::specs::PlanReading::unary_at))]
    fn unary(&self, cursor: &mut Cursor<'_>, flavour: Flavour) -> Result<PlanExpr, Unread>
        requires { NestsPlans self.now.depth (F.pre self.now.inner) (F.post self.now.inner) }
        ensures { Answers (unary_at (value_at self.now.scope.now self.now.depth)
            (plan_at self.now.scope.now self.now.depth) flavour cursor.old) result cursor.new }
    {
        cursor.the_symbol(b"(").ok_or(Unread::Strange)?;
        let input = self.boxed(cursor)?;
        let args = more_arguments(self.alloc, self.scope, cursor, self.depth, flavour)?;
        Ok(unary_plan(flavour, args, input))
    }

    #[tactic(auto, unfolding(rule_grammar::specs::PlanReading::inputs_at))]
    fn inputs(&self, cursor: &mut Cursor<'_>) -> Result<(Boxed<PlanExpr>, Boxed<PlanExpr>), Unread>
        requires { NestsPlans self.now.depth (F.pre self.now.inner) (F.post self.now.inner) }
        ensures { Answers (inputs_at (value_at self.now.scope.now self.now.depth)
            (plan_at self.now.scope.now self.now.depth) cursor.old) result cursor.new }
    {
        let left = self.boxed(cursor)?;
        cursor.the_symbol(b",").ok_or(Unread::Strange)?;
        let right = self.boxed(cursor)?;
        Ok((left, right))
    }

    // The operator over two plans, behind these.
    #[tactic(auto, unfolding(rule_grammar::specs::PlanReading::joined_at))]
    fn joined(
        &self,
        cursor: &mut Cursor<'_>,
        flavour: Flavour,
        inputs: (Boxed<PlanExpr>, Boxed<PlanExpr>),
    ) -> Result<PlanExpr, Unread>
        ensures { Answers (joined_at (value_at self.now.scope.now self.now.depth)
            (plan_at self.now.scope.now self.now.depth) flavour inputs cursor.old) result
            cursor.new }
    {
        let args = more_arguments(self.alloc, self.scope, cursor, self.depth, flavour)?;
        Ok(binary_plan(flavour, args, inputs.0, inputs.1))
    }

    #[tactic(auto, unfolding(rule_grammar::specs::PlanReading::binary_at))]
    fn binary(&self, cursor: &mut Cursor<'_>, flavour: Flavour) -> Result<PlanExpr, Unread>
        requires { NestsPlans self.now.depth (F.pre self.now.inner) (F.post self.now.inner) }
        ensures { Answers (binary_at (value_at self.now.scope.now self.now.depth)
            (plan_at self.now.scope.now self.now.depth) flavour cursor.old) result cursor.new }
    {
        cursor.the_symbol(b"(").ok_or(Unread::Strange)?;
        let inputs = self.inputs(cursor)?;
        self.joined(cursor, flavour, inputs)
    }

    // What stands behind the name of an operator.
    fn operator(&self, cursor: &mut Cursor<'_>, flavour: Flavour) -> Result<PlanExpr, Unread>
        requires { NestsPlans self.now.depth (F.pre self.now.inner) (F.post self.now.inner) }
        ensures { Answers (operator_at (value_at self.now.scope.now self.now.depth)
            (plan_at self.now.scope.now self.now.depth) flavour (inputs_of flavour) cursor.old)
            result cursor.new }
    {
        match flavour {
            Flavour::AccessHeap | Flavour::AccessIndex => {
                leaf(self.alloc, self.scope, cursor, self.depth, flavour)
            }
            Flavour::Get | Flavour::Filter | Flavour::Sort => self.unary(cursor, flavour),
            Flavour::Store | Flavour::Ship | Flavour::Probe => self.unary(cursor, flavour),
            Flavour::JoinNl | Flavour::JoinMerge | Flavour::JoinHash | Flavour::Intersect => {
                self.binary(cursor, flavour)
            }
        }
    }

    #[tactic(auto, unfolding(rule_grammar::specs::PlanReading::plan_by))]
    fn plan(&self, cursor: &mut Cursor<'_>) -> Result<PlanExpr, Unread>
        requires { NestsPlans self.now.depth (F.pre self.now.inner) (F.post self.now.inner) }
        ensures { Answers (plan_by (value_at self.now.scope.now self.now.depth)
            (plan_at self.now.scope.now self.now.depth) self.now.scope.now.version cursor.old)
            result cursor.new }
    {
        let word = cursor.word().ok_or(Unread::Strange)?;
        if let Some(flavour) = flavour_in(self.scope.version(), word) {
            return self.operator(cursor, flavour);
        }
        if word == b"Glue".as_slice() {
            return glue(self.alloc, self.scope, cursor, self.depth);
        }
        if is_reserved(self.scope.version(), word) {
            return Err(Unread::Strange);
        }
        reference(self.alloc, self.scope, cursor, self.depth, word)
    }
}

/// A plan over the names of the scope, where at most `depth` plans and values are open inside one
/// another.
pub fn plan(
    alloc: Global,
    scope: &Scope<'_>,
    cursor: &mut Cursor<'_>,
    depth: usize,
) -> Result<PlanExpr, Unread>
    ensures { Answers (plan_at scope.now depth cursor.old) result cursor.new }
{
    if depth == 0 {
        return Err(Unread::Strange);
    }
    PlanRules {
        alloc,
        scope: &*scope,
        depth: depth - 1,
        inner: plan,
    }
    .plan(cursor)
}
