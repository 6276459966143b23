// Plans with their derivations, both shared.

ghost use Rattle.std.specs.Prelude.{◌≡◌, [], ◌∷◌, IfOk};
ghost use Rattle.star_model.specs.Operators.{step};
ghost use Rattle.star_model.specs.WellFormed.{WellFormedQuery};
ghost use Rattle.lolepop.specs.Derived.{vector_of, GivesVector, leaf_plan, unary_plan, binary_plan, enforced_plan, under_glue, under_goal, under_reference};

use crate::arguments::flavour_of;
use crate::inputs::Inputs;
use crate::plan_node::{self, PlanNode};
use crate::steps::step_over;
use crate::trace::Trace;
use property_vector::{Ranked, better};
use star_model::costs::Costs;
use star_model::derivations::ForAllValues;
use star_model::lists::Name;
use star_model::plans::{Chain, Goal, Op, Props};
use star_model::query::Query;
use star_model::sets::QuantSet;
use std::alloc::{AllocError, Global};
use std::marker::Model;
use std::rc::Rc;

/// A plan and its derivation.
#[derive(Drop)]
pub struct Entry {
    pub node: Rc<PlanNode>,
    pub trace: Rc<Trace>,
}

impl Model for Entry {
    ghost use Rattle.lolepop.specs.Derived.{DerivedPlan};
    ghost use Rattle.lolepop.specs.DerivedCode.{derived_code};

    ghost Value = { DerivedPlan };

    ghost coded = { derived_code };

    ghost use Rattle.lolepop.specs.Traces.{deriv_of};

    ghost view = { λ e. record { tree = e.node.value; deriv = deriv_of e.trace.value } };
}

impl Clone for Entry {
    ghost is_clone = { λ e copy. copy ≡ e };

    /// An equal entry that shares its parts.
    fn clone(&self) -> Result<Entry, AllocError> {
        Ok(Entry {
            node: self.node.clone()?,
            trace: self.trace.clone()?,
        })
    }
}

impl Ranked for Entry {
    ghost use Rattle.star_model.proofs.Laws.{better_reflexive, better_transitive};
    ghost use Rattle.lolepop.specs.Derived.{is_better_plan};

    ghost outranks = { is_better_plan };

    ghost reflexive = { λ e. better_reflexive (vector_of e) };

    ghost transitive = { λ d e f. better_transitive (vector_of d) (vector_of e) (vector_of f) };

    fn covers(&self, other: &Entry) -> bool {
        better(self.props(), other.props())
    }
}

impl Entry {
    /// The vector of the plan.
    pub fn props(&self) -> &Props
        ensures { result.now ≡ vector_of self.now }
    {
        self.node.props()
    }

    /// The vector of the operator over the entry; none where it isn't applicable. It takes no
    /// memory.
    pub fn vector_under(&self, query: &Query, costs: &Costs, op: &Op) -> Option<Props>
        requires { WellFormedQuery query.now }
        ensures { result ≡ step query.now costs.now op.now (vector_of self.now ∷ []) }
    {
        step_over(query, costs, op, &Inputs::One(self.props()))
    }

    /// The vector of the operator over the entry and the one at its right; none where it isn't
    /// applicable. It takes no memory.
    pub fn vector_beside(
        &self,
        query: &Query,
        costs: &Costs,
        op: &Op,
        right: &Entry,
    ) -> Option<Props>
        requires { WellFormedQuery query.now }
        ensures { result ≡ step query.now costs.now op.now
            (vector_of self.now ∷ vector_of right.now ∷ []) }
    {
        let inputs = Inputs::Two(self.props(), right.props());
        step_over(query, costs, op, &inputs)
    }

    /// The operator over nothing, with its vector.
    pub fn at_leaf(alloc: Global, op: Op, props: Props) -> Result<Entry, AllocError>
        requires { GivesVector op [] props }
        ensures { IfOk result (λ e. e ≡ leaf_plan op props) }
    {
        let flavour = flavour_of(&op);
        Ok(Entry {
            node: Rc::new(alloc, plan_node::leaf(op, props))?,
            trace: Rc::new(alloc, Trace::Leaf { flavour })?,
        })
    }

    /// The operator over the entry, with its vector.
    pub fn under(&self, alloc: Global, op: Op, props: Props) -> Result<Entry, AllocError>
        requires { GivesVector op (vector_of self.now ∷ []) props }
        ensures { IfOk result (λ e. e ≡ unary_plan op props self.now) }
    {
        let flavour = flavour_of(&op);
        let input = self.trace.clone()?;
        let node = plan_node::unary(op, props, self.node.clone()?);
        Ok(Entry {
            node: Rc::new(alloc, node)?,
            trace: Rc::new(alloc, Trace::Unary { flavour, input })?,
        })
    }

    /// The operator over the entry and the one at its right, with its vector.
    pub fn beside(
        &self,
        alloc: Global,
        op: Op,
        props: Props,
        right: &Entry,
    ) -> Result<Entry, AllocError>
        requires { GivesVector op (vector_of self.now ∷ vector_of right.now ∷ []) props }
        ensures { IfOk result (λ e. e ≡ binary_plan op props self.now right.now) }
    {
        let trace = Trace::Binary {
            flavour: flavour_of(&op),
            left: self.trace.clone()?,
            right: right.trace.clone()?,
        };
        let node = plan_node::binary(op, props, self.node.clone()?, right.node.clone()?);
        Ok(Entry {
            node: Rc::new(alloc, node)?,
            trace: Rc::new(alloc, trace)?,
        })
    }

    /// An operator of Glue over the entry, with its vector. The derivation stays: a whole chain is
    /// one node, which `glued` puts on it.
    pub fn enforced(&self, alloc: Global, op: Op, props: Props) -> Result<Entry, AllocError>
        requires { GivesVector op (vector_of self.now ∷ []) props }
        ensures { IfOk result (λ e. e ≡ enforced_plan op props self.now) }
    {
        let trace = self.trace.clone()?;
        let node = plan_node::unary(op, props, self.node.clone()?);
        Ok(Entry {
            node: Rc::new(alloc, node)?,
            trace,
        })
    }

    /// The plan, derived by the chain over the entry's derivation. Its operators are in the plan
    /// already.
    pub fn glued(&self, alloc: Global, chain: Chain) -> Result<Entry, AllocError>
        ensures { IfOk result (λ e. e ≡ under_glue chain self.now) }
    {
        let goal = self.trace.clone()?;
        Ok(Entry {
            node: self.node.clone()?,
            trace: Rc::new(alloc, Trace::Glue { chain, goal })?,
        })
    }

    /// The plan, derived for the goal through the split.
    pub fn reached(
        &self,
        alloc: Global,
        goal: Goal,
        split: Option<(QuantSet, QuantSet)>,
    ) -> Result<Entry, AllocError>
        ensures { IfOk result (λ e. e ≡ under_goal goal split self.now) }
    {
        let body = self.trace.clone()?;
        Ok(Entry {
            node: self.node.clone()?,
            trace: Rc::new(alloc, Trace::Goal { goal, split, body })?,
        })
    }

    /// The plan, derived through a reference to the alternative of the STAR.
    pub fn referred(
        &self,
        alloc: Global,
        star: Name,
        alternative: u32,
        values: ForAllValues,
    ) -> Result<Entry, AllocError>
        ensures { IfOk result (λ e. e ≡ under_reference star alternative values self.now) }
    {
        let body = self.trace.clone()?;
        let trace = Trace::Reference {
            star,
            alternative,
            values,
            body,
        };
        Ok(Entry {
            node: self.node.clone()?,
            trace: Rc::new(alloc, trace)?,
        })
    }
}
