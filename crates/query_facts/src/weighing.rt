// The selectivities of predicates.

ghost use Rattle.std.specs.Prelude.{◌≡◌};
ghost use Rattle.star_model.specs.Selectivity.{class_of, distinct_right, rows_right, select_vars, usual_den, num_of, den_of, weighed};
ghost use Rattle.query_facts.specs.Weighing.{weighed_at};

use crate::cardinality::{distinct_of, rows_of};
use formula_value::eval;
use star_model::formula::Vars;
use star_model::num::Num;
use star_model::query::{Cmp, Operand, Pred, Query};
use star_model::rules::Class;
use star_model::selects::Selects;

// How the predicate compares.
fn class_of(pred: &Pred) -> Class
    ensures { result ≡ class_of pred.now.cmp pred.now.right }
{
    match pred.cmp {
        Cmp::Eq => match &pred.right {
            Operand::Column(_) => Class::EqColumn,
            Operand::Constant(_) => Class::EqConst,
        },
        Cmp::Ne => Class::Ne,
        Cmp::Lt | Cmp::Le | Cmp::Gt | Cmp::Ge => Class::Less,
    }
}

fn distinct_right(query: &Query, right: &Operand) -> Num
    ensures { result ≡ distinct_right query.now right.now }
{
    match right {
        Operand::Column(column) => distinct_of(query, *column),
        Operand::Constant(_) => Num::cut(0),
    }
}

fn rows_right(query: &Query, right: &Operand) -> Num
    ensures { result ≡ rows_right query.now right.now }
{
    match right {
        Operand::Column(column) => rows_of(query, column.quant.0),
        Operand::Constant(_) => Num::cut(0),
    }
}

// What the variables of a selectivity's formulas stand for.
fn select_vars(query: &Query, pred: &Pred) -> Vars
    ensures { result ≡ select_vars query.now pred.now }
{
    let none = Num::cut(0);
    Vars {
        cost1: none,
        rescan1: none,
        card1: none,
        width1: none,
        cost2: none,
        rescan2: none,
        card2: none,
        width2: none,
        card: none,
        width: none,
        rows: none,
        pages: none,
        preds: none,
        cpu: none,
        net: none,
        distinct1: distinct_of(query, pred.left),
        rows1: rows_of(query, pred.left.quant.0),
        distinct2: distinct_right(query, &pred.right),
        rows2: rows_right(query, &pred.right),
    }
}

// Of so many rows one makes the predicate true, where no formula says otherwise.
fn usual_den(query: &Query, pred: &Pred, class: Class) -> Num
    ensures { result ≡ usual_den query.now pred.now class }
{
    let distinct = distinct_of(query, pred.left);
    match class {
        Class::EqConst => Num::cut(1).max(distinct),
        Class::EqColumn => Num::cut(1).max(distinct.max(distinct_right(query, &pred.right))),
        Class::Ne => Num::cut(1),
        Class::Less => Num::cut(3),
    }
}

fn num_of(query: &Query, pred: &Pred, selects: &Selects) -> Num
    ensures { result ≡ num_of selects.now query.now pred.now }
{
    match selects.num(class_of(pred)) {
        Some(formula) => eval(formula, &select_vars(query, pred)),
        None => Num::cut(1),
    }
}

fn den_of(query: &Query, pred: &Pred, selects: &Selects) -> Num
    ensures { result ≡ den_of selects.now query.now pred.now }
{
    let class = class_of(pred);
    match selects.den(class) {
        Some(formula) => eval(formula, &select_vars(query, pred)),
        None => usual_den(query, pred, class),
    }
}

// Gives the predicate at this position its selectivity.
fn weigh_at(query: &mut Query, selects: &Selects, at: usize)
    ensures { query.new ≡ weighed_at selects.now query.old at }
{
    let Some(pred) = query.preds.as_slice().get(at) else {
        return;
    };
    let num = num_of(query, pred, selects);
    let den = den_of(query, pred, selects);
    if let Some(pred) = query.preds.get_mut(at) {
        pred.num = num;
        pred.den = den;
    }
}

/// Gives each predicate its selectivity: by the formulas of its class, or the usual one. It takes
/// no memory.
#[tactic(auto, using(crate::proofs::WeighingWalks::weighing_rules))]
pub fn weigh(query: &mut Query, selects: &Selects)
    ensures { query.new ≡ weighed selects.now query.old }
{
    for at in 0..query.preds.len() {
        weigh_at(query, selects, at);
    }
}
