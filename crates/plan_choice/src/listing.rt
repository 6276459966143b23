// The vectors of a frontier, in the order of their lines.

ghost use Rattle.std.specs.Prelude.{◌≡◌, map, IfOk};
ghost use Rattle.star_model.specs.Expected.{query_goal};
ghost use Rattle.star_model.specs.declared.query.Query as query;
ghost use Rattle.star_model.specs.declared.rules.RuleFile.{RuleFile};
ghost use Rattle.lolepop.specs.Derived.{vector_of};
ghost use Rattle.exchange.specs.Places.{IsBestOf};
ghost use Rattle.plan_choice.specs.FrontierLists.{IsFrontierList};

use crate::line_order::compare_lines;
use dominance_prune::PlanSet;
use lolepop::Entry;
use star_model::lists::List;
use star_model::plans::Props;
use std::alloc::{AllocError, Global};

fn copied(props: &Props) -> Props
    ensures { result ≡ props.now }
{
    Props {
        tables: props.tables,
        cols: props.cols,
        preds: props.preds,
        order: props.order.copied(),
        site: props.site,
        temp: props.temp,
        path: props.path.copied(),
        card: props.card,
        cost: props.cost,
        rescan: props.rescan,
    }
}

fn vectors_of(alloc: Global, plans: &PlanSet<Entry>) -> Result<Vec<Props>, AllocError>
    ensures { IfOk result (λ vectors. vectors.items ≡ map vector_of plans.now) }
{
    let mut vectors = Vec::with_capacity(alloc, plans.len())?;
    for entry in plans.iter() {
        vectors.push(copied(entry.node.props()))?;
    }
    Ok(vectors)
}

fn as_list(alloc: Global, vectors: Vec<Props>) -> Result<List<Props>, AllocError>
    ensures { IfOk result (λ list. list ≡ vectors.items) }
{
    let mut list = List::new(alloc);
    for vector in vectors {
        list.push(vector)?;
    }
    Ok(list)
}

/// The vectors of the members in the order of their lines. If the set has what is best for a
/// query's goal, they are those of the query's frontier, each once.
pub fn listed_frontier(alloc: Global, plans: &PlanSet<Entry>) -> Result<List<Props>, AllocError>
    ensures { IfOk result (λ list. (q : query.Query) (rules : RuleFile)
        → IsBestOf q rules (query_goal q) plans.now → IsFrontierList q rules list) }
{
    let mut vectors = vectors_of(alloc, plans)?;
    vectors.sort_unstable_by(compare_lines);
    as_list(alloc, vectors)
}
