// Whether a set has something as good already.

ghost use Rattle.std.specs.Prelude.{◌≡◌};
ghost use Rattle.std.specs.List.{list_any};
ghost use Rattle.star_model.specs.Vectors.{is_better};
ghost use Rattle.lolepop.specs.Derived.{vector_of};

use dominance_prune::PlanSet;
use lolepop::Entry;
use property_vector::better;
use star_model::plans::Props;

fn is_as_good(member: &Entry, props: &Props) -> bool
    ensures { result ≡ is_better (vector_of member.now) props.now }
{
    better(member.props(), props)
}

/// Whether a member is as good as a plan with this vector. It takes no memory.
pub fn is_covered(plans: &PlanSet<Entry>, props: &Props) -> bool
    ensures { result ≡ list_any (λ m. is_better (vector_of m) props.now) plans.now }
{
    plans.iter().any(|member| is_as_good(member, props))
}
