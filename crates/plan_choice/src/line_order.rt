// The order of a frontier's lines.

ghost use Rattle.std.specs.Prelude.{◌≡◌};
ghost use Rattle.plan_choice.specs.LineOrder.{line_cmp};

use star_model::plans::Props;
use std::cmp::Ordering;

// Compares the vectors of one goal by what their lines show: costs first, then the physical
// properties.
pub(crate) fn compare_lines(left: &Props, right: &Props) -> Ordering
    ensures { result ≡ line_cmp left.now right.now }
{
    left.cost
        .get()
        .cmp(&right.cost.get())
        .then(left.rescan.get().cmp(&right.rescan.get()))
        .then(left.site.0.cmp(&right.site.0))
        .then(left.temp.cmp(&right.temp))
        .then(left.order.as_slice().cmp(right.order.as_slice()))
        .then(left.path.as_slice().cmp(right.path.as_slice()))
}
