// The rules of each workload.

ghost use Rattle.std.specs.Prelude.{◌≡◌};
ghost use Rattle.workload_gen.specs.RulesText.{rules_text};

// In canonical layout: tables are read as heaps or by their indexes, and tables that a predicate
// links are joined by nested loops, which push it into the second, or by hashing.
const RULES: &[u8] = b"\
cost ACCESS_HEAP = 10 * pages + cpu * rows;\n\
rescan ACCESS_HEAP = 10 * pages + cpu * rows;\n\
cost ACCESS_INDEX = 10 + 10 * pages * card / rows + cpu * card;\n\
rescan ACCESS_INDEX = 10 + 10 * pages * card / rows + cpu * card;\n\
cost GET = cost1 + 10 * card1 + cpu * card1 * preds;\n\
rescan GET = rescan1 + 10 * card1 + cpu * card1 * preds;\n\
cost FILTER = cost1 + cpu * card1 * preds;\n\
rescan FILTER = rescan1 + cpu * card1 * preds;\n\
cost SORT = cost1 + 4 * cpu * card1;\n\
rescan SORT = rescan1 + 4 * cpu * card1;\n\
cost STORE = cost1 + 2 * cpu * card1;\n\
rescan STORE = cpu * card1;\n\
cost SHIP = cost1 + net * card1 * width1;\n\
rescan SHIP = rescan1 + net * card1 * width1;\n\
cost PROBE = cost1 + cpu * (1 + card);\n\
rescan PROBE = cpu * (1 + card);\n\
cost JOIN_NL = cost1 + cost2 + (card1 - 1) * rescan2;\n\
rescan JOIN_NL = rescan1 + card1 * rescan2;\n\
cost JOIN_MERGE = cost1 + cost2 + cpu * (card1 + card2);\n\
rescan JOIN_MERGE = rescan1 + rescan2 + cpu * (card1 + card2);\n\
cost JOIN_HASH = cost1 + cost2 + cpu * (card1 + 2 * card2);\n\
rescan JOIN_HASH = rescan1 + rescan2 + cpu * (card1 + 2 * card2);\n\
star AccessRoot(A stream, J preds) = \
give ACCESS_HEAP(A, union(inside(tables(A)), J)) | \
for x in indexes(A) give ACCESS_INDEX(A, x, union(inside(tables(A)), J));\n\
star JoinRoot(A stream, B stream, J preds) = \
give Both(A, B, J, between(tables(A), tables(B)));\n\
star Both(A stream, B stream, J preds, P preds) = \
when not(empty(P)) give JOIN_NL(Glue(A, J), Glue(B, union(J, P)), none) | \
when not(empty(equalities(P))) \
give JOIN_HASH(Glue(A, J), Glue(B, J), equalities(P), minus(P, equalities(P)));\n";

/// The text of the rules.
pub fn rules_text() -> &'static [u8]
    ensures { result.now ≡ rules_text }
{
    RULES
}
