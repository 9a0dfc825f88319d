//! Laws of the counts, which hold of the definitions alone.
ghost use Rattle.verdict_ledger.specs.Laws.{LinksAddUp, TotalsAddUp};

/// Each frame counts in one column, so `frames` is the sum of the columns: of the line of all frames those
/// from `cut` to `delivered`, of a link's line those from `toolong` to `delivered`.
pub fn counts_add_up()
    ensures totals { TotalsAddUp }
    ensures links { LinksAddUp }
{}
