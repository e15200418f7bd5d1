//! The budget from which on the search never gives up.
ghost use Rattle.std.specs.Prelude.{◌≡◌};
ghost use Rattle.case_search.specs.Enough.{enough_of};

use case_tree::Clauses;

// One more than the largest budget.
const MOST: u64 = 1_000_001;

pub fn enough(clauses: &Clauses) -> u64
    ensures { result ≡ enough_of clauses.now.cells }
{
    let mut product = (clauses.vars() as u64).min(MOST - 1) + 1;
    for cell in clauses.cells() {
        if cell.demanded {
            product = (product * (cell.count as u64).min(MOST)).min(MOST);
        }
    }
    product
}
