// The consistency index: how many thousandths of a total its floor makes, and what is left over.
ghost use Rattle.consistency.specs.Steps.{IndexOf};

use consistency_form::index::Index;

// The index is counted in thousandths.
const THOUSAND: u64 = 1000;

// The highest floor that a matrix can have: 128 times 9 times 1998.
const MOST_FLOOR: u64 = 2301696;

// The index of a floor and a total: none with a total of 0, nor for a floor that no matrix has.
pub fn index_of(floor: u64, total: u64) -> Option<Index>
    ensures { IndexOf floor total result }
{
    if MOST_FLOOR < floor {
        return None;
    }
    let thousandths = THOUSAND * floor;
    Some(Index {
        quotient: thousandths.checked_div(total)?,
        remainder: thousandths.checked_rem(total)?,
    })
}
