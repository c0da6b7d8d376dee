// The small result slices, which hold what a call returns.
ghost use Rattle.std.specs.Prelude.{◌≡◌, [], ◌∷◌, ◌*◌, ◌≤◌, length, map};
ghost use Rattle.elements.specs.Strategy.{code_of_set};
ghost use Rattle.host.specs.Entries.{returned, rows_of};

use elements::ExponentSet;

// A result slice of one entry holds the value; another is left. By index: of `copy_from_slice` a test of overlap would stay in each entry.
#[tactic(auto, unfolding(crate::specs::Entries::returned))]
pub(crate) fn return_one<T: Copy>(slot: &mut [T], value: T)
    ensures { slot.new ≡ returned 1 (value ∷ []) slot.old }
{
    if slot.len() == 1 {
        slot[0] = value;
    }
}

// A result slice of their number holds the values; another is left.
#[tactic(auto, unfolding(crate::specs::Entries::returned))]
pub(crate) fn return_all<T: Copy, const N: usize>(slot: &mut [T], values: [T; N])
    ensures { slot.new ≡ returned N values slot.old }
{
    if slot.len() == N {
        slot.copy_from_slice(&values);
    }
}

// The codes of one row of a table.
fn return_row(slot: &mut [u8], row: [ExponentSet; 6])
    requires { length slot.old ≡ 6 }
    ensures { slot.new ≡ map code_of_set row }
{
    slot.copy_from_slice(&row.map(ExponentSet::code));
}

// The codes of the first rows of a table, one row after the other.
pub(crate) fn return_rows(slot: &mut [u8], table: [[ExponentSet; 6]; 6], rows: usize)
    requires { (rows ≤ 6) × (length slot.old ≡ 6 * rows) }
    ensures { slot.new ≡ rows_of table rows }
{
    for c in 0..rows {
        let row = table[c];
        let a = 6 * c;
        let e = a + 6;
        return_row(&mut slot[a..e], row);
    }
}
