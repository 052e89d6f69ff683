// The order of a sheet's levels, found from the rows alone: no tables, no lists of levels. `rows` is the levels section, 2 bytes a row: bit j of
// row i is set when level i lies at or below level j. So a row is a set of levels, those at or above its own; the row of a join is the
// intersection of both rows, and the lowest level's row has every level.
#![tactic(auto)]

ghost use Rattle.std.specs.Prelude.{◌≡◌, true, ℕ, is_some, IfSome, ◌-◌, ◌^◌, ◌<◌, ◌≤◌};
ghost use Rattle.levels.specs.Levels.{bit, count, row_at, below, right, join_of, meet_of, lowest_of, highest_of};
ghost use Rattle.levels.specs.Inside.Climbing.{IsSummit};
ghost use Rattle.levels.specs.Inside.Judging.{above_both, WithRow, pair_right, level_right};

/// Levels whose rows are right.
#[derive(Clone, Copy)]
pub struct Levels<'a> {
    pub rows: &'a [u8],
    pub ghost order: { right rows.now ≡ true },
}

impl<'a> Levels<'a> {
    /// Judges the rows: number 3 if they are not right.
    pub fn new(rows: &'a [u8]) -> Option<Self>
        ensures judged { is_some result ≡ right rows.now }
        ensures same { IfSome result (λ levels. levels.rows.now ≡ rows.now) }
    {
        if right(rows) {
            Some(Levels { rows })
        } else {
            None
        }
    }

    /// How many levels there are, 1 to 16.
    pub fn count(self) -> usize
        ensures { result ≡ count self.entry.rows.now }
    {
        self.rows.len() / 2
    }

    /// Whether level i lies at or below level j.
    pub fn at_or_below(self, i: usize, j: usize) -> bool
        requires { (i < count self.rows.now) × (j < count self.rows.now) }
        ensures { result ≡ below self.entry.rows.now i j }
    {
        has(row(self.rows, i), j)
    }

    /// The least upper bound of levels i and j.
    pub fn join(self, i: usize, j: usize) -> usize
        requires { (i < count self.rows.now) × (j < count self.rows.now) }
        ensures { (result ≡ join_of self.entry.rows.now i j) × (result < count self.entry.rows.now) }
    {
        with_common_row(self.rows, i, j).unwrap()
    }

    /// The greatest lower bound of levels i and j: from the lowest level on, up to each level that lies at or below both.
    pub fn meet(self, i: usize, j: usize) -> usize
        requires { (i < count self.rows.now) × (j < count self.rows.now) }
        ensures { (result ≡ meet_of self.entry.rows.now i j) × (result < count self.entry.rows.now) }
    {
        self.climb(
            self.lowest(),
            |k| self.at_or_below(k, i) && self.at_or_below(k, j),
        )
    }

    /// BOT: the level whose row has every level.
    pub fn lowest(self) -> usize
        ensures { (result ≡ lowest_of self.entry.rows.now) × (result < count self.entry.rows.now) }
    {
        with_row(self.rows, full(self.count())).unwrap()
    }

    /// TOP: from level 0 on, up to each level above.
    pub fn highest(self) -> usize
        ensures { (result ≡ highest_of self.entry.rows.now) × (result < count self.entry.rows.now) }
    {
        self.climb(0, |_| true)
    }

    // From a level on, up to each level above it that passes: the highest that passes, if one lies above all that do and above the first.
    fn climb<F: Fn(usize) -> bool>(self, from: usize, passes: F) -> usize
        requires level { from < count self.rows.now }
        requires asks { (k : ℕ) → k < count self.rows.now → F.pre passes k }
        ensures { (m : ℕ) → IsSummit self.entry.rows.now from (F.post passes) m → result ≡ m }
    {
        let mut found = from;
        for k in 0..self.count() {
            if self.at_or_below(found, k) && passes(k) {
                found = k;
            }
        }
        found
    }
}

// Whether the rows are right. Joins are judged pair by pair; where every two levels have a join, they have a meet too if one
// level lies below all.
fn right(rows: &[u8]) -> bool
    ensures { result ≡ right rows.now }
{
    let n = rows.len() / 2;
    (1..=16).contains(&n)
        && (0..n).all(|i| level_right(rows, i))
        && with_row(rows, full(n)).is_some()
}

// Whether level i makes a right pair with each level. From here on rows need not be right, so they are no `Levels`, and each function asks for its own
// levels alone.
fn level_right(rows: &[u8], i: usize) -> bool
    requires { (i < count rows.now) × (count rows.now ≤ 16) }
    ensures { result ≡ level_right rows.now i }
{
    (0..rows.len() / 2).all(|j| pair_right(rows, i, j))
}

// Whether i lies at or below j exactly if row j lies within row i, no two levels have one row, and some level's row is the intersection of both:
// asked of a pair in one order, since it is the same in the other.
fn pair_right(rows: &[u8], i: usize, j: usize) -> bool
    requires { (i < count rows.now) × (j < count rows.now) × (count rows.now ≤ 16) }
    ensures { result ≡ pair_right rows.now i j }
{
    let row_i = row(rows, i);
    let row_j = row(rows, j);
    let ordered = (has(row_i, j) == ((row_i & row_j) == row_j)) & ((row_i != row_j) | (i == j));
    ordered && (j < i || with_common_row(rows, i, j).is_some())
}

// The level whose row is the intersection of rows i and j: without a search if it is one of the two.
fn with_common_row(rows: &[u8], i: usize, j: usize) -> Option<usize>
    requires { (i < count rows.now) × (j < count rows.now) }
    ensures { WithRow rows.now (above_both rows.now i j) result }
{
    let row_i = row(rows, i);
    let row_j = row(rows, j);
    let both = row_i & row_j;
    if both == row_j {
        return Some(j);
    }
    if both == row_i {
        return Some(i);
    }
    with_row(rows, both)
}

// The level that has this row.
fn with_row(rows: &[u8], wanted: u32) -> Option<usize>
    ensures { WithRow rows.now wanted result }
{
    (0..rows.len() / 2).find(|&k| row(rows, k) == wanted)
}

// Row i: the levels at or above level i, a bit each.
fn row(rows: &[u8], i: usize) -> u32
    requires { i < count rows.now }
    ensures { result ≡ row_at rows.now i }
{
    basis::word(rows, i * 2)
}

// Whether level j is in this row.
fn has(row: u32, j: usize) -> bool
    requires { j < 32 }
    ensures { result ≡ bit row j }
{
    (row >> j) % 2 == 1
}

// The row that has all n levels.
fn full(n: usize) -> u32
    requires { n ≤ 16 }
    ensures { result ≡ 2 ^ n - 1 }
{
    (1u32 << n) - 1
}
