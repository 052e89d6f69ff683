// Marks that are levels, whole or partial: what a run over levels asks about them. A context is a level.
ghost use Rattle.std.specs.Prelude.{◌≡◌};
ghost use Rattle.levels.specs.Lattice.{lattice};
ghost use Rattle.store.specs.Marks.{partial, level_of, mark_of};
ghost use Rattle.rules.specs.LevelMarks.{joined};
ghost use Rattle.marks.specs.Inside.Meanings.{TwoMarks, Over, StandsFor};

use levels::Levels;
use store::{is_partial, level_of, partial_at};

/// The join of both levels, partial if either is.
pub fn join(levels: Levels, m: u32, k: u32) -> u32
    requires { TwoMarks levels.rows.now m k }
    ensures { StandsFor levels.entry.rows.now (joined (lattice levels.entry.rows.now) (mark_of m) (mark_of k)) result }
{
    if m == k {
        return m;
    }
    let level = levels.join(level_of(m), level_of(k));
    if is_partial(m) | is_partial(k) {
        return partial_at(level);
    }
    level as u32
}

/// Whether a context lies at or below the level of a field with the old mark.
pub fn at_or_below(levels: Levels, context: u32, old: u32) -> bool
    requires { Over levels.rows.now context old }
    ensures { result ≡ (lattice levels.entry.rows.now).le context (level_of (mark_of old)) }
{
    levels.at_or_below(context as usize, level_of(old))
}

/// The meet of a context and the level of a field with the old mark, partial.
pub fn lowered(levels: Levels, context: u32, old: u32) -> u32
    requires { Over levels.rows.now context old }
    ensures { StandsFor levels.entry.rows.now (partial ((lattice levels.entry.rows.now).meet context (level_of (mark_of old)))) result }
{
    partial_at(levels.meet(context as usize, level_of(old)))
}
