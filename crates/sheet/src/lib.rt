// Judges a sheet's bytes: its four sections, their counts and entries, the tree that its nodes make. The checks stand in document 01's order.
#![tactic(auto)]

pub mod depth;

ghost use Rattle.std.specs.Prelude.{◌≡◌};
ghost use Rattle.sheet.specs.Load.{load_of};

use levels::Levels;
use nodes::{Limits, uses};
use sections::Parts;
use sections::verdict::SheetError;

/// Judges a sheet: the first check that refuses it, or none.
pub fn load(sheet: &[u8]) -> Result<(), SheetError>
    ensures { result ≡ load_of sheet.now }
{
    sections::judge_sections(sheet)?;
    let parts = Parts::of(sheet);
    if Levels::new(parts.levels).is_none() {
        return Err(SheetError::Levels);
    }
    if !names::names_right(parts.fields) {
        return Err(SheetError::Name);
    }
    let mut used = [0u8; 1024];
    let limits = Limits {
        constants: parts.constants.len() / 4,
        fields: parts.fields.len() / 8,
    };
    nodes::judge_nodes(parts.nodes, limits, &mut used)?;
    let last = parts.nodes.len() / 8 - 1;
    if !uses::all_once(&used, last) {
        return Err(SheetError::Uses);
    }
    if nodes::is_expression(parts.nodes, last) {
        return Err(SheetError::Uses);
    }
    if !depth::fits(&parts.nodes, last, 64) {
        return Err(SheetError::Depth);
    }
    Ok(())
}
