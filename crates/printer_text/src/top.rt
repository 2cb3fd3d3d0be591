//! The top table.

ghost use Rattle.std.specs.Prelude.{◌≡◌, ◌≤ℤ◌, ◌≤◌, ◌*ℤ◌, neg_ℤ, pos, Ok, Err, IfOk, IfErr, IfSome, option_map, length};
ghost use Rattle.toml.specs.View.{table_view, items_view};
ghost use Rattle.printer_text.specs.Keys.{top_keys};
ghost use Rattle.printer_text.specs.Outlines.{AreSizes};
ghost use Rattle.printer_text.specs.Tables.{reading, nothing, said_top};

use crate::Key;
use crate::keys::{grains_at, integer_at, length_at, pair_at, tables_if};
use crate::values::Bad;
use seq_limits::{
    GREATEST_GRAIN, GREATEST_MARGIN, GREATEST_PLATE, GREATEST_STEP, LEAST_GRAIN, LEAST_STEP,
    MOST_GRID, MOST_LISTED_PARTS,
};
use toml::{Table, Value};

/// The sizes of a printer: the grain and the band height in µm, the plate and the margin in grains, and the grid.
#[derive(Clone, Copy, Debug)]
pub struct Sizes {
    pub grain: i64,
    pub width: i64,
    pub depth: i64,
    pub step: i64,
    pub margin: i64,
    pub grid: u32,
}

/// What the keys of the top table say: the sizes, and the listed parts if there are any.
pub fn read_top(table: &Table) -> Result<(Sizes, Option<&[Value]>), Bad>
    ensures ok { IfOk result
        (λ top. reading top_keys (table_view table.now) nothing
        ≡ Ok (said_top top.0 (option_map (λ values. items_view values.now) top.1))) }
    ensures ranged { IfOk result (λ top. AreSizes top.0) }
    ensures few { IfOk result (λ top. IfSome top.1 (λ values. length values.now ≤ MOST_LISTED_PARTS)) }
    ensures err { IfErr result (λ bad. reading top_keys (table_view table.now) nothing ≡ Err bad) }
{
    let _format = integer_at(table, Key::Format, 1, 1)?;
    let grain = length_at(table, Key::Grain, LEAST_GRAIN, GREATEST_GRAIN)?;
    let plate = pair_at(table, Key::Plate, grain, 1, GREATEST_PLATE)?;
    let step = length_at(table, Key::Step, LEAST_STEP, GREATEST_STEP)?;
    let margin = grains_at(table, Key::Margin, grain, 1, GREATEST_MARGIN)?;
    let grid = integer_at(table, Key::Grid, 1, i64::from(MOST_GRID))?;
    let listed = tables_if(table, Key::Part, MOST_LISTED_PARTS)?;
    let sizes = Sizes {
        grain,
        width: plate.x,
        depth: plate.y,
        step,
        margin,
        grid: grid as u32,
    };
    Ok((sizes, listed))
}
