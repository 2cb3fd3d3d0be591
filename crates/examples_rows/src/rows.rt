use owned_lists::Items;
use seq_model::Row;
use std::alloc::{AllocError, Global};

/// Rows of one variable, each a constant and its coefficients, of which the second isn't taken.
pub fn lone_rows_of(alloc: Global, rows: &[(i64, [i64; 2])]) -> Result<Vec<Row>, AllocError> {
    let mut made = Vec::new(alloc);
    for (c, a) in rows {
        let mut items = Items::new(alloc);
        items.push(a[0])?;
        made.push(Row { c: *c, a: items })?;
    }
    Ok(made)
}

/// Rows of one variable, or else of two.
pub fn rows_over(
    alloc: Global,
    vars: u32,
    rows: &[(i64, [i64; 2])],
) -> Result<Vec<Row>, AllocError> {
    if vars == 1 {
        return lone_rows_of(alloc, rows);
    }
    rows_of(alloc, rows)
}

/// Rows of two variables, each a constant and its coefficients.
pub fn rows_of(alloc: Global, rows: &[(i64, [i64; 2])]) -> Result<Vec<Row>, AllocError> {
    let mut made = Vec::new(alloc);
    for (c, a) in rows {
        let mut items = Items::new(alloc);
        for x in a {
            items.push(*x)?;
        }
        made.push(Row { c: *c, a: items })?;
    }
    Ok(made)
}
