//! The densities of currents.
ghost use Rattle.std.specs.Prelude.{◌≡◌, ◌∷◌, ◌++◌, IfOk};
ghost use Rattle.std.specs.List.{zip};
ghost use Rattle.lef_tech.specs.Record.{points_of, values_of, density_of};

use crate::layer::Density;
use crate::statement::Statement;
use entry_list::Entries;
use std::alloc::{AllocError, Global};

/// The points of a table.
fn points_of(alloc: Global, first: u64, statements: &[Statement]) -> Result<Vec<u64>, AllocError>
    ensures { IfOk result (λ points. points.items ≡ first ∷ points_of statements.now) }
{
    let mut points = Vec::new(alloc);
    points.push(first)?;
    for statement in statements {
        match statement {
            Statement::Point(point) => points.push(*point)?,
            _ => return Ok(points),
        }
    }
    Ok(points)
}

/// The entries of a table.
fn values_of(alloc: Global, statements: &[Statement]) -> Result<Vec<u64>, AllocError>
    ensures { IfOk result (λ values. values.items ≡ values_of statements.now) }
{
    let mut values = Vec::new(alloc);
    for statement in statements {
        match statement {
            Statement::Point(_) => {}
            Statement::Value(value) => values.push(*value)?,
            _ => return Ok(values),
        }
    }
    Ok(values)
}

/// The points of a table with their entries.
fn zipped(alloc: Global, points: &[u64], values: &[u64]) -> Result<Vec<(u64, u64)>, AllocError>
    ensures { IfOk result (λ table. table.items ≡ zip points.now values.now) }
{
    points
        .iter()
        .copied()
        .zip(values.iter().copied())
        .collect(alloc)
}

/// A table from its first point on.
fn table_of(alloc: Global, first: u64, statements: &[Statement]) -> Result<Density, AllocError>
    ensures { IfOk result (λ density. density ≡ Density.Table (zip (first ∷ points_of statements.now)
        (values_of statements.now))) }
{
    let points = points_of(alloc, first, statements)?;
    let values = values_of(alloc, statements)?;
    Ok(Density::Table(Entries::new(zipped(alloc, &points, &values)?)))
}

/// The first density that is stated.
pub(crate) fn density_of(alloc: Global, body: &[Statement]) -> Result<Density, AllocError>
    ensures { IfOk result (λ density. density ≡ density_of body.now) }
{
    for (place, statement) in body.iter().enumerate() {
        match statement {
            Statement::Density(value) => return Ok(Density::One(*value)),
            Statement::Table(point) => return table_of(alloc, *point, &body[place + 1..]),
            _ => {}
        }
    }
    Ok(Density::Unlimited)
}
