//! Rows of curves: the number of tokens, and the tokens that they are spelled by.
ghost use Rattle.std.specs.Prelude.{◌≤◌, IsTrue};
ghost use Rattle.curve_tables.specs.Shapes.{CanSpell2, CanSpell3};

use crate::reading::{entries, entry};
use crate::saying::{add, add_token, counted, stopped, texts, unknown};
use curve_tables::{Curve2, Curve2Reader, Curve3, Curve3Reader, Curve3s};
use row_parts::Row;
use std::alloc::{AllocError, Global};

/// The answer to a row of this module.
pub fn answer(alloc: Global, row: &Row<'_>, text: &str) -> Result<Option<String>, AllocError> {
    let first = row.first.unwrap_or(1);
    let said = match row.word {
        "curve2" => curve2s(alloc, first, text)?,
        "curve3" => curve3s(alloc, first, text)?,
        "curve3-inside" => curve3_inside(alloc, first, text)?,
        _ => return Ok(None),
    };
    Ok(Some(said))
}

/// Can the curve be spelled? Only numbers below a million are asked for.
fn can_spell2(curve: &Curve2) -> bool
    ensures { IsTrue result → CanSpell2 curve.now }
{
    match curve {
        Curve2::Plain { code, texts: all } => match *code {
            1 => texts(4, all),
            2 | 4 => texts(7, all),
            3 | 5 => texts(8, all),
            _ => false,
        },
        Curve2::Bezier {
            rational,
            degree,
            poles,
        } => *degree < 1000000 && texts((*degree + 1) * if *rational { 3 } else { 2 }, poles),
        Curve2::BSpline {
            rational,
            pole_count,
            poles,
            knots,
            multiplicities,
            ..
        } => {
            *pole_count < 1000000
                && texts(*pole_count * if *rational { 3 } else { 2 }, poles)
                && texts(multiplicities.len() as u64, knots)
        }
        Curve2::Trimmed { texts: all, basis } => texts(2, all) && can_spell2(basis.get()),
        Curve2::Offset { texts: all, basis } => texts(1, all) && can_spell2(basis.get()),
    }
}

/// The same in space.
pub fn can_spell3(curve: &Curve3) -> bool
    ensures { IsTrue result → CanSpell3 curve.now }
{
    match curve {
        Curve3::Plain { code, texts: all } => match *code {
            1 => texts(6, all),
            2 | 4 => texts(13, all),
            3 | 5 => texts(14, all),
            _ => false,
        },
        Curve3::Bezier {
            rational,
            degree,
            poles,
        } => *degree < 1000000 && texts((*degree + 1) * if *rational { 4 } else { 3 }, poles),
        Curve3::BSpline {
            rational,
            pole_count,
            poles,
            knots,
            multiplicities,
            ..
        } => {
            *pole_count < 1000000
                && texts(*pole_count * if *rational { 4 } else { 3 }, poles)
                && texts(multiplicities.len() as u64, knots)
        }
        Curve3::Trimmed { texts: all, basis } => texts(2, all) && can_spell3(basis.get()),
        Curve3::Offset { texts: all, basis } => texts(4, all) && can_spell3(basis.get()),
    }
}

/// Appends the tokens of a curve in a plane.
fn add_curve2(said: &mut String, curve: &Curve2) -> Result<(), AllocError> {
    if !can_spell2(curve) {
        return add(said, "not shaped");
    }
    for token in curve.spell() {
        add_token(said, &token)?;
    }
    Ok(())
}

/// Appends the tokens of a curve in space.
fn add_curve3(said: &mut String, curve: &Curve3) -> Result<(), AllocError> {
    if !can_spell3(curve) {
        return add(said, "not shaped");
    }
    for token in curve.spell() {
        add_token(said, &token)?;
    }
    Ok(())
}

/// So many curves in a plane.
fn curve2s(alloc: Global, due: u64, text: &str) -> Result<String, AllocError> {
    match entries::<Curve2Reader>(alloc, due, text) {
        Err(stop) => stopped(alloc, &stop),
        Ok((curves, tokens)) => {
            let mut said = counted(alloc, tokens)?;
            for curve in curves.as_slice() {
                add_curve2(&mut said, curve)?;
            }
            Ok(said)
        }
    }
}

/// So many curves in space.
fn curve3s(alloc: Global, due: u64, text: &str) -> Result<String, AllocError> {
    match entries::<Curve3Reader>(alloc, due, text) {
        Err(stop) => stopped(alloc, &stop),
        Ok((curves, tokens)) => {
            let mut said = counted(alloc, tokens)?;
            for curve in curves.as_slice() {
                add_curve3(&mut said, curve)?;
            }
            Ok(said)
        }
    }
}

/// A curve in space inside so many codes.
fn curve3_inside(alloc: Global, nest: u64, text: &str) -> Result<String, AllocError> {
    if nest > 64 {
        return unknown(alloc);
    }
    match entry(Curve3Reader::new(alloc, nest as u32), text) {
        Err(stop) => stopped(alloc, &stop),
        Ok((curve, tokens)) => {
            let mut said = counted(alloc, tokens)?;
            add_curve3(&mut said, &curve)?;
            Ok(said)
        }
    }
}
