//! Rows of surfaces: the number of tokens, and the tokens that they are spelled by.
ghost use Rattle.std.specs.Prelude.{IsTrue};
ghost use Rattle.surface_tables.specs.Shapes.{CanSpellSurface};

use crate::curves::can_spell3;
use crate::reading::entries;
use crate::saying::{add, add_token, counted, stopped, texts};
use row_parts::Row;
use std::alloc::{AllocError, Global};
use surface_tables::{Surface, SurfaceReader};

/// The answer to a row of this module.
pub fn answer(alloc: Global, row: &Row<'_>, text: &str) -> Result<Option<String>, AllocError> {
    match row.word {
        "surface" => Ok(Some(surfaces(alloc, row.first.unwrap_or(1), text)?)),
        _ => Ok(None),
    }
}

/// Can the surface be spelled? Only numbers below a thousand are asked for.
fn can_spell(surface: &Surface) -> bool
    ensures { IsTrue result → CanSpellSurface surface.now }
{
    match surface {
        Surface::Plain { code, texts: all } => match *code {
            1 => texts(12, all),
            2 | 4 => texts(13, all),
            3 | 5 => texts(14, all),
            _ => false,
        },
        Surface::Swept {
            code,
            texts: all,
            curve,
        } => match *code {
            6 => texts(3, all) && can_spell3(curve),
            7 => texts(6, all) && can_spell3(curve),
            _ => false,
        },
        Surface::Bezier {
            urational,
            vrational,
            udegree,
            vdegree,
            poles,
        } => {
            *udegree < 1000
                && *vdegree < 1000
                && texts(
                    (*udegree + 1) * (*vdegree + 1) * if *urational || *vrational { 4 } else { 3 },
                    poles,
                )
        }
        Surface::BSpline {
            flags,
            upoles,
            vpoles,
            poles,
            uknots,
            umult,
            vknots,
            vmult,
            ..
        } => {
            let size = if flags.urational || flags.vrational {
                4
            } else {
                3
            };
            *upoles < 1000
                && *vpoles < 1000
                && texts(*upoles * *vpoles * size, poles)
                && texts(umult.len() as u64, uknots)
                && texts(vmult.len() as u64, vknots)
        }
        Surface::Trimmed { texts: all, basis } => texts(4, all) && can_spell(basis.get()),
        Surface::Offset { texts: all, basis } => texts(1, all) && can_spell(basis.get()),
    }
}

/// Appends the tokens of a surface.
fn add_surface(said: &mut String, surface: &Surface) -> Result<(), AllocError> {
    if !can_spell(surface) {
        return add(said, "not shaped");
    }
    for token in surface.spell() {
        add_token(said, &token)?;
    }
    Ok(())
}

/// So many surfaces.
fn surfaces(alloc: Global, due: u64, text: &str) -> Result<String, AllocError> {
    match entries::<SurfaceReader>(alloc, due, text) {
        Err(stop) => stopped(alloc, &stop),
        Ok((surfaces, tokens)) => {
            let mut said = counted(alloc, tokens)?;
            for surface in surfaces.as_slice() {
                add_surface(&mut said, surface)?;
            }
            Ok(said)
        }
    }
}
