//! Levels of compounds, whose uses are drawn.
ghost use Rattle.std.specs.Prelude.{◌≡◌, ◌+◌, ◌*◌, ◌%◌, ◌==◌, ◌<◌, ◌≤◌, ◌++◌, ◌^◌, OnOk, if◌then◌else◌};
ghost use Rattle.brep_tokens.specs.Written.{lines_text};
ghost use Rattle.brep_gen.specs.Draws.{state_at};
ghost use Rattle.brep_gen.specs.Generated.{drawn_compound, drawn_level, drawn_levels, drawn_use, forward, in_turn};
ghost use Rattle.brep_gen.specs.Generated.{reversed};
ghost use Rattle.brep_gen.specs.Spacing.{spaced};

use crate::draws::Draws;
use crate::words::push_use;
use std::alloc::AllocError;

/// The sign that a draw gives.
fn sign_of(drawn: u64) -> u8
    ensures { result ≡ if drawn % 2 == 0 then forward else reversed }
{
    if drawn % 2 == 0 { b'+' } else { b'-' }
}

/// A use that is drawn, of one of the 1,024 records from a place on.
fn push_drawn_use(
    text: &mut Vec<u8>,
    draws: &mut Draws,
    n: u64,
    first: u64,
) -> Result<(), AllocError>
    requires { first + 1024 ≤ n }
    ensures text { OnOk result (text.new.items ≡ text.old.items ++ spaced (drawn_use n first draws.old.state)) }
    ensures draws { OnOk result (draws.new.state ≡ state_at draws.old.state 3) }
{
    let place = draws.next();
    let turn = draws.next();
    let location = draws.next();
    let number = n - (first + place % 1024);
    push_use(text, sign_of(turn), number, location % 4)?;
    Ok(())
}

/// Four such uses.
fn push_drawn_uses(
    text: &mut Vec<u8>,
    draws: &mut Draws,
    n: u64,
    first: u64,
) -> Result<(), AllocError>
    requires { first + 1024 ≤ n }
    ensures text { OnOk result (text.new.items ≡ text.old.items
        ++ spaced (in_turn 4 (λ k. drawn_use n first (state_at draws.old.state (3 * k))))) }
    ensures draws { OnOk result (draws.new.state ≡ state_at draws.old.state 12) }
{
    for k in 0..4_u64 {
        push_drawn_use(text, draws, n, first)?;
    }
    Ok(())
}

/// A compound of four such uses.
fn push_drawn_compound(
    text: &mut Vec<u8>,
    draws: &mut Draws,
    n: u64,
    first: u64,
) -> Result<(), AllocError>
    requires { first + 1024 ≤ n }
    ensures text { OnOk result (text.new.items ≡ text.old.items
        ++ lines_text (drawn_compound n first draws.old.state)) }
    ensures draws { OnOk result (draws.new.state ≡ state_at draws.old.state 12) }
{
    text.extend_from_slice(b"Co\n\n0101000\n")?;
    push_drawn_uses(text, draws, n, first)?;
    text.extend_from_slice(b"*\n")?;
    Ok(())
}

/// A level of 1,024 such compounds.
fn push_level(text: &mut Vec<u8>, draws: &mut Draws, n: u64, first: u64) -> Result<(), AllocError>
    requires { first + 1024 ≤ n }
    ensures text { OnOk result (text.new.items ≡ text.old.items ++ lines_text (drawn_level n first draws.old.state)) }
    ensures draws { OnOk result (draws.new.state ≡ state_at draws.old.state 12288) }
{
    for k in 0..1024_u64 {
        push_drawn_compound(text, draws, n, first)?;
    }
    Ok(())
}

/// So many levels in a file of `n` records.
pub(crate) fn push_levels(
    text: &mut Vec<u8>,
    draws: &mut Draws,
    n: u64,
    levels: u64,
) -> Result<(), AllocError>
    requires few { levels < 2 ^ 32 }
    requires records { 1024 * (levels + 1) ≤ n }
    ensures { OnOk result (text.new.items ≡ text.old.items ++ lines_text (drawn_levels n levels draws.old.state)) }
{
    for level in 0..levels {
        push_level(text, draws, n, 1024 * (level + 1))?;
    }
    Ok(())
}
