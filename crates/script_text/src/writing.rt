//! The line that writes a command.
ghost use Rattle.std.specs.Fmt.{decimal};
ghost use Rattle.std.specs.Prelude.{◌≡◌, ◌∷◌, ◌++◌, IfOk, OnOk};
ghost use Rattle.script_text.specs.Spelling.{spell_mention, spell_number, spell_sign};
ghost use Rattle.script_text.specs.Writing.{after_spaces, line_of_command, location_for, mention_for, name_words};
ghost use Rattle.script_text.specs.Writing.{sewn_words, sign_for, source_words, target_words};
ghost use Rattle.script_text.specs.declared.command.Command.TheVariants as commands;

use crate::command::{Command, Sel, SignedName, Tgt};
use crate::name_lists::{Names, SignedNames};
use itoa::Buffer;
use orientation::{Kind, Turn, kind_name, sign};
use std::alloc::{AllocError, Global};

/// The sign that is written for a turn: none for the forward one.
fn written_sign(turn: Turn) -> Option<Turn>
    ensures { result ≡ sign_for turn }
{
    match turn {
        Turn::Forward => None,
        Turn::Reversed | Turn::Internal | Turn::External => Some(turn),
    }
}

/// The location that is written for a target: none where it is meant without it.
fn written_location(place: Option<u32>, location: u32) -> Option<u32>
    ensures { result ≡ location_for place location }
{
    if location == place.unwrap_or(0) {
        None
    } else {
        Some(location)
    }
}

fn push_digits(line: &mut Vec<u8>, number: u32) -> Result<(), AllocError>
    ensures { OnOk result (line.new.items ≡ line.old.items ++ decimal number) }
{
    let mut buffer = Buffer::new();
    line.extend_from_slice(buffer.format(number).as_bytes())
}

fn push_sign(line: &mut Vec<u8>, turn: Option<Turn>) -> Result<(), AllocError>
    ensures { OnOk result (line.new.items ≡ line.old.items ++ spell_sign turn) }
{
    if let Some(turn) = turn {
        line.push(sign(turn))?;
    }
    Ok(())
}

/// A space, and a number with its sign.
fn push_mention(line: &mut Vec<u8>, turn: Option<Turn>, name: u32) -> Result<(), AllocError>
    ensures { OnOk result (line.new.items ≡ line.old.items ++ 32 ∷ spell_mention (mention_for name turn)) }
{
    line.push(b' ')?;
    push_sign(line, turn)?;
    push_digits(line, name)
}

/// Where there is a number, a space, the word, a space and the number.
fn push_number(line: &mut Vec<u8>, word: &[u8], number: Option<u32>) -> Result<(), AllocError>
    ensures { OnOk result (line.new.items ≡ line.old.items ++ after_spaces (spell_number word.now number)) }
{
    if let Some(number) = number {
        line.push(b' ')?;
        line.extend_from_slice(word)?;
        line.push(b' ')?;
        push_digits(line, number)?;
    }
    Ok(())
}

/// A source, perhaps with its place.
fn push_source(line: &mut Vec<u8>, sel: &Sel) -> Result<(), AllocError>
    ensures { OnOk result (line.new.items ≡ line.old.items ++ after_spaces (source_words sel.now)) }
{
    push_mention(line, sel.turn, sel.name)?;
    push_number(line, b"at", sel.place)
}

/// A target, perhaps with its location.
fn push_target(line: &mut Vec<u8>, tgt: &Tgt, place: Option<u32>) -> Result<(), AllocError>
    ensures { OnOk result (line.new.items ≡ line.old.items ++ after_spaces (target_words place tgt.now)) }
{
    push_mention(line, written_sign(tgt.turn), tgt.name)?;
    push_number(line, b"loc", written_location(place, tgt.location))
}

fn push_names(line: &mut Vec<u8>, names: &[u32]) -> Result<(), AllocError>
    ensures { OnOk result (line.new.items ≡ line.old.items ++ after_spaces (name_words names.now)) }
{
    'names: for name in names {
        push_mention(line, None, *name)?;
    }
    Ok(())
}

fn push_sewn(line: &mut Vec<u8>, names: &[SignedName]) -> Result<(), AllocError>
    ensures { OnOk result (line.new.items ≡ line.old.items ++ after_spaces (sewn_words names.now)) }
{
    'names: for named in names {
        push_mention(line, written_sign(named.turn), named.name)?;
    }
    Ok(())
}

#[tactic(auto, using(crate::proofs::WrittenWords::joined_is, crate::proofs::WrittenWords::after_both))]
fn push_replacement(line: &mut Vec<u8>, sel: &Sel, tgt: &Tgt) -> Result<(), AllocError>
    ensures { OnOk result (line.new.items ≡ line.old.items ++ line_of_command (commands.Replace sel.now tgt.now)) }
{
    line.extend_from_slice(b"replace")?;
    push_source(line, sel)?;
    line.extend_from_slice(b" by")?;
    push_target(line, tgt, sel.place)
}

#[tactic(auto, using(crate::proofs::WrittenWords::joined_is))]
fn push_removal(line: &mut Vec<u8>, sel: &Sel) -> Result<(), AllocError>
    ensures { OnOk result (line.new.items ≡ line.old.items ++ line_of_command (commands.Remove sel.now)) }
{
    line.extend_from_slice(b"remove")?;
    push_source(line, sel)
}

fn push_merge(line: &mut Vec<u8>, names: &Names) -> Result<(), AllocError>
    ensures { OnOk result (line.new.items ≡ line.old.items ++ line_of_command (commands.Merge names.now)) }
{
    line.extend_from_slice(b"merge")?;
    push_names(line, names.as_slice())?;
    Ok(())
}

fn push_sewing(line: &mut Vec<u8>, names: &SignedNames) -> Result<(), AllocError>
    ensures { OnOk result (line.new.items ≡ line.old.items ++ line_of_command (commands.Sew names.now)) }
{
    line.extend_from_slice(b"sew")?;
    push_sewn(line, names.as_slice())?;
    Ok(())
}

fn push_stop(line: &mut Vec<u8>, kind: Kind) -> Result<(), AllocError>
    ensures { OnOk result (line.new.items ≡ line.old.items ++ line_of_command (commands.Until kind)) }
{
    line.extend_from_slice(b"until ")?;
    line.extend_from_slice(kind_name(kind))
}

fn push_command(line: &mut Vec<u8>, command: &Command) -> Result<(), AllocError>
    ensures { OnOk result (line.new.items ≡ line.old.items ++ line_of_command command.now) }
{
    match command {
        Command::Replace { sel, tgt } => push_replacement(line, sel, tgt),
        Command::Remove { sel } => push_removal(line, sel),
        Command::Merge(names) => push_merge(line, names),
        Command::Sew(names) => push_sewing(line, names),
        Command::Apply => line.extend_from_slice(b"apply"),
        Command::Undo => line.extend_from_slice(b"undo"),
        Command::Until(kind) => push_stop(line, *kind),
        Command::Prune => line.extend_from_slice(b"prune"),
        Command::OutputFirst => line.extend_from_slice(b"output version 1"),
    }
}

/// The line that writes a command, without an end: its words with one space between neighbours, no sign where `+` is
/// meant without it, and `loc` only where the location isn't the one that is meant without it. No line of the command
/// is shorter.
pub fn spell(alloc: Global, command: &Command) -> Result<Vec<u8>, AllocError>
    ensures { IfOk result (λ line. line.items ≡ line_of_command command.now) }
{
    let mut line = Vec::new(alloc);
    push_command(&mut line, command)?;
    Ok(line)
}
