//! The command that a line spells.
ghost use Rattle.std.specs.Prelude.{◌≡◌, None, Ok, map, true};
ghost use Rattle.script_text.specs.Answers.{Answers};
ghost use Rattle.script_text.specs.Words.{is_nothing, words_of};
ghost use Rattle.script_text.specs.Meaning.{Gives, Tells, TellsCommand, TellsOrWants, command_of_line, fault_of};
ghost use Rattle.script_text.specs.Meaning.{location_fault, meaning_of, mentions_fault, number_of_mention, selection};
ghost use Rattle.script_text.specs.Meaning.{selection_fault, shape_fault, signed_name, turn_of_mention};
ghost use Rattle.script_text.specs.declared.phrase.Phrase.TheVariants.{Replace};

use crate::command::{Command, LineFault, Sel, SignedName, Tgt};
use crate::laws::lines_spell_one_command;
use crate::line_words::says_nothing;
use crate::name_lists::{Names, SignedNames};
use crate::phrase::{Mention, Phrase};
use crate::reading::phrase;
use orientation::Turn;
use std::alloc::Global;

fn shape(number: u64, shapes: u32) -> Result<u32, LineFault>
    ensures { Tells (shape_fault shapes number) number result }
{
    if 1 <= number && number <= u64::from(shapes) {
        Ok(number as u32)
    } else {
        Err(LineFault::NoSuchShape(number))
    }
}

fn location(number: Option<u64>, locations: u32) -> Result<Option<u32>, LineFault>
    ensures { Tells (location_fault locations number) number result }
{
    match number {
        None => Ok(None),
        Some(number) => {
            if number <= u64::from(locations) {
                Ok(Some(number as u32))
            } else {
                Err(LineFault::NoSuchLocation(number))
            }
        }
    }
}

fn turn(mention: &Mention) -> Turn
    ensures { result ≡ turn_of_mention mention.now }
{
    mention.sign.unwrap_or(Turn::Forward)
}

/// The record that is named, with its place.
fn selected(
    source: &Mention,
    place: Option<u64>,
    shapes: u32,
    locations: u32,
) -> Result<Sel, LineFault>
    ensures { Tells (selection_fault shapes locations source.now place) (selection source.now place) result }
{
    let name = shape(source.number, shapes)?;
    let place = location(place, locations)?;
    Ok(Sel {
        name,
        turn: source.sign,
        place,
    })
}

fn replacement(
    source: &Mention,
    place: Option<u64>,
    target: &Mention,
    at: Option<u64>,
    shapes: u32,
    locations: u32,
) -> Result<Command, LineFault>
    ensures { TellsCommand shapes locations (Replace source.now place target.now at) result }
{
    let sel = selected(source, place, shapes, locations)?;
    let to = selected(target, at, shapes, locations)?;
    let tgt = Tgt {
        name: to.name,
        turn: turn(target),
        location: to.place.unwrap_or(sel.place.unwrap_or(0)),
    };
    Ok(Command::Replace { sel, tgt })
}

fn names(alloc: Global, mentions: &[Mention], shapes: u32) -> Result<Names, LineFault>
    ensures { TellsOrWants (mentions_fault shapes mentions.now) (map number_of_mention mentions.now) result }
{
    let mut names = Names::new(alloc);
    'mentions: for mention in mentions {
        let name = shape(mention.number, shapes)?;
        names.push(name).map_err(|_| LineFault::NoMemory)?;
    }
    Ok(names)
}

fn signed_names(alloc: Global, mentions: &[Mention], shapes: u32) -> Result<SignedNames, LineFault>
    ensures { TellsOrWants (mentions_fault shapes mentions.now) (map signed_name mentions.now) result }
{
    let mut names = SignedNames::new(alloc);
    'mentions: for mention in mentions {
        let name = shape(mention.number, shapes)?;
        let turn = turn(mention);
        names
            .push(SignedName { name, turn })
            .map_err(|_| LineFault::NoMemory)?;
    }
    Ok(names)
}

/// What the phrase means, its numbers held to their ranges.
fn command(
    alloc: Global,
    phrase: &Phrase,
    shapes: u32,
    locations: u32,
) -> Result<Command, LineFault>
    ensures { TellsOrWants (fault_of shapes locations phrase.now) (meaning_of phrase.now) result }
{
    match phrase {
        Phrase::Replace {
            source,
            place,
            target,
            location,
        } => replacement(source, *place, target, *location, shapes, locations),
        Phrase::Remove { source, place } => {
            let sel = selected(source, *place, shapes, locations)?;
            Ok(Command::Remove { sel })
        }
        Phrase::Merge(mentions) => Ok(Command::Merge(names(alloc, mentions.as_slice(), shapes)?)),
        Phrase::Sew(mentions) => Ok(Command::Sew(signed_names(
            alloc,
            mentions.as_slice(),
            shapes,
        )?)),
        Phrase::Apply => Ok(Command::Apply),
        Phrase::Undo => Ok(Command::Undo),
        Phrase::Until(kind) => Ok(Command::Until(*kind)),
        Phrase::Prune => Ok(Command::Prune),
        Phrase::OutputFirst => Ok(Command::OutputFirst),
    }
}

fn parsed(
    alloc: Global,
    line: &[u8],
    shapes: u32,
    locations: u32,
) -> Result<Option<Command>, LineFault>
    ensures computed { Gives result (command_of_line shapes locations line.now) }
    ensures nothing { is_nothing (words_of line.now) ≡ true → result ≡ Ok None }
{
    if says_nothing(line) {
        return Ok(None);
    }
    match phrase(alloc, line) {
        Err(_) => Err(LineFault::NoMemory),
        Ok(None) => Err(LineFault::Syntax),
        Ok(Some(spelled)) => Ok(Some(command(alloc, &spelled, shapes, locations)?)),
    }
}

/// The command that a line spells, over so many records and locations of a file; none for a line without words and for
/// a comment, whose first word begins with `#`. Words are separated by spaces and tabs.
pub fn parse(
    alloc: Global,
    line: &[u8],
    shapes: u32,
    locations: u32,
) -> Result<Option<Command>, LineFault>
    ensures computed { Gives result (command_of_line shapes locations line.now) }
    ensures spelled { Answers shapes locations (words_of line.now) result }
    ensures nothing { is_nothing (words_of line.now) ≡ true → result ≡ Ok None }
{
    lines_spell_one_command();
    parsed(alloc, line, shapes, locations)
}
