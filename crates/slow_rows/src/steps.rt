//! The requests and the rule of a script, over the trees of a file.
use crate::shapes::Shapes;
use brep_file::FileUse;
use expansion_laws::{SlowRequest, TreeUse};
use orientation::Rule;
use script_text::{Command, LineFault, Sel, Tgt, parse};
use std::alloc::Global;
use tree_texts::Missed;

/// What a script asks for in one step.
#[derive(Drop)]
pub(crate) struct Step {
    pub(crate) requests: Vec<SlowRequest>,
    pub(crate) rule: Rule,
}

/// The command of a line; none for a line that says nothing.
fn command_of(alloc: Global, shapes: &Shapes, line: &str) -> Result<Option<Command>, Missed> {
    match parse(alloc, line.as_bytes(), shapes.count(), shapes.locations()) {
        Ok(command) => Ok(command),
        Err(LineFault::NoMemory) => Err(Missed::NoMemory),
        Err(_) => Err(Missed::Unclear),
    }
}

/// What stands in the place of another shape.
fn target_of(shapes: &Shapes, tgt: Tgt) -> Result<TreeUse, Missed> {
    shapes.expanded(FileUse {
        turn: tgt.turn,
        number: tgt.name,
        location: tgt.location,
    })
}

impl Step {
    /// A request for what is selected, which is removed where there is no target.
    fn ask(&mut self, shapes: &Shapes, sel: Sel, target: Option<TreeUse>) -> Result<(), Missed> {
        let place = match sel.place {
            Some(location) => Some(shapes.word(location)?),
            None => None,
        };
        self.requests.push(SlowRequest {
            source: shapes.tree(sel.name)?,
            place,
            turn: sel.turn,
            target,
        })?;
        Ok(())
    }

    /// Takes a command.
    fn take(&mut self, shapes: &Shapes, command: &Command) -> Result<(), Missed> {
        match command {
            Command::Replace { sel, tgt } => {
                let target = target_of(shapes, *tgt)?;
                self.ask(shapes, *sel, Some(target))
            }
            Command::Remove { sel } => self.ask(shapes, *sel, None),
            Command::Until(kind) => {
                self.rule.stop = *kind;
                Ok(())
            }
            Command::Prune => {
                self.rule.prune = true;
                Ok(())
            }
            _ => Err(Missed::Unclear),
        }
    }
}

/// The step of a script.
pub(crate) fn step_of(alloc: Global, shapes: &Shapes, script: &str) -> Result<Step, Missed> {
    let mut step = Step {
        requests: Vec::new(alloc),
        rule: Rule::usual(),
    };
    for line in script.lines() {
        if let Some(command) = command_of(alloc, shapes, line)? {
            step.take(shapes, &command)?;
        }
    }
    Ok(step)
}
