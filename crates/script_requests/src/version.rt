//! What a step has left.
ghost use Rattle.std.specs.Prelude.{◌≡◌, reverse};
ghost use Rattle.script_requests.specs.Named.{last_root as root_of_last, last_history as history_of_last};

use shape_pool::{IdPairs, UseOf};
use step_history::StepHistory;

/// A version of the root: what a step made of the version before it.
#[derive(Drop)]
pub struct Version {
    /// The new root.
    pub root: UseOf,
    /// The pairs of a node that the step visited and an image of it, in ascending order.
    pub images: IdPairs,
    /// The history since the first version.
    pub history: StepHistory,
}

/// The root of the last version, or the first one.
pub fn last_root(first: UseOf, versions: &[Version]) -> UseOf
    ensures { result ≡ root_of_last first (reverse versions.now) }
{
    match versions.last() {
        Some(version) => version.root,
        None => first,
    }
}

/// The history of the last version, or the one over no step.
pub fn last_history<'a>(start: &'a StepHistory, versions: &'a [Version]) -> &'a StepHistory
    ensures { result.now ≡ history_of_last start.now (reverse versions.now) }
{
    match versions.last() {
        Some(version) => &version.history,
        None => start,
    }
}
