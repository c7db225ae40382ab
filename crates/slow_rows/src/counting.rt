//! How many nodes a tree has.
use expansion_laws::TreeUse;

/// How many nodes stand at a use and below it, each as often as it occurs.
#[cycle(counted)]
pub(crate) fn nodes_of(one: &TreeUse) -> u64 {
    nodes_below(&one.tree.uses).saturating_add(1)
}

/// The same of uses together.
#[cycle(counted)]
fn nodes_below(uses: &[TreeUse]) -> u64 {
    let mut count = 0u64;
    for i in 0..uses.len() {
        count = count.saturating_add(nodes_of(&uses[i]));
    }
    count
}
