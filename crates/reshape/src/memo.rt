//! Keys, each once, in the order in which they came.
ghost use Rattle.std.specs.Prelude.{◌≡◌, ◌↔◌, [], Contains, IfNone, IfSome, IsTrue, OnOk, Some, slice_get};
ghost use Rattle.reshape.specs.Collecting.{IsAdded, AreJoined};

use indexmap::IndexSet;
use key_results::Key;
use std::alloc::{AllocError, Global};

/// No keys yet.
pub(crate) fn none_yet(alloc: Global) -> IndexSet<Key>
    ensures { result.keys ≡ [] }
{
    IndexSet::new(alloc)
}

/// Whether a key is among others.
pub(crate) fn is_among(keys: &IndexSet<Key>, key: Key) -> bool
    ensures { IsTrue result ↔ Contains keys.now.keys key }
{
    keys.contains(&key)
}

/// The place of a key among others, if it is one of them.
pub(crate) fn place_among(keys: &IndexSet<Key>, key: Key) -> Option<usize>
    ensures some { IfSome result (λ i. slice_get keys.now.keys i ≡ Some key) }
    ensures none { IfNone result (¬ Contains keys.now.keys key) }
{
    keys.get_index_of(&key)
}

/// Adds a key, where it isn't there yet.
pub(crate) fn add_key(keys: &mut IndexSet<Key>, key: Key) -> Result<(), AllocError>
    ensures { OnOk result (IsAdded key keys.old.keys keys.new.keys) }
{
    keys.insert(key)?;
    Ok(())
}

/// Adds several keys, in their order.
pub(crate) fn add_keys(keys: &mut IndexSet<Key>, own: &[Key]) -> Result<(), AllocError>
    ensures { OnOk result (AreJoined own.now keys.old.keys keys.new.keys) }
{
    for key in own {
        add_key(keys, *key)?;
    }
    Ok(())
}
