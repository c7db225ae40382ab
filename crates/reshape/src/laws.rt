//! What is known of every step.
ghost use Rattle.expansion_laws.specs.Steps.{Step};
ghost use Rattle.reshape.specs.Deriving.{HaveLaws};

use expansion_laws::laws::{
    demands_are_edges, equal_keys_tell, keys_stand_for_visits, measures_are_listed,
    results_are_carried, results_are_determined, results_have_the_kind, results_of_visits_occur,
    visits_have_keys,
};
use key_results::laws::{derivations_derive, results_follow_visits};

/// The laws of rewriting and of derivations by keys.
pub(crate) fn steps_have_laws()
    ensures { (s : Step) → HaveLaws s }
{
    keys_stand_for_visits();
    equal_keys_tell();
    results_are_determined();
    visits_have_keys();
    results_are_carried();
    measures_are_listed();
    results_of_visits_occur();
    results_have_the_kind();
    demands_are_edges();
    results_follow_visits();
    derivations_derive();
}
