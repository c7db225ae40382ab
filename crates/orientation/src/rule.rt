//! The rule of a step: down to which kind a rewriting goes, and whether it prunes.
ghost use Rattle.std.specs.Prelude.{◌≡◌};
ghost use Rattle.orientation.specs.declared.rule.Rule.{Rule};
ghost use Rattle.orientation.specs.Rules.{is_above, usual};

use crate::kind::Kind;

/// How a step goes through the shapes that no request of it meets.
#[derive(Clone, Copy, Debug, PartialEq, Eq, Hash)]
pub struct Rule {
    /// A shape of this kind or a lower one stays as it is, and nothing in it is looked at.
    pub stop: Kind,
    /// A shape goes with its uses where it had some and none is left.
    pub prune: bool,
}

impl Rule {
    /// The rule of a step whose script sets none: all but vertices are gone through, and nothing is pruned.
    pub fn usual() -> Rule
        ensures { result ≡ usual }
    {
        Rule {
            stop: Kind::Ve,
            prune: false,
        }
    }

    /// Whether a shape of this kind, where no request meets it, is gone through: its kind is higher than the stop kind.
    pub fn enters(self, kind: Kind) -> bool
        ensures { result ≡ is_above self.stop kind }
    {
        (self.stop as u8) < (kind as u8)
    }
}
