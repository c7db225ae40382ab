//! The four turns, their composition and their signs.
ghost use Rattle.std.specs.Prelude.{◌≡◌, ◌≢◌, IfSome, IfNone};
ghost use Rattle.orientation.specs.declared.turn.Turn.{Turn};
ghost use Rattle.orientation.specs.Turns.{composed, sign_of, turn_of};

/// How a shape is used: along its own direction, against it, or as a cut whose two sides are both inside or both
/// outside.
#[derive(Clone, Copy, Debug, PartialEq, Eq, Hash)]
pub enum Turn {
    Forward,
    Reversed,
    Internal,
    External,
}

/// The turn that a use of turn `inner` has where its parent is used with the turn `outer`.
pub fn compose(outer: Turn, inner: Turn) -> Turn
    ensures { result ≡ composed outer inner }
{
    match outer {
        Turn::Forward => inner,
        Turn::Reversed => reverse(inner),
        Turn::Internal => Turn::Internal,
        Turn::External => Turn::External,
    }
}

/// The turn of the same use seen under a reversed parent.
pub fn reverse(t: Turn) -> Turn
    ensures { result ≡ composed Turn.Reversed t }
{
    match t {
        Turn::Forward => Turn::Reversed,
        Turn::Reversed => Turn::Forward,
        Turn::Internal | Turn::External => t,
    }
}

/// The ASCII sign that files and scripts write for a turn: one of `+ - i e`.
pub fn sign(t: Turn) -> u8
    ensures { result ≡ sign_of t }
{
    match t {
        Turn::Forward => b'+',
        Turn::Reversed => b'-',
        Turn::Internal => b'i',
        Turn::External => b'e',
    }
}

/// The turn of an ASCII sign, and none for any other byte.
pub fn of_sign(b: u8) -> Option<Turn>
    ensures computed { result ≡ turn_of b }
    ensures turn { IfSome result (λ t. sign_of t ≡ b) }
    ensures none { IfNone result ((t : Turn) → sign_of t ≢ b) }
{
    match b {
        b'+' => Some(Turn::Forward),
        b'-' => Some(Turn::Reversed),
        b'i' => Some(Turn::Internal),
        b'e' => Some(Turn::External),
        _ => None,
    }
}
