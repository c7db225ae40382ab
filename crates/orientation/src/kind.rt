//! The eight kinds of shapes, their order and their names.
ghost use Rattle.std.specs.Prelude.{◌≡◌, ◌≢◌, ◌↔◌, IsTrue, IfSome, IfNone};
ghost use Rattle.orientation.specs.declared.kind.Kind.{Kind};
ghost use Rattle.orientation.specs.Kinds.{IsBelow, is_below, kind_of_name as kind_named, name_of};

/// The kinds of shapes, from the lowest to the highest: vertex, edge, wire, face, shell, solid, composite solid,
/// compound.
#[derive(Clone, Copy, Debug, PartialEq, Eq, Hash)]
pub enum Kind {
    Ve,
    Ed,
    Wi,
    Fa,
    Sh,
    So,
    CS,
    Co,
}

/// Whether a shape of the kind `child` may stand in one of the kind `parent`: its kind is lower, or the parent is a
/// compound.
pub fn below(child: Kind, parent: Kind) -> bool
    ensures computed { result ≡ is_below child parent }
    ensures below { IsTrue result ↔ IsBelow child parent }
{
    parent == Kind::Co || (child as u8) < (parent as u8)
}

/// The two ASCII letters that name a kind in files.
pub fn kind_name(kind: Kind) -> &'static [u8]
    ensures { result.now ≡ name_of kind }
{
    match kind {
        Kind::Ve => b"Ve",
        Kind::Ed => b"Ed",
        Kind::Wi => b"Wi",
        Kind::Fa => b"Fa",
        Kind::Sh => b"Sh",
        Kind::So => b"So",
        Kind::CS => b"CS",
        Kind::Co => b"Co",
    }
}

/// The kind of a name, letter case included, and none for any other text.
pub fn kind_of_name(name: &[u8]) -> Option<Kind>
    ensures computed { result ≡ kind_named name.now }
    ensures kind { IfSome result (λ k. name_of k ≡ name.now) }
    ensures none { IfNone result ((k : Kind) → name_of k ≢ name.now) }
{
    match name {
        b"Ve" => Some(Kind::Ve),
        b"Ed" => Some(Kind::Ed),
        b"Wi" => Some(Kind::Wi),
        b"Fa" => Some(Kind::Fa),
        b"Sh" => Some(Kind::Sh),
        b"So" => Some(Kind::So),
        b"CS" => Some(Kind::CS),
        b"Co" => Some(Kind::Co),
        _ => None,
    }
}
