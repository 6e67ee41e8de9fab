// The type specifiers that stand before a place.
ghost use Rattle.std.specs.Prelude.{◌≡◌, ◌↔◌, IsTrue};
ghost use Rattle.po_tree.specs.Expressions.{untyped, TakesWord};
ghost use Rattle.po_exp_parts.specs.Seen.{typed};

/// The type specifiers that stand before a place among specifiers (C99 6.7.2).
#[derive(Clone, Copy)]
pub enum Seen {
    /// None.
    Nothing,
    /// Only words of types.
    Words,
    /// A struct, an enumeration or a typedef name.
    Name,
}

/// Whether a word of a type may follow such specifiers (C99 6.7.2).
pub fn takes_word(seen: Seen) -> bool
    ensures { IsTrue result ↔ TakesWord (typed seen) }
{
    match seen {
        Seen::Nothing => true,
        Seen::Words => true,
        Seen::Name => false,
    }
}

/// Whether there is no type specifier yet (C99 6.7.2).
pub fn is_untyped(seen: Seen) -> bool
    ensures { IsTrue result ↔ (typed seen ≡ untyped) }
{
    match seen {
        Seen::Nothing => true,
        Seen::Words => false,
        Seen::Name => false,
    }
}
