// The kinds of a Declaration.
//
// No enum: a field or a row may hold any other number too, and what becomes of it is fixed (`fields::field_of`, `tables::row_after`).
ghost use Rattle.std.specs.Prelude.{◌≡◌, [], ◌∷◌};
ghost use Rattle.meaning.specs.Numbers.Kind;
ghost use Rattle.meaning.specs.Tree.{one_of};

pub const VAR: u16 = 0;

pub const LET: u16 = 1;

pub const CONST: u16 = 2;

pub const USING: u16 = 3;

pub const AWAIT_USING: u16 = 4;

// `using` or `await using`.
pub fn is_using(kind: u16) -> bool
    ensures { result ≡ one_of (Kind.Using ∷ Kind.AwaitUsing ∷ []) kind }
{
    matches!(kind, USING | AWAIT_USING)
}
