// Literals: whether two are the same, and a second one of the same value.
ghost use Rattle.std.specs.Prelude.{◌≡◌, ◌↔◌, IfOk, IsTrue};

use pool_text::{Lit, OutOfMemory};

/// Whether two literals are the same.
pub fn same_literal(a: &Lit, b: &Lit) -> bool
    ensures { IsTrue result ↔ (a.now ≡ b.now) }
{
    match (a, b) {
        (Lit::Undefined, Lit::Undefined) => true,
        (Lit::Error, Lit::Error) => true,
        (Lit::Boolean(x), Lit::Boolean(y)) => x == y,
        (Lit::Integer(x), Lit::Integer(y)) => x == y,
        (Lit::Decimal(x), Lit::Decimal(y)) => x == y,
        (Lit::Str(x), Lit::Str(y)) => x == y,
        _ => false,
    }
}

/// A second literal of the same value.
pub fn copy_literal(literal: &Lit) -> Result<Lit, OutOfMemory>
    ensures { IfOk result (λ copy. copy ≡ literal.now) }
{
    Ok(match literal {
        Lit::Undefined => Lit::Undefined,
        Lit::Error => Lit::Error,
        Lit::Boolean(b) => Lit::Boolean(*b),
        Lit::Integer(n) => Lit::Integer(*n),
        Lit::Decimal(millionths) => Lit::Decimal(*millionths),
        Lit::Str(text) => Lit::Str(text.copy()?),
    })
}
