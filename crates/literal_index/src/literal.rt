// The literal of an attribute, in as little room as it needs.
ghost use Rattle.std.specs.Prelude.{◌≡◌, IfOk};
ghost use Rattle.std.specs.Option.{option_copied, option_map};
ghost use Rattle.literal_index.specs.Entries.{holds_with};

use crate::entry::holds;
use ad_value::is_true_of_integers;
use conjunct_plan::Test;
use pool_text::{Lit, OutOfMemory, Text};
use std::alloc::Global;
use std::marker::Model;

/// The literal that an attribute's expression is, if it is one, which contracts see as that option.
#[derive(Drop)]
pub struct Literal {
    packed: Packed,
}

/// The same in 16 bytes, since there is one for each attribute of each ad. Only a text takes a block of its own.
#[derive(Drop)]
enum Packed {
    Open,
    Undefined,
    Error,
    Boolean(bool),
    Integer(i64),
    Decimal(i64),
    Boxed(Box<Lit>),
}

impl Model for Literal {
    ghost use Rattle.std.specs.Prelude.{Option};
    ghost use Rattle.pool_text.specs.declared.language.Lit.{Lit};

    ghost Value = { Option Lit };

    ghost use Rattle.literal_index.specs.Packed.{unpacked};

    ghost view = { λ l. unpacked l.packed };
}

impl Literal {
    /// A copy of a literal, or none.
    pub fn of(alloc: Global, found: Option<&Lit>) -> Result<Literal, OutOfMemory>
        ensures { IfOk result (λ literal. literal ≡ option_copied found.entry) }
    {
        let packed = match found {
            None => Packed::Open,
            Some(Lit::Undefined) => Packed::Undefined,
            Some(Lit::Error) => Packed::Error,
            Some(Lit::Boolean(b)) => Packed::Boolean(*b),
            Some(Lit::Integer(n)) => Packed::Integer(*n),
            Some(Lit::Decimal(millionths)) => Packed::Decimal(*millionths),
            Some(Lit::Str(text)) => {
                let copy = Text::from_bytes(alloc, text.bytes())?;
                Packed::Boxed(Box::new(alloc, Lit::Str(copy))?)
            }
        };
        Ok(Literal { packed })
    }

    /// Whether the test is true where its attribute is this literal, if it is one. It takes no memory.
    #[inline(always)]
    pub fn makes_true(&self, test: &Test) -> Option<bool>
        ensures { result ≡ option_map (holds_with test.now) self.now }
    {
        match (&self.packed, test) {
            (
                Packed::Integer(n),
                Test::Compare {
                    op,
                    lit: Lit::Integer(limit),
                    attr_left: true,
                    ..
                },
            ) => Some(is_true_of_integers(*op, *n, *limit)),
            _ => self.makes_it_true(test),
        }
    }

    // The same for each kind of literal.
    #[inline(never)]
    fn makes_it_true(&self, test: &Test) -> Option<bool>
        ensures { result ≡ option_map (holds_with test.now) self.now }
    {
        match &self.packed {
            Packed::Open => None,
            Packed::Undefined => Some(holds(test, &Lit::Undefined)),
            Packed::Error => Some(holds(test, &Lit::Error)),
            Packed::Boolean(b) => Some(holds(test, &Lit::Boolean(*b))),
            Packed::Integer(n) => Some(holds(test, &Lit::Integer(*n))),
            Packed::Decimal(millionths) => Some(holds(test, &Lit::Decimal(*millionths))),
            Packed::Boxed(lit) => Some(holds(test, lit)),
        }
    }
}
