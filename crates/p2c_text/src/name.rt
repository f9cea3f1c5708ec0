ghost use Rattle.std.specs.Prelude.{◌≡◌, IfOk, All};
ghost use Rattle.std.specs.Str.{str_to_ascii_lowercase};
ghost use Rattle.p2c_text.specs.Name.{IsNoCapital};

use std::alloc::{AllocError, Global};
use std::marker::Model;
use tree_lists::Items;

/// A name, with its letters in lower case.
#[derive(Drop, Clone, PartialEq, Eq, Hash)]
pub struct Name {
    bytes: Items<u8>,
}

impl Model for Name {
    ghost use Rattle.std.specs.Prelude.{ℕ, List, All};
    ghost use Rattle.p2c_text.specs.Name.{IsNoCapital};

    ghost Value = { List ℕ };

    ghost view = { λ name. name.bytes };

    ghost invariant = { λ name. All IsNoCapital name.bytes };

    ghost inverse = { λ bytes. record { bytes = bytes } };
}

/// Names, in order.
pub type Names = Items<Name>;

impl Name {
    pub fn as_bytes(&self) -> &[u8]
        ensures value { result.now ≡ self.now }
        ensures no_capital { All IsNoCapital result.now }
    {
        self.bytes.as_slice()
    }
}

/// The name that is spelled so. Capital and small letters spell the same name.
pub fn name_of(alloc: Global, spelling: &[u8]) -> Result<Name, AllocError>
    ensures { IfOk result (λ name. name ≡ str_to_ascii_lowercase spelling.now) }
{
    let lowered = spelling
        .iter()
        .map(|byte| byte.to_ascii_lowercase())
        .collect(alloc)?;
    Ok(Name {
        bytes: Items::from_vec(lowered),
    })
}
