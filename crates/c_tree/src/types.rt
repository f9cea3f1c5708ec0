//! Types.
ghost use Rattle.std.specs.Prelude.{◌≡◌, IfOk};
ghost use Rattle.c_tree.specs.Tree.{Int, Word, Byte, Struct, Named, VoidPointer, Pointer};

use crate::Name;
use std::alloc::AllocError;
use std::marker::Model;

/// What a type is before its stars: `int64_t`, `uint64_t`, `unsigned char`, `struct name`, a
/// typedef's name and `void *`.
#[derive(Drop)]
pub enum CBaseType {
    Int,
    Word,
    Byte,
    Struct(Name),
    Named(Name),
    VoidPointer,
}

/// The type of a value: so many stars after another type.
#[derive(Drop)]
pub struct CType {
    pub base: CBaseType,
    pub stars: usize,
}

impl Model for CType {
    ghost use Rattle.c_tree.specs.types.Tree.{ObjectType};
    ghost use Rattle.c_tree.specs.types.Code.{coded_type};

    ghost Value = { ObjectType };

    ghost coded = { coded_type };

    ghost use Rattle.c_tree.specs.types.View.{base_of, pointers};

    ghost view = { λ a. pointers a.stars (base_of a.base) };
}

impl CType {
    pub fn int() -> CType
        ensures { result ≡ Int }
    {
        CType {
            base: CBaseType::Int,
            stars: 0,
        }
    }

    pub fn word() -> CType
        ensures { result ≡ Word }
    {
        CType {
            base: CBaseType::Word,
            stars: 0,
        }
    }

    pub fn byte() -> CType
        ensures { result ≡ Byte }
    {
        CType {
            base: CBaseType::Byte,
            stars: 0,
        }
    }

    pub fn structure(name: Name) -> CType
        ensures { result ≡ Struct name }
    {
        CType {
            base: CBaseType::Struct(name),
            stars: 0,
        }
    }

    pub fn named(name: Name) -> CType
        ensures { result ≡ Named name }
    {
        CType {
            base: CBaseType::Named(name),
            stars: 0,
        }
    }

    pub fn void_pointer() -> CType
        ensures { result ≡ VoidPointer }
    {
        CType {
            base: CBaseType::VoidPointer,
            stars: 0,
        }
    }

    /// Too many stars to count are want of memory.
    pub fn pointer(of: CType) -> Result<CType, AllocError>
        ensures { IfOk result (λ made. made ≡ Pointer of) }
    {
        let CType { base, stars } = of;
        match stars.checked_add(1) {
            Some(stars) => Ok(CType { base, stars }),
            None => Err(AllocError),
        }
    }
}
