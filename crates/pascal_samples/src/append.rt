//! Pieces of text with numbers in them.

ghost use Rattle.std.specs.Prelude.{◌≡◌, ◌++◌, OnOk, decimal};

use itoa::Buffer;
use std::alloc::AllocError;

pub(crate) fn append_number(out: &mut Vec<u8>, number: u64) -> Result<(), AllocError>
    ensures { OnOk result (out.new.items ≡ out.old.items ++ decimal number) }
{
    let mut buffer = Buffer::new();
    out.extend_from_slice(buffer.format(number).as_bytes())
}

/// A number between two pieces.
pub(crate) fn append_with(
    out: &mut Vec<u8>,
    before: &[u8],
    number: u64,
    after: &[u8],
) -> Result<(), AllocError>
    ensures { OnOk result (out.new.items ≡ out.old.items ++ (before.now ++ decimal number ++ after.now)) }
{
    out.extend_from_slice(before)?;
    append_number(out, number)?;
    out.extend_from_slice(after)
}

/// Two numbers between three pieces.
pub(crate) fn append_with_two(
    out: &mut Vec<u8>,
    before: &[u8],
    first: u64,
    between: &[u8],
    second: u64,
    after: &[u8],
) -> Result<(), AllocError>
    ensures { OnOk result (out.new.items ≡ out.old.items
        ++ (before.now ++ decimal first ++ between.now ++ decimal second ++ after.now)) }
{
    append_with(out, before, first, between)?;
    append_number(out, second)?;
    out.extend_from_slice(after)
}
