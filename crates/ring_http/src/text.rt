//! Texts, put one piece after another.
ghost use Rattle.std.specs.Prelude.{◌≡◌, ◌++◌, OnOk};

use bytes::BufMut;
use http_server::Rope;
use itoa::{Buffer, Integer};
use std::alloc::AllocError;

/// Appends a text. Fails only if an allocation fails.
pub(crate) fn put(text: &[u8], out: &mut Rope) -> Result<(), AllocError>
    ensures { OnOk result (out.new.items ≡ out.old.items ++ text.now) }
{
    out.put_slice(text)
}

/// Appends a number in decimal. Fails only if an allocation fails.
pub(crate) fn put_number<N: Integer>(number: N, out: &mut Rope) -> Result<(), AllocError>
    ensures { OnOk result (out.new.items ≡ out.old.items ++ N.text number) }
{
    put(Buffer::new().format(number).as_bytes(), out)
}

/// Appends a text, a number in decimal, and another text. Fails only if an allocation fails.
pub(crate) fn put_around<N: Integer>(
    before: &[u8],
    number: N,
    after: &[u8],
    out: &mut Rope,
) -> Result<(), AllocError>
    ensures { OnOk result
        (out.new.items ≡ out.old.items ++ (before.now ++ (N.text number ++ after.now))) }
{
    put(before, out)?;
    put_number(number, out)?;
    put(after, out)
}
