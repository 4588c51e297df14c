//! Texts that are appended to a text.

ghost use Rattle.std.specs.Prelude.{◌≡◌, ◌++◌, List, ℕ, map, OnOk};
ghost use Rattle.std.specs.Fmt.{decimal, signed_decimal};
ghost use Rattle.eva_report.specs.Report.{joined, all_texts};

use std::alloc::{AllocError, Global};

/// What has a text in a report.
pub(crate) trait Line {
    /// The text.
    ghost text: { Self → List ℕ };

    /// Appends the text.
    fn push_to(&self, alloc: Global, out: &mut Vec<u8>) -> Result<(), AllocError>
        ensures { OnOk result (out.new.items ≡ out.old.items ++ text self.now) };
}

/// Appends bytes.
pub fn push_text(out: &mut Vec<u8>, piece: &[u8]) -> Result<(), AllocError>
    ensures { OnOk result (out.new.items ≡ out.old.items ++ piece.now) }
{
    out.extend_from_slice(piece)
}

/// Appends a number in decimal.
pub fn push_number(alloc: Global, out: &mut Vec<u8>, number: u64) -> Result<(), AllocError>
    ensures { OnOk result (out.new.items ≡ out.old.items ++ decimal number) }
{
    let digits = number.to_string(alloc)?;
    push_text(out, digits.as_bytes())
}

/// The same of a number that may be wider.
pub(crate) fn push_wide(alloc: Global, out: &mut Vec<u8>, number: u128) -> Result<(), AllocError>
    ensures { OnOk result (out.new.items ≡ out.old.items ++ decimal number) }
{
    let digits = number.to_string(alloc)?;
    push_text(out, digits.as_bytes())
}

/// Appends a number in decimal, with `-` where it is negative.
pub fn push_signed(alloc: Global, out: &mut Vec<u8>, number: i128) -> Result<(), AllocError>
    ensures { OnOk result (out.new.items ≡ out.old.items ++ signed_decimal number) }
{
    let digits = number.to_string(alloc)?;
    push_text(out, digits.as_bytes())
}

/// Appends the texts, one behind the other.
pub(crate) fn push_all<T: Line>(
    alloc: Global,
    out: &mut Vec<u8>,
    items: &[T],
) -> Result<(), AllocError>
    ensures { OnOk result (out.new.items ≡ out.old.items ++ all_texts T.text items.now) }
{
    for item in items {
        item.push_to(alloc, out)?;
    }
    Ok(())
}

/// Appends the texts, with a separator between each two.
pub(crate) fn push_joined<T: Line>(
    alloc: Global,
    out: &mut Vec<u8>,
    separator: &[u8],
    items: &[T],
) -> Result<(), AllocError>
    ensures { OnOk result (out.new.items ≡ out.old.items ++ joined separator.now (map T.text items.now)) }
{
    if items.is_empty() {
        return Ok(());
    }
    items[0].push_to(alloc, out)?;
    for index in 1..items.len() {
        push_text(out, separator)?;
        items[index].push_to(alloc, out)?;
    }
    Ok(())
}
