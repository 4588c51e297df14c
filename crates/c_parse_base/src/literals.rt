//! Neighbouring string literals (C11 5.1.1.2 and 6.4.5).
ghost use Rattle.std.specs.Prelude.{◌≡◌, ◌≤◌, ◌∷◌, [], suc, length, IfOk};
ghost use Rattle.c_parse_rules.specs.Rules.{literals};

use crate::words::literal_at;
use c_base::token::Token;
use sqlite_items::Items;
use std::alloc::{AllocError, Global};

fn copied(alloc: Global, bytes: &Items<u8>) -> Result<Items<u8>, AllocError>
    ensures { IfOk result (λ copy. copy ≡ bytes.now) }
{
    Ok(Items::from_vec(Vec::from_slice(alloc, bytes.as_slice())?))
}

/// A string literal and its neighbours, behind the first.
pub fn literals_at<'a>(
    alloc: Global,
    first: &Items<u8>,
    tokens: &'a [Token],
) -> Result<(Items<Items<u8>>, &'a [Token]), AllocError>
    ensures found { IfOk result (λ f. (f.0, f.1.now) ≡ literals (suc (length tokens.now)) (first.now ∷ []) tokens.now) }
    ensures shorter { IfOk result (λ f. length f.1.now ≤ length tokens.now) }
{
    let mut found = Vec::new(alloc);
    found.push(copied(alloc, first)?)?;
    let mut rest = tokens;
    'reading: while let Some((bytes, next)) = literal_at(rest) {
        found.push(copied(alloc, bytes)?)?;
        rest = next;
    }
    Ok((Items::from_vec(found), rest))
}
