//! The names that a reader declares before it fails.
ghost use Rattle.std.specs.Prelude.{◌≡◌, ◌≤◌};
ghost use Rattle.c_parse_base.specs.Reads.{closed};

use crate::found::Found;
use crate::names::TypeNames;
use c_base::token::Token;
use std::alloc::AllocError;

/// Closes the scope that was opened before something was read at these tokens, and forgets what was declared in it unless it was found.
/// What follows what was found, or what was to begin it, is noted as refused.
pub fn close<'a, T: Drop>(
    names: &mut TypeNames,
    below: usize,
    tokens: &'a [Token],
    found: Result<Option<Found<'a, T>>, AllocError>,
) -> Result<Option<Found<'a, T>>, AllocError>
    requires { below ≤ names.now.floor }
    ensures same { result ≡ found.entry }
    ensures names { names.new.names ≡ closed names.old found.entry }
    ensures floor { names.new.floor ≡ below }
{
    match found {
        Ok(Some(tree)) => {
            names.merge(below);
            names.refuse(tree.rest);
            Ok(Some(tree))
        }
        Ok(None) => {
            names.leave(below);
            names.refuse(tokens);
            Ok(None)
        }
        Err(error) => {
            names.leave(below);
            Err(error)
        }
    }
}
