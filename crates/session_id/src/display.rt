//! An identifier as it is printed.
ghost use Rattle.std.specs.Prelude.{Some};
ghost use Rattle.session_id.specs.Identifiers.{text_of};

use crate::Id;
use std::fmt;

impl fmt::Display for Id {
    ghost output = { λ id. Some (text_of id) };

    /// Writes the 24 characters.
    fn fmt<W: fmt::Write>(&self, f: &mut fmt::Formatter<W>) -> fmt::Result {
        let text = self.text();
        match str::from_utf8(&text) {
            Ok(text) => f.pad(text),
            Err(_) => Err(fmt::Error),
        }
    }
}
