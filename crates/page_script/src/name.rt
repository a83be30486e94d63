//! The names of pages.
ghost use Rattle.std.specs.Prelude.{◌≡◌, ◌↔◌, IsTrue, All, nat_eq};
ghost use Rattle.std.specs.Option.{SomeIff};
ghost use Rattle.std.specs.Cmp.Lexicographic.{pointwise, nat_list_eq_equiv};
ghost use Rattle.std.specs.Cmp.{partial_equiv_from_equiv};
ghost use Rattle.page_script.specs.Names.{IsLetter, IsName};

use std::marker::Model;

const MOST_LETTERS: usize = 16;

/// A page's name, 1 to 16 lower-case letters. Contracts see the letters.
#[derive(Clone, Copy, Debug)]
pub struct Name {
    letters: [u8; 16],
    len: usize,
}

impl Model for Name {
    ghost use Rattle.std.specs.Prelude.{ℕ, List, length, take};
    ghost use Rattle.page_script.specs.Names.{HoldsName, padded};

    ghost Value = { List ℕ };

    ghost view = { λ n. take n.len n.letters };

    ghost invariant = { λ n. HoldsName n.letters n.len };

    ghost inverse = { λ name. record { letters = padded name; len = length name } };

    ghost inverse_ok = { λ n h i. record { letters = h.rest i; len = h.len_is i } };
}

fn all_lower(text: &[u8]) -> bool
    ensures { IsTrue result ↔ All IsLetter text.now }
{
    text.iter().all(|letter| b'a' <= *letter && *letter <= b'z')
}

impl Name {
    /// The name that the text is: `None` exactly where it is not 1 to 16 letters from `a` to `z`.
    pub fn read(text: &[u8]) -> Option<Name>
        ensures { SomeIff result (IsName text.now) text.now }
    {
        let len = text.len();
        if len == 0 || len > MOST_LETTERS || !all_lower(text) {
            return None;
        }
        let mut letters = [0; 16];
        letters[..len].copy_from_slice(text);
        Some(Name { letters, len })
    }

    /// The letters.
    pub fn as_slice(&self) -> &[u8]
        ensures letters { result.now ≡ self.now }
        ensures name { IsName self.now }
    {
        &self.letters[..self.len]
    }
}

impl PartialEq for Name {
    ghost eq = { pointwise nat_eq };

    ghost laws = { partial_equiv_from_equiv nat_list_eq_equiv };

    fn eq(&self, other: &Name) -> bool {
        self.as_slice() == other.as_slice()
    }
}

impl Eq for Name {
    ghost laws = { nat_list_eq_equiv };
}
