//! A text in a fixed buffer.
ghost use Rattle.std.specs.Prelude.{◌≡◌, ◌+◌, ◌≤◌, ◌++◌, [], length};

use std::marker::Model;

/// A text of at most `N` bytes, which lie in the value itself. Contracts see the list of its bytes.
#[derive(Debug, Drop)]
pub struct FixedText<const N: usize> {
    bytes: [u8; N],
    len: usize,
}

impl<const N: usize> Model for FixedText<N> {
    ghost use Rattle.std.specs.Prelude.{List, ℕ, ◌≤◌, take};

    ghost Value = { List ℕ };

    ghost view = { λ t. take t.len t.bytes };

    ghost invariant = { λ t. t.len ≤ N };
}

impl<const N: usize> FixedText<N> {
    /// No bytes.
    pub fn new() -> FixedText<N>
        ensures { result ≡ [] }
    {
        FixedText {
            bytes: [0; N],
            len: 0,
        }
    }

    /// The bytes.
    pub fn as_slice(&self) -> &[u8]
        ensures { result.now ≡ self.now }
    {
        &self.bytes[..self.len]
    }

    /// Drops all bytes.
    pub fn clear(&mut self)
        ensures { self.new ≡ [] }
    {
        self.len = 0;
    }

    /// Adds the bytes at the end. There must be room for them.
    #[inline(always)]
    pub fn push(&mut self, text: &[u8])
        requires { length self.old + length text.now ≤ N }
        ensures { self.new ≡ self.old ++ text.now }
    {
        let start = self.len;
        let end = start + text.len();
        let bytes = &mut self.bytes[..];
        bytes[start..end].copy_from_slice(text);
        self.len = end;
    }
}
