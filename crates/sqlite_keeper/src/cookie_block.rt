//! A block of cookies, which one run draws from.

/// Cookies that no earlier block has, from `first` to `last`.
#[derive(Clone, Copy, Debug, PartialEq, Eq)]
pub struct CookieBlock {
    /// The first cookie of the block, from 1 to 2^63 - 1.
    pub first: u64,
    /// The last, at least `first`: 4,294,967,295 above it, or the greatest of all cookies.
    pub last: u64,
}
