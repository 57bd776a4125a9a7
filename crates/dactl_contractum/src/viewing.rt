//! Who looks at names.

use dactl_symbols::sight::Scopes;

/// A module, by its number, and what the modules of its text see.
#[derive(Clone, Copy)]
pub struct Viewer<'a> {
    pub scopes: &'a Scopes,
    pub owner: usize,
}
