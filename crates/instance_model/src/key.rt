//! The key by which plans of allowed starts are compared.

/// By what plans of allowed starts are compared: first how far they are from the rules, then the score.
#[derive(Clone, Copy, Debug, PartialEq, Eq)]
pub struct Key {
    pub violation: i128,
    pub score: i128,
}
