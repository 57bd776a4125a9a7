//! What a text of equations gives, once it is read: the premises of the laws on translations.
#![tactic(auto)]

pub mod laws;
