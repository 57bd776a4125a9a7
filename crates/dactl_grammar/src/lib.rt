//! Grammars as relations, built by a few combinators, and readers that are exact for them.
//!
//! A grammar says which lists of tokens are whole texts of a part, with which meaning, and which
//! begin one (`specs/Grammar.antt`). A reader (`specs/Reader.antt`) reads a part from the front of
//! a list, and mirrors the grammar combinator by combinator. `proofs/` has the laws by which a
//! reader is exact: it reads what derives, and refuses at the first token with which nothing goes
//! on, or at the first bracket too many (`specs/Answer.antt`). A parser's contracts name grammar
//! and answer alone, and its proofs cite the laws here.
#![tactic(auto)]

pub mod fault;
