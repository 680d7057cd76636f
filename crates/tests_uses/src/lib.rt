//! The tests of uses and headline_uses: each of their functions whose answer can be told is called, and
//! answers as it is to answer.
//!
//! They are run with ample memory, where a function that only gives up is found.
#![tactic(auto)]

#[cfg(test)]
mod calling;
