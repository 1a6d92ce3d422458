// Document 01, module 7: the velocity call, from the Rust's lib.rs. Every public function is total, and ensures equality
// with a definition of `specs/`, which stands there under the same name.
#![tactic(auto)]

pub mod velocity;
