// The pool's calls for C: every function of include/pool.h under its name there, over the public calls of `pool`, `transaction`, `recovery`,
// `setups` and `commands`. A struct or an enum of those goes in and out as a `#[repr(C)]` struct of numbers; specs/Meaning.antt says what each number
// means. No function for C has a `requires`: each contract is one equation with the definition that the contract of the call names.
#![tactic(auto)]

pub mod pools; // the calls on the pool alone
pub mod transactions; // the calls on a transaction
pub mod recoveries; // the calls on a recovery
pub mod tagged; // the look-up by tag, and the set-ups
pub mod command; // the command lines
