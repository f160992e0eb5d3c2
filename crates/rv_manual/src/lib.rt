//! The instructions of RV32IM, read a second time from the RISC-V unprivileged manual; laws prove both readings equal.
//! It uses `rv_machine` and the crates below that. No crate uses it. `specs/Listing.antt` lists the instructions as the
//! manual does: which bits a row fixes, and what it computes of integers. It cites neither the rows of `rv_decode` nor
//! the effects of `rv_machine`. So the proofs catch any error made only once. System calls are those of the machine.
//! The functions are laws.
#![tactic(auto)]

pub mod laws;
