//! Tests of the other libraries, by their public functions alone. It uses most crates but the upper ones. No crate uses
//! it. A crate with tests is proved a second time, so these tests share one crate. Without tests it has no function. No
//! contract says whether workers run in parallel, so a gate in `barrier.rt` tests it.
#![tactic(auto)]

#[cfg(test)]
mod assembler_tests;
#[cfg(test)]
mod barrier;
#[cfg(test)]
mod console_tests;
#[cfg(test)]
mod digest_tests;
#[cfg(test)]
mod gdb_line_tests;
#[cfg(test)]
mod image_tests;
#[cfg(test)]
mod line_tests;
#[cfg(test)]
mod machine_tests;
#[cfg(test)]
mod packet_tests;
#[cfg(test)]
mod query_tests;
#[cfg(test)]
mod reply_tests;
#[cfg(test)]
mod search_tests;
#[cfg(test)]
mod session_tests;
#[cfg(test)]
mod sessions;
#[cfg(test)]
mod states;
#[cfg(test)]
mod table_tests;
#[cfg(test)]
mod tape_tests;
#[cfg(test)]
mod texts;
#[cfg(test)]
mod uncalled_tests;
#[cfg(test)]
mod undo_tests;
