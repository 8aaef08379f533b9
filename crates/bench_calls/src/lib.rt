//! What `bench/` times: the messages of datagrams, envelopes included, read by each of the ways in
//! which the library reads.
//!
//! Each call answers how many attributes it read in all; a message that is refused counts for nothing.
//! In C a slice is a pointer and then a length, and an allocator is nothing.
#![tactic(auto)]

mod reading;
