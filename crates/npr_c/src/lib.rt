//! The library for C: canonical bytes of messages, whether bytes are a message and what is wrong with
//! them, the names of that, steps over the messages of a datagram and of an answer, over attributes,
//! over values and the lists in them, and over next hops, and requests, written into a buffer. No call
//! keeps anything of what it is given, and none ends the process, but where a thread has too little stack
//! for a message's levels of next hops (`NPR_STACK` in the header).
//!
//! A slice is a pointer and then a length in C, and an allocator is nothing there.
#![tactic(auto)]

mod answer;
mod canonical;
mod conversation;
mod ends;
mod envelopes;
mod faults;
mod kinds;
pub mod laws;
mod names;
mod nests;
mod next_hops;
mod requests;
mod steps;
mod texts;
mod values;
mod version;
