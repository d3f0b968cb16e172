// Channels (000 1.8, 1.10, 1.11; 01, Links, clocks, slice), on a plan: input, output and requests. Mirrors rules/specs/Channels.antt. Hard
// channels are the links and the event channel, by number 0 to 8; a soft channel is a word of memory.
#![tactic(auto)]

pub mod hard; // transfers of links and the event channel; `resetch`
pub mod soft; // the wait for a partner, the message
pub mod inputs; // Input
pub mod outputs; // Output, `outword`, `outbyte`
pub mod requests; // HandleChannelRequest
