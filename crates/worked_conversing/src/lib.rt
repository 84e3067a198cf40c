//! Worked conversations: lines as clients write them, what they are answered, a follower who waits, and what peers
//! send.
#![tactic(auto)]

#[cfg(test)]
mod found_lines;
#[cfg(test)]
mod lines;
#[cfg(test)]
mod peers;
