// Lines and frames: what comes in and what goes out, byte by byte. No heap.
//
// Lines:     lines::read_line, lines::write_line
// Frames:    frames::Frame, frames::decode, frames::receive
// Answers:   answers::Answer, Answer::write
#![tactic(auto)]

pub mod answers;
pub mod frames;
pub mod lines;
