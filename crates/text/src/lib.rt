// Text in lent bytes: lines that a program writes, the frames and words of what it reads, and the words of its command.

#![tactic(auto)]

pub mod command;
pub mod frame;
pub mod input;
pub mod page;
pub mod put;
pub mod told;
pub mod word;
