// The sequential device over plain lists.
#![tactic(auto)]

pub mod device;
mod steps;
