// Executed examples of tightening.
#![tactic(auto)]

#[cfg(test)]
mod buffers;
#[cfg(test)]
mod examples;
