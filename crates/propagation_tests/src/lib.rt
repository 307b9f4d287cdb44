// Executed examples of propagation, over several books and both agendas.
#![tactic(auto)]

#[cfg(test)]
mod runs;
#[cfg(test)]
mod settles;
