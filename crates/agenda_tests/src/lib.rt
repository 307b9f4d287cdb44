// Executed examples of both agendas and both kinds of jobs.
#![tactic(auto)]

#[cfg(test)]
mod first;
#[cfg(test)]
mod jobs;
#[cfg(test)]
mod lowest;
