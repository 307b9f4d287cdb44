// Executed examples of drafts.
#![tactic(auto)]

#[cfg(test)]
mod calls;
#[cfg(test)]
mod histories;
#[cfg(test)]
mod opened;
#[cfg(test)]
mod openings;
#[cfg(test)]
mod plain;
