// Executed examples of the line layer and the catalogue, kept apart so that neither is proved twice.
#![tactic(auto)]

#[cfg(test)]
mod entering;
#[cfg(test)]
mod reading;
#[cfg(test)]
mod writing;
