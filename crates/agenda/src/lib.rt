// The waiting line: jobs under numbers, and agendas that hold the numbers of the jobs that wait.
//
// What every agenda does:   agenda::Agenda
// Kinds of jobs:            job::Job, for network::rules::Arc and job::Probe
// Put and take any job:     job::put_job, job::take_job
// First come, first served: first::FirstCome
// Lowest urgency first:     lowest::LowestUrgency
#![tactic(auto)]

pub mod agenda;
pub mod first;
pub mod job;
pub mod lowest;
mod number;
mod numbers;
