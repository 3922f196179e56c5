//! Whole runs, tested: listings in lines and as JSON, the examples of `examples/`, the line of each fault, command
//! lines and the program's endings. Also workers, readers and writers that give pieces or fail, bytes that are not
//! JSON, and documents at their limits.
#![tactic(auto)]

#[cfg(test)]
mod command_lines;
#[cfg(test)]
mod compare;
#[cfg(test)]
mod damaged;
#[cfg(test)]
mod documents;
#[cfg(test)]
mod examples;
#[cfg(test)]
mod json_listings;
#[cfg(test)]
mod limits;
#[cfg(test)]
mod programs;
#[cfg(test)]
mod runs;
#[cfg(test)]
mod shared_runs;
#[cfg(test)]
mod sizes;
#[cfg(test)]
mod streams;
