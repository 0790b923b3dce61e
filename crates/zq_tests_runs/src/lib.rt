//! Tests of whole runs: how they end (`script`), what is left of one read or write that fails, and of a script that is cut off
//! (`faults`), worked scripts with their prints (`worked`), repeats, late messages and last values (`edges`), shared runs, what they
//! print and how they end (`shared`), a run that is shown (`shown`), and lines that are answered at once or looked at (`lines`).
#![tactic(auto)]

#[cfg(test)]
mod edges;
#[cfg(test)]
mod faults;
#[cfg(test)]
mod given;
#[cfg(test)]
mod lines;
#[cfg(test)]
mod script;
#[cfg(test)]
mod shared;
#[cfg(test)]
mod shown;
#[cfg(test)]
mod worked;
