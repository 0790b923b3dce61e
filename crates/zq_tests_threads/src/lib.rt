//! Tests of one gateway that several call: who lets a slot go last (`seats`), what a lock answers and sends (`locks`), what another
//! caller is answered while a send is held (`gates`), what a call is answered that is made while another sends its final (`within`),
//! links that fail (`faults`), and callers with passes (`passes`): two in turn (`passes_rows`), two beside each other
//! (`passes_beside`), four that meet in a ring (`passes_ring`).
#![tactic(auto)]

#[cfg(test)]
mod callers;
#[cfg(test)]
mod faults;
#[cfg(test)]
mod gates;
#[cfg(test)]
mod given;
#[cfg(test)]
mod locks;
#[cfg(test)]
mod passes;
#[cfg(test)]
mod passes_beside;
#[cfg(test)]
mod passes_ring;
#[cfg(test)]
mod passes_rows;
#[cfg(test)]
mod seats;
#[cfg(test)]
mod stage;
#[cfg(test)]
mod within;
