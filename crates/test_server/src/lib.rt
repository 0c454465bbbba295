//! Tests of the server. They show what no check of the built program can: the line of each fault,
//! the numbers of sessions, who serves them, and the capacity of an inbox. They show what is counted
//! of a journal, and which of the last answers the service remembers. Faults of sockets, files and
//! memory are in `tests/sweeps`.
#![tactic(auto)]

#[cfg(test)]
mod equal;
#[cfg(test)]
mod fault;
#[cfg(test)]
mod listening;
#[cfg(test)]
mod running;
#[cfg(test)]
mod sessions;
#[cfg(test)]
mod trial;
#[cfg(test)]
mod watching;
