//! Test cases of node workers, each in one thread.

mod courses;
mod gates;
mod items;
mod one_worker;
mod starved_worker;
