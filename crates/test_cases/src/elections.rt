//! Worked test cases of elections, each with the values that it must come to. A module has one
//! subject: identities, rings, algorithms, Peterson's rounds, winners, pictures of elections, a
//! node, a world, its worked schedules, the settlement of nodes, reports, inboxes, and workers.

mod election_rows;
mod identity_rows;
mod inbox;
mod node_rows;
mod nodes;
mod note_rows;
mod pictures;
mod rings;
mod roster_rows;
mod round_rows;
mod schedules;
mod settle_rows;
mod winners;
mod workers;
mod world_rows;
mod worlds;
