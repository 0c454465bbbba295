//! Test cases of tables, of the locks by which callers share them, and of services and campaigns
//! over them. Each is a run with the values that it must come to.
//!
//! Of a table: its calls, its reports and its history, if a caller has it alone. By a turn lock and
//! by a locked table: the places of a seat's calls, two threads, sessions, and workers that decide
//! terms. Of services: begins that wait, and what is left at the end.
//! Of campaigns: the lines that a client gets, and what it leaves.

mod batch_rows;
mod beginning_rows;
mod campaign_rows;
mod closing_rows;
mod desks;
mod election_rows;
mod fields;
mod grounds;
mod meetings;
mod rings_of_one;
mod service_rows;
mod session_rows;
mod sharing_rows;
mod starved_rows;
mod table_rows;
mod telling;
mod thread_rows;
mod turn_rows;
mod waiting_rows;
