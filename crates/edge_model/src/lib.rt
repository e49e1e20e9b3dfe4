//! Commands and what they mean: a plain tree of files, and a step for each command. `specs/` has
//! the definitions; `docs/DEFINITIONS.md` reads them in order. `laws` has what holds of every step.
#![tactic(auto)]

mod ask;
mod command;
mod laws;
mod rows;

pub use ask::{Ask, AskFault};
pub use command::{Answer, Command, OpenFlags, Room, Status};
pub use laws::{
    clean_data_is_committed, clean_is_committed, clean_pointers_are_committed, dirty_has_ancestors,
    dirty_is_sound, dirty_within, few_points, last_is_committed, refused_keeps, room_comes_last,
    run_grows, step_reads, step_tells,
};
pub use rows::{rows_of_descriptors, rows_of_files, rows_of_names, rows_of_points, rows_of_space};
