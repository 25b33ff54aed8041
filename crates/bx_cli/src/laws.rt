//! Laws of commands and dumps, over their definitions alone; and three of calls, one after another.
pub use bx_cli_commands::jobs::laws::{normal_text_reads_back, normal_text_reverts};
pub use bx_cli_commands::laws::{
    redo_gives_back, redo_gives_part, runs_join, stops_in_part, undo_gives_back, unfailed_runs,
};
pub use bx_cli_commands::round_trip::patch::diff_and_patch;
pub use bx_cli_commands::round_trip::{change_and_undo, change_undo_and_redo};
