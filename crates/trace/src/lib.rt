// A beam through a recipe's surfaces, in steps: a call may stop after any step, and what it shows is finished or blank.
// No function asks anything of its caller, and each says what it answers to every argument.
#![tactic(auto)]

mod file;
mod leg;
mod refusal;
mod run;
mod state;
mod wanted;

pub use file::start_file;
pub use leg::{
    BLANK, Beam, HIT, Leg, RECORD_DIRECTION, RECORD_FRONT, RECORD_LIMIT, RECORD_NORMAL,
    RECORD_NUMBERS, RECORD_POINT, RECORD_R, RECORD_STATUS, RECORD_STEPS, RECORD_T,
};
pub use recipe::{MOST_RECIPE_BYTES, SOURCE_BYTES};
pub use refusal::{BUFFER_TOO_SHORT, Refused, STATE_DOES_NOT_FIT, Why};
pub use run::{MOST_RECORDS, MOST_ROOM, start, whole};
pub use state::{DONE, RUNNING, State};
pub use wanted::{reach, record_told};
