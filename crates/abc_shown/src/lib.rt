//! Choices, steps and runs as texts, for tests and for programs that are run on cases.
#![tactic(auto)]

mod choices;
mod runs;

pub use choices::choice_of;
pub use runs::{put_envs, put_step, shown_env, shown_label, shown_run};
