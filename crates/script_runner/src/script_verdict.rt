//! What a run of a page script finds.

use asp_base::status;
use command_loop::Status;

/// What the input of a run was.
#[derive(Clone, Copy, Debug, PartialEq, Eq, Drop)]
pub enum ScriptVerdict {
    /// It was a script, and all that its steps print was written.
    Whole,
    /// It was no script.
    Broken,
}

/// How a run ends.
pub type ScriptEnd = command_loop::RunEnd<ScriptVerdict>;

impl Status for ScriptVerdict {
    ghost use Rattle.script_runner.specs.Drive.{script_verdict_status};

    ghost number = { script_verdict_status };

    fn number(&self) -> u8 {
        match self {
            ScriptVerdict::Whole => status::DONE,
            ScriptVerdict::Broken => status::NOT_WHOLE,
        }
    }
}
