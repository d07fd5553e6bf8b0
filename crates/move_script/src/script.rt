//! The lines of a script.
ghost use Rattle.std.specs.Prelude.{◌≡◌};

use plan_moves::ScriptLine;
use std::marker::Model;

/// The lines of a script, in order. Contracts see the list of them.
#[derive(Debug, Drop)]
pub struct Script {
    lines: Vec<ScriptLine>,
}

impl Model for Script {
    ghost use Rattle.std.specs.Prelude.{List};
    ghost use Rattle.plan_moves.specs.declared.script_line.ScriptLine.{ScriptLine};

    ghost Value = { List ScriptLine };

    ghost view = { λ s. s.lines.items };
}

impl Script {
    pub fn as_slice(&self) -> &[ScriptLine]
        ensures { result.now ≡ self.now }
    {
        self.lines.as_slice()
    }

    pub fn from_vec(lines: Vec<ScriptLine>) -> Script
        ensures { result ≡ lines.items }
    {
        Script { lines }
    }

    pub fn into_vec(self) -> Vec<ScriptLine>
        ensures { result.items ≡ self }
    {
        let Script { lines } = self;
        lines
    }
}
