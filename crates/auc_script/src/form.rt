//! What is read.

ghost use Rattle.std.specs.Prelude.{◌≡◌};
ghost use Rattle.auc_script.specs.Scenario.{is_block, is_header};

/// What some lines are read as.
#[derive(Clone, Copy)]
pub enum Form {
    /// A scenario: its header and its parts.
    Scenario,
    /// The header of a scenario alone.
    Header,
    /// A block: one round without a header.
    Block,
}

impl Form {
    /// Whether a round may not begin.
    pub fn is_header(self) -> bool
        ensures { result ≡ is_header self }
    {
        matches!(self, Form::Header)
    }

    /// Whether there is no header, and one round.
    pub fn is_block(self) -> bool
        ensures { result ≡ is_block self }
    {
        matches!(self, Form::Block)
    }
}
