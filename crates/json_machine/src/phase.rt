//! Where in a number.

ghost use Rattle.std.specs.Prelude.{◌≡◌, option_map};
ghost use Rattle.json_machine.specs.Views.{phase_of};
ghost use Rattle.json_grammar.specs.laws.Machine.{phase_step, may_end, is_within_digits};

#[derive(Clone, Copy, Drop)]
pub enum Phase {
    Minus,
    LoneZero,
    Whole,
    Point,
    Fraction,
    Mark,
    Sign,
    Exponent,
}

impl Phase {
    #[tactic(auto, unfolding(json_grammar::specs::laws::Machine::phase_step))]
    pub fn step(self, byte: u8) -> Option<Phase>
        ensures { option_map phase_of result ≡ phase_step (phase_of self) byte }
    {
        match self {
            Phase::Minus => match byte {
                b'0' => Some(Phase::LoneZero),
                b'1'..=b'9' => Some(Phase::Whole),
                _ => None,
            },
            Phase::LoneZero => match byte {
                b'.' => Some(Phase::Point),
                b'e' | b'E' => Some(Phase::Mark),
                _ => None,
            },
            Phase::Whole => match byte {
                b'0'..=b'9' => Some(Phase::Whole),
                b'.' => Some(Phase::Point),
                b'e' | b'E' => Some(Phase::Mark),
                _ => None,
            },
            Phase::Point => match byte {
                b'0'..=b'9' => Some(Phase::Fraction),
                _ => None,
            },
            Phase::Fraction => match byte {
                b'0'..=b'9' => Some(Phase::Fraction),
                b'e' | b'E' => Some(Phase::Mark),
                _ => None,
            },
            Phase::Mark => match byte {
                b'0'..=b'9' => Some(Phase::Exponent),
                b'+' | b'-' => Some(Phase::Sign),
                _ => None,
            },
            Phase::Sign | Phase::Exponent => match byte {
                b'0'..=b'9' => Some(Phase::Exponent),
                _ => None,
            },
        }
    }

    /// Whether a digit changes nothing.
    pub fn is_within_digits(self) -> bool
        ensures { result ≡ is_within_digits (phase_of self) }
    {
        matches!(self, Phase::Whole | Phase::Fraction | Phase::Exponent)
    }

    pub fn may_end(self) -> bool
        ensures { result ≡ may_end (phase_of self) }
    {
        matches!(
            self,
            Phase::LoneZero | Phase::Whole | Phase::Fraction | Phase::Exponent
        )
    }
}
