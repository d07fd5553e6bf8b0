//! Laws of the lines.
ghost use Rattle.std.specs.Prelude.{◌≡◌, ◌≢◌, All};
ghost use Rattle.refined_text.specs.lines.Spelling.{refined_spelling, IsRefinedLine};
ghost use Rattle.refined_text.specs.declared.lines.line.RefinedLine.{RefinedLine};

/// A text spells at most one line that has a form, and no such line has a line feed.
pub fn refined_lines_are_spelled_one_way()
    ensures one_line { (line other : RefinedLine) → IsRefinedLine line → IsRefinedLine other
        → refined_spelling line ≡ refined_spelling other → line ≡ other }
    ensures no_line_feed { (line : RefinedLine) → IsRefinedLine line → All (λ b. b ≢ 10) (refined_spelling line) }
{}
