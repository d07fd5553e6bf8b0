//! Laws of the lines.
ghost use Rattle.std.specs.Prelude.{◌≡◌, ◌≢◌, All};
ghost use Rattle.certificate_lines.specs.Spelling.{spelling, IsLine};
ghost use Rattle.certificate_lines.specs.declared.line.CertificateLine.{CertificateLine};

/// A text spells at most one line that has a form, and no such line has a line feed.
pub fn lines_are_spelled_one_way()
    ensures one_line { (line other : CertificateLine) → IsLine line → IsLine other
        → spelling line ≡ spelling other → line ≡ other }
    ensures no_line_feed { (line : CertificateLine) → IsLine line → All (λ b. b ≢ 10) (spelling line) }
{}
