//! The lengths of single lines, each with its line feed.
ghost use Rattle.std.specs.Prelude.{◌≡◌, ◌≤◌, length};
ghost use Rattle.certificate_lines.specs.Spelling.{word};
ghost use Rattle.certificate_lines.specs.Steps.{side_text};
ghost use Rattle.certificate_text.specs.Text.{line_text, node_line, ex_line};
ghost use Rattle.certificate_text.specs.Steps.{limit_form};
ghost use Rattle.certificate_lines.specs.declared.line.CertificateLine.{CertificateLine};

use certificate_tree::{Bound, Node, Side, Version};
use fixed_num::Line;
use lagrange_bound::ExPrice;

/// How many bytes a blank and a number have.
pub fn word_length(n: u64) -> u64
    ensures value { result ≡ length (word n) }
    ensures small { result ≤ 65 }
{
    Line::of_natural(n).bytes().len() as u64 + 1
}

/// The line of a version.
pub(crate) fn title_length(version: Version) -> u64
    ensures value { result ≡ length (line_text (CertificateLine.Title version)) }
    ensures small { result ≤ 300 }
{
    match version {
        Version::One => 9,
        Version::Two => 9,
    }
}

/// The line of a bound.
pub fn bound_length(bound: Bound) -> u64
    ensures value { result ≡ length (line_text (CertificateLine.Bound bound)) }
    ensures small { result ≤ 300 }
{
    match bound {
        Bound::NoPlan => 11,
        Bound::Least(n) => Line::of_int(n).bytes().len() as u64 + 7,
    }
}

/// The line that says how many price lists follow.
pub fn count_length(count: u64) -> u64
    ensures value { result ≡ length (line_text (CertificateLine.Lists count)) }
    ensures small { result ≤ 300 }
{
    word_length(count) + 6
}

/// The line of the price of a limit.
pub(crate) fn limit_length(side: Side, c: u64, t: u64, v: u64) -> u64
    ensures value { result ≡ length (line_text (limit_form side c t v)) }
    ensures small { result ≤ 300 }
{
    let _side = side;
    word_length(c) + word_length(t) + word_length(v) + 3
}

/// The line of the price of an exclusion.
pub(crate) fn ex_length(x: ExPrice) -> u64
    ensures value { result ≡ length (line_text (ex_line x)) }
    ensures small { result ≤ 300 }
{
    let e = u64::from(x.exclusion) + 1;
    word_length(e) + word_length(u64::from(x.period)) + word_length(u64::from(x.value)) + 3
}

/// How many bytes a side and the blank in front of it have.
fn side_length(side: Side) -> u64
    ensures value { result ≡ length (side_text side) }
    ensures small { result ≤ 6 }
{
    match side {
        Side::Over => 5,
        Side::Under => 6,
    }
}

/// The line of a node.
pub(crate) fn node_length(node: Node) -> u64
    ensures value { result ≡ length (line_text (node_line node)) }
    ensures small { result ≤ 300 }
{
    match node {
        Node::Split { i, last } => {
            word_length(u64::from(i) + 1) + word_length(u64::from(last)) + 6
        }
        Node::Cost { list } => word_length(u64::from(list)) + 5,
        Node::Point => 6,
        Node::Band { c, t, side } => {
            word_length(u64::from(c) + 1) + word_length(u64::from(t)) + side_length(side) + 5
        }
        Node::Excl { e } => word_length(u64::from(e) + 1) + 5,
        Node::Empty { i } => word_length(u64::from(i) + 1) + 6,
    }
}
