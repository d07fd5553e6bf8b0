//! One line is written.
ghost use Rattle.std.specs.Prelude.{◌+◌, [], ◌∷◌, IsTrue, ◌≡◌};
ghost use Rattle.plan_desk.specs.Written.{WritesText};
ghost use Rattle.certificate_text.specs.Text.{text_of_lines, node_line, ex_line};
ghost use Rattle.certificate_text.specs.Steps.{limit_form};

use certificate_lines::{CertificateLine, Side, write_line};
use certificate_tree::Node;
use lagrange_bound::ExPrice;
use plan_desk::{Desk, Failed};

pub fn put_line<D: Desk>(line: CertificateLine, desk: &mut D) -> Result<(), Failed>
    requires opened { IsTrue (D.shows desk.old).output.opened }
    ensures { WritesText (text_of_lines (line ∷ [])) (D.shows desk.old) (D.shows desk.new) result }
{
    write_line(&line, desk)
}

/// The line of the price of a limit.
pub fn limit_line(side: Side, c: u32, t: u32, v: u32) -> CertificateLine
    ensures { result ≡ limit_form side (c + 1) t v }
{
    let c = u64::from(c) + 1;
    let t = u64::from(t);
    let v = u64::from(v);
    match side {
        Side::Over => CertificateLine::Up { c, t, v },
        Side::Under => CertificateLine::Lo { c, t, v },
    }
}

/// The line of the price of an exclusion.
pub fn line_of_ex(x: ExPrice) -> CertificateLine
    ensures { result ≡ ex_line x }
{
    CertificateLine::Ex {
        e: u64::from(x.exclusion) + 1,
        t: u64::from(x.period),
        v: u64::from(x.value),
    }
}

/// The line of a node.
pub fn line_of_node(node: Node) -> CertificateLine
    ensures { result ≡ node_line node }
{
    match node {
        Node::Split { i, last } => CertificateLine::Split {
            i: u64::from(i) + 1,
            last: u64::from(last),
        },
        Node::Cost { list } => CertificateLine::Cost {
            list: u64::from(list),
        },
        Node::Point => CertificateLine::Point,
        Node::Band { c, t, side } => CertificateLine::Band {
            c: u64::from(c) + 1,
            t: u64::from(t),
            side,
        },
        Node::Excl { e } => CertificateLine::Excl {
            e: u64::from(e) + 1,
        },
        Node::Empty { i } => CertificateLine::Empty {
            i: u64::from(i) + 1,
        },
    }
}
