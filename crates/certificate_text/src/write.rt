//! A certificate is written.
ghost use Rattle.std.specs.Prelude.{map, All, IsTrue};
ghost use Rattle.std.specs.List.{flat_map};
ghost use Rattle.plan_desk.specs.Written.{WritesText};
ghost use Rattle.lagrange_bound.specs.Prices.{IsPriceList};
ghost use Rattle.certificate_tree.specs.Ranges.{IsInRange};
ghost use Rattle.certificate_text.specs.Text.{text_of_lines, list_lines, node_line, tree_lines, certificate_text};
ghost use Rattle.certificate_text.specs.Steps.{header_lines};

use crate::entries::write_entries;
use crate::put::{line_of_node, put_line};
use certificate_lines::CertificateLine;
use certificate_tree::{Certificate, Node};
use instance_model::Instance;
use lagrange_bound::Prices;
use plan_desk::{Desk, Failed};

/// Writes the text of a certificate to the end of the file that is open. Takes no memory.
pub fn write_certificate<D: Desk>(
    inst: &Instance,
    cert: &Certificate,
    desk: &mut D,
) -> Result<(), Failed>
    requires opened { IsTrue (D.shows desk.old).output.opened }
    requires in_range { IsInRange inst.now cert.now }
    ensures { WritesText (certificate_text inst.now cert.now) (D.shows desk.old) (D.shows desk.new) result }
{
    write_header(cert, desk)?;
    write_lists(inst, cert.lists.as_slice(), desk)?;
    write_tree(cert.nodes.as_slice(), desk)
}

fn write_header<D: Desk>(cert: &Certificate, desk: &mut D) -> Result<(), Failed>
    requires opened { IsTrue (D.shows desk.old).output.opened }
    ensures { WritesText (text_of_lines (header_lines cert.now)) (D.shows desk.old) (D.shows desk.new) result }
{
    put_line(CertificateLine::Title(cert.version), desk)?;
    put_line(CertificateLine::Bound(cert.bound), desk)?;
    let count = cert.lists.as_slice().len() as u64;
    put_line(CertificateLine::Lists { count }, desk)
}

fn write_lists<D: Desk>(inst: &Instance, lists: &[Prices], desk: &mut D) -> Result<(), Failed>
    requires opened { IsTrue (D.shows desk.old).output.opened }
    requires in_range { All (IsPriceList inst.now) lists.now }
    ensures { WritesText (text_of_lines (flat_map (list_lines inst.now) lists.now)) (D.shows desk.old)
        (D.shows desk.new) result }
{
    for prices in lists {
        write_list(inst, prices, desk)?;
    }
    Ok(())
}

fn write_list<D: Desk>(inst: &Instance, prices: &Prices, desk: &mut D) -> Result<(), Failed>
    requires opened { IsTrue (D.shows desk.old).output.opened }
    requires in_range { IsPriceList inst.now prices.now }
    ensures { WritesText (text_of_lines (list_lines inst.now prices.now)) (D.shows desk.old) (D.shows desk.new) result }
{
    put_line(CertificateLine::Prices, desk)?;
    write_entries(inst, prices, desk)
}

pub fn write_tree<D: Desk>(nodes: &[Node], desk: &mut D) -> Result<(), Failed>
    requires opened { IsTrue (D.shows desk.old).output.opened }
    ensures { WritesText (text_of_lines (tree_lines nodes.now)) (D.shows desk.old) (D.shows desk.new) result }
{
    put_line(CertificateLine::Tree, desk)?;
    write_nodes(nodes, desk)
}

fn write_nodes<D: Desk>(nodes: &[Node], desk: &mut D) -> Result<(), Failed>
    requires opened { IsTrue (D.shows desk.old).output.opened }
    ensures { WritesText (text_of_lines (map node_line nodes.now)) (D.shows desk.old) (D.shows desk.new) result }
{
    for node in nodes {
        put_line(line_of_node(*node), desk)?;
    }
    Ok(())
}
