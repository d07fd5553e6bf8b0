//! The length of the whole text.
ghost use Rattle.std.specs.Prelude.{◌≡◌, All, map};
ghost use Rattle.std.specs.List.{flat_map};
ghost use Rattle.lagrange_bound.specs.Prices.{IsPriceList};
ghost use Rattle.certificate_tree.specs.Ranges.{IsInRange};
ghost use Rattle.certificate_text.specs.Text.{text_of_lines, list_lines, node_line, tree_lines, certificate_text};
ghost use Rattle.certificate_text.specs.Steps.{header_lines};
ghost use Rattle.certificate_text.specs.Lengths.{counted_length};

use crate::entry_lengths::entries_length;
use crate::line_lengths::{bound_length, count_length, node_length, title_length};
use certificate_tree::{Certificate, Node};
use instance_model::Instance;
use lagrange_bound::Prices;

/// How many bytes the text of a certificate has. Takes no memory.
pub fn text_length(inst: &Instance, cert: &Certificate) -> u64
    requires { IsInRange inst.now cert.now }
    ensures { result ≡ counted_length (certificate_text inst.now cert.now) }
{
    let header = header_length(cert);
    let lists = lists_length(inst, cert.lists.as_slice());
    let tree = tree_length(cert.nodes.as_slice());
    header.saturating_add(lists.saturating_add(tree))
}

/// The first three lines.
fn header_length(cert: &Certificate) -> u64
    ensures { result ≡ counted_length (text_of_lines (header_lines cert.now)) }
{
    let count = cert.lists.as_slice().len() as u64;
    title_length(cert.version) + bound_length(cert.bound) + count_length(count)
}

/// All price lists.
fn lists_length(inst: &Instance, lists: &[Prices]) -> u64
    requires { All (IsPriceList inst.now) lists.now }
    ensures { result ≡ counted_length (text_of_lines (flat_map (list_lines inst.now) lists.now)) }
{
    let mut total: u64 = 0;
    for prices in lists {
        total = total.saturating_add(list_length(inst, prices));
    }
    total
}

/// A price list.
fn list_length(inst: &Instance, prices: &Prices) -> u64
    requires { IsPriceList inst.now prices.now }
    ensures { result ≡ counted_length (text_of_lines (list_lines inst.now prices.now)) }
{
    entries_length(inst, prices).saturating_add(7)
}

/// The tree.
pub fn tree_length(nodes: &[Node]) -> u64
    ensures { result ≡ counted_length (text_of_lines (tree_lines nodes.now)) }
{
    nodes_length(nodes).saturating_add(5)
}

/// All nodes.
fn nodes_length(nodes: &[Node]) -> u64
    ensures { result ≡ counted_length (text_of_lines (map node_line nodes.now)) }
{
    let mut total: u64 = 0;
    for node in nodes {
        total = total.saturating_add(node_length(*node));
    }
    total
}
