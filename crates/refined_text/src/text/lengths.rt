//! The length of the whole text.
ghost use Rattle.std.specs.Prelude.{◌≡◌, All};
ghost use Rattle.refined_prices.specs.RefinedLists.{IsRefinedList};
ghost use Rattle.refined_check.specs.certificate.Ranges.{IsRefinedInRange};
ghost use Rattle.certificate_text.specs.Lengths.{counted_length};
ghost use Rattle.refined_text.specs.text.Text.{text_of_refined, refined_text};
ghost use Rattle.refined_text.specs.text.Steps.{refined_header, list_text, list_texts};

use crate::text::entry_lengths::refined_entries_length;
use certificate_text::{bound_length, count_length, tree_length};
use instance_model::Instance;
use refined_check::RefinedCertificate;
use refined_prices::RefinedPrices;

/// How many bytes the text of a certificate has. Takes no memory.
pub fn refined_text_length(inst: &Instance, cert: &RefinedCertificate) -> u64
    requires { IsRefinedInRange inst.now cert.now }
    ensures { result ≡ counted_length (refined_text inst.now cert.now) }
{
    let header = header_length(cert);
    let lists = lists_length(inst, cert.lists.as_slice());
    let tree = tree_length(cert.nodes.as_slice());
    let rest = lists.saturating_add(tree);
    header.saturating_add(rest)
}

/// The first three lines.
fn header_length(cert: &RefinedCertificate) -> u64
    ensures { result ≡ counted_length (text_of_refined (refined_header cert.now)) }
{
    let count = cert.lists.as_slice().len() as u64;
    9 + bound_length(cert.bound) + count_length(count)
}

/// All price lists.
fn lists_length(inst: &Instance, lists: &[RefinedPrices]) -> u64
    requires { All (IsRefinedList inst.now) lists.now }
    ensures { result ≡ counted_length (list_texts inst.now lists.now) }
{
    let mut total: u64 = 0;
    for list in lists {
        total = total.saturating_add(list_length(inst, list));
    }
    total
}

/// A price list.
fn list_length(inst: &Instance, list: &RefinedPrices) -> u64
    requires { IsRefinedList inst.now list.now }
    ensures { result ≡ counted_length (list_text inst.now list.now) }
{
    refined_entries_length(inst, list).saturating_add(7)
}
