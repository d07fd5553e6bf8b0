//! A certificate by refined price lists is written.
ghost use Rattle.std.specs.Prelude.{All, IsTrue};
ghost use Rattle.plan_desk.specs.Written.{WritesText};
ghost use Rattle.refined_prices.specs.RefinedLists.{IsRefinedList};
ghost use Rattle.refined_check.specs.certificate.Ranges.{IsRefinedInRange};
ghost use Rattle.refined_text.specs.text.Text.{text_of_refined, refined_text};
ghost use Rattle.refined_text.specs.text.Steps.{refined_header, list_text, list_texts};

use crate::text::entries::write_refined_entries;
use crate::text::put::{put_plain, put_title};
use certificate_lines::CertificateLine;
use certificate_text::write_tree;
use instance_model::Instance;
use plan_desk::{Desk, Failed};
use refined_check::RefinedCertificate;
use refined_prices::RefinedPrices;

/// Writes the text of a certificate to the end of the file that is open. Takes no memory.
pub fn write_refined_certificate<D: Desk>(
    inst: &Instance,
    cert: &RefinedCertificate,
    desk: &mut D,
) -> Result<(), Failed>
    requires opened { IsTrue (D.shows desk.old).output.opened }
    requires in_range { IsRefinedInRange inst.now cert.now }
    ensures { WritesText (refined_text inst.now cert.now) (D.shows desk.old) (D.shows desk.new) result }
{
    write_header(cert, desk)?;
    write_lists(inst, cert.lists.as_slice(), desk)?;
    write_tree(cert.nodes.as_slice(), desk)
}

fn write_header<D: Desk>(cert: &RefinedCertificate, desk: &mut D) -> Result<(), Failed>
    requires opened { IsTrue (D.shows desk.old).output.opened }
    ensures { WritesText (text_of_refined (refined_header cert.now)) (D.shows desk.old) (D.shows desk.new) result }
{
    put_title(desk)?;
    put_plain(CertificateLine::Bound(cert.bound), desk)?;
    let count = cert.lists.as_slice().len() as u64;
    put_plain(CertificateLine::Lists { count }, desk)
}

fn write_lists<D: Desk>(
    inst: &Instance,
    lists: &[RefinedPrices],
    desk: &mut D,
) -> Result<(), Failed>
    requires opened { IsTrue (D.shows desk.old).output.opened }
    requires in_range { All (IsRefinedList inst.now) lists.now }
    ensures { WritesText (list_texts inst.now lists.now) (D.shows desk.old) (D.shows desk.new) result }
{
    for list in lists {
        write_list(inst, list, desk)?;
    }
    Ok(())
}

fn write_list<D: Desk>(inst: &Instance, list: &RefinedPrices, desk: &mut D) -> Result<(), Failed>
    requires opened { IsTrue (D.shows desk.old).output.opened }
    requires in_range { IsRefinedList inst.now list.now }
    ensures { WritesText (list_text inst.now list.now) (D.shows desk.old) (D.shows desk.new) result }
{
    put_plain(CertificateLine::Prices, desk)?;
    write_refined_entries(inst, list, desk)
}
