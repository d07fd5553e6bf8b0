//! What holds of certificates of every version, and of their texts. The functions do nothing: the contract is the law.
ghost use Rattle.refined_text.specs.versions.Laws.{VersionsStayInRange, VersionsProveAlike, VersionsFailAlike};
ghost use Rattle.refined_text.specs.versions.Laws.{EachTextIsTold, AnyTextsAreInRange, AnyTextsTell, AnyTextsAreSound};
ghost use Rattle.refined_text.specs.versions.Laws.{AnyTextsAreTold};

use crate::grammar::refined_texts_tell;
use crate::read::refined_texts_are_told;
use certificate_text::{texts_are_told, texts_tell};
use certificate_tree::same_worths_prove_the_same;
use refined_check::price_lists_are_refined;

/// A certificate in range stays so where it is told as one by refined price lists.
pub fn versions_stay_in_range()
    ensures { VersionsStayInRange }
{
    price_lists_are_refined();
}

/// A certificate in range and the one by refined price lists that it is told as are both valid or neither, and have the
/// same first leaf that doesn't hold.
pub fn versions_hold_alike()
    ensures valid { VersionsProveAlike }
    ensures first { VersionsFailAlike }
{
    price_lists_are_refined();
    same_worths_prove_the_same();
}

/// Each text of a certificate in range, of whatever version, is one of the certificate that it is told as, which is in
/// range. No text is one of two, and each is one of a certificate or has a fault, and not both.
pub fn any_texts_tell()
    ensures each { EachTextIsTold }
    ensures in_range { AnyTextsAreInRange }
    ensures one { AnyTextsTell }
    ensures sound { AnyTextsAreSound }
    ensures told { AnyTextsAreTold }
{
    versions_stay_in_range();
    texts_tell();
    refined_texts_tell();
    texts_are_told();
    refined_texts_are_told();
}
