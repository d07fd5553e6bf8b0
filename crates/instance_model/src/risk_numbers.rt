//! Risks that stand one behind another, as they are kept: contracts see their list.
ghost use Rattle.std.specs.Prelude.{◌≡◌, ◌==◌, ◌<◌, pos, length, slice_index_or};
ghost use Rattle.instance_model.specs.RiskNumbers.{numbers_of};

use fixed_num::Fixed;

/// Counts of 10^-12 that are lent, of 8 bytes each or of 16.
#[derive(Clone, Copy, Debug)]
pub enum RiskNumbers<'a> {
    Narrow(&'a [i64]),
    Wide(&'a [Fixed]),
}

impl<'a> RiskNumbers<'a> {
    /// How many numbers there are.
    #[inline]
    pub fn len(&self) -> usize
        ensures { result ≡ length (numbers_of self.now) }
    {
        match self {
            RiskNumbers::Narrow(numbers) => numbers.len(),
            RiskNumbers::Wide(numbers) => numbers.len(),
        }
    }

    pub fn is_empty(&self) -> bool
        ensures { result ≡ (length (numbers_of self.now) == 0) }
    {
        self.len() == 0
    }

    /// Number `k`, from 0.
    #[inline]
    pub fn at(&self, k: usize) -> Fixed
        requires { k < length (numbers_of self.now) }
        ensures { result ≡ slice_index_or (numbers_of self.now) k (pos 0) }
    {
        match self {
            RiskNumbers::Narrow(numbers) => narrow_at(numbers, k),
            RiskNumbers::Wide(numbers) => wide_at(numbers, k),
        }
    }
}

#[inline]
fn narrow_at(numbers: &[i64], k: usize) -> Fixed
    requires { k < length numbers.now }
    ensures { result ≡ slice_index_or numbers.now k (pos 0) }
{
    Fixed::from(numbers[k])
}

#[inline]
fn wide_at(numbers: &[Fixed], k: usize) -> Fixed
    requires { k < length numbers.now }
    ensures { result ≡ slice_index_or numbers.now k (pos 0) }
{
    numbers[k]
}
