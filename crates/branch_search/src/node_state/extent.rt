//! The least and the greatest load of one place, over starts that come one after another.
ghost use Rattle.std.specs.Prelude.{◌≡◌, ◌+◌, ◌<◌, ◌^◌};
ghost use Rattle.std.specs.Int.{int_min, int_max};
ghost use Rattle.certificate_lines.specs.declared.line.Side.TheVariants.{Over, Under};
ghost use Rattle.branch_search.specs.node_state.Extents.{no_extent, end_to, taken};

use fixed_num::Fixed;

/// The least and the greatest load so far. Starts without a load are not told one by one.
#[derive(Clone, Copy)]
pub(crate) struct Extent {
    /// How many starts there were when the last load came, with its own.
    counted: u32,
    least: Fixed,
    greatest: Fixed,
}

fn lesser(a: Fixed, b: Fixed) -> Fixed
    ensures { result ≡ int_min a b }
{
    if b.count() < a.count() { b } else { a }
}

fn greater(a: Fixed, b: Fixed) -> Fixed
    ensures { result ≡ int_max a b }
{
    if b.count() < a.count() { a } else { b }
}

impl Extent {
    /// No start so far.
    pub(crate) fn none() -> Extent
        ensures { result ≡ no_extent }
    {
        Extent {
            counted: 0,
            least: Fixed::zero(),
            greatest: Fixed::zero(),
        }
    }

    /// The least load of the first `count` starts.
    pub(crate) fn least_to(&self, count: u32) -> Fixed
        ensures { result ≡ end_to Over self.now count }
    {
        if self.counted < count {
            lesser(self.least, Fixed::zero())
        } else {
            self.least
        }
    }

    /// The greatest load of the first `count` starts.
    pub(crate) fn greatest_to(&self, count: u32) -> Fixed
        ensures { result ≡ end_to Under self.now count }
    {
        if self.counted < count {
            greater(self.greatest, Fixed::zero())
        } else {
            self.greatest
        }
    }

    /// Takes in the load of the next start, which comes after `count` others.
    pub(crate) fn take(&mut self, count: u32, load: Fixed)
        requires { count + 1 < 2 ^ 32 }
        ensures { self.new ≡ taken self.old count load }
    {
        if count == 0 {
            self.least = load;
            self.greatest = load;
        } else {
            self.least = lesser(self.least_to(count), load);
            self.greatest = greater(self.greatest_to(count), load);
        }
        self.counted = count + 1;
    }
}
