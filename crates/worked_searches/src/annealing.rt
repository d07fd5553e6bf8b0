//! The annealing on drawn instances: each change as its arrays judge it, beside the verdict from scratch, and the best
//! plan of small ones.

mod draft;
mod judged;
mod least;
mod shapes;
mod walks;
