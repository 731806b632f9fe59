// The two ways of working a question out.

// Bottom up works out every set whole; top down only the rows that agree with those found so far.
#[derive(Clone, Copy, PartialEq, Eq, Debug)]
pub enum Strategy {
    BottomUp,
    TopDown,
}
