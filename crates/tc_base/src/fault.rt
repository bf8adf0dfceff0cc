/// A call of the outside failed. The object that was called has counted it.
#[derive(Clone, Copy, Debug, Drop, PartialEq, Eq)]
pub struct Fault;
