// The numbers of a line, in a buffer of fixed size.
use arrayvec::ArrayVec;

// No form has more numbers.
pub(crate) const MOST_FIELDS: usize = 6;

// The numbers, in written order.
pub(crate) type Fields = ArrayVec<i64, MOST_FIELDS>;
