// Where the bytes of an access are kept.

/// Where the bytes of an access are kept: in data or in the stack, from an index up; or they are those
/// of the stack below what is kept, which are undefined; or they aren't all of one kind.
#[derive(Clone, Copy)]
pub enum Span {
    Data(usize),
    Stack(usize),
    Below,
    Elsewhere,
}
