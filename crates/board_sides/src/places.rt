// Where a net stands on two sides across from each other.

// The first and the last place at which a net stands on one of two sides.
#[derive(Clone, Copy)]
pub struct Span {
    pub first: u8,
    pub last: u8,
}

// Where two sides across from each other have a net: whether the one has it and whether the other has, and from where to where they do.
#[derive(Clone, Copy)]
pub struct EndPlaces {
    pub span: Option<Span>,
    pub one: bool,
    pub two: bool,
}
