// What a layer's table holds.

// A resource and its figure.
#[derive(Clone, Copy, PartialEq, Eq, Debug)]
pub struct Figure {
    pub resource: u16,
    pub figure: i64,
}
