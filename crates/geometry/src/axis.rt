// An axis of the coordinate system, or none.
#[derive(Clone, Copy)]
pub enum Axis {
    X,
    Y,
    Z,
}
