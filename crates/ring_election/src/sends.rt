/// The messages that a node sends in one step: at most one to each side.
#[derive(Clone, Copy)]
pub struct Sends<M> {
    /// To the left neighbour.
    pub left: Option<M>,
    /// To the right neighbour.
    pub right: Option<M>,
}
