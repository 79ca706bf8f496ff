use flat_settle::RawCell;
use ila_base::Items;
use net_core::Group;

/// What was unfolded, and where the unfolding is.
#[derive(Drop)]
pub struct State {
    pub groups: Items<Group>,
    pub cells: Items<RawCell>,
    /// How many bits the groups have.
    pub nets: u32,
    /// The names of the instances on the way, each with a slash behind it.
    pub prefix: Vec<u8>,
}
