use crate::mode::Mode;
use task::table::Table;

/// A bench, generic over its policy.
#[derive(Drop)]
pub struct Bench<P> {
    pub(crate) policy: P,
    pub(crate) table: Table,
    pub(crate) mode: Mode,
}
