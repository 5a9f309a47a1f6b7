use crate::fault::CentreFault;
use calls::Call;
use edges::Change;

/// A call and its answer: the number that a declared privilege has, 0 for any other accepted call. The
/// 0 is what the rules say and what a script prints, so it is no Option.
#[derive(Clone, Copy)]
pub struct CallRecord {
    pub call: Call,
    pub answer: Result<u16, CentreFault>,
}

/// A command of a work list and its answer.
#[derive(Clone, Copy)]
pub struct CommandRecord {
    pub user: u16,
    pub change: Change,
    pub answer: Result<(), CentreFault>,
}
