ghost use Rattle.std.specs.Prelude.{◌≡◌, length};
ghost use Rattle.task.specs.Tables.{entries, Numbered, Distinct};

use crate::task::Task;

/// The table of tasks: a place for each task number. No two tasks share a number or a name.
#[derive(Clone, Copy)]
pub struct Table {
    pub(crate) tasks: [Option<Task>; 32],
    ghost places: { length tasks ≡ 32 },
    ghost numbered: { Numbered (entries tasks) },
    ghost distinct: { Distinct (entries tasks) },
}
