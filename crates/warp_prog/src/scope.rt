//! Where a reactor stands in a file: how much stands before it, which gives the numbers of its names.

/// How many reactors, variables, ports, actions and timers stand before a reactor in the file, and how many variables and
/// cells before its first cell.
#[derive(Clone, Copy)]
pub(crate) struct Before {
    /// Reactors.
    pub reactors: usize,
    /// Variables.
    pub variables: usize,
    /// The variables of all reactors, and the cells of those before.
    pub cells: usize,
    /// Ports.
    pub ports: usize,
    /// Actions.
    pub actions: usize,
    /// Timers.
    pub timers: usize,
}
