//! What a worker is given to do, and what it passes before.

/// A piece of work that is run once, in any thread.
pub trait Job: Send + Drop {
    /// What running it answers.
    type Out: Send + Drop;

    // The results that the job may give.
    ghost gives: { Self → Self.Out → Type 0 };

    /// Runs the job.
    fn run(self) -> Self::Out
        ensures { gives self result };
}

/// What stands before each job. One that holds a job until others have passed shows that they run
/// at once.
pub trait Gate: Sync {
    /// Is called once for each job, by the worker that runs it, just before it does. `task` is the
    /// job's number, from 0 on.
    fn pass(&self, task: u32);
}

/// The gate that lets each job pass at once.
#[derive(Clone, Copy, Debug, Default)]
pub struct OpenGate;

impl Gate for OpenGate {
    fn pass(&self, _task: u32) {}
}
