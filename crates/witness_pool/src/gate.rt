//! What is told of the jobs of a pool while they are done.

/// What is told of each job of a pool before and after it is done, on the thread that does it. A job that is held back
/// in `start` holds back the later jobs of its worker alone.
pub trait Gate: Sync {
    /// The job of this number, from 1 on, begins.
    fn start(&self, job: usize);

    /// The job of this number has ended.
    fn done(&self, job: usize);
}

/// The gate that lets each job pass at once.
#[derive(Clone, Copy, Debug, Drop)]
pub struct OpenGate;

impl Gate for OpenGate {
    fn start(&self, _job: usize) {}

    fn done(&self, _job: usize) {}
}

impl<G: Gate> Gate for &G {
    fn start(&self, job: usize) {
        (**self).start(job);
    }

    fn done(&self, job: usize) {
        (**self).done(job);
    }
}
