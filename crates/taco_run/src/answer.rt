use evidence::Evidence;
use taco_report::Status;

/// What a call of `run` or `run_plain` answers.
#[derive(Drop)]
pub struct Answer {
    pub status: Status,
    /// It is there with each verdict of `sat`, also where its output could not be written.
    pub proof: Option<Evidence>,
}
