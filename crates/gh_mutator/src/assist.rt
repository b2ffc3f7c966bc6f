//! What a processor has drawn from the bank of credit, also while it assists.

ghost use Rattle.std.specs.Prelude.{◌≡◌};
ghost use Rattle.gh_mutator.specs.Spending.{spent_of};

use crate::new::NewStage;
use crate::processor::Processor;
use crate::task::{LargeTask, TaskAt};

impl<'s> Processor<'s> {
    /// The words that it has ever drawn from the bank. While it assists, the assist counts them.
    pub(crate) fn spent(&self) -> u64
        ensures { result ≡ spent_of self.now }
    {
        match &self.at {
            TaskAt::Large => match &self.large {
                LargeTask::New(new) => match &new.stage {
                    NewStage::Assist(_, assist) => assist.spent,
                    _ => self.poll.spent(),
                },
                _ => self.poll.spent(),
            },
            _ => self.poll.spent(),
        }
    }
}
