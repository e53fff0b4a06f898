use crate::state::State;
use rule_fold::RuleIndex;
use task_creds::Cred;

/// Who makes a call, and what the call looks at: the state, the rules of a version, the number of
/// the calling task, and its credentials.
#[derive(Clone, Copy)]
pub struct Caller<'a> {
    pub state: &'a State,
    pub rules: &'a RuleIndex,
    pub task: u16,
    pub cred: &'a Cred,
}
