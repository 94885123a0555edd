/// The most lists of counts that are tried.
pub const TRIAL_LIMIT: u64 = 1_048_576;
