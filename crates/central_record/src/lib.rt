// The central processor's record, and the tests of what the host lends.
#![tactic(auto)]

pub mod record;
