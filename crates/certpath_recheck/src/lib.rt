//! Checks evidence: an inventory that a search elsewhere found, over bundle, anchors and vouchers of one's own. No crate below this one
//! searches, and none reads certificates but for the check.
#![tactic(auto)]

mod evidence;
mod rechecking;
mod saying;

pub use crate::rechecking::{RecheckError, run_recheck, run_recheck_for};
pub use certpath_inputs::{AllSettings, AskedPurpose, Input, RunError};
