//! The features of the machine that objects use and refuse (tool conventions, "Target Features
//! Section"): [`check_features`] sees that they fit together, and returns those of the output.
#![tactic(auto)]

mod checking;
mod disallowed;
mod laws;
mod taken;

pub use checking::check_features;
pub use laws::features_are_one;
pub use taken::{
    FeatureList, TARGET_FEATURE_ATOMICS, TARGET_FEATURE_BULK_MEMORY,
    TARGET_FEATURE_MUTABLE_GLOBALS, TARGET_FEATURE_SHARED_MEM, taken_features,
};
