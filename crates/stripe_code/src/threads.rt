//! The types of this crate that may be sent to other threads and shared between them.
use crate::{Answer, JoinError, Round, RoundState, Told};
use xfs_base::Crosses;

impl Crosses for JoinError {}

impl Crosses for Told {}

impl Crosses for Answer {}

impl Crosses for RoundState {}

impl Crosses for Round {}
