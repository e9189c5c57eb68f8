//! The types of this crate that may be sent to other threads and shared between them.
use crate::{BlockAt, Next, Reading, Stage, Target};
use xfs_base::Crosses;

impl Crosses for BlockAt {}

impl Crosses for Target {}

impl Crosses for Stage {}

impl Crosses for Next {}

impl Crosses for Reading {}
