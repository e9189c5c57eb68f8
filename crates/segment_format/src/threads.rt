//! The types of this crate that may be sent to other threads and shared between them.
use crate::{Item, SegError, Segment};
use xfs_base::Crosses;

impl Crosses for Item {}

impl Crosses for Segment {}

impl Crosses for SegError {}
