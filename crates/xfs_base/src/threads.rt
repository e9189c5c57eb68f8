//! Which types may be sent to other threads and shared between them.
use crate::{
    BlockId, Bytes, End, Entry, Failed, FieldReader, FieldWriter, FragMeta, Fragment, GroupSetup,
    Ino, List, LogId, Mode, NodeId, OpenGate, Pass, Place, Prior, SegName, SegRef, Setup, SlotNews,
    Stamp, Text, Value,
};

/// A type whose values may be sent to another thread and shared between threads. Each crate states it
/// for its own types, so that a missing proof shows where the type is.
pub trait Crosses: Send + Sync {}

impl<T: Send + Sync> Crosses for List<T> {}

impl Crosses for Text {}

impl Crosses for Bytes {}

impl Crosses for Value {}

impl Crosses for Fragment {}

impl Crosses for SlotNews {}

impl Crosses for GroupSetup {}

impl Crosses for Setup {}

impl<'a> Crosses for FieldReader<'a> {}

impl Crosses for FieldWriter {}

impl Crosses for OpenGate {}

impl Crosses for Failed {}

impl Crosses for NodeId {}

impl Crosses for Ino {}

impl Crosses for BlockId {}

impl Crosses for Stamp {}

impl Crosses for Mode {}

impl Crosses for LogId {}

impl Crosses for Pass {}

impl Crosses for SegName {}

impl Crosses for SegRef {}

impl Crosses for Place {}

impl Crosses for End {}

impl Crosses for Prior {}

impl Crosses for Entry {}

impl Crosses for FragMeta {}
