//! Packets that no node looks at.
ghost use Rattle.std.specs.Prelude.{◌≡◌, ◌&&◌};
ghost use Rattle.std.specs.List.{list_all};
ghost use Rattle.node_base.specs.Room.{has_long_room};
ghost use Rattle.node_base.specs.Shape.{is_well_formed, has_logs, has_slot, has_versions, is_log, is_slot, is_name, is_meta, is_entry, is_part, is_horizon, is_from_one, is_news, are_in_order, is_slot_news};

use crate::{Peers, has_long_room};
use wire_msg::{Body, CkptDone, Deltas, News, Packet, Usage};
use xfs_base::limits::{BY_LOG, BY_SLOT, LOG_COUNT, SLOT_COUNT};
use xfs_base::{BlockId, Entry, FragMeta, LogId, Place, SegName, SegRef, SlotNews};

/// Whether a packet is one that a node looks at: its sender is a node, its logs are 1 to 13, its slots 0
/// to 7, those of maps in order, each horizon has nine numbers from 1 on, and each version that rows of a log
/// tell is at least 65,536 below its end.
pub fn is_well_formed(peers: Peers, packet: &Packet) -> bool
    ensures { result ≡ is_well_formed peers packet.now }
{
    let body = &packet.body;
    peers.has(packet.from) && has_logs(body) && has_slot(body) && has_versions(body)
}

fn has_logs(body: &Body) -> bool
    ensures { result ≡ has_logs body.now }
{
    match body {
        Body::Grant(grant) => is_entry(grant.entry),
        Body::Gone(gone) => is_name(gone.seg),
        Body::Deltas(deltas) => has_rows(deltas),
        Body::Store(store) => is_meta(store.fragment.meta),
        Body::Stored(stored) => is_name(stored.name),
        Body::Fetch(fetch) => is_name(fetch.name),
        Body::Fragment(found) => is_meta(found.fragment.meta),
        Body::Missing(missing) => is_name(missing.name),
        Body::Fence(fence) => is_log(fence.log),
        Body::Fenced(fenced) => is_log(fenced.log) && has_metas(fenced.held.as_slice()),
        Body::Listed(listed) => has_metas(listed.held.as_slice()),
        Body::Delete(delete) => is_name(delete.name),
        Body::Deleted(deleted) => is_name(deleted.name),
        Body::Check(check) => is_place(check.place),
        Body::Live(live) => is_entry(live.entry),
        Body::Usage(usage) => has_counts(usage),
        Body::Welcome(welcome) => is_news(&welcome.news),
        Body::MapNews(news) => is_news(news),
        Body::CkptDone(done) => is_done(done),
        _ => true,
    }
}

fn has_slot(body: &Body) -> bool
    ensures { result ≡ has_slot body.now }
{
    match body {
        Body::Deltas(deltas) => is_slot(deltas.slot),
        Body::DeltaAck(ack) => is_slot(ack.slot),
        Body::Poll(poll) => is_slot(poll.slot),
        Body::Report(report) => is_slot(report.slot),
        Body::UsageAsk(ask) => is_slot(ask.slot),
        Body::Usage(usage) => is_slot(usage.slot),
        Body::CkptDone(done) => is_slot(done.slot),
        Body::CkptAck(ack) => is_slot(ack.slot),
        _ => true,
    }
}

fn has_versions(body: &Body) -> bool
    ensures { result ≡ has_versions body.now }
{
    match body {
        Body::Deltas(deltas) => has_room_each(deltas),
        _ => true,
    }
}

fn is_log(log: LogId) -> bool
    ensures { result ≡ is_log log.0 }
{
    1 <= log.0 && log.0 <= LOG_COUNT
}

fn is_slot(slot: u8) -> bool
    ensures { result ≡ is_slot slot }
{
    slot < SLOT_COUNT
}

fn is_name(name: SegName) -> bool
    ensures { result ≡ is_name name }
{
    is_log(name.log)
}

fn is_meta(meta: FragMeta) -> bool
    ensures { result ≡ is_meta meta }
{
    is_name(meta.name)
}

fn is_place(place: Place) -> bool
    ensures { result ≡ is_name place.seg.name }
{
    is_name(place.seg.name)
}

fn is_entry(entry: Entry) -> bool
    ensures { result ≡ is_entry entry.place }
{
    match entry.place {
        Some(place) => is_place(place),
        None => true,
    }
}

fn is_row(row: (BlockId, Entry)) -> bool
    ensures { result ≡ is_entry row.1.place }
{
    is_entry(row.1)
}

fn has_rows(deltas: &Deltas) -> bool
    ensures { result ≡ list_all (λ row. is_entry row.1.place) deltas.now.rows }
{
    deltas.rows.as_slice().iter().all(|row| is_row(*row))
}

fn has_room_each(deltas: &Deltas) -> bool
    ensures { result ≡ list_all (λ row. has_long_room row.1.ver) deltas.now.rows }
{
    let rows = deltas.rows.as_slice();
    rows.iter().all(|row| has_long_room(row.1.ver))
}

fn has_metas(metas: &[FragMeta]) -> bool
    ensures { result ≡ list_all is_meta metas.now }
{
    metas.iter().all(|meta| is_meta(*meta))
}

fn has_counts(usage: &Usage) -> bool
    ensures { result ≡ list_all (λ count. is_name count.0) usage.now.counts }
{
    usage.counts.as_slice().iter().all(|count| is_name(count.0))
}

fn has_parts(parts: &[SegRef]) -> bool
    ensures { result ≡ list_all is_part parts.now }
{
    parts.iter().all(|part| is_name(part.name))
}

fn is_horizon(horizon: &[u32]) -> bool
    ensures { result ≡ is_horizon horizon.now }
{
    horizon.len() == BY_LOG && are_from_one(horizon)
}

fn are_from_one(horizon: &[u32]) -> bool
    ensures { result ≡ list_all is_from_one horizon.now }
{
    horizon.iter().all(|seq| is_from_one(*seq))
}

fn is_from_one(seq: u32) -> bool
    ensures { result ≡ is_from_one seq }
{
    1 <= seq
}

fn is_done(done: &CkptDone) -> bool
    ensures { result ≡ (list_all is_part done.now.parts && is_horizon done.now.horizon) }
{
    has_parts(done.parts.as_slice()) && is_horizon(done.horizon.as_slice())
}

fn is_news(news: &News) -> bool
    ensures { result ≡ is_news news.now }
{
    let slots = news.slots.as_slice();
    slots.len() == BY_SLOT && are_in_order(slots) && are_slot_news(slots)
}

fn are_slot_news(slots: &[SlotNews]) -> bool
    ensures { result ≡ list_all is_slot_news slots.now }
{
    slots.iter().all(|slot| is_slot_news(slot))
}

fn are_in_order(slots: &[SlotNews]) -> bool
    ensures { result ≡ are_in_order 0 slots.now }
{
    for (place, news) in slots.iter().enumerate() {
        if usize::from(news.slot) != place {
            return false;
        }
    }
    true
}

fn is_slot_news(news: &SlotNews) -> bool
    ensures { result ≡ is_slot_news news.now }
{
    has_parts(news.parts.as_slice()) && is_horizon(news.horizon.as_slice())
}
