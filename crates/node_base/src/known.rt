//! The groups that a packet names.
ghost use Rattle.std.specs.Prelude.{◌≡◌};
ghost use Rattle.std.specs.List.{list_all};
ghost use Rattle.node_base.specs.Maps.{knows};
ghost use Rattle.node_base.specs.Known.{names_known_groups, knows_entry, knows_end, knows_meta};

use crate::Maps;
use wire_msg::{Body, Deltas, Report};
use xfs_base::{BlockId, End, Entry, FragMeta, Place, SegRef};

/// Whether each group that a packet names is known. Where one isn't, a node that is up drops the packet and
/// asks the registry for the maps. Maps themselves are looked at by `Maps`, and the rows of Part items within the
/// bytes of a fragment don't count.
pub fn names_known_groups(maps: &Maps, body: &Body) -> bool
    ensures { result ≡ names_known_groups maps.now body.now }
{
    match body {
        Body::Grant(grant) => knows_entry(maps, grant.entry),
        Body::Live(live) => knows_entry(maps, live.entry),
        Body::Check(check) => knows_place(maps, check.place),
        Body::Deltas(deltas) => knows_rows(maps, deltas),
        Body::Report(report) => knows_end(maps, report),
        Body::Store(store) => knows_meta(maps, store.fragment.meta),
        Body::Fragment(found) => knows_meta(maps, found.fragment.meta),
        Body::Fenced(fenced) => knows_metas(maps, fenced.held.as_slice()),
        Body::Listed(listed) => knows_metas(maps, listed.held.as_slice()),
        Body::CkptDone(done) => knows_parts(maps, done.parts.as_slice()),
        _ => true,
    }
}

fn knows_place(maps: &Maps, place: Place) -> bool
    ensures { result ≡ knows maps.now place.seg.group }
{
    maps.knows(place.seg.group)
}

fn knows_entry(maps: &Maps, entry: Entry) -> bool
    ensures { result ≡ knows_entry maps.now entry.place }
{
    match entry.place {
        Some(place) => knows_place(maps, place),
        None => true,
    }
}

fn knows_row(maps: &Maps, row: (BlockId, Entry)) -> bool
    ensures { result ≡ knows_entry maps.now row.1.place }
{
    knows_entry(maps, row.1)
}

fn knows_rows(maps: &Maps, deltas: &Deltas) -> bool
    ensures { result ≡ list_all (λ row. knows_entry maps.now row.1.place) deltas.now.rows }
{
    deltas
        .rows
        .as_slice()
        .iter()
        .all(|row| knows_row(maps, *row))
}

fn knows_end(maps: &Maps, report: &Report) -> bool
    ensures { result ≡ knows_end maps.now report.now.end }
{
    let end: End = report.end;
    end.seq == 0 || maps.knows(end.group)
}

fn knows_meta(maps: &Maps, meta: FragMeta) -> bool
    ensures { result ≡ knows_meta maps.now meta }
{
    maps.knows(meta.group) && maps.knows_prior(meta.prior)
}

fn knows_metas(maps: &Maps, metas: &[FragMeta]) -> bool
    ensures { result ≡ list_all (knows_meta maps.now) metas.now }
{
    metas.iter().all(|meta| knows_meta(maps, *meta))
}

fn knows_parts(maps: &Maps, parts: &[SegRef]) -> bool
    ensures { result ≡ list_all (λ part. knows maps.now part.group) parts.now }
{
    parts.iter().all(|part| maps.knows(part.group))
}
