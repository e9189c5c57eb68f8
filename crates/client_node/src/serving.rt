//! A client that begins to serve.
ghost use Rattle.std.specs.Prelude.{◌≡◌, IfOk};
ghost use Rattle.client_log.specs.LogState as logs;
ghost use Rattle.client_node.specs.Serving.{cached_upto, empty_end, serves_first, serves_again};
ghost use Rattle.coop_cache.specs.CacheState as caches;
ghost use Rattle.delta_feed.specs.FeedState as feeds;
ghost use Rattle.segment_format.specs.Format.{IsLog};
ghost use Rattle.token_client.specs.State.{tokens_start};

use client_log::Log;
use client_serving::{Lasting, Serving};
use coop_cache::Cache;
use delta_feed::Feed;
use group_map::GroupMap;
use log_owner::Promised;
use node_base::Maps;
use std::alloc::Global;
use token_client::Tokens;
use xfs_base::{End, LogId, Mem, Pass};

/// A client at the start: nothing is cached, and its log is empty.
pub(crate) fn serves_first(
    alloc: Global,
    lasting: Lasting,
    managers: u8,
    cache: u16,
    groups: GroupMap,
) -> Mem<Serving>
    requires { IsLog lasting.number }
    ensures { IfOk result (λ made. made ≡ serves_first lasting managers cache groups) }
{
    match first_log(alloc, lasting.log(), &groups) {
        Ok((log, feed)) => {
            let maps = Maps::start(groups);
            let promised = Promised::start(managers);
            serves(alloc, lasting, 1, cache, maps, promised, (log, feed))
        }
        Err(error) => {
            drop(lasting);
            drop(groups);
            Err(error)
        }
    }
}

/// A client whose log is open again: nothing is cached.
pub(crate) fn serves_again(
    alloc: Global,
    lasting: Lasting,
    cache: u16,
    maps: Maps,
    promised: Promised,
    log: Log,
    feed: Feed,
) -> Mem<Serving>
    ensures { IfOk result (λ made. made ≡ serves_again lasting cache maps promised log feed) }
{
    let inc = lasting.inc;
    serves(alloc, lasting, inc, cache, maps, promised, (log, feed))
}

// A client that begins to serve in this incarnation: it holds no block, and nothing is cached.
fn serves(
    alloc: Global,
    lasting: Lasting,
    inc: u32,
    cache: u16,
    maps: Maps,
    promised: Promised,
    written: (Log, Feed),
) -> Mem<Serving>
    ensures { IfOk result (λ made. made ≡ record (serves_again lasting cache maps promised written.0 written.1) { tokens = tokens_start inc promised.epochs }) }
{
    let (log, feed) = written;
    match fresh(alloc, inc, promised, cache) {
        Ok((tokens, cache)) => Ok(Serving {
            lasting,
            maps,
            managers: promised.managers,
            tokens,
            log,
            feed,
            cache,
            call: None,
        }),
        Err(error) => {
            drop(lasting);
            drop(maps);
            drop(log);
            drop(feed);
            Err(error)
        }
    }
}

// Tokens that know of no block, and a cache of none.
fn fresh(alloc: Global, inc: u32, promised: Promised, cache: u16) -> Mem<(Tokens, Cache)>
    ensures tokens { IfOk result (λ made. made.0 ≡ tokens_start inc promised.epochs) }
    ensures cache { IfOk result (λ made. made.1 ≡ caches.cache_start (cached_upto cache)) }
{
    let tokens = Tokens::start(alloc, inc, promised.listed(alloc)?)?;
    match Cache::start(alloc, cached_upto(cache)) {
        Ok(cache) => Ok((tokens, cache)),
        Err(error) => {
            drop(tokens);
            Err(error)
        }
    }
}

// The empty log of the start, and its feed.
fn first_log(alloc: Global, log: LogId, groups: &GroupMap) -> Mem<(Log, Feed)>
    requires { IsLog log.0 }
    ensures log { IfOk result (λ made. made.0 ≡ logs.log_start log 1 empty_end groups.now) }
    ensures feed { IfOk result (λ made. made.1 ≡ feeds.feed_start 0) }
{
    let copy = groups.copy(alloc)?;
    let log = Log::start(alloc, log, 1, empty_end(), copy)?;
    match Feed::start(alloc, 0) {
        Ok(feed) => Ok((log, feed)),
        Err(error) => {
            drop(log);
            Err(error)
        }
    }
}

// The end of an empty log.
fn empty_end() -> End
    ensures { result ≡ empty_end }
{
    End {
        seq: 0,
        pass: Pass { inc: 0, att: 0 },
        group: 0,
    }
}

// A client caches one block at least.
fn cached_upto(cache: u16) -> u16
    ensures { result ≡ cached_upto cache }
{
    if cache == 0 { 1 } else { cache }
}
